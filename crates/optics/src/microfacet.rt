// Facets of metal and glass: the GGX half of lumo's src/tracer/microfacet.rs.
// These take any floats and refuse none; the forms that check stand in the crate `counter`.
ghost use Rattle.std.specs.Prelude.{◌≡◌, cond, false};
ghost use Rattle.floats.specs.Float.{f0};
ghost use Rattle.numbers.specs.DenseSpectrum.{entry};
ghost use Rattle.numbers.specs.GridPoint.{sample_from};
ghost use Rattle.numbers.specs.Vec3.{Z};
ghost use Rattle.optics.specs.Density.{on_z_side};
ghost use Rattle.optics.specs.Facets.{is_delta, lambda, chi_pass, g1, g, g_over_g1, d, sample_normal_pdf, f_schlick, disney_diffuse};
ghost use Rattle.optics.specs.Spectra.{spectra};
ghost use Rattle.optics.specs.SharedTerms.{chi_pass_at, g1_at, g_over_g1_at, sample_normal_pdf_at, snell, fr_real_from, fresnel_from, quotient_from, f_metal_from, f_glass_from};
ghost use Rattle.optics.specs.Fresnel.{index_from, fr_real, complex_cos_i, r_par, r_per, fr_complex_facing, fr_complex, fresnel, f_at, f};
ghost use Rattle.optics.specs.Surface.{kind_code, kind_of, kind_read, medium, eta_from, k_from, eta_at, k_at, quotient, index_on};
ghost use Rattle.optics.specs.Known.{reading_on_glass, known_on_glass};
ghost use Rattle.optics.specs.Sampler.{viewed, tangent, on_hemisphere, combined, unstretched, sample_normal};

use crate::color::Color;
use floats::float;
use floats::square_root::{sqrt, sqrt_or_zero};
use numbers::complex::Complex;
use numbers::dense_spectrum::{DenseSpectrum, GridPoint, TERMINATED};
use numbers::vec2::Vec2;
use numbers::vec3::Vec3;
use numbers::{EPSILON, spherical_utils};
use std::marker::Model;

pub const PI: f64 = std::f64::consts::PI;

// Microfacet mirror (lumo's `MfConductor`) or microfacet glass (`MfDielectric`). The number beside each is its code,
// wherever a kind is a number: in C, in a file.
#[derive(Clone, Copy, PartialEq, Eq, Debug)]
pub enum Kind {
    Metal = 0,
    Glass = 1,
}

impl From<Kind> for u64 {
    ghost from_gives = { λ kind code. code ≡ kind_code kind };

    #[tactic(auto, unfolding(crate::specs::Surface::kind_code))]
    fn from(kind: Kind) -> u64 {
        kind as u64
    }
}

// A number that is no kind's code.
#[derive(Clone, Copy, PartialEq, Eq, Debug)]
pub struct UnknownKind;

impl TryFrom<u64> for Kind {
    type Error = UnknownKind;

    ghost try_from_gives = { λ code r. r ≡ kind_read code };

    #[tactic(auto, unfolding(crate::specs::Surface::kind_read, crate::specs::Surface::kind_of))]
    fn try_from(code: u64) -> Result<Kind, UnknownKind> {
        match code {
            0 => Ok(Kind::Metal),
            1 => Ok(Kind::Glass),
            _ => Err(UnknownKind),
        }
    }
}

impl Kind {
    // The kind of a code. A number that is none reads as glass.
    #[tactic(auto, unfolding(crate::specs::Surface::kind_read, crate::specs::Surface::kind_of))]
    pub fn of_code(code: u64) -> Kind
        ensures { result ≡ kind_of code }
    {
        Kind::try_from(code).unwrap_or(Kind::Glass)
    }
}

// Configurable parameters for a microsurface, but for its spectra.
#[derive(Clone, Copy)]
pub struct Surface {
    pub kind: Kind,
    // Roughness of the surface (α) along x and y
    pub roughness: Vec2,
}

// A surface's spectra, which are lent: the refraction index eta, the absorption coefficient k, and the outer spectrum,
// which is the refraction index of what lies outside glass.
#[derive(Drop)]
pub struct Spectra<'a> {
    pub eta: DenseSpectrum<'a>,
    pub k: DenseSpectrum<'a>,
    pub outer: DenseSpectrum<'a>,
}

impl<'a> Model for Spectra<'a> {
    ghost use Rattle.optics.specs.Spectra.{Spectra, spectra};

    ghost Value = { Spectra };

    ghost view = { λ s. spectra s.eta.values.now s.k.values.now s.outer.values.now };
}

impl<'a> Spectra<'a> {
    pub fn new(eta: &'a [f64], k: &'a [f64], outer: &'a [f64]) -> Spectra<'a>
        ensures { result ≡ spectra eta.now k.now outer.now }
    {
        Spectra {
            eta: DenseSpectrum::new(eta),
            k: DenseSpectrum::new(k),
            outer: DenseSpectrum::new(outer),
        }
    }
}

// A surface with the spectra that are lent for it.
#[derive(Drop)]
pub struct Microsurface<'a> {
    pub surface: Surface,
    pub spectra: Spectra<'a>,
}

impl<'a> Model for Microsurface<'a> {
    ghost use Rattle.optics.specs.Surface.{Microsurface, microsurface};

    ghost Value = { Microsurface };

    ghost view = { λ m. microsurface m.surface m.spectra.eta m.spectra.k m.spectra.outer };
}

// How the spectra of glass are read: how far apart their entries are, and whether the outer one is constant.
#[derive(Clone, Copy)]
pub struct Reading {
    pub step: f64,
    pub outer_constant: bool,
}

impl Reading {
    #[tactic(auto, unfolding(crate::specs::Known::reading_on_glass))]
    pub fn on_glass(spectra: &Spectra<'_>) -> Reading
        ensures { result ≡ reading_on_glass spectra.now.eta spectra.now.outer }
    {
        Reading {
            step: spectra.eta.step(),
            outer_constant: spectra.outer.is_constant(),
        }
    }

    // The index and k at one wavelength, from its one place among the grid points.
    pub fn constants_at(self, spectra: &Spectra<'_>, wl: f64) -> OpticalConstants
        ensures { (result.eta ≡ quotient_from self.outer_constant self.step spectra.now.eta spectra.now.outer wl) × (result.k ≡ k_from self.step spectra.now.k wl) }
    {
        let point = GridPoint::new(self.step, wl);
        let inner = spectra.eta.sample_from(point);
        let k = spectra.k.sample_from(point);
        let outer = outer_at(self.outer_constant, &spectra.outer, point);
        OpticalConstants {
            eta: quotient(wl, inner, outer),
            k,
        }
    }
}

// What a call finds of a surface's spectra before it reads them at a wavelength: how they are read, and whether eta
// counts as constant, for which the outer spectrum has to be constant too.
#[derive(Clone, Copy)]
pub struct Known {
    pub reading: Reading,
    pub eta_constant: bool,
}

impl Known {
    pub fn on_glass(spectra: &Spectra<'_>) -> Known
        ensures { result ≡ known_on_glass spectra.now.eta spectra.now.outer }
    {
        let reading = Reading::on_glass(spectra);
        Known {
            reading,
            eta_constant: spectra.eta.is_constant() & reading.outer_constant,
        }
    }
}

// Eta itself at one wavelength, lumo's reading, which on glass is not yet the index.
#[tactic(auto, unfolding(crate::specs::Surface::eta_at, crate::specs::Surface::eta_from, numbers::specs::DenseSpectrum::sample_one))]
pub fn eta_at(eta: &DenseSpectrum<'_>, wl: f64) -> f64
    ensures { result ≡ eta_at eta.now.values.now wl }
{
    eta.sample_one(wl)
}

// The absorption coefficient at one wavelength, with eta's spacing.
pub fn k_at(eta: &DenseSpectrum<'_>, k: &DenseSpectrum<'_>, wl: f64) -> f64
    ensures { result ≡ k_at eta.now.values.now k.now.values.now wl }
{
    k.sample_from(GridPoint::new(eta.step(), wl))
}

// The index and the absorption coefficient at a wavelength: `eta` is on glass already divided by what lies outside.
#[derive(Clone, Copy)]
pub struct OpticalConstants {
    pub eta: f64,
    pub k: f64,
}

impl OpticalConstants {
    // Fresnel term with the full equations, `cos_o` being `wo.dot(wh)`.
    #[tactic(auto, unfolding(crate::specs::Fresnel::fresnel))]
    pub fn fresnel(self, cos_o: f64) -> f64
        ensures { result ≡ fresnel cos_o self.eta self.k }
    {
        if self.k == 0.0 {
            if self.eta == 0.0 {
                return 0.0;
            }
            return fr_real(cos_o, self.eta);
        }
        fr_complex(cos_o, self.eta, self.k)
    }

    // `fresnel` with Snell's law at hand, for a caller that bends light by it too. By hand beside it: `fresnel` by this
    // works the root of Snell's law where k is not 0 and nothing reads it, and took three times as long.
    #[tactic(auto, unfolding(crate::specs::SharedTerms::fresnel_from))]
    pub fn fresnel_from(self, snell: Snell) -> f64
        ensures { result ≡ fresnel_from snell self.eta self.k }
    {
        if self.k == 0.0 {
            if self.eta == 0.0 {
                return 0.0;
            }
            return snell.fr_real();
        }
        fr_complex(snell.cos_o, self.eta, self.k)
    }
}

// The index and k at one wavelength, on either kind.
#[tactic(auto, unfolding(crate::specs::Surface::index_on, crate::specs::Surface::eta_at, crate::specs::Surface::k_at, crate::specs::Surface::outer_at, crate::specs::SharedTerms::quotient_from, crate::specs::SharedTerms::outer_from, crate::specs::Known::reading_on_glass))]
pub fn optical_constants(kind: Kind, spectra: &Spectra<'_>, wl: f64) -> OpticalConstants
    ensures { (result.eta ≡ index_on kind spectra.now.eta (medium spectra.now.outer) wl) × (result.k ≡ k_at spectra.now.eta spectra.now.k wl) }
{
    match kind {
        Kind::Metal => metal_constants_at(spectra.eta.step(), spectra, wl),
        Kind::Glass => Reading::on_glass(spectra).constants_at(spectra, wl),
    }
}

// The index of glass against what lies outside: 0 at a wavelength that was ended, where the bare quotient may be 0 / 0.
// By hand, no Option: the model works an ended wavelength's figures too, and weighs them with 0.
fn quotient(wl: f64, eta: f64, outer: f64) -> f64
    ensures { result ≡ quotient wl eta outer }
{
    if wl == TERMINATED {
        return 0.0;
    }
    eta / outer
}

// The outer index: a constant spectrum gives its entry between grid points too.
fn outer_at(outer_constant: bool, outer: &DenseSpectrum<'_>, point: GridPoint) -> f64
    ensures { result ≡ cond outer_constant (entry outer.now.values.now 0) (sample_from outer.now.values.now point) }
{
    if outer_constant {
        return outer.entry(0);
    }
    outer.sample_from(point)
}

// What metal's spectra have at one wavelength, eta's entries being `step` apart; the outer spectrum is not read.
fn metal_constants_at(step: f64, spectra: &Spectra<'_>, wl: f64) -> OpticalConstants
    ensures { (result.eta ≡ eta_from step spectra.now.eta wl) × (result.k ≡ k_from step spectra.now.k wl) }
{
    let point = GridPoint::new(step, wl);
    OpticalConstants {
        eta: spectra.eta.sample_from(point),
        k: spectra.k.sample_from(point),
    }
}

// Schlicks approximation for Fresnel term
#[tactic(auto, unfolding(crate::specs::Facets::f_schlick))]
pub fn f_schlick(f0: f64, f90: f64, cos_theta: f64) -> f64
    ensures { result ≡ f_schlick f0 f90 cos_theta }
{
    f0 + (f90 - f0) * float::powi5(1.0 - cos_theta)
}

// A point of the unit disk: the disk number, whose root is the radius, and the cosine and the sine of the angle.
#[derive(Clone, Copy)]
pub struct DiskPoint {
    pub disk: f64,
    pub c: f64,
    pub s: f64,
}

// The facets' distribution, GGX's: the surface's roughness, and nothing that has to be checked anew.
#[derive(Clone, Copy)]
pub struct Ggx {
    pub roughness: Vec2,
}

impl Ggx {
    // The facets of a roughness. It takes no surface: a call that did would have to check it.
    pub fn new(roughness: Vec2) -> Ggx
        ensures { result.roughness ≡ roughness }
    {
        Ggx { roughness }
    }

    // Does the material have delta scattering distribution?
    pub fn is_delta(self) -> bool
        ensures { result ≡ is_delta self.roughness }
    {
        (self.roughness.x + self.roughness.y) / 2.0 < 1e-3
    }

    // Disney diffuse (Burley 2012) with renormalization to conserve energy
    // as done in Frostbite (Lagarde et al. 2014)
    pub fn disney_diffuse(self, cos_theta_wo: f64, cos_theta_wi: f64, cos_theta_wh: f64) -> f64
        ensures { result ≡ disney_diffuse self.roughness cos_theta_wo cos_theta_wi cos_theta_wh }
    {
        let roughness2 = self.roughness.x * self.roughness.x;
        let energy_bias = 0.5 * roughness2;
        let fd90 = energy_bias + 2.0 * (cos_theta_wh * cos_theta_wh) * roughness2;

        let view_scatter = f_schlick(1.0, fd90, cos_theta_wo);
        let light_scatter = f_schlick(1.0, fd90, cos_theta_wi);

        let energy_factor = 1.0 + roughness2 * (1.0 / 1.51 - 1.0);

        view_scatter * light_scatter * energy_factor
    }

    // The microfacet distribution function of GGX, at a microsurface normal in shading space.
    #[tactic(auto, unfolding(crate::specs::Facets::d))]
    pub fn d(self, wh: Vec3) -> f64
        ensures { result ≡ d self.roughness wh }
    {
        let tan2_theta = spherical_utils::tan2_theta(wh);
        if float::is_infinite(tan2_theta) {
            return 0.0;
        }
        let cos4_theta = float::powi2(spherical_utils::cos2_theta(wh));
        if cos4_theta < float::powi2(EPSILON) {
            return 0.0;
        }
        let phi = spherical_utils::cos_sin_phi(wh);
        let x = phi.x / self.roughness.x;
        let y = phi.y / self.roughness.y;
        let e = tan2_theta * (float::powi2(x) + float::powi2(y));

        let alpha2 = self.roughness.x * self.roughness.y;
        1.0 / (PI * alpha2 * cos4_theta * float::powi2(1.0 + e))
    }

    // Lambda function used in the definition of the shadow-masking term, in PBR Chapter 8.4.3.
    #[tactic(auto, unfolding(crate::specs::Facets::lambda))]
    pub fn lambda(self, w: Vec3) -> f64
        ensures { result ≡ lambda self.roughness w }
    {
        let tan2_theta = spherical_utils::tan2_theta(w);
        if float::is_infinite(tan2_theta) {
            return 0.0;
        }
        let phi = spherical_utils::cos_sin_phi(w);
        let x = self.roughness.x * phi.x;
        let y = self.roughness.y * phi.y;
        let alpha2 = float::powi2(x) + float::powi2(y);

        (sqrt_or_zero(1.0 + alpha2 * tan2_theta) - 1.0) / 2.0
    }

    // Shadow-masking term. Used to make sure that only microfacets that are visible from `wo`
    // direction are considered. Uses the method described in Chapter 8.4.3 of PBR due to
    // Heitz et al. 2013.
    pub fn g(self, wo: Vec3, wi: Vec3, wh: Vec3) -> f64
        ensures { result ≡ g self.roughness wo wi wh }
    {
        if chi_pass(wo, wh) {
            return 1.0 / (1.0 + self.lambda(wo) + self.lambda(wi));
        }
        0.0
    }

    #[tactic(auto, unfolding(crate::specs::Facets::g1, crate::specs::Facets::masked))]
    pub fn g1(self, wo: Vec3, wh: Vec3) -> f64
        ensures { result ≡ g1 self.roughness wo wh }
    {
        if chi_pass(wo, wh) {
            return 1.0 / (1.0 + self.lambda(wo));
        }
        0.0
    }

    // The facets as `wo` sees them, where they scatter into many directions.
    fn seen_from(self, wo: Vec3) -> View
        ensures { (result.mfd ≡ self) × (result.wo ≡ wo) × (result.one_direction ≡ false) × (result.lambda_wo ≡ lambda self.roughness wo) }
    {
        View::new(self, false, wo)
    }

    // `g` over `g1`, and 0 where `g1` is 0.
    pub fn g_over_g1(self, wo: Vec3, wi: Vec3, wh: Vec3) -> f64
        ensures { result ≡ g_over_g1 self.roughness wo wi wh }
    {
        self.seen_from(wo).g_over_g1(wo.dot(wh), wi, wh)
    }

    // Probability that `wh` got sampled. `wh` and `wo` in shading space.
    pub fn sample_normal_pdf(self, wh: Vec3, wo: Vec3) -> f64
        ensures { result ≡ sample_normal_pdf self.roughness wh wo }
    {
        self.seen_from(wo).sample_normal_pdf(wo.dot(wh), wh)
    }

    // `wo` in the hemisphere's configuration, on the side of the geometric normal.
    #[tactic(auto, unfolding(crate::specs::Sampler::viewed, crate::specs::Sampler::upright, crate::specs::Sampler::stretched, crate::specs::Density::on_z_side, numbers::specs::SphericalUtils::cos_theta))]
    fn viewed(self, wo: Vec3) -> Vec3
        ensures { result ≡ viewed self.roughness wo }
    {
        let stretched = Vec3 {
            x: wo.x * self.roughness.x,
            y: wo.y * self.roughness.y,
            z: wo.z,
        };
        on_z_side(stretched.normalize())
    }

    // From the hemisphere's configuration back to the ellipsoid.
    fn unstretched(self, wm: Vec3) -> Vec3
        ensures { result ≡ unstretched self.roughness wm }
    {
        Vec3 {
            x: self.roughness.x * wm.x,
            y: self.roughness.y * wm.y,
            z: float::max(wm.z, EPSILON),
        }
        .normalize()
    }

    // Sampling microfacet normals (Heitz 2018) for importance sampling. `wo` in shading space
    #[tactic(auto, unfolding(crate::specs::Sampler::sample_normal))]
    pub fn sample_normal(self, wo: Vec3, p: DiskPoint) -> Vec3
        ensures { result ≡ sample_normal self.roughness wo p.disk p.c p.s }
    {
        // in this order a root is begun as soon as what it is of is there
        let r = sqrt(p.disk);
        // Map the GGX ellipsoid to a hemisphere
        let v = self.viewed(wo);
        // compute normal in hemisphere configuration
        let wm = on_hemisphere(v, r, p.c, p.s);
        // ONB basis of the hemisphere configuration
        let u = tangent(v);
        // move back to ellipsoid
        self.unstretched(combined(u, v, wm))
    }

    // The facet's normal: Z where the surface scatters into one direction.
    pub(crate) fn normal(self, one_direction: bool, wo: Vec3, p: DiskPoint) -> Vec3
        ensures { result ≡ cond «one_direction» Z (sample_normal self.roughness wo p.disk p.c p.s) }
    {
        if one_direction {
            return Vec3::Z;
        }
        self.sample_normal(wo, p)
    }
}

// The facets as `wo` sees them: Λ(wo), two roots, is worked once for all that read it. Where the surface scatters into
// one direction nothing reads it, and it is 0. By hand, no Option: who hands on a Λ(wo) may hand on any, beside either
// flag, as the definitions have it.
#[derive(Clone, Copy)]
pub struct View {
    pub mfd: Ggx,
    pub wo: Vec3,
    pub one_direction: bool,
    pub lambda_wo: f64,
}

impl View {
    pub fn new(mfd: Ggx, one_direction: bool, wo: Vec3) -> View
        ensures { (result.mfd ≡ mfd) × (result.wo ≡ wo) × (result.one_direction ≡ one_direction) × (result.lambda_wo ≡ cond one_direction f0 (lambda mfd.roughness wo)) }
    {
        View {
            mfd,
            wo,
            one_direction,
            lambda_wo: if one_direction { 0.0 } else { mfd.lambda(wo) },
        }
    }

    // `g` over `g1`, with `wo_dot_wh` at hand.
    pub fn g_over_g1(self, wo_dot_wh: f64, wi: Vec3, wh: Vec3) -> f64
        ensures { result ≡ g_over_g1_at self.mfd.roughness self.lambda_wo wo_dot_wh self.wo wi wh }
    {
        if chi_pass_at(wo_dot_wh, self.wo, wh) {
            let seen = 1.0 + self.lambda_wo;
            let g1 = 1.0 / seen;
            if g1 == 0.0 {
                return 0.0;
            }
            return 1.0 / (seen + self.mfd.lambda(wi)) / g1;
        }
        0.0
    }

    #[tactic(auto, unfolding(crate::specs::SharedTerms::g1_at, crate::specs::Facets::masked))]
    fn g1(self, wo_dot_wh: f64, wh: Vec3) -> f64
        ensures { result ≡ g1_at self.lambda_wo wo_dot_wh self.wo wh }
    {
        if chi_pass_at(wo_dot_wh, self.wo, wh) {
            return 1.0 / (1.0 + self.lambda_wo);
        }
        0.0
    }

    // Probability that `wh` got sampled, with `wo_dot_wh` at hand. Inlined: a call would store the view, and wait for it.
    #[inline(always)]
    #[tactic(auto, unfolding(crate::specs::SharedTerms::sample_normal_pdf_at, numbers::specs::SphericalUtils::cos_theta))]
    pub fn sample_normal_pdf(self, wo_dot_wh: f64, wh: Vec3) -> f64
        ensures { result ≡ sample_normal_pdf_at self.mfd.roughness self.lambda_wo wo_dot_wh wh self.wo }
    {
        let g1 = self.g1(wo_dot_wh, wh);
        let d = self.mfd.d(wh);
        float::max(g1 * d * float::abs(wo_dot_wh) / float::abs(self.wo.z), 0.0)
    }
}

// orient MS normal to same side as geometric normal
#[tactic(auto, unfolding(crate::specs::Density::on_z_side, numbers::specs::SphericalUtils::cos_theta))]
pub(crate) fn on_z_side(wh: Vec3) -> Vec3
    ensures { result ≡ on_z_side wh }
{
    if wh.z < 0.0 {
        return -wh;
    }
    wh
}

// The first vector of the basis should be perpendicular to Z.
fn tangent(v: Vec3) -> Vec3
    ensures { result ≡ tangent v }
{
    if 1.0 - v.z < EPSILON {
        return Vec3::X;
    }
    v.cross(Vec3::Z).normalize()
}

fn on_hemisphere(v: Vec3, r: f64, c: f64, s: f64) -> Vec3
    ensures { result ≡ on_hemisphere v r c s }
{
    // first a point on the unit disk
    let x = r * c;
    // then map it to the projection disk
    let rest = 1.0 - x * x;
    let h = sqrt_or_zero(rest);
    let lerp = (1.0 + v.z) / 2.0;
    let y = (1.0 - lerp) * h + lerp * r * s;

    Vec3 {
        x,
        y,
        z: sqrt_or_zero(rest - y * y),
    }
}

#[tactic(auto, unfolding(crate::specs::Sampler::combined))]
fn combined(u: Vec3, v: Vec3, wm: Vec3) -> Vec3
    ensures { result ≡ combined u v wm }
{
    wm.x * u + wm.y * u.cross(v) + wm.z * v
}

pub fn chi_pass(wo: Vec3, wh: Vec3) -> bool
    ensures { result ≡ chi_pass wo wh }
{
    chi_pass_at(wo.dot(wh), wo, wh)
}

// `chi_pass` with `wo_dot_wh` at hand.
fn chi_pass_at(wo_dot_wh: f64, wo: Vec3, wh: Vec3) -> bool
    ensures { result ≡ chi_pass_at wo_dot_wh wo wh }
{
    // signum to fix refraction
    let chi = float::signum(wh.z) * wo_dot_wh * wo.z;
    chi > EPSILON
}

// Fresnel term with the full equations, at four wavelengths
pub fn f(kind: Kind, spectra: &Spectra<'_>, wo: Vec3, wh: Vec3, lambda: Color) -> Color
    ensures { result ≡ f kind spectra.now.eta spectra.now.k (medium spectra.now.outer) wo wh lambda }
{
    match kind {
        Kind::Metal => f_on_metal(spectra.eta.step(), spectra, wo, wh, lambda),
        Kind::Glass => f_on_glass(Reading::on_glass(spectra), spectra, wo, wh, lambda),
    }
}

#[tactic(auto, unfolding(crate::specs::SharedTerms::f_glass_from, crate::specs::Fresnel::f_at))]
fn f_on_glass(reading: Reading, spectra: &Spectra<'_>, wo: Vec3, wh: Vec3, lambda: Color) -> Color
    ensures { result ≡ f_glass_from reading.outer_constant reading.step spectra.now.eta spectra.now.k spectra.now.outer wo wh lambda }
{
    let cos_o = wo.dot(wh);
    // `move`, so that the closure holds the numbers and reads none of them through a reference
    lambda.map(move |wl| reading.constants_at(spectra, wl).fresnel(cos_o))
}

// On metal, eta's entries being `step` apart. By hand beside `f_on_glass`, a line each: one over a closure that gives the
// constants would be as long.
#[tactic(auto, unfolding(crate::specs::SharedTerms::f_metal_from, crate::specs::Fresnel::f_at))]
pub fn f_on_metal(step: f64, spectra: &Spectra<'_>, wo: Vec3, wh: Vec3, lambda: Color) -> Color
    ensures { result ≡ f_metal_from step spectra.now.eta spectra.now.k wo wh lambda }
{
    let cos_o = wo.dot(wh);
    lambda.map(move |wl| metal_constants_at(step, spectra, wl).fresnel(cos_o))
}

// Fresnel term with the full equations, at one wavelength, whose index is `eta` and absorption `k`.
#[tactic(auto, unfolding(crate::specs::Fresnel::f_at))]
pub fn f_at(wo: Vec3, wh: Vec3, eta: f64, k: f64) -> f64
    ensures { result ≡ f_at wo wh eta k }
{
    OpticalConstants { eta, k }.fresnel(wo.dot(wh))
}

#[tactic(auto, unfolding(crate::specs::Fresnel::fr_complex))]
pub fn fr_complex(cos_o: f64, eta: f64, k: f64) -> f64
    ensures { result ≡ fr_complex cos_o eta k }
{
    // this is a complex number: n + ik
    fr_complex_facing(float::clamp(cos_o, 0.0, 1.0), Complex { Re: eta, Im: k })
}

fn fr_complex_facing(cos_o: f64, eta: Complex) -> f64
    ensures { result ≡ fr_complex_facing cos_o eta }
{
    let cos_i = complex_cos_i(cos_o, eta);
    let r_par = r_par(cos_o, eta, cos_i);
    let r_per = r_per(cos_o, eta, cos_i);

    (r_par.norm_sqr() + r_per.norm_sqr()) / 2.0
}

#[tactic(auto, unfolding(crate::specs::Fresnel::complex_cos_i))]
fn complex_cos_i(cos_o: f64, eta: Complex) -> Complex
    ensures { result ≡ complex_cos_i cos_o eta }
{
    let sin2_o = 1.0 - cos_o * cos_o;
    let sin2_i = sin2_o / (eta * eta);
    (1.0 - sin2_i).sqrt()
}

#[tactic(auto, unfolding(crate::specs::Fresnel::r_par))]
fn r_par(cos_o: f64, eta: Complex, cos_i: Complex) -> Complex
    ensures { result ≡ r_par cos_o eta cos_i }
{
    let o = eta * cos_o;
    (o - cos_i) / (o + cos_i)
}

#[tactic(auto, unfolding(crate::specs::Fresnel::r_per))]
fn r_per(cos_o: f64, eta: Complex, cos_i: Complex) -> Complex
    ensures { result ≡ r_per cos_o eta cos_i }
{
    let i = eta * cos_i;
    (cos_o - i) / (cos_o + i)
}

#[tactic(auto, using(crate::proofs::SharedTerms::fr_real_from_lem))]
pub fn fr_real(cos_o: f64, eta: f64) -> f64
    ensures { result ≡ fr_real cos_o eta }
{
    Snell::new(cos_o, eta).fr_real()
}

// Snell's law at a facet, sin θo = η sin θi: the cosine on the side that light comes from, the index against that
// side, the sine's square beyond the facet, and the cosine there. Both Fresnel's term and the bend read it.
#[derive(Clone, Copy)]
pub struct Snell {
    pub cos_o: f64,
    pub eta: f64,
    pub sin2: f64,
    pub cos: f64,
}

impl Snell {
    // `eta` is the surface's index. At total internal reflection the sine's square is 1 or more, and no
    // root is worked.
    #[tactic(auto, unfolding(crate::specs::SharedTerms::snell, crate::specs::Fresnel::sin2_i, crate::specs::Fresnel::cos_i))]
    pub fn new(cos_o: f64, eta: f64) -> Snell
        ensures { result ≡ snell cos_o eta }
    {
        let eta = index_from(cos_o, eta);
        let sin2 = (1.0 - cos_o * cos_o) / (eta * eta);
        Snell {
            cos_o,
            eta,
            sin2,
            cos: sqrt_or_zero(1.0 - sin2),
        }
    }

    // Fresnel term of a real index.
    #[tactic(auto, unfolding(crate::specs::SharedTerms::fr_real_from, crate::specs::Fresnel::is_total))]
    fn fr_real(self) -> f64
        ensures { result ≡ fr_real_from self }
    {
        // total internal reflection
        if self.sin2 >= 1.0 {
            return 1.0;
        }

        let cos_o = float::abs(self.cos_o);
        let cos_i = self.cos;
        let o = self.eta * cos_o;
        let i = self.eta * cos_i;

        let r_par = (o - cos_i) / (o + cos_i);
        let r_per = (cos_o - i) / (cos_o + i);

        (r_par * r_par + r_per * r_per) / 2.0
    }
}

// From below, light leaves the glass.
#[tactic(auto, unfolding(crate::specs::Fresnel::index_from))]
pub(crate) fn index_from(cos_o: f64, eta: f64) -> f64
    ensures { result ≡ index_from cos_o eta }
{
    if cos_o < 0.0 {
        return 1.0 / eta;
    }
    eta
}
