// Microfacet dielectric.
ghost use Rattle.std.specs.Prelude.{◌≡◌, cond};
ghost use Rattle.floats.specs.Float.{f0};
ghost use Rattle.optics.specs.Bxdf.{sampled, is_smooth, reflects, dielectric_normal, dielectric_sample};
ghost use Rattle.numbers.specs.Vec3.{dot};
ghost use Rattle.optics.specs.Density.{eta_ratio, dielectric_half, is_discarded, reflected_pdf, passed_pdf, dielectric_pdf_from, dielectric_pdf};
ghost use Rattle.optics.specs.SharedTerms.{sample_normal_pdf_at, dielectric_from_snell};

use crate::bxdf;
use crate::bxdf::Sampled;
use crate::microfacet::{DiskPoint, Ggx, OpticalConstants, Snell, View, index_from, on_z_side};
use floats::float;
use numbers::vec3::Vec3;

// Glass that scatters into one direction: delta, or of the index 1.0.
#[tactic(auto, unfolding(crate::specs::Bxdf::is_smooth))]
pub fn is_smooth(mfd: Ggx, eta: f64) -> bool
    ensures { result ≡ is_smooth mfd.roughness eta }
{
    eta == 1.0 || mfd.is_delta()
}

// The facet's normal: Z for delta and index matched glass.
#[tactic(auto, unfolding(crate::specs::Bxdf::dielectric_normal))]
pub fn normal(wo: Vec3, mfd: Ggx, eta: f64, p: DiskPoint) -> Vec3
    ensures { result ≡ dielectric_normal mfd.roughness eta wo p.disk p.c p.s }
{
    mfd.normal(is_smooth(mfd, eta), wo, p)
}

// Whether light is reflected, `pr` being the share that is: importance sample reflection/transmission
// with fresnel
fn reflects(rand_u: f64, pr: f64) -> bool
    ensures { result ≡ reflects rand_u pr }
{
    let pt = 1.0 - pr;
    rand_u < pr / (pr + pt)
}

// The direction that the facet's normal `wh` sends on, `pr` being the share that is reflected, with
// Snell's law at hand, of the cosine `wo.dot(wh)`.
#[tactic(auto, unfolding(crate::specs::SharedTerms::dielectric_from_snell))]
pub fn sample_from(snell: Snell, wo: Vec3, wh: Vec3, pr: f64, rand_u: f64) -> Sampled
    ensures { sampled result ≡ dielectric_from_snell snell pr rand_u wo wh }
{
    if reflects(rand_u, pr) {
        return bxdf::sample_mirrored(wo, wh);
    }
    bxdf::sample_bent(snell, wo, wh)
}

// `at` is what the leading wavelength has.
pub fn sample(wo: Vec3, mfd: Ggx, at: OpticalConstants, rand_u: f64, p: DiskPoint) -> Sampled
    ensures { sampled result ≡ dielectric_sample mfd.roughness at.eta at.k wo rand_u p.disk p.c p.s }
{
    let wh = normal(wo, mfd, at.eta, p);
    let snell = Snell::new(wo.dot(wh), at.eta);
    let pr = at.fresnel_from(snell);
    sample_from(snell, wo, wh, pr, rand_u)
}

pub fn pdf(wo: Vec3, wi: Vec3, reflection: bool, mfd: Ggx, at: OpticalConstants) -> f64
    ensures { result ≡ dielectric_pdf mfd.roughness at.eta at.k reflection wo wi }
{
    let view = View::new(mfd, is_smooth(mfd, at.eta), wo);
    let ratio = eta_ratio(reflection, wo, at.eta);
    let wh = half(at.eta, ratio, wo, wi);
    pdf_at(view, wi, wh, reflection, at, ratio)
}

// The index from `wo`'s side to `wi`'s: 1 for a reflection.
#[tactic(auto, unfolding(crate::specs::Density::eta_ratio, crate::specs::Fresnel::index_from, numbers::specs::SphericalUtils::cos_theta))]
pub fn eta_ratio(reflection: bool, wo: Vec3, eta: f64) -> f64
    ensures { result ≡ eta_ratio reflection wo eta }
{
    if reflection {
        return 1.0;
    }
    index_from(wo.z, eta)
}

// The normal that takes `wo` to `wi`.
#[tactic(auto, unfolding(crate::specs::Density::dielectric_half))]
pub fn half(eta: f64, ratio: f64, wo: Vec3, wi: Vec3) -> Vec3
    ensures { result ≡ dielectric_half eta ratio wo wi }
{
    if eta == 1.0 {
        return on_z_side(Vec3::Z);
    }
    on_z_side((wo + wi * ratio).normalize())
}

// `pdf` with the index from `wo`'s side to `wi`'s and the normal that takes `wo` to `wi` at hand.
#[tactic(auto, unfolding(crate::specs::Density::dielectric_pdf_from))]
pub fn pdf_at(
    view: View,
    wi: Vec3,
    wh: Vec3,
    reflection: bool,
    at: OpticalConstants,
    ratio: f64,
) -> f64
    ensures { result ≡ dielectric_pdf_from (sample_normal_pdf_at view.mfd.roughness view.lambda_wo (dot view.wo wh) wh view.wo) (is_smooth view.mfd.roughness at.eta) at.eta at.k ratio reflection view.wo wi wh }
{
    let facet = Facet::new(view, at.eta, wi, wh);
    if facet.is_discarded() {
        return 0.0;
    }
    // the root of the normal's density stands before that of the share: more of the work waits for it
    let normal_pdf = facet.normal_pdf();
    let pr = at.fresnel(facet.wh_dot_wo);
    if reflection {
        return facet.reflected_pdf(normal_pdf, pr);
    }
    facet.passed_pdf(normal_pdf, pr, ratio)
}

// A facet that takes `view.wo` to `wi`, by its normal, with both cosines at hand.
#[derive(Clone, Copy)]
struct Facet {
    view: View,
    wi: Vec3,
    wh: Vec3,
    wh_dot_wo: f64,
    wh_dot_wi: f64,
    ghost cos_wo: { wh_dot_wo ≡ dot view.wo wh },
    ghost cos_wi: { wh_dot_wi ≡ dot wi wh },
}

impl Facet {
    // Whether the glass is smooth is found here, whatever the view says: a density promises that of its facets and its
    // index.
    fn new(view: View, eta: f64, wi: Vec3, wh: Vec3) -> Facet
        ensures { (result.view.mfd ≡ view.mfd) × (result.view.wo ≡ view.wo) × (result.view.one_direction ≡ is_smooth view.mfd.roughness eta) × (result.view.lambda_wo ≡ view.lambda_wo) × (result.wi ≡ wi) × (result.wh ≡ wh) }
    {
        Facet {
            view: View {
                one_direction: is_smooth(view.mfd, eta),
                ..view
            },
            wi,
            wh,
            wh_dot_wo: view.wo.dot(wh),
            wh_dot_wi: wi.dot(wh),
        }
    }

    // A facet along `wo` or `wi`, or a backfacing one.
    #[tactic(auto, unfolding(crate::specs::Density::is_discarded, numbers::specs::SphericalUtils::cos_theta))]
    fn is_discarded(self) -> bool
        ensures { result ≡ is_discarded self.wh_dot_wo self.wh_dot_wi self.view.wo self.wi }
    {
        self.wh_dot_wo == 0.0
            || self.wh_dot_wi == 0.0
            || self.wh_dot_wo * self.view.wo.z < 0.0
            || self.wh_dot_wi * self.wi.z < 0.0
    }

    // The density of the facet's normal: 0 where the glass is smooth, since nothing reads it there.
    fn normal_pdf(self) -> f64
        ensures { result ≡ cond self.view.one_direction f0 (sample_normal_pdf_at self.view.mfd.roughness self.view.lambda_wo self.wh_dot_wo self.wh self.view.wo) }
    {
        if self.view.one_direction {
            return 0.0;
        }
        self.view.sample_normal_pdf(self.wh_dot_wo, self.wh)
    }

    // Reflection, `pr` being its share.
    #[tactic(auto, unfolding(crate::specs::Density::reflected_pdf, crate::specs::Bxdf::rest))]
    fn reflected_pdf(self, normal_pdf: f64, pr: f64) -> f64
        ensures { result ≡ reflected_pdf normal_pdf self.view.one_direction pr self.view.wo self.wh }
    {
        let pt = 1.0 - pr;
        if self.view.one_direction {
            return bxdf::at_z(self.wh, pr / (pr + pt));
        }
        normal_pdf / (4.0 * float::abs(self.wh_dot_wo)) * pr / (pr + pt)
    }

    // Transmission, `1.0 - pr` being its share.
    #[tactic(auto, unfolding(crate::specs::Density::passed_pdf, crate::specs::Density::bent_pdf, crate::specs::Bxdf::rest, floats::specs::Float::powi2))]
    fn passed_pdf(self, normal_pdf: f64, pr: f64, ratio: f64) -> f64
        ensures { result ≡ passed_pdf normal_pdf self.view.one_direction ratio pr self.view.wo self.wi self.wh }
    {
        let pt = 1.0 - pr;
        if self.view.one_direction {
            return bxdf::at_z(self.wh, pt / (pr + pt));
        }
        let root = self.wh_dot_wi + self.wh_dot_wo / ratio;
        normal_pdf * float::abs(self.wh_dot_wi) / (root * root) * pt / (pr + pt)
    }
}
