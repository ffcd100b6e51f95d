// The calls at the counter (document 01): each checks what it is handed, in 01's order, and answers a value or the
// refusal. A surface comes with the spectra that are lent for it, and its fields are checked first.
// By hand: the calls differ in what they are handed, and so in their checks; one function over closures is no plainer.
#![tactic(auto)]

ghost use Rattle.std.specs.Prelude.{◌≡◌};
ghost use Rattle.numbers.specs.Refusal.{answer};
ghost use Rattle.optics.specs.Surface.{medium};
ghost use Rattle.optics.specs.Bxdf.{reflected, refracted};
ghost use Rattle.counter.specs.Counter as Counter;
ghost use Rattle.counter.specs.Counter.{map_answer};

use floats::float;
use numbers::checked::{check_direction, check_lookup, check_wavelength};
use numbers::refusal::{Refusal, refuse};
use numbers::vec2::Vec2;
use numbers::vec3::Vec3;
use optics::bxdf::Refracted;
use optics::check::{
    check_circle_pair, check_eta, check_lookups, check_random, check_spectra, check_surface,
    is_roughness_given, raised,
};
use optics::color::Color;
use optics::microfacet::{DiskPoint, Ggx, Kind, Microsurface, Spectra, Surface};
use optics::{bxdf, microfacet};

// A density that is handed out is finite.
#[tactic(auto, unfolding(crate::specs::Counter::finite_only, numbers::specs::Refusal::number))]
fn finite_only(density: f64) -> Result<f64, Refusal>
    ensures { answer result ≡ Counter.finite_only density }
{
    refuse(Refusal::NotFinite, float::is_finite(density))?;
    Ok(density)
}

// ---- making a surface
// A surface from one roughness, which is raised to the least.
#[tactic(auto, unfolding(crate::specs::Counter::make_surface, optics::specs::Surface::surface, numbers::specs::Refusal::number))]
pub fn make_surface(kind: Kind, roughness: f64, spectra: &Spectra<'_>) -> Result<Surface, Refusal>
    ensures { answer result ≡ Counter.make_surface kind roughness spectra.now.eta spectra.now.k (medium spectra.now.outer) }
{
    refuse(Refusal::Roughness, is_roughness_given(roughness))?;
    check_spectra(kind, spectra)?;
    Ok(Surface {
        kind,
        roughness: Vec2::splat(raised(roughness)),
    })
}

// ---- facet terms
#[tactic(auto, unfolding(crate::specs::Counter::is_delta))]
pub fn is_delta(m: &Microsurface<'_>) -> Result<bool, Refusal>
    ensures { answer result ≡ Counter.is_delta m.now }
{
    check_surface(m)?;
    Ok(Ggx::new(m.surface.roughness).is_delta())
}

#[tactic(auto, unfolding(crate::specs::Counter::lambda))]
pub fn lambda(m: &Microsurface<'_>, w: Vec3) -> Result<f64, Refusal>
    ensures { answer result ≡ Counter.lambda m.now w }
{
    check_surface(m)?;
    check_direction(w)?;
    Ok(Ggx::new(m.surface.roughness).lambda(w))
}

#[tactic(auto, unfolding(crate::specs::Counter::chi_pass))]
pub fn chi_pass(m: &Microsurface<'_>, wo: Vec3, wh: Vec3) -> Result<bool, Refusal>
    ensures { answer result ≡ Counter.chi_pass m.now wo wh }
{
    check_surface(m)?;
    check_direction(wo)?;
    check_direction(wh)?;
    Ok(microfacet::chi_pass(wo, wh))
}

#[tactic(auto, unfolding(crate::specs::Counter::g1))]
pub fn g1(m: &Microsurface<'_>, wo: Vec3, wh: Vec3) -> Result<f64, Refusal>
    ensures { answer result ≡ Counter.g1 m.now wo wh }
{
    check_surface(m)?;
    check_direction(wo)?;
    check_direction(wh)?;
    Ok(Ggx::new(m.surface.roughness).g1(wo, wh))
}

#[tactic(auto, unfolding(crate::specs::Counter::g))]
pub fn g(m: &Microsurface<'_>, wo: Vec3, wi: Vec3, wh: Vec3) -> Result<f64, Refusal>
    ensures { answer result ≡ Counter.g m.now wo wi wh }
{
    check_surface(m)?;
    check_direction(wo)?;
    check_direction(wi)?;
    check_direction(wh)?;
    Ok(Ggx::new(m.surface.roughness).g(wo, wi, wh))
}

#[tactic(auto, unfolding(crate::specs::Counter::d))]
pub fn d(m: &Microsurface<'_>, wh: Vec3) -> Result<f64, Refusal>
    ensures { answer result ≡ Counter.d m.now wh }
{
    check_surface(m)?;
    check_direction(wh)?;
    Ok(Ggx::new(m.surface.roughness).d(wh))
}

// Any floats: it refuses only for its surface.
#[tactic(auto, unfolding(crate::specs::Counter::disney_diffuse))]
pub fn disney_diffuse(
    m: &Microsurface<'_>,
    cos_theta_wo: f64,
    cos_theta_wi: f64,
    cos_theta_wh: f64,
) -> Result<f64, Refusal>
    ensures { answer result ≡ Counter.disney_diffuse m.now cos_theta_wo cos_theta_wi cos_theta_wh }
{
    check_surface(m)?;
    let mfd = Ggx::new(m.surface.roughness);
    Ok(mfd.disney_diffuse(cos_theta_wo, cos_theta_wi, cos_theta_wh))
}

// ---- Fresnel
#[tactic(auto, unfolding(crate::specs::Counter::f_at, optics::specs::Surface::index_at, optics::specs::Fresnel::f_at))]
pub fn f_at(m: &Microsurface<'_>, wo: Vec3, wh: Vec3, lambda: f64) -> Result<f64, Refusal>
    ensures { answer result ≡ Counter.f_at m.now wo wh lambda }
{
    check_surface(m)?;
    check_direction(wo)?;
    check_direction(wh)?;
    check_lookup(lambda)?;
    let at = microfacet::optical_constants(m.surface.kind, &m.spectra, lambda);
    Ok(at.fresnel(wo.dot(wh)))
}

#[tactic(auto, unfolding(crate::specs::Counter::f))]
pub fn f(m: &Microsurface<'_>, wo: Vec3, wh: Vec3, lambda: Color) -> Result<Color, Refusal>
    ensures { answer result ≡ Counter.f m.now wo wh lambda }
{
    check_surface(m)?;
    check_direction(wo)?;
    check_direction(wh)?;
    check_lookups(lambda)?;
    Ok(microfacet::f(m.surface.kind, &m.spectra, wo, wh, lambda))
}

// ---- sampler, mirror, bend
#[tactic(auto, unfolding(crate::specs::Counter::sample_normal))]
pub fn sample_normal(m: &Microsurface<'_>, wo: Vec3, p: DiskPoint) -> Result<Vec3, Refusal>
    ensures { answer result ≡ Counter.sample_normal m.now wo p.disk p.c p.s }
{
    check_surface(m)?;
    check_direction(wo)?;
    check_random(p.disk)?;
    check_circle_pair(p.c, p.s)?;
    Ok(Ggx::new(m.surface.roughness).sample_normal(wo, p))
}

#[tactic(auto, unfolding(crate::specs::Counter::reflect))]
pub fn reflect(wo: Vec3, n: Vec3) -> Result<Option<Vec3>, Refusal>
    ensures { map_answer reflected (answer result) ≡ Counter.reflect wo n }
{
    check_direction(wo)?;
    check_direction(n)?;
    Ok(bxdf::reflect(wo, n))
}

#[tactic(auto, unfolding(crate::specs::Counter::refract))]
pub fn refract(eta: f64, wo: Vec3, n: Vec3) -> Result<Refracted, Refusal>
    ensures { map_answer refracted (answer result) ≡ Counter.refract eta wo n }
{
    check_eta(eta)?;
    check_direction(wo)?;
    check_direction(n)?;
    Ok(bxdf::refract(eta, wo, n))
}

// ---- density
// Of the sampled directions, at the leading wavelength.
#[tactic(auto, unfolding(crate::specs::Counter::pdf, optics::specs::Density::pdf, optics::specs::Surface::index_at))]
pub fn pdf(
    m: &Microsurface<'_>,
    wo: Vec3,
    wi: Vec3,
    reflection: bool,
    lambda: f64,
) -> Result<f64, Refusal>
    ensures { answer result ≡ Counter.pdf m.now wo wi reflection lambda }
{
    check_surface(m)?;
    check_direction(wo)?;
    check_direction(wi)?;
    check_wavelength(lambda)?;
    let kind = m.surface.kind;
    let at = microfacet::optical_constants(kind, &m.spectra, lambda);
    let mfd = Ggx::new(m.surface.roughness);
    finite_only(bxdf::pdf(kind, mfd, wo, wi, reflection, at))
}
