// Mirror and bend, and lumo's `BxDF` for metal and glass: src/tracer/bxdf/microfacet.rs, bxdf.rs.
use crate::microfacet::{Ggx, Kind, OpticalConstants, Snell};
use numbers::vec3::Vec3;
use numbers::{EPSILON, spherical_utils};

pub mod conductor;
pub mod dielectric;

ghost use Rattle.std.specs.Prelude.{◌≡◌, true, false};
ghost use Rattle.optics.specs.Bxdf.{reflected, refracted, reflect, refract, sampled, branch};
ghost use Rattle.optics.specs.Density.{at_z, pdf_of};
ghost use Rattle.optics.specs.SharedTerms.{refract_facing_from, refract_from};

// Why there is no direction: it would lie on the wrong side of the surface, or light is reflected totally.
#[derive(Clone, Copy, PartialEq, Eq, Debug)]
pub enum NoDirection {
    WrongSide,
    Total,
}

// What a bend answers.
pub type Refracted = Result<Vec3, NoDirection>;

// A sampled direction, and whether it is a reflection.
#[derive(Clone, Copy)]
pub struct Sample {
    pub wi: Vec3,
    pub reflection: bool,
}

// What a sampler answers.
pub type Sampled = Result<Sample, NoDirection>;

// The mirrored direction, if it is on `wo`'s side.
pub fn reflect(wo: Vec3, n: Vec3) -> Option<Vec3>
    ensures { reflected result ≡ reflect wo n }
{
    let wi = 2.0 * wo.project_onto(n) - wo;
    if spherical_utils::same_hemisphere(wi, wo) {
        return Some(wi);
    }
    None
}

// Snell-Descartes law
#[tactic(auto, using(crate::proofs::SharedTerms::refract_from_lem))]
pub fn refract(eta: f64, wo: Vec3, n: Vec3) -> Refracted
    ensures { refracted result ≡ refract eta wo n }
{
    refract_from(Snell::new(n.dot(wo), eta), wo, n)
}

// `refract` with Snell's law at hand, of the cosine `n.dot(wo)`.
#[tactic(auto, unfolding(crate::specs::SharedTerms::refract_from))]
pub fn refract_from(snell: Snell, wo: Vec3, n: Vec3) -> Refracted
    ensures { refracted result ≡ refract_from snell wo n }
{
    // possibly flip the orientation if we are "inside"; `Snell::new` has turned the index
    if snell.cos_o < 0.0 {
        return refract_facing(snell, -snell.cos_o, wo, -n);
    }
    refract_facing(snell, snell.cos_o, wo, n)
}

// With the cosine and the normal on `wo`'s side.
fn refract_facing(snell: Snell, cos_to: f64, wo: Vec3, n: Vec3) -> Refracted
    ensures { refracted result ≡ refract_facing_from snell cos_to wo n }
{
    // total internal reflection
    if snell.sin2 >= 1.0 {
        return Err(NoDirection::Total);
    }

    let wi = -wo / snell.eta + (cos_to / snell.eta - snell.cos) * n;
    if spherical_utils::same_hemisphere(wi, wo) {
        return Err(NoDirection::WrongSide);
    }
    Ok(wi)
}

// The mirrored direction as a sample.
#[tactic(auto, unfolding(crate::specs::Bxdf::branch, crate::specs::Bxdf::reflected, crate::specs::Bxdf::sampled))]
fn sample_mirrored(wo: Vec3, wh: Vec3) -> Sampled
    ensures { sampled result ≡ branch true (reflect wo wh) }
{
    let wi = reflect(wo, wh).ok_or(NoDirection::WrongSide)?;
    Ok(Sample {
        wi,
        reflection: true,
    })
}

// The bent direction as a sample.
#[tactic(auto, unfolding(crate::specs::Bxdf::branch, crate::specs::Bxdf::refracted, crate::specs::Bxdf::sampled))]
fn sample_bent(snell: Snell, wo: Vec3, wh: Vec3) -> Sampled
    ensures { sampled result ≡ branch false (refract_from snell wo wh) }
{
    let wi = refract_from(snell, wo, wh)?;
    Ok(Sample {
        wi,
        reflection: false,
    })
}

// The density of the sampled directions, on local directions; `at` is what the leading wavelength has.
#[tactic(auto, unfolding(crate::specs::Density::pdf_of))]
pub fn pdf(kind: Kind, mfd: Ggx, wo: Vec3, wi: Vec3, reflection: bool, at: OpticalConstants) -> f64
    ensures { result ≡ pdf_of kind mfd.roughness at.eta at.k reflection wo wi }
{
    match kind {
        Kind::Metal => {
            if reflection {
                return conductor::pdf(wo, wi, mfd);
            }
            0.0
        }
        Kind::Glass => dielectric::pdf(wo, wi, reflection, mfd, at),
    }
}

// A delta surface's density: all of it where the facet is that of the geometric normal.
fn at_z(wh: Vec3, density: f64) -> f64
    ensures { result ≡ at_z wh density }
{
    if 1.0 - wh.z < EPSILON {
        return density;
    }
    0.0
}
