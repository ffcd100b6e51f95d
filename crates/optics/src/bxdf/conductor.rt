// Microfacet conductor.
ghost use Rattle.std.specs.Prelude.{◌≡◌};
ghost use Rattle.numbers.specs.Vec3.{dot};
ghost use Rattle.optics.specs.Facets.{is_delta};
ghost use Rattle.optics.specs.Bxdf.{sampled, conductor_normal, conductor_from, conductor_sample};
ghost use Rattle.optics.specs.SharedTerms.{sample_normal_pdf_at};
ghost use Rattle.optics.specs.Density.{conductor_half, conductor_pdf_from, conductor_pdf};

use crate::bxdf;
use crate::bxdf::{Sample, Sampled};
use crate::microfacet::{DiskPoint, Ggx, View, on_z_side};
use floats::float;
use numbers::spherical_utils;
use numbers::vec3::Vec3;

// The facet's normal: Z if delta.
#[tactic(auto, unfolding(crate::specs::Bxdf::conductor_normal))]
pub fn normal(wo: Vec3, mfd: Ggx, p: DiskPoint) -> Vec3
    ensures { result ≡ conductor_normal mfd.roughness wo p.disk p.c p.s }
{
    mfd.normal(mfd.is_delta(), wo, p)
}

// The direction that the facet's normal `wh` sends on.
#[tactic(auto, unfolding(crate::specs::Bxdf::conductor_from, crate::specs::Bxdf::sampled))]
pub fn sample_from(wo: Vec3, mfd: Ggx, wh: Vec3) -> Sampled
    ensures { sampled result ≡ conductor_from mfd.roughness wo wh }
{
    if mfd.is_delta() {
        // 2.0 * wo.project(Z) - wo = 2.0 * (0, 0, wo.z) - v = (-wo.x, -wo.y, wo.z)
        let wi = Vec3 {
            x: -wo.x,
            y: -wo.y,
            z: wo.z,
        };
        return Ok(Sample {
            wi,
            reflection: true,
        });
    }
    bxdf::sample_mirrored(wo, wh)
}

#[tactic(auto, unfolding(crate::specs::Bxdf::conductor_sample))]
pub fn sample(wo: Vec3, mfd: Ggx, p: DiskPoint) -> Sampled
    ensures { sampled result ≡ conductor_sample mfd.roughness wo p.disk p.c p.s }
{
    sample_from(wo, mfd, normal(wo, mfd, p))
}

pub fn pdf(wo: Vec3, wi: Vec3, mfd: Ggx) -> f64
    ensures { result ≡ conductor_pdf mfd.roughness wo wi }
{
    pdf_at(View::new(mfd, mfd.is_delta(), wo), wi, half(wo, wi))
}

// The normal that takes `wo` to `wi`.
#[tactic(auto, unfolding(crate::specs::Density::conductor_half))]
pub fn half(wo: Vec3, wi: Vec3) -> Vec3
    ensures { result ≡ conductor_half wo wi }
{
    on_z_side((wo + wi).normalize())
}

// Whether the facets send light into one direction, whatever the view says: a density promises that of its facets.
fn is_mirror(view: View) -> bool
    ensures { result ≡ is_delta view.mfd.roughness }
{
    view.mfd.is_delta()
}

// `pdf` with the normal that takes `wo` to `wi` at hand.
#[tactic(auto, unfolding(crate::specs::Density::conductor_pdf_from))]
pub fn pdf_at(view: View, wi: Vec3, wh: Vec3) -> f64
    ensures { result ≡ conductor_pdf_from (sample_normal_pdf_at view.mfd.roughness view.lambda_wo (dot view.wo wh) wh view.wo) (is_delta view.mfd.roughness) view.wo wi wh }
{
    // check if in same hemisphere or perpendicular to normal
    if spherical_utils::same_hemisphere(wi, view.wo) {
        if is_mirror(view) {
            return bxdf::at_z(wh, 1.0);
        }
        let wh_dot_wo = view.wo.dot(wh);
        return view.sample_normal_pdf(wh_dot_wo, wh) / (4.0 * float::abs(wh_dot_wo));
    }
    0.0
}
