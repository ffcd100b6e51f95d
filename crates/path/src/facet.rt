// The facet that a bounce meets, with what is read of it more than once: how `wo` sees the facets, and the cosine wo · wh.
ghost use Rattle.std.specs.Prelude.{◌≡◌, cond};
ghost use Rattle.floats.specs.Float.{f0};
ghost use Rattle.numbers.specs.Vec3.{dot};
ghost use Rattle.optics.specs.Facets.{is_delta, lambda};
ghost use Rattle.optics.specs.Bxdf.{is_smooth};
ghost use Rattle.optics.specs.Density.{conductor_pdf, dielectric_pdf};
ghost use Rattle.path.specs.Bounce.{along_wall, shadowing};

use floats::float;
use numbers::spherical_utils;
use numbers::vec3::Vec3;
use optics::bxdf::{conductor, dielectric};
use optics::microfacet::{Ggx, OpticalConstants, View};

#[derive(Clone, Copy)]
pub(crate) struct Facet {
    view: View,
    wh: Vec3,
    pub(crate) wo_dot_wh: f64,
    ghost is_lambda: { view.lambda_wo ≡ cond view.one_direction f0 (lambda view.mfd.roughness view.wo) },
    ghost is_cosine: { wo_dot_wh ≡ dot view.wo wh },
}

// Of a sampled direction: its density, and the share q of the light that the facets let through to it.
#[derive(Clone, Copy)]
pub(crate) struct Seen {
    pub(crate) pdf: f64,
    pub(crate) q: f64,
}

impl Facet {
    fn new(mfd: Ggx, one_direction: bool, wo: Vec3, wh: Vec3) -> Facet
        ensures { (result.view.mfd ≡ mfd) × (result.view.one_direction ≡ one_direction) × (result.view.wo ≡ wo) × (result.wh ≡ wh) }
    {
        Facet {
            view: View::new(mfd, one_direction, wo),
            wh,
            wo_dot_wh: wo.dot(wh),
        }
    }

    pub(crate) fn on_metal(mfd: Ggx, wo: Vec3, wh: Vec3) -> Facet
        ensures { (result.view.mfd ≡ mfd) × (result.view.one_direction ≡ is_delta mfd.roughness) × (result.view.wo ≡ wo) × (result.wh ≡ wh) }
    {
        Facet::new(mfd, mfd.is_delta(), wo, wh)
    }

    pub(crate) fn on_glass(mfd: Ggx, eta: f64, wo: Vec3, wh: Vec3) -> Facet
        ensures { (result.view.mfd ≡ mfd) × (result.view.one_direction ≡ is_smooth mfd.roughness eta) × (result.view.wo ≡ wo) × (result.wh ≡ wh) }
    {
        Facet::new(mfd, dielectric::is_smooth(mfd, eta), wo, wh)
    }

    // q: the share of the light that the facets let through to `wi`: 1 where the surface scatters into one direction;
    // elsewhere `g_over_g1`, but none along the wall, where Λ is 0 and that would have them open.
    fn shadowing(self, wi: Vec3) -> f64
        ensures { result ≡ shadowing self.view.one_direction self.view.mfd.roughness self.view.wo wi self.wh }
    {
        if self.view.one_direction {
            1.0
        } else if is_along_wall(wi) {
            0.0
        } else {
            self.view.g_over_g1(self.wo_dot_wh, wi, self.wh)
        }
    }

    // The normal that takes wo to wi stands first: more of the work waits for its root than for any other.
    pub(crate) fn seen_on_metal(self, wi: Vec3) -> Seen
        requires { self.view.one_direction ≡ is_delta self.view.mfd.roughness }
        ensures { (result.pdf ≡ conductor_pdf self.view.mfd.roughness self.view.wo wi) × (result.q ≡ shadowing (is_delta self.view.mfd.roughness) self.view.mfd.roughness self.view.wo wi self.wh) }
    {
        let half = conductor::half(self.view.wo, wi);
        let q = self.shadowing(wi);
        let pdf = conductor::pdf_at(self.view, wi, half);
        Seen { pdf, q }
    }

    pub(crate) fn seen_on_glass(self, at: OpticalConstants, wi: Vec3, reflection: bool) -> Seen
        requires { self.view.one_direction ≡ is_smooth self.view.mfd.roughness at.eta }
        ensures { (result.pdf ≡ dielectric_pdf self.view.mfd.roughness at.eta at.k reflection self.view.wo wi) × (result.q ≡ shadowing (is_smooth self.view.mfd.roughness at.eta) self.view.mfd.roughness self.view.wo wi self.wh) }
    {
        let wo = self.view.wo;
        let ratio = dielectric::eta_ratio(reflection, wo, at.eta);
        let half = dielectric::half(at.eta, ratio, wo, wi);
        let q = self.shadowing(wi);
        let pdf = dielectric::pdf_at(self.view, wi, half, reflection, at, ratio);
        Seen { pdf, q }
    }
}

// Whether light leaves exactly along the wall: tan² of its angle is infinite.
#[tactic(auto, unfolding(crate::specs::Bounce::along_wall))]
fn is_along_wall(wi: Vec3) -> bool
    ensures { result ≡ along_wall wi }
{
    float::is_infinite(spherical_utils::tan2_theta(wi))
}
