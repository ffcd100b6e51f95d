// Orthonormal bases: lumo's src/tracer/onb.rs.
ghost use Rattle.std.specs.Prelude.{◌≡◌};
ghost use Rattle.numbers.specs.Onb.{basis, to_local, to_world};

use crate::vec3::Vec3;
use floats::float;

// Small utility struct for orthonormal basis
#[repr(C)]
#[derive(Clone, Copy)]
pub struct Onb {
    pub u: Vec3,
    pub v: Vec3,
    pub w: Vec3,
}

impl Onb {
    // The basis around `w`, the direction of its `z` axis.
    pub fn new(w: Vec3) -> Onb
        ensures { result ≡ basis w }
    {
        // Duff et al. 2017
        let sgn = float::signum(w.z);
        let a = -1.0 / (sgn + w.z);
        let b = w.x * w.y * a;

        let u = Vec3 {
            x: 1.0 + sgn * w.x * w.x * a,
            y: sgn * b,
            z: -sgn * w.x,
        };
        let v = Vec3 {
            x: b,
            y: sgn + w.y * w.y * a,
            z: -w.y,
        };

        Onb { u, v, w }
    }

    // Translate from the ONB to world basis
    #[tactic(auto, unfolding(crate::specs::Onb::to_world))]
    pub fn to_world(self, v: Vec3) -> Vec3
        ensures { result ≡ to_world self v }
    {
        v.x * self.u + v.y * self.v + v.z * self.w
    }

    // Translate from world basis to the ONB
    #[tactic(auto, unfolding(crate::specs::Onb::to_local))]
    pub fn to_local(self, v: Vec3) -> Vec3
        ensures { result ≡ to_local self v }
    {
        Vec3 {
            x: v.dot(self.u),
            y: v.dot(self.v),
            z: v.dot(self.w),
        }
    }
}
