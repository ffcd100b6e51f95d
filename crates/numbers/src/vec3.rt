// Vectors of three floats: lumo's src/math/vec3.rs. What an operator gives is a definition by its name for two
// vectors, `add_float` for a vector and a float, and `float_add` for a float and a vector.
ghost use Rattle.std.specs.Prelude.{◌≡◌};
ghost use Rattle.numbers.specs.Vec3.{vec3, splat, truncate, length_squared, length, distance_squared, distance, scale, cross, dot, project_onto, normalize, is_normalized, is_direction, min_element, max_element, abs, min, max, negate, add, sub, mul, div, add_float, sub_float, mul_float, div_float, float_add, float_sub, float_mul, float_div};

use crate::vec2::Vec2;
use floats::float;
use floats::square_root::sqrt_or_zero;
use std::ops::{Add, Div, Mul, Neg, Sub};

#[repr(C)]
#[derive(Clone, Copy)]
pub struct Vec3 {
    pub x: f64,
    pub y: f64,
    pub z: f64,
}

impl Vec3 {
    pub const ZERO: Vec3 = Vec3 {
        x: 0.0,
        y: 0.0,
        z: 0.0,
    };

    pub const X: Vec3 = Vec3 {
        x: 1.0,
        y: 0.0,
        z: 0.0,
    };

    pub const Y: Vec3 = Vec3 {
        x: 0.0,
        y: 1.0,
        z: 0.0,
    };

    pub const Z: Vec3 = Vec3 {
        x: 0.0,
        y: 0.0,
        z: 1.0,
    };

    pub const ONE: Vec3 = Vec3 {
        x: 1.0,
        y: 1.0,
        z: 1.0,
    };

    pub fn new(x: f64, y: f64, z: f64) -> Vec3
        ensures { result ≡ vec3 x y z }
    {
        Vec3 { x, y, z }
    }

    pub fn splat(v: f64) -> Vec3
        ensures { result ≡ splat v }
    {
        Vec3 { x: v, y: v, z: v }
    }

    pub fn truncate(self) -> Vec2
        ensures { result ≡ truncate self }
    {
        Vec2 {
            x: self.x,
            y: self.y,
        }
    }

    #[tactic(auto, unfolding(crate::specs::Vec3::length))]
    pub fn length(self) -> f64
        ensures { result ≡ length self }
    {
        sqrt_or_zero(self.length_squared())
    }

    #[tactic(auto, unfolding(crate::specs::Vec3::length_squared))]
    pub fn length_squared(self) -> f64
        ensures { result ≡ length_squared self }
    {
        self.dot(self)
    }

    #[tactic(auto, unfolding(crate::specs::Vec3::distance))]
    pub fn distance(self, other: Vec3) -> f64
        ensures { result ≡ distance self other }
    {
        sqrt_or_zero(self.distance_squared(other))
    }

    #[tactic(auto, unfolding(crate::specs::Vec3::distance_squared))]
    pub fn distance_squared(self, other: Vec3) -> f64
        ensures { result ≡ distance_squared self other }
    {
        (self - other).length_squared()
    }

    pub fn scale(self, s: f64) -> Vec3
        ensures { result ≡ scale self s }
    {
        self * s
    }

    #[tactic(auto, unfolding(crate::specs::Vec3::cross))]
    pub fn cross(self, rhs: Vec3) -> Vec3
        ensures { result ≡ cross self rhs }
    {
        Vec3 {
            x: self.y * rhs.z - self.z * rhs.y,
            y: self.z * rhs.x - self.x * rhs.z,
            z: self.x * rhs.y - self.y * rhs.x,
        }
    }

    #[tactic(auto, unfolding(crate::specs::Vec3::dot))]
    pub fn dot(self, rhs: Vec3) -> f64
        ensures { result ≡ dot self rhs }
    {
        self.x * rhs.x + self.y * rhs.y + self.z * rhs.z
    }

    #[tactic(auto, unfolding(crate::specs::Vec3::project_onto))]
    pub fn project_onto(self, n: Vec3) -> Vec3
        ensures { result ≡ project_onto self n }
    {
        n * self.dot(n) / n.length_squared()
    }

    #[tactic(auto, unfolding(crate::specs::Vec3::normalize))]
    pub fn normalize(self) -> Vec3
        ensures { result ≡ normalize self }
    {
        self / self.length()
    }

    pub fn is_normalized(self) -> bool
        ensures { result ≡ is_normalized self }
    {
        float::abs(self.length_squared() - 1.0) < crate::EPSILON
    }

    // Document 01's limit on a direction.
    pub fn is_direction(self) -> bool
        ensures { result ≡ is_direction self }
    {
        float::within(0.999999, 1.000001, self.length_squared())
    }

    #[tactic(auto, unfolding(crate::specs::Vec3::min_element))]
    pub fn min_element(self) -> f64
        ensures { result ≡ min_element self }
    {
        float::min(self.x, float::min(self.y, self.z))
    }

    #[tactic(auto, unfolding(crate::specs::Vec3::max_element))]
    pub fn max_element(self) -> f64
        ensures { result ≡ max_element self }
    {
        float::max(self.x, float::max(self.y, self.z))
    }

    #[tactic(auto, unfolding(crate::specs::Vec3::abs))]
    pub fn abs(self) -> Vec3
        ensures { result ≡ abs self }
    {
        Vec3 {
            x: float::abs(self.x),
            y: float::abs(self.y),
            z: float::abs(self.z),
        }
    }

    #[tactic(auto, unfolding(crate::specs::Vec3::min))]
    pub fn min(self, other: Vec3) -> Vec3
        ensures { result ≡ min self other }
    {
        Vec3 {
            x: float::min(self.x, other.x),
            y: float::min(self.y, other.y),
            z: float::min(self.z, other.z),
        }
    }

    #[tactic(auto, unfolding(crate::specs::Vec3::max))]
    pub fn max(self, other: Vec3) -> Vec3
        ensures { result ≡ max self other }
    {
        Vec3 {
            x: float::max(self.x, other.x),
            y: float::max(self.y, other.y),
            z: float::max(self.z, other.z),
        }
    }
}

impl Neg for Vec3 {
    type Output = Vec3;

    ghost neg_gives = { λ v r. r ≡ negate v };

    #[tactic(auto, unfolding(crate::specs::Vec3::negate))]
    fn neg(self) -> Vec3 {
        Vec3 {
            x: -self.x,
            y: -self.y,
            z: -self.z,
        }
    }
}

// By hand, part by part as lumo's macros write them: std's traits are for one operator and one type of operand each, and
// the gate takes no impl by a macro of the repository.
impl Add for Vec3 {
    type Output = Vec3;

    ghost add_gives = { λ v w r. r ≡ add v w };

    #[tactic(auto, unfolding(crate::specs::Vec3::add))]
    fn add(self, rhs: Vec3) -> Vec3 {
        Vec3 {
            x: self.x + rhs.x,
            y: self.y + rhs.y,
            z: self.z + rhs.z,
        }
    }
}

impl Sub for Vec3 {
    type Output = Vec3;

    ghost sub_gives = { λ v w r. r ≡ sub v w };

    #[tactic(auto, unfolding(crate::specs::Vec3::sub))]
    fn sub(self, rhs: Vec3) -> Vec3 {
        Vec3 {
            x: self.x - rhs.x,
            y: self.y - rhs.y,
            z: self.z - rhs.z,
        }
    }
}

impl Mul for Vec3 {
    type Output = Vec3;

    ghost mul_gives = { λ v w r. r ≡ mul v w };

    fn mul(self, rhs: Vec3) -> Vec3 {
        Vec3 {
            x: self.x * rhs.x,
            y: self.y * rhs.y,
            z: self.z * rhs.z,
        }
    }
}

impl Div for Vec3 {
    type Output = Vec3;

    ghost div_gives = { λ v w r. r ≡ div v w };

    fn div(self, rhs: Vec3) -> Vec3 {
        Vec3 {
            x: self.x / rhs.x,
            y: self.y / rhs.y,
            z: self.z / rhs.z,
        }
    }
}

impl Add<f64> for Vec3 {
    type Output = Vec3;

    ghost add_gives = { λ v a r. r ≡ add_float v a };

    fn add(self, rhs: f64) -> Vec3 {
        Vec3 {
            x: self.x + rhs,
            y: self.y + rhs,
            z: self.z + rhs,
        }
    }
}

impl Sub<f64> for Vec3 {
    type Output = Vec3;

    ghost sub_gives = { λ v a r. r ≡ sub_float v a };

    fn sub(self, rhs: f64) -> Vec3 {
        Vec3 {
            x: self.x - rhs,
            y: self.y - rhs,
            z: self.z - rhs,
        }
    }
}

impl Mul<f64> for Vec3 {
    type Output = Vec3;

    ghost mul_gives = { λ v a r. r ≡ mul_float v a };

    fn mul(self, rhs: f64) -> Vec3 {
        Vec3 {
            x: self.x * rhs,
            y: self.y * rhs,
            z: self.z * rhs,
        }
    }
}

impl Div<f64> for Vec3 {
    type Output = Vec3;

    ghost div_gives = { λ v a r. r ≡ div_float v a };

    #[tactic(auto, unfolding(crate::specs::Vec3::div_float))]
    fn div(self, rhs: f64) -> Vec3 {
        Vec3 {
            x: self.x / rhs,
            y: self.y / rhs,
            z: self.z / rhs,
        }
    }
}

impl Add<Vec3> for f64 {
    type Output = Vec3;

    ghost add_gives = { λ a v r. r ≡ float_add a v };

    fn add(self, rhs: Vec3) -> Vec3 {
        Vec3 {
            x: self + rhs.x,
            y: self + rhs.y,
            z: self + rhs.z,
        }
    }
}

impl Sub<Vec3> for f64 {
    type Output = Vec3;

    ghost sub_gives = { λ a v r. r ≡ float_sub a v };

    fn sub(self, rhs: Vec3) -> Vec3 {
        Vec3 {
            x: self - rhs.x,
            y: self - rhs.y,
            z: self - rhs.z,
        }
    }
}

impl Mul<Vec3> for f64 {
    type Output = Vec3;

    ghost mul_gives = { λ a v r. r ≡ float_mul a v };

    #[tactic(auto, unfolding(crate::specs::Vec3::float_mul))]
    fn mul(self, rhs: Vec3) -> Vec3 {
        Vec3 {
            x: self * rhs.x,
            y: self * rhs.y,
            z: self * rhs.z,
        }
    }
}

impl Div<Vec3> for f64 {
    type Output = Vec3;

    ghost div_gives = { λ a v r. r ≡ float_div a v };

    fn div(self, rhs: Vec3) -> Vec3 {
        Vec3 {
            x: self / rhs.x,
            y: self / rhs.y,
            z: self / rhs.z,
        }
    }
}
