// Vectors of two floats: lumo's src/math/vec2.rs. What an operator gives is a definition by its name for two
// vectors, `add_float` for a vector and a float, and `float_add` for a float and a vector. Vec2 and Vec3 are two types, and
// not one over the number of parts: C's and lumo's records have fields by name.
ghost use Rattle.std.specs.Prelude.{◌≡◌};
ghost use Rattle.numbers.specs.Vec2.{vec2, splat, extend, dot, abs, min, max, negate, add, sub, mul, div, add_float, sub_float, mul_float, div_float, float_add, float_sub, float_mul, float_div};

use crate::vec3::Vec3;
use floats::float;
use std::ops::{Add, Div, Mul, Neg, Sub};

#[repr(C)]
#[derive(Clone, Copy)]
pub struct Vec2 {
    pub x: f64,
    pub y: f64,
}

impl Vec2 {
    pub const ZERO: Vec2 = Vec2 { x: 0.0, y: 0.0 };

    pub const X: Vec2 = Vec2 { x: 1.0, y: 0.0 };

    pub const Y: Vec2 = Vec2 { x: 0.0, y: 1.0 };

    pub const ONE: Vec2 = Vec2 { x: 1.0, y: 1.0 };

    pub fn new(x: f64, y: f64) -> Vec2
        ensures { result ≡ vec2 x y }
    {
        Vec2 { x, y }
    }

    pub fn splat(v: f64) -> Vec2
        ensures { result ≡ splat v }
    {
        Vec2 { x: v, y: v }
    }

    pub fn extend(self, z: f64) -> Vec3
        ensures { result ≡ extend self z }
    {
        Vec3 {
            x: self.x,
            y: self.y,
            z,
        }
    }

    pub fn dot(self, other: Vec2) -> f64
        ensures { result ≡ dot self other }
    {
        self.x * other.x + self.y * other.y
    }

    #[tactic(auto, unfolding(crate::specs::Vec2::abs))]
    pub fn abs(self) -> Vec2
        ensures { result ≡ abs self }
    {
        Vec2 {
            x: float::abs(self.x),
            y: float::abs(self.y),
        }
    }

    #[tactic(auto, unfolding(crate::specs::Vec2::min))]
    pub fn min(self, other: Vec2) -> Vec2
        ensures { result ≡ min self other }
    {
        Vec2 {
            x: float::min(self.x, other.x),
            y: float::min(self.y, other.y),
        }
    }

    #[tactic(auto, unfolding(crate::specs::Vec2::max))]
    pub fn max(self, other: Vec2) -> Vec2
        ensures { result ≡ max self other }
    {
        Vec2 {
            x: float::max(self.x, other.x),
            y: float::max(self.y, other.y),
        }
    }
}

impl Neg for Vec2 {
    type Output = Vec2;

    ghost neg_gives = { λ v r. r ≡ negate v };

    fn neg(self) -> Vec2 {
        Vec2 {
            x: -self.x,
            y: -self.y,
        }
    }
}

// By hand, as those of Vec3.
impl Add for Vec2 {
    type Output = Vec2;

    ghost add_gives = { λ v w r. r ≡ add v w };

    fn add(self, rhs: Vec2) -> Vec2 {
        Vec2 {
            x: self.x + rhs.x,
            y: self.y + rhs.y,
        }
    }
}

impl Sub for Vec2 {
    type Output = Vec2;

    ghost sub_gives = { λ v w r. r ≡ sub v w };

    fn sub(self, rhs: Vec2) -> Vec2 {
        Vec2 {
            x: self.x - rhs.x,
            y: self.y - rhs.y,
        }
    }
}

impl Mul for Vec2 {
    type Output = Vec2;

    ghost mul_gives = { λ v w r. r ≡ mul v w };

    fn mul(self, rhs: Vec2) -> Vec2 {
        Vec2 {
            x: self.x * rhs.x,
            y: self.y * rhs.y,
        }
    }
}

impl Div for Vec2 {
    type Output = Vec2;

    ghost div_gives = { λ v w r. r ≡ div v w };

    fn div(self, rhs: Vec2) -> Vec2 {
        Vec2 {
            x: self.x / rhs.x,
            y: self.y / rhs.y,
        }
    }
}

impl Add<f64> for Vec2 {
    type Output = Vec2;

    ghost add_gives = { λ v a r. r ≡ add_float v a };

    fn add(self, rhs: f64) -> Vec2 {
        Vec2 {
            x: self.x + rhs,
            y: self.y + rhs,
        }
    }
}

impl Sub<f64> for Vec2 {
    type Output = Vec2;

    ghost sub_gives = { λ v a r. r ≡ sub_float v a };

    fn sub(self, rhs: f64) -> Vec2 {
        Vec2 {
            x: self.x - rhs,
            y: self.y - rhs,
        }
    }
}

impl Mul<f64> for Vec2 {
    type Output = Vec2;

    ghost mul_gives = { λ v a r. r ≡ mul_float v a };

    fn mul(self, rhs: f64) -> Vec2 {
        Vec2 {
            x: self.x * rhs,
            y: self.y * rhs,
        }
    }
}

impl Div<f64> for Vec2 {
    type Output = Vec2;

    ghost div_gives = { λ v a r. r ≡ div_float v a };

    fn div(self, rhs: f64) -> Vec2 {
        Vec2 {
            x: self.x / rhs,
            y: self.y / rhs,
        }
    }
}

impl Add<Vec2> for f64 {
    type Output = Vec2;

    ghost add_gives = { λ a v r. r ≡ float_add a v };

    fn add(self, rhs: Vec2) -> Vec2 {
        Vec2 {
            x: self + rhs.x,
            y: self + rhs.y,
        }
    }
}

impl Sub<Vec2> for f64 {
    type Output = Vec2;

    ghost sub_gives = { λ a v r. r ≡ float_sub a v };

    fn sub(self, rhs: Vec2) -> Vec2 {
        Vec2 {
            x: self - rhs.x,
            y: self - rhs.y,
        }
    }
}

impl Mul<Vec2> for f64 {
    type Output = Vec2;

    ghost mul_gives = { λ a v r. r ≡ float_mul a v };

    fn mul(self, rhs: Vec2) -> Vec2 {
        Vec2 {
            x: self * rhs.x,
            y: self * rhs.y,
        }
    }
}

impl Div<Vec2> for f64 {
    type Output = Vec2;

    ghost div_gives = { λ a v r. r ≡ float_div a v };

    fn div(self, rhs: Vec2) -> Vec2 {
        Vec2 {
            x: self / rhs.x,
            y: self / rhs.y,
        }
    }
}
