// Complex numbers: lumo's src/math/complex.rs, with document 01's stand-in for the half angle in `sqrt`.
ghost use Rattle.std.specs.Prelude.{◌≡◌};
ghost use Rattle.std.specs.Float;
ghost use Rattle.numbers.specs.Complex.{complex, from_float, norm_sqr, norm, co, cos_half, sin_half, sqrt, add, float_add, sub, float_sub, mul, mul_float, float_mul, is_zero, div, div_float, float_div};

use floats::float;
use floats::square_root::{sqrt, sqrt_or_zero};
use std::ops::{Add, Div, Mul, Sub};

#[repr(C)]
#[derive(Clone, Copy)]
pub struct Complex {
    pub Re: f64,
    pub Im: f64,
}

impl Complex {
    pub fn new(Re: f64, Im: f64) -> Complex
        ensures { result ≡ complex Re Im }
    {
        Complex { Re, Im }
    }

    // Squared norm
    #[tactic(auto, unfolding(crate::specs::Complex::norm_sqr))]
    pub fn norm_sqr(self) -> f64
        ensures { result ≡ norm_sqr self }
    {
        self.Re * self.Re + self.Im * self.Im
    }

    // Complement: Co(x + iy) = x - iy
    pub fn co(self) -> Complex
        ensures { result ≡ co self }
    {
        Complex {
            Re: self.Re,
            Im: -self.Im,
        }
    }

    // sqrt(re^(ix)) = sqrt(r) e^(ix/2)
    #[tactic(auto, unfolding(crate::specs::Complex::sqrt))]
    pub fn sqrt(self) -> Complex
        ensures { result ≡ sqrt self }
    {
        let norm = self.norm();
        let root = sqrt(norm);
        Complex {
            Re: root * self.cos_half(norm),
            Im: root * self.sin_half(norm),
        }
    }

    #[tactic(auto, unfolding(crate::specs::Complex::norm))]
    pub fn norm(self) -> f64
        ensures { result ≡ norm self }
    {
        sqrt(self.norm_sqr())
    }

    // The cosine of half the angle.
    pub fn cos_half(self, norm: f64) -> f64
        ensures { result ≡ cos_half norm self }
    {
        if norm == 0.0 {
            return 1.0;
        }
        sqrt_or_zero((1.0 + self.Re / norm) / 2.0)
    }

    // The sine of half the angle.
    pub fn sin_half(self, norm: f64) -> f64
        ensures { result ≡ sin_half norm self }
    {
        if norm == 0.0 {
            return 0.0;
        }
        let sin = sqrt_or_zero((1.0 - self.Re / norm) / 2.0);
        if float::is_sign_negative(self.Im) {
            return -sin;
        }
        sin
    }

    #[tactic(auto, unfolding(crate::specs::Complex::is_zero))]
    fn is_zero(self) -> bool
        ensures { result ≡ is_zero self }
    {
        self.Re == 0.0 && self.Im == 0.0
    }
}

// What a quotient by zero is.
fn nan() -> Complex
    ensures { result ≡ complex Float.nan Float.nan }
{
    Complex {
        Re: float::nan(),
        Im: float::nan(),
    }
}

impl From<f64> for Complex {
    ghost from_gives = { λ v r. r ≡ from_float v };

    #[tactic(auto, unfolding(crate::specs::Complex::from_float))]
    fn from(v: f64) -> Complex {
        Complex { Re: v, Im: 0.0 }
    }
}

// By hand: std's traits are for one operator and one type of operand each, and the gate takes no impl by a macro of the
// repository.
impl Add for Complex {
    type Output = Complex;

    ghost add_gives = { λ z w r. r ≡ add z w };

    fn add(self, rhs: Complex) -> Complex {
        Complex {
            Re: self.Re + rhs.Re,
            Im: self.Im + rhs.Im,
        }
    }
}

impl Sub for Complex {
    type Output = Complex;

    ghost sub_gives = { λ z w r. r ≡ sub z w };

    fn sub(self, rhs: Complex) -> Complex {
        Complex {
            Re: self.Re - rhs.Re,
            Im: self.Im - rhs.Im,
        }
    }
}

impl Mul for Complex {
    type Output = Complex;

    ghost mul_gives = { λ z w r. r ≡ mul z w };

    fn mul(self, rhs: Complex) -> Complex {
        Complex {
            Re: self.Re * rhs.Re - self.Im * rhs.Im,
            Im: self.Re * rhs.Im + self.Im * rhs.Re,
        }
    }
}

impl Div for Complex {
    type Output = Complex;

    ghost div_gives = { λ z w r. r ≡ div z w };

    #[tactic(auto, unfolding(crate::specs::Complex::div))]
    fn div(self, rhs: Complex) -> Complex {
        if rhs.is_zero() {
            return nan();
        }
        self * rhs.co() / rhs.norm_sqr()
    }
}

impl Mul<f64> for Complex {
    type Output = Complex;

    ghost mul_gives = { λ z a r. r ≡ mul_float z a };

    fn mul(self, rhs: f64) -> Complex {
        Complex {
            Re: self.Re * rhs,
            Im: self.Im * rhs,
        }
    }
}

impl Div<f64> for Complex {
    type Output = Complex;

    ghost div_gives = { λ z a r. r ≡ div_float z a };

    #[tactic(auto, unfolding(crate::specs::Complex::div_float))]
    fn div(self, rhs: f64) -> Complex {
        if rhs == 0.0 {
            return nan();
        }
        Complex {
            Re: self.Re / rhs,
            Im: self.Im / rhs,
        }
    }
}

impl Add<Complex> for f64 {
    type Output = Complex;

    ghost add_gives = { λ a w r. r ≡ float_add a w };

    fn add(self, rhs: Complex) -> Complex {
        Complex {
            Re: self + rhs.Re,
            Im: rhs.Im,
        }
    }
}

impl Sub<Complex> for f64 {
    type Output = Complex;

    ghost sub_gives = { λ a w r. r ≡ float_sub a w };

    fn sub(self, rhs: Complex) -> Complex {
        Complex {
            Re: self - rhs.Re,
            Im: -rhs.Im,
        }
    }
}

impl Mul<Complex> for f64 {
    type Output = Complex;

    ghost mul_gives = { λ a w r. r ≡ float_mul a w };

    fn mul(self, rhs: Complex) -> Complex {
        Complex {
            Re: self * rhs.Re,
            Im: self * rhs.Im,
        }
    }
}

impl Div<Complex> for f64 {
    type Output = Complex;

    ghost div_gives = { λ a w r. r ≡ float_div a w };

    #[tactic(auto, unfolding(crate::specs::Complex::float_div))]
    fn div(self, rhs: Complex) -> Complex {
        if rhs.is_zero() {
            return nan();
        }
        self * rhs.co() / rhs.norm_sqr()
    }
}
