// Rust's methods of `f64` that the model uses, with document 01's reading of `powi`. Each is std's, where std promises the
// definition and is as fast, and else by hand.
ghost use Rattle.std.specs.Prelude.{◌≡◌};
ghost use Rattle.floats.specs.Float.{max, min, clamp, abs, sign_bit, signum, is_infinite, is_finite, powi2, powi5, within};
ghost use Rattle.std.specs.Float.{nan};

const SIGN: u64 = 0x8000000000000000;

#[tactic(auto, using(crate::proofs::float::FloatBits::nan_pattern))]
pub fn nan() -> f64
    ensures { result ≡ nan }
{
    f64::NAN
}

// By hand: of two equal values, as -0 and +0, std's may give either.
#[tactic(auto, unfolding(crate::specs::Float::max))]
pub fn max(x: f64, y: f64) -> f64
    ensures { result ≡ max x y }
{
    if x.is_nan() || x < y { y } else { x }
}

// By hand, as `max` is.
#[tactic(auto, unfolding(crate::specs::Float::min))]
pub fn min(x: f64, y: f64) -> f64
    ensures { result ≡ min x y }
{
    if x.is_nan() || y < x { y } else { x }
}

// By hand: std's asks that lo is at most hi.
#[tactic(auto, unfolding(crate::specs::Float::clamp))]
pub fn clamp(x: f64, lo: f64, hi: f64) -> f64
    ensures { result ≡ clamp lo hi x }
{
    if x < lo {
        lo
    } else if x > hi {
        hi
    } else {
        x
    }
}

#[tactic(auto, using(crate::proofs::float::FloatBits::abs_is))]
pub fn abs(x: f64) -> f64
    ensures { result ≡ abs x }
{
    x.abs()
}

#[tactic(auto, using(crate::proofs::float::FloatBits::sign_is, crate::proofs::float::FloatBits::nan_sign))]
pub fn is_sign_negative(x: f64) -> bool
    ensures { result ≡ sign_bit x }
{
    !x.is_nan() && x.is_sign_negative()
}

// The pattern of 1.0 with the sign bit of `x`. By hand: std's jumps on the sign, which a processor can't foresee. It takes
// three times as long, and with it a bounce on smooth glass takes a tenth more.
pub fn signum(x: f64) -> f64
    ensures { result ≡ signum x }
{
    if x.is_nan() {
        x
    } else {
        f64::from_bits(x.to_bits() / SIGN * SIGN + 0x3ff0000000000000)
    }
}

#[tactic(auto, using(crate::proofs::float::FloatBits::infinite_is))]
pub fn is_infinite(x: f64) -> bool
    ensures { result ≡ is_infinite x }
{
    x.is_infinite()
}

#[tactic(auto, using(crate::proofs::float::FloatBits::finite_is))]
pub fn is_finite(x: f64) -> bool
    ensures { result ≡ is_finite x }
{
    x.is_finite()
}

// By hand, as `powi5` is: `v * v` is as plain as std's `powi`, which multiplies in a loop, by 1.0 first.
#[tactic(auto, unfolding(crate::specs::Float::powi2))]
pub fn powi2(v: f64) -> f64
    ensures { result ≡ powi2 v }
{
    v * v
}

pub fn powi5(v: f64) -> f64
    ensures { result ≡ powi5 v }
{
    v * ((v * v) * (v * v))
}

// Whether `x` lies from `lo` to `hi`, which a NaN never does.
pub fn within(lo: f64, hi: f64, x: f64) -> bool
    ensures { result ≡ within lo hi x }
{
    lo <= x && x <= hi
}
