// Rust's methods of `f64`.
ghost use Rattle.std.specs.Prelude.{◌≡◌};
ghost use Rattle.std.specs.Float.{nan};
ghost use Rattle.floats.specs.Float.{abs, clamp, is_finite, is_infinite, max, min, powi2, powi5, sign_bit, signum, within};

use floats::float;

#[unsafe(no_mangle)]
pub extern "C" fn numbers_float_nan() -> f64
    ensures { result ≡ nan }
{
    float::nan()
}

#[unsafe(no_mangle)]
pub extern "C" fn numbers_float_max(x: f64, y: f64) -> f64
    ensures { result ≡ max x y }
{
    float::max(x, y)
}

#[unsafe(no_mangle)]
pub extern "C" fn numbers_float_min(x: f64, y: f64) -> f64
    ensures { result ≡ min x y }
{
    float::min(x, y)
}

#[unsafe(no_mangle)]
pub extern "C" fn numbers_float_clamp(x: f64, lo: f64, hi: f64) -> f64
    ensures { result ≡ clamp lo hi x }
{
    float::clamp(x, lo, hi)
}

#[unsafe(no_mangle)]
pub extern "C" fn numbers_float_abs(x: f64) -> f64
    ensures { result ≡ abs x }
{
    float::abs(x)
}

#[unsafe(no_mangle)]
pub extern "C" fn numbers_float_is_sign_negative(x: f64) -> bool
    ensures { result ≡ sign_bit x }
{
    float::is_sign_negative(x)
}

#[unsafe(no_mangle)]
pub extern "C" fn numbers_float_signum(x: f64) -> f64
    ensures { result ≡ signum x }
{
    float::signum(x)
}

#[unsafe(no_mangle)]
pub extern "C" fn numbers_float_is_infinite(x: f64) -> bool
    ensures { result ≡ is_infinite x }
{
    float::is_infinite(x)
}

#[unsafe(no_mangle)]
pub extern "C" fn numbers_float_is_finite(x: f64) -> bool
    ensures { result ≡ is_finite x }
{
    float::is_finite(x)
}

#[unsafe(no_mangle)]
pub extern "C" fn numbers_float_powi2(v: f64) -> f64
    ensures { result ≡ powi2 v }
{
    float::powi2(v)
}

#[unsafe(no_mangle)]
pub extern "C" fn numbers_float_powi5(v: f64) -> f64
    ensures { result ≡ powi5 v }
{
    float::powi5(v)
}

#[unsafe(no_mangle)]
pub extern "C" fn numbers_float_within(lo: f64, hi: f64, x: f64) -> bool
    ensures { result ≡ within lo hi x }
{
    float::within(lo, hi, x)
}
