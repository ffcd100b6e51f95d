// Complex numbers.
ghost use Rattle.std.specs.Prelude.{◌≡◌};
ghost use Rattle.numbers.specs.Complex.{add, co, complex, cos_half, div, div_float, float_add, float_div, float_mul, float_sub, from_float, mul, mul_float, norm, norm_sqr, sin_half, sqrt, sub};

use numbers::complex::Complex;

#[unsafe(no_mangle)]
pub extern "C" fn numbers_complex_new(re: f64, im: f64) -> Complex
    ensures { result ≡ complex re im }
{
    Complex::new(re, im)
}

#[unsafe(no_mangle)]
pub extern "C" fn numbers_complex_from(v: f64) -> Complex
    ensures { result ≡ from_float v }
{
    Complex::from(v)
}

#[unsafe(no_mangle)]
pub extern "C" fn numbers_complex_norm_sqr(lhs: Complex) -> f64
    ensures { result ≡ norm_sqr lhs }
{
    lhs.norm_sqr()
}

#[unsafe(no_mangle)]
pub extern "C" fn numbers_complex_co(lhs: Complex) -> Complex
    ensures { result ≡ co lhs }
{
    lhs.co()
}

#[unsafe(no_mangle)]
pub extern "C" fn numbers_complex_sqrt(lhs: Complex) -> Complex
    ensures { result ≡ sqrt lhs }
{
    lhs.sqrt()
}

#[unsafe(no_mangle)]
pub extern "C" fn numbers_complex_norm(lhs: Complex) -> f64
    ensures { result ≡ norm lhs }
{
    lhs.norm()
}

#[unsafe(no_mangle)]
pub extern "C" fn numbers_complex_cos_half(lhs: Complex, norm: f64) -> f64
    ensures { result ≡ cos_half norm lhs }
{
    lhs.cos_half(norm)
}

#[unsafe(no_mangle)]
pub extern "C" fn numbers_complex_sin_half(lhs: Complex, norm: f64) -> f64
    ensures { result ≡ sin_half norm lhs }
{
    lhs.sin_half(norm)
}

#[unsafe(no_mangle)]
pub extern "C" fn numbers_complex_add(lhs: Complex, rhs: Complex) -> Complex
    ensures { result ≡ add lhs rhs }
{
    lhs + rhs
}

#[unsafe(no_mangle)]
pub extern "C" fn numbers_complex_float_add(lhs: f64, rhs: Complex) -> Complex
    ensures { result ≡ float_add lhs rhs }
{
    lhs + rhs
}

#[unsafe(no_mangle)]
pub extern "C" fn numbers_complex_sub(lhs: Complex, rhs: Complex) -> Complex
    ensures { result ≡ sub lhs rhs }
{
    lhs - rhs
}

#[unsafe(no_mangle)]
pub extern "C" fn numbers_complex_float_sub(lhs: f64, rhs: Complex) -> Complex
    ensures { result ≡ float_sub lhs rhs }
{
    lhs - rhs
}

#[unsafe(no_mangle)]
pub extern "C" fn numbers_complex_mul(lhs: Complex, rhs: Complex) -> Complex
    ensures { result ≡ mul lhs rhs }
{
    lhs * rhs
}

#[unsafe(no_mangle)]
pub extern "C" fn numbers_complex_mul_float(lhs: Complex, rhs: f64) -> Complex
    ensures { result ≡ mul_float lhs rhs }
{
    lhs * rhs
}

#[unsafe(no_mangle)]
pub extern "C" fn numbers_complex_float_mul(lhs: f64, rhs: Complex) -> Complex
    ensures { result ≡ float_mul lhs rhs }
{
    lhs * rhs
}

#[unsafe(no_mangle)]
pub extern "C" fn numbers_complex_div(lhs: Complex, rhs: Complex) -> Complex
    ensures { result ≡ div lhs rhs }
{
    lhs / rhs
}

#[unsafe(no_mangle)]
pub extern "C" fn numbers_complex_div_float(lhs: Complex, rhs: f64) -> Complex
    ensures { result ≡ div_float lhs rhs }
{
    lhs / rhs
}

#[unsafe(no_mangle)]
pub extern "C" fn numbers_complex_float_div(lhs: f64, rhs: Complex) -> Complex
    ensures { result ≡ float_div lhs rhs }
{
    lhs / rhs
}
