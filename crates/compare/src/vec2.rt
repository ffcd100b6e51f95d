// Vectors of two floats.
ghost use Rattle.std.specs.Prelude.{◌≡◌};
ghost use Rattle.numbers.specs.Vec2.{abs, add, add_float, div, div_float, dot, extend, float_add, float_div, float_mul, float_sub, max, min, mul, mul_float, negate, splat, sub, sub_float, vec2};

use numbers::vec2::Vec2;
use numbers::vec3::Vec3;

#[unsafe(no_mangle)]
pub extern "C" fn numbers_vec2_new(x: f64, y: f64) -> Vec2
    ensures { result ≡ vec2 x y }
{
    Vec2::new(x, y)
}

#[unsafe(no_mangle)]
pub extern "C" fn numbers_vec2_splat(v: f64) -> Vec2
    ensures { result ≡ splat v }
{
    Vec2::splat(v)
}

#[unsafe(no_mangle)]
pub extern "C" fn numbers_vec2_extend(lhs: Vec2, z: f64) -> Vec3
    ensures { result ≡ extend lhs z }
{
    lhs.extend(z)
}

#[unsafe(no_mangle)]
pub extern "C" fn numbers_vec2_dot(lhs: Vec2, other: Vec2) -> f64
    ensures { result ≡ dot lhs other }
{
    lhs.dot(other)
}

#[unsafe(no_mangle)]
pub extern "C" fn numbers_vec2_abs(lhs: Vec2) -> Vec2
    ensures { result ≡ abs lhs }
{
    lhs.abs()
}

#[unsafe(no_mangle)]
pub extern "C" fn numbers_vec2_min(lhs: Vec2, other: Vec2) -> Vec2
    ensures { result ≡ min lhs other }
{
    lhs.min(other)
}

#[unsafe(no_mangle)]
pub extern "C" fn numbers_vec2_max(lhs: Vec2, other: Vec2) -> Vec2
    ensures { result ≡ max lhs other }
{
    lhs.max(other)
}

#[unsafe(no_mangle)]
pub extern "C" fn numbers_vec2_negate(lhs: Vec2) -> Vec2
    ensures { result ≡ negate lhs }
{
    -lhs
}

#[unsafe(no_mangle)]
pub extern "C" fn numbers_vec2_add(lhs: Vec2, rhs: Vec2) -> Vec2
    ensures { result ≡ add lhs rhs }
{
    lhs + rhs
}

#[unsafe(no_mangle)]
pub extern "C" fn numbers_vec2_sub(lhs: Vec2, rhs: Vec2) -> Vec2
    ensures { result ≡ sub lhs rhs }
{
    lhs - rhs
}

#[unsafe(no_mangle)]
pub extern "C" fn numbers_vec2_mul(lhs: Vec2, rhs: Vec2) -> Vec2
    ensures { result ≡ mul lhs rhs }
{
    lhs * rhs
}

#[unsafe(no_mangle)]
pub extern "C" fn numbers_vec2_div(lhs: Vec2, rhs: Vec2) -> Vec2
    ensures { result ≡ div lhs rhs }
{
    lhs / rhs
}

#[unsafe(no_mangle)]
pub extern "C" fn numbers_vec2_add_float(lhs: Vec2, rhs: f64) -> Vec2
    ensures { result ≡ add_float lhs rhs }
{
    lhs + rhs
}

#[unsafe(no_mangle)]
pub extern "C" fn numbers_vec2_sub_float(lhs: Vec2, rhs: f64) -> Vec2
    ensures { result ≡ sub_float lhs rhs }
{
    lhs - rhs
}

#[unsafe(no_mangle)]
pub extern "C" fn numbers_vec2_mul_float(lhs: Vec2, rhs: f64) -> Vec2
    ensures { result ≡ mul_float lhs rhs }
{
    lhs * rhs
}

#[unsafe(no_mangle)]
pub extern "C" fn numbers_vec2_div_float(lhs: Vec2, rhs: f64) -> Vec2
    ensures { result ≡ div_float lhs rhs }
{
    lhs / rhs
}

#[unsafe(no_mangle)]
pub extern "C" fn numbers_vec2_float_add(lhs: f64, rhs: Vec2) -> Vec2
    ensures { result ≡ float_add lhs rhs }
{
    lhs + rhs
}

#[unsafe(no_mangle)]
pub extern "C" fn numbers_vec2_float_sub(lhs: f64, rhs: Vec2) -> Vec2
    ensures { result ≡ float_sub lhs rhs }
{
    lhs - rhs
}

#[unsafe(no_mangle)]
pub extern "C" fn numbers_vec2_float_mul(lhs: f64, rhs: Vec2) -> Vec2
    ensures { result ≡ float_mul lhs rhs }
{
    lhs * rhs
}

#[unsafe(no_mangle)]
pub extern "C" fn numbers_vec2_float_div(lhs: f64, rhs: Vec2) -> Vec2
    ensures { result ≡ float_div lhs rhs }
{
    lhs / rhs
}
