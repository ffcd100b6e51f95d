// Vectors of three floats.
ghost use Rattle.std.specs.Prelude.{◌≡◌};
ghost use Rattle.numbers.specs.Vec3.{abs, add, add_float, cross, distance, distance_squared, div, div_float, dot, float_add, float_div, float_mul, float_sub, is_direction, is_normalized, length, length_squared, max, max_element, min, min_element, mul, mul_float, negate, normalize, project_onto, scale, splat, sub, sub_float, truncate, vec3};

use numbers::vec2::Vec2;
use numbers::vec3::Vec3;

#[unsafe(no_mangle)]
pub extern "C" fn numbers_vec3_new(x: f64, y: f64, z: f64) -> Vec3
    ensures { result ≡ vec3 x y z }
{
    Vec3::new(x, y, z)
}

#[unsafe(no_mangle)]
pub extern "C" fn numbers_vec3_splat(v: f64) -> Vec3
    ensures { result ≡ splat v }
{
    Vec3::splat(v)
}

#[unsafe(no_mangle)]
pub extern "C" fn numbers_vec3_truncate(lhs: Vec3) -> Vec2
    ensures { result ≡ truncate lhs }
{
    lhs.truncate()
}

#[unsafe(no_mangle)]
pub extern "C" fn numbers_vec3_length(lhs: Vec3) -> f64
    ensures { result ≡ length lhs }
{
    lhs.length()
}

#[unsafe(no_mangle)]
pub extern "C" fn numbers_vec3_length_squared(lhs: Vec3) -> f64
    ensures { result ≡ length_squared lhs }
{
    lhs.length_squared()
}

#[unsafe(no_mangle)]
pub extern "C" fn numbers_vec3_distance(lhs: Vec3, other: Vec3) -> f64
    ensures { result ≡ distance lhs other }
{
    lhs.distance(other)
}

#[unsafe(no_mangle)]
pub extern "C" fn numbers_vec3_distance_squared(lhs: Vec3, other: Vec3) -> f64
    ensures { result ≡ distance_squared lhs other }
{
    lhs.distance_squared(other)
}

#[unsafe(no_mangle)]
pub extern "C" fn numbers_vec3_scale(lhs: Vec3, s: f64) -> Vec3
    ensures { result ≡ scale lhs s }
{
    lhs.scale(s)
}

#[unsafe(no_mangle)]
pub extern "C" fn numbers_vec3_cross(lhs: Vec3, rhs: Vec3) -> Vec3
    ensures { result ≡ cross lhs rhs }
{
    lhs.cross(rhs)
}

#[unsafe(no_mangle)]
pub extern "C" fn numbers_vec3_dot(lhs: Vec3, rhs: Vec3) -> f64
    ensures { result ≡ dot lhs rhs }
{
    lhs.dot(rhs)
}

#[unsafe(no_mangle)]
pub extern "C" fn numbers_vec3_project_onto(lhs: Vec3, n: Vec3) -> Vec3
    ensures { result ≡ project_onto lhs n }
{
    lhs.project_onto(n)
}

#[unsafe(no_mangle)]
pub extern "C" fn numbers_vec3_normalize(lhs: Vec3) -> Vec3
    ensures { result ≡ normalize lhs }
{
    lhs.normalize()
}

#[unsafe(no_mangle)]
pub extern "C" fn numbers_vec3_is_normalized(lhs: Vec3) -> bool
    ensures { result ≡ is_normalized lhs }
{
    lhs.is_normalized()
}

#[unsafe(no_mangle)]
pub extern "C" fn numbers_vec3_is_direction(lhs: Vec3) -> bool
    ensures { result ≡ is_direction lhs }
{
    lhs.is_direction()
}

#[unsafe(no_mangle)]
pub extern "C" fn numbers_vec3_min_element(lhs: Vec3) -> f64
    ensures { result ≡ min_element lhs }
{
    lhs.min_element()
}

#[unsafe(no_mangle)]
pub extern "C" fn numbers_vec3_max_element(lhs: Vec3) -> f64
    ensures { result ≡ max_element lhs }
{
    lhs.max_element()
}

#[unsafe(no_mangle)]
pub extern "C" fn numbers_vec3_abs(lhs: Vec3) -> Vec3
    ensures { result ≡ abs lhs }
{
    lhs.abs()
}

#[unsafe(no_mangle)]
pub extern "C" fn numbers_vec3_min(lhs: Vec3, other: Vec3) -> Vec3
    ensures { result ≡ min lhs other }
{
    lhs.min(other)
}

#[unsafe(no_mangle)]
pub extern "C" fn numbers_vec3_max(lhs: Vec3, other: Vec3) -> Vec3
    ensures { result ≡ max lhs other }
{
    lhs.max(other)
}

#[unsafe(no_mangle)]
pub extern "C" fn numbers_vec3_negate(lhs: Vec3) -> Vec3
    ensures { result ≡ negate lhs }
{
    -lhs
}

#[unsafe(no_mangle)]
pub extern "C" fn numbers_vec3_add(lhs: Vec3, rhs: Vec3) -> Vec3
    ensures { result ≡ add lhs rhs }
{
    lhs + rhs
}

#[unsafe(no_mangle)]
pub extern "C" fn numbers_vec3_sub(lhs: Vec3, rhs: Vec3) -> Vec3
    ensures { result ≡ sub lhs rhs }
{
    lhs - rhs
}

#[unsafe(no_mangle)]
pub extern "C" fn numbers_vec3_mul(lhs: Vec3, rhs: Vec3) -> Vec3
    ensures { result ≡ mul lhs rhs }
{
    lhs * rhs
}

#[unsafe(no_mangle)]
pub extern "C" fn numbers_vec3_div(lhs: Vec3, rhs: Vec3) -> Vec3
    ensures { result ≡ div lhs rhs }
{
    lhs / rhs
}

#[unsafe(no_mangle)]
pub extern "C" fn numbers_vec3_add_float(lhs: Vec3, rhs: f64) -> Vec3
    ensures { result ≡ add_float lhs rhs }
{
    lhs + rhs
}

#[unsafe(no_mangle)]
pub extern "C" fn numbers_vec3_sub_float(lhs: Vec3, rhs: f64) -> Vec3
    ensures { result ≡ sub_float lhs rhs }
{
    lhs - rhs
}

#[unsafe(no_mangle)]
pub extern "C" fn numbers_vec3_mul_float(lhs: Vec3, rhs: f64) -> Vec3
    ensures { result ≡ mul_float lhs rhs }
{
    lhs * rhs
}

#[unsafe(no_mangle)]
pub extern "C" fn numbers_vec3_div_float(lhs: Vec3, rhs: f64) -> Vec3
    ensures { result ≡ div_float lhs rhs }
{
    lhs / rhs
}

#[unsafe(no_mangle)]
pub extern "C" fn numbers_vec3_float_add(lhs: f64, rhs: Vec3) -> Vec3
    ensures { result ≡ float_add lhs rhs }
{
    lhs + rhs
}

#[unsafe(no_mangle)]
pub extern "C" fn numbers_vec3_float_sub(lhs: f64, rhs: Vec3) -> Vec3
    ensures { result ≡ float_sub lhs rhs }
{
    lhs - rhs
}

#[unsafe(no_mangle)]
pub extern "C" fn numbers_vec3_float_mul(lhs: f64, rhs: Vec3) -> Vec3
    ensures { result ≡ float_mul lhs rhs }
{
    lhs * rhs
}

#[unsafe(no_mangle)]
pub extern "C" fn numbers_vec3_float_div(lhs: f64, rhs: Vec3) -> Vec3
    ensures { result ≡ float_div lhs rhs }
{
    lhs / rhs
}
