// Angles of a local direction.
ghost use Rattle.std.specs.Prelude.{◌≡◌};
ghost use Rattle.numbers.specs.SphericalUtils.{cos2_theta, cos_phi, cos_theta, same_hemisphere, sin2_theta, sin_phi, sin_theta, tan2_theta, tan_theta};

use numbers::spherical_utils;
use numbers::vec3::Vec3;

#[unsafe(no_mangle)]
pub extern "C" fn numbers_spherical_utils_same_hemisphere(v: Vec3, u: Vec3) -> bool
    ensures { result ≡ same_hemisphere v u }
{
    spherical_utils::same_hemisphere(v, u)
}

#[unsafe(no_mangle)]
pub extern "C" fn numbers_spherical_utils_cos_phi(w: Vec3) -> f64
    ensures { result ≡ cos_phi w }
{
    spherical_utils::cos_phi(w)
}

#[unsafe(no_mangle)]
pub extern "C" fn numbers_spherical_utils_sin_phi(w: Vec3) -> f64
    ensures { result ≡ sin_phi w }
{
    spherical_utils::sin_phi(w)
}

#[unsafe(no_mangle)]
pub extern "C" fn numbers_spherical_utils_cos_theta(w: Vec3) -> f64
    ensures { result ≡ cos_theta w }
{
    spherical_utils::cos_theta(w)
}

#[unsafe(no_mangle)]
pub extern "C" fn numbers_spherical_utils_sin_theta(w: Vec3) -> f64
    ensures { result ≡ sin_theta w }
{
    spherical_utils::sin_theta(w)
}

#[unsafe(no_mangle)]
pub extern "C" fn numbers_spherical_utils_tan_theta(w: Vec3) -> f64
    ensures { result ≡ tan_theta w }
{
    spherical_utils::tan_theta(w)
}

#[unsafe(no_mangle)]
pub extern "C" fn numbers_spherical_utils_cos2_theta(w: Vec3) -> f64
    ensures { result ≡ cos2_theta w }
{
    spherical_utils::cos2_theta(w)
}

#[unsafe(no_mangle)]
pub extern "C" fn numbers_spherical_utils_sin2_theta(w: Vec3) -> f64
    ensures { result ≡ sin2_theta w }
{
    spherical_utils::sin2_theta(w)
}

#[unsafe(no_mangle)]
pub extern "C" fn numbers_spherical_utils_tan2_theta(w: Vec3) -> f64
    ensures { result ≡ tan2_theta w }
{
    spherical_utils::tan2_theta(w)
}
