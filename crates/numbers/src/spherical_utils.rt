// Angles of a local direction, whose normal is Z: lumo's src/math/spherical_utils.rs.
ghost use Rattle.std.specs.Prelude.{◌≡◌};
ghost use Rattle.numbers.specs.SphericalUtils.{same_hemisphere, cos_phi, sin_phi, azimuth, cos_theta, sin_theta, tan_theta, cos2_theta, sin2_theta, tan2_theta};

use crate::vec2::Vec2;
use crate::vec3::Vec3;
use floats::float;
use floats::square_root::sqrt;

// Are `u` and `v` in the same hemisphere, assuming Z is the normal.
#[tactic(auto, unfolding(crate::specs::SphericalUtils::same_hemisphere))]
pub fn same_hemisphere(v: Vec3, u: Vec3) -> bool
    ensures { result ≡ same_hemisphere v u }
{
    cos_theta(v) * cos_theta(u) > 0.0
}

#[tactic(auto, unfolding(crate::specs::SphericalUtils::cos_phi, crate::specs::SphericalUtils::azimuth))]
pub fn cos_phi(w: Vec3) -> f64
    ensures { result ≡ cos_phi w }
{
    azimuth(w.x, sin_theta(w), 1.0)
}

#[tactic(auto, unfolding(crate::specs::SphericalUtils::sin_phi, crate::specs::SphericalUtils::azimuth))]
pub fn sin_phi(w: Vec3) -> f64
    ensures { result ≡ sin_phi w }
{
    azimuth(w.y, sin_theta(w), 0.0)
}

// Both at once: the sine of θ, a root, is worked once for the two.
#[tactic(auto, unfolding(crate::specs::SphericalUtils::cos_phi, crate::specs::SphericalUtils::sin_phi, crate::specs::SphericalUtils::azimuth))]
pub fn cos_sin_phi(w: Vec3) -> Vec2
    ensures { (result.x ≡ cos_phi w) × (result.y ≡ sin_phi w) }
{
    let sin_theta = sin_theta(w);
    Vec2 {
        x: azimuth(w.x, sin_theta, 1.0),
        y: azimuth(w.y, sin_theta, 0.0),
    }
}

// The cosine or the sine of φ, from the direction's part along x or y and the sine of θ; `pole` where there is no φ.
fn azimuth(part: f64, sin: f64, pole: f64) -> f64
    ensures { result ≡ azimuth part sin pole }
{
    if sin == 0.0 {
        return pole;
    }
    float::clamp(part / sin, -1.0, 1.0)
}

#[tactic(auto, unfolding(crate::specs::SphericalUtils::cos_theta))]
pub fn cos_theta(w: Vec3) -> f64
    ensures { result ≡ cos_theta w }
{
    w.z
}

#[tactic(auto, unfolding(crate::specs::SphericalUtils::sin_theta))]
pub fn sin_theta(w: Vec3) -> f64
    ensures { result ≡ sin_theta w }
{
    sqrt(sin2_theta(w))
}

#[tactic(auto, unfolding(crate::specs::SphericalUtils::tan_theta))]
pub fn tan_theta(w: Vec3) -> f64
    ensures { result ≡ tan_theta w }
{
    sin_theta(w) / cos_theta(w)
}

#[tactic(auto, unfolding(crate::specs::SphericalUtils::cos2_theta))]
pub fn cos2_theta(w: Vec3) -> f64
    ensures { result ≡ cos2_theta w }
{
    w.z * w.z
}

#[tactic(auto, unfolding(crate::specs::SphericalUtils::sin2_theta))]
pub fn sin2_theta(w: Vec3) -> f64
    ensures { result ≡ sin2_theta w }
{
    float::max(1.0 - cos2_theta(w), 0.0)
}

#[tactic(auto, unfolding(crate::specs::SphericalUtils::tan2_theta))]
pub fn tan2_theta(w: Vec3) -> f64
    ensures { result ≡ tan2_theta w }
{
    sin2_theta(w) / cos2_theta(w)
}
