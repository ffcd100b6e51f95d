// The calls that refuse: of numbers, but for the lookup, and those of counter that librulvimba doesn't
// export.
ghost use Rattle.std.specs.Prelude.{◌≡◌};
ghost use Rattle.numbers.specs.Checked.{of_direction, change_to_local, change_to_world, hemisphere};
ghost use Rattle.numbers.specs.Onb.{basis};
ghost use Rattle.numbers.specs.SphericalUtils.{cos_phi, sin_phi, cos_theta, sin_theta, tan_theta, cos2_theta, sin2_theta, tan2_theta};
ghost use Rattle.counter.specs.Counter as Counter;
ghost use Rattle.rulvimba.specs.Results.{float_result, vec3_result};
ghost use Rattle.rulvimba.specs.Surfaces.{surface_with};
ghost use Rattle.compare_path.specs.Results.{bool_result, onb_result};

use crate::results::{BoolResult, OnbResult};
use numbers::checked;
use numbers::vec3::Vec3;
use rulvimba::records::{FloatResult, Vec3Result};
use rulvimba::surfaces::{SurfaceRecord, lent};

#[unsafe(no_mangle)]
pub extern "C" fn numbers_checked_onb(normal: Vec3) -> OnbResult
    ensures { result ≡ onb_result (of_direction basis normal) }
{
    OnbResult::from(checked::onb(normal))
}

#[unsafe(no_mangle)]
pub extern "C" fn numbers_checked_to_local(v: Vec3, normal: Vec3) -> Vec3Result
    ensures { result ≡ vec3_result (change_to_local v normal) }
{
    Vec3Result::from(checked::to_local(v, normal))
}

#[unsafe(no_mangle)]
pub extern "C" fn numbers_checked_to_world(v: Vec3, normal: Vec3) -> Vec3Result
    ensures { result ≡ vec3_result (change_to_world v normal) }
{
    Vec3Result::from(checked::to_world(v, normal))
}

#[unsafe(no_mangle)]
pub extern "C" fn numbers_checked_same_hemisphere(v: Vec3, u: Vec3) -> BoolResult
    ensures { result ≡ bool_result (hemisphere v u) }
{
    BoolResult::from(checked::same_hemisphere(v, u))
}

#[unsafe(no_mangle)]
pub extern "C" fn numbers_checked_cos_phi(w: Vec3) -> FloatResult
    ensures { result ≡ float_result (of_direction cos_phi w) }
{
    FloatResult::from(checked::cos_phi(w))
}

#[unsafe(no_mangle)]
pub extern "C" fn numbers_checked_sin_phi(w: Vec3) -> FloatResult
    ensures { result ≡ float_result (of_direction sin_phi w) }
{
    FloatResult::from(checked::sin_phi(w))
}

#[unsafe(no_mangle)]
pub extern "C" fn numbers_checked_cos_theta(w: Vec3) -> FloatResult
    ensures { result ≡ float_result (of_direction cos_theta w) }
{
    FloatResult::from(checked::cos_theta(w))
}

#[unsafe(no_mangle)]
pub extern "C" fn numbers_checked_sin_theta(w: Vec3) -> FloatResult
    ensures { result ≡ float_result (of_direction sin_theta w) }
{
    FloatResult::from(checked::sin_theta(w))
}

#[unsafe(no_mangle)]
pub extern "C" fn numbers_checked_tan_theta(w: Vec3) -> FloatResult
    ensures { result ≡ float_result (of_direction tan_theta w) }
{
    FloatResult::from(checked::tan_theta(w))
}

#[unsafe(no_mangle)]
pub extern "C" fn numbers_checked_cos2_theta(w: Vec3) -> FloatResult
    ensures { result ≡ float_result (of_direction cos2_theta w) }
{
    FloatResult::from(checked::cos2_theta(w))
}

#[unsafe(no_mangle)]
pub extern "C" fn numbers_checked_sin2_theta(w: Vec3) -> FloatResult
    ensures { result ≡ float_result (of_direction sin2_theta w) }
{
    FloatResult::from(checked::sin2_theta(w))
}

#[unsafe(no_mangle)]
pub extern "C" fn numbers_checked_tan2_theta(w: Vec3) -> FloatResult
    ensures { result ≡ float_result (of_direction tan2_theta w) }
{
    FloatResult::from(checked::tan2_theta(w))
}

#[unsafe(no_mangle)]
pub extern "C" fn optics_checked_is_delta(
    surface: SurfaceRecord,
    eta: &[f64],
    k: &[f64],
    outer: &[f64],
) -> BoolResult
    ensures { result ≡ bool_result (Counter.is_delta (surface_with surface eta.now k.now outer.now)) }
{
    BoolResult::from(counter::is_delta(&lent(surface, eta, k, outer)))
}

#[unsafe(no_mangle)]
pub extern "C" fn optics_checked_chi_pass(
    surface: SurfaceRecord,
    eta: &[f64],
    k: &[f64],
    outer: &[f64],
    wo: Vec3,
    wh: Vec3,
) -> BoolResult
    ensures { result ≡ bool_result (Counter.chi_pass (surface_with surface eta.now k.now outer.now) wo wh) }
{
    BoolResult::from(counter::chi_pass(&lent(surface, eta, k, outer), wo, wh))
}

#[unsafe(no_mangle)]
pub extern "C" fn optics_checked_disney_diffuse(
    surface: SurfaceRecord,
    eta: &[f64],
    k: &[f64],
    outer: &[f64],
    wo: f64,
    wi: f64,
    wh: f64,
) -> FloatResult
    ensures { result ≡ float_result (Counter.disney_diffuse (surface_with surface eta.now k.now outer.now) wo wi wh) }
{
    FloatResult::from(counter::disney_diffuse(&lent(surface, eta, k, outer), wo, wi, wh))
}
