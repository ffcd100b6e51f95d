// Lookup, facet terms, Fresnel, sampler, mirror, bend and density.
ghost use Rattle.std.specs.Prelude.{◌≡◌};
ghost use Rattle.numbers.specs.Checked.{lookup};
ghost use Rattle.counter.specs.Counter as Counter;
ghost use Rattle.rulvimba.specs.Surfaces.{surface_with};
ghost use Rattle.rulvimba.specs.Results.{float_result, color_result, vec3_result, direction_result};

use numbers::vec3::Vec3;
use optics::color::Color;
use rulvimba::records::{ColorResult, DirectionResult, FloatResult, Vec3Result};
use rulvimba::surfaces::SurfaceRecord;

#[unsafe(no_mangle)]
pub extern "C" fn rulvimba_lookup(values: &[f64], lambda: f64) -> FloatResult
    ensures { result ≡ float_result (lookup values.now lambda) }
{
    rulvimba::terms::rulvimba_lookup(values, lambda)
}

// ---- facet terms
#[unsafe(no_mangle)]
pub extern "C" fn rulvimba_lambda(
    surface: SurfaceRecord,
    eta: &[f64],
    k: &[f64],
    outer: &[f64],
    w: Vec3,
) -> FloatResult
    ensures { result ≡ float_result (Counter.lambda (surface_with surface eta.now k.now outer.now) w) }
{
    rulvimba::terms::rulvimba_lambda(surface, eta, k, outer, w)
}

#[unsafe(no_mangle)]
pub extern "C" fn rulvimba_g1(
    surface: SurfaceRecord,
    eta: &[f64],
    k: &[f64],
    outer: &[f64],
    wo: Vec3,
    wh: Vec3,
) -> FloatResult
    ensures { result ≡ float_result (Counter.g1 (surface_with surface eta.now k.now outer.now) wo wh) }
{
    rulvimba::terms::rulvimba_g1(surface, eta, k, outer, wo, wh)
}

#[unsafe(no_mangle)]
pub extern "C" fn rulvimba_g(
    surface: SurfaceRecord,
    eta: &[f64],
    k: &[f64],
    outer: &[f64],
    wo: Vec3,
    wi: Vec3,
    wh: Vec3,
) -> FloatResult
    ensures { result ≡ float_result (Counter.g (surface_with surface eta.now k.now outer.now) wo wi wh) }
{
    rulvimba::terms::rulvimba_g(surface, eta, k, outer, wo, wi, wh)
}

#[unsafe(no_mangle)]
pub extern "C" fn rulvimba_d(
    surface: SurfaceRecord,
    eta: &[f64],
    k: &[f64],
    outer: &[f64],
    wh: Vec3,
) -> FloatResult
    ensures { result ≡ float_result (Counter.d (surface_with surface eta.now k.now outer.now) wh) }
{
    rulvimba::terms::rulvimba_d(surface, eta, k, outer, wh)
}

// ---- Fresnel, at one wavelength and at four
#[unsafe(no_mangle)]
pub extern "C" fn rulvimba_fresnel_at(
    surface: SurfaceRecord,
    eta: &[f64],
    k: &[f64],
    outer: &[f64],
    wo: Vec3,
    wh: Vec3,
    lambda: f64,
) -> FloatResult
    ensures { result ≡ float_result (Counter.f_at (surface_with surface eta.now k.now outer.now) wo wh lambda) }
{
    rulvimba::terms::rulvimba_fresnel_at(surface, eta, k, outer, wo, wh, lambda)
}

#[unsafe(no_mangle)]
pub extern "C" fn rulvimba_fresnel(
    surface: SurfaceRecord,
    eta: &[f64],
    k: &[f64],
    outer: &[f64],
    wo: Vec3,
    wh: Vec3,
    lambda: Color,
) -> ColorResult
    ensures { result ≡ color_result (Counter.f (surface_with surface eta.now k.now outer.now) wo wh lambda) }
{
    rulvimba::terms::rulvimba_fresnel(surface, eta, k, outer, wo, wh, lambda)
}

// ---- sampler, mirror, bend
#[unsafe(no_mangle)]
pub extern "C" fn rulvimba_sample_normal(
    surface: SurfaceRecord,
    eta: &[f64],
    k: &[f64],
    outer: &[f64],
    wo: Vec3,
    disk: f64,
    c: f64,
    s: f64,
) -> Vec3Result
    ensures { result ≡ vec3_result (Counter.sample_normal (surface_with surface eta.now k.now outer.now) wo disk c s) }
{
    rulvimba::terms::rulvimba_sample_normal(surface, eta, k, outer, wo, disk, c, s)
}

#[unsafe(no_mangle)]
pub extern "C" fn rulvimba_reflect(wo: Vec3, n: Vec3) -> DirectionResult
    ensures { result ≡ direction_result (Counter.reflect wo n) }
{
    rulvimba::terms::rulvimba_reflect(wo, n)
}

#[unsafe(no_mangle)]
pub extern "C" fn rulvimba_refract(eta: f64, wo: Vec3, n: Vec3) -> DirectionResult
    ensures { result ≡ direction_result (Counter.refract eta wo n) }
{
    rulvimba::terms::rulvimba_refract(eta, wo, n)
}

// ---- density
#[unsafe(no_mangle)]
pub extern "C" fn rulvimba_density(
    surface: SurfaceRecord,
    eta: &[f64],
    k: &[f64],
    outer: &[f64],
    wo: Vec3,
    wi: Vec3,
    reflection: bool,
    lambda: f64,
) -> FloatResult
    ensures { result ≡ float_result (Counter.pdf (surface_with surface eta.now k.now outer.now) wo wi reflection lambda) }
{
    rulvimba::terms::rulvimba_density(surface, eta, k, outer, wo, wi, reflection, lambda)
}
