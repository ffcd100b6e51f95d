// Lookup, facet terms, Fresnel, sampler, mirror, bend and density.
ghost use Rattle.std.specs.Prelude.{◌≡◌};
ghost use Rattle.numbers.specs.Checked.{lookup};
ghost use Rattle.counter.specs.Counter as Counter;
ghost use Rattle.rulvimba.specs.Surfaces.{surface_with};
ghost use Rattle.rulvimba.specs.Results.{float_result, color_result, vec3_result, direction_result};

use crate::records::{ColorResult, DirectionResult, FloatResult, Vec3Result};
use crate::surfaces::{SurfaceRecord, lent};
use numbers::dense_spectrum::DenseSpectrum;
use numbers::vec3::Vec3;
use optics::color::Color;
use optics::microfacet::DiskPoint;

pub fn rulvimba_lookup(values: &[f64], lambda: f64) -> FloatResult
    ensures { result ≡ float_result (lookup values.now lambda) }
{
    FloatResult::from(numbers::checked::lookup(&DenseSpectrum::new(values), lambda))
}

// ---- facet terms
pub fn rulvimba_lambda(
    surface: SurfaceRecord,
    eta: &[f64],
    k: &[f64],
    outer: &[f64],
    w: Vec3,
) -> FloatResult
    ensures { result ≡ float_result (Counter.lambda (surface_with surface eta.now k.now outer.now) w) }
{
    FloatResult::from(counter::lambda(&lent(surface, eta, k, outer), w))
}

pub fn rulvimba_g1(
    surface: SurfaceRecord,
    eta: &[f64],
    k: &[f64],
    outer: &[f64],
    wo: Vec3,
    wh: Vec3,
) -> FloatResult
    ensures { result ≡ float_result (Counter.g1 (surface_with surface eta.now k.now outer.now) wo wh) }
{
    FloatResult::from(counter::g1(&lent(surface, eta, k, outer), wo, wh))
}

pub fn rulvimba_g(
    surface: SurfaceRecord,
    eta: &[f64],
    k: &[f64],
    outer: &[f64],
    wo: Vec3,
    wi: Vec3,
    wh: Vec3,
) -> FloatResult
    ensures { result ≡ float_result (Counter.g (surface_with surface eta.now k.now outer.now) wo wi wh) }
{
    FloatResult::from(counter::g(&lent(surface, eta, k, outer), wo, wi, wh))
}

pub fn rulvimba_d(
    surface: SurfaceRecord,
    eta: &[f64],
    k: &[f64],
    outer: &[f64],
    wh: Vec3,
) -> FloatResult
    ensures { result ≡ float_result (Counter.d (surface_with surface eta.now k.now outer.now) wh) }
{
    FloatResult::from(counter::d(&lent(surface, eta, k, outer), wh))
}

// ---- Fresnel, at one wavelength and at four
pub fn rulvimba_fresnel_at(
    surface: SurfaceRecord,
    eta: &[f64],
    k: &[f64],
    outer: &[f64],
    wo: Vec3,
    wh: Vec3,
    lambda: f64,
) -> FloatResult
    ensures { result ≡ float_result (Counter.f_at (surface_with surface eta.now k.now outer.now) wo wh lambda) }
{
    FloatResult::from(counter::f_at(&lent(surface, eta, k, outer), wo, wh, lambda))
}

pub fn rulvimba_fresnel(
    surface: SurfaceRecord,
    eta: &[f64],
    k: &[f64],
    outer: &[f64],
    wo: Vec3,
    wh: Vec3,
    lambda: Color,
) -> ColorResult
    ensures { result ≡ color_result (Counter.f (surface_with surface eta.now k.now outer.now) wo wh lambda) }
{
    ColorResult::from(counter::f(&lent(surface, eta, k, outer), wo, wh, lambda))
}

// ---- sampler, mirror, bend
pub fn rulvimba_sample_normal(
    surface: SurfaceRecord,
    eta: &[f64],
    k: &[f64],
    outer: &[f64],
    wo: Vec3,
    disk: f64,
    c: f64,
    s: f64,
) -> Vec3Result
    ensures { result ≡ vec3_result (Counter.sample_normal (surface_with surface eta.now k.now outer.now) wo disk c s) }
{
    Vec3Result::from(counter::sample_normal(
        &lent(surface, eta, k, outer),
        wo,
        DiskPoint { disk, c, s },
    ))
}

pub fn rulvimba_reflect(wo: Vec3, n: Vec3) -> DirectionResult
    ensures { result ≡ direction_result (Counter.reflect wo n) }
{
    DirectionResult::from(counter::reflect(wo, n))
}

pub fn rulvimba_refract(eta: f64, wo: Vec3, n: Vec3) -> DirectionResult
    ensures { result ≡ direction_result (Counter.refract eta wo n) }
{
    DirectionResult::from(counter::refract(eta, wo, n))
}

// ---- density
pub fn rulvimba_density(
    surface: SurfaceRecord,
    eta: &[f64],
    k: &[f64],
    outer: &[f64],
    wo: Vec3,
    wi: Vec3,
    reflection: bool,
    lambda: f64,
) -> FloatResult
    ensures { result ≡ float_result (Counter.pdf (surface_with surface eta.now k.now outer.now) wo wi reflection lambda) }
{
    FloatResult::from(counter::pdf(&lent(surface, eta, k, outer), wo, wi, reflection, lambda))
}
