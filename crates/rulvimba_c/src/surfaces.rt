// Making and checking a surface.
ghost use Rattle.std.specs.Prelude.{◌≡◌};
ghost use Rattle.optics.specs.Surface.{kind_of, roughness_of, medium};
ghost use Rattle.optics.specs.Check.{check_surface};
ghost use Rattle.counter.specs.Counter as Counter;
ghost use Rattle.rulvimba.specs.Surfaces.{surface_with, surface_result};
ghost use Rattle.rulvimba.specs.Results.{check_number};

use rulvimba::surfaces::{SurfaceRecord, SurfaceResult};

// A surface from its kind, one roughness and its spectra.
#[unsafe(no_mangle)]
pub extern "C" fn rulvimba_make_surface(
    kind: u64,
    roughness: f64,
    eta: &[f64],
    k: &[f64],
    outer: &[f64],
) -> SurfaceResult
    ensures { result ≡ surface_result (Counter.make_surface (kind_of kind) (roughness_of kind roughness) eta.now k.now (medium outer.now)) }
{
    rulvimba::surfaces::rulvimba_make_surface(kind, roughness, eta, k, outer)
}

// The number that the fields of a surface are refused with, or 0.
#[unsafe(no_mangle)]
pub extern "C" fn rulvimba_check_surface(
    surface: SurfaceRecord,
    eta: &[f64],
    k: &[f64],
    outer: &[f64],
) -> u64
    ensures { result ≡ check_number (check_surface (surface_with surface eta.now k.now outer.now)) }
{
    rulvimba::surfaces::rulvimba_check_surface(surface, eta, k, outer)
}
