// A path in the caller's memory.
ghost use Rattle.rulvimba.specs.Paths.{StartCall, BounceCall};

use optics::color::Color;
use path::plain::BounceResult;
use path::records::Bounce;
use rulvimba::surfaces::SurfaceRecord;

// Starts a path at four wavelengths; a refusal leaves the memory as it was.
#[unsafe(no_mangle)]
pub extern "C" fn rulvimba_start(path: &mut [f64; 8], lambda: Color) -> u64
    ensures { StartCall path.old lambda result path.new }
{
    rulvimba::paths::rulvimba_start(path, lambda)
}

// A bounce of the path; a refusal leaves the memory as it was.
#[unsafe(no_mangle)]
pub extern "C" fn rulvimba_bounce(
    path: &mut [f64; 8],
    surface: SurfaceRecord,
    eta: &[f64],
    k: &[f64],
    outer: &[f64],
    b: Bounce,
) -> BounceResult
    ensures { BounceCall path.old surface eta.now k.now outer.now b result path.new }
{
    rulvimba::paths::rulvimba_bounce(path, surface, eta, k, outer, b)
}
