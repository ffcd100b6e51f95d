// The thin form of a bounce: the path is in the caller's memory, which then has the path that the answer
// carries.
ghost use Rattle.std.specs.Prelude.{◌≡◌};
ghost use Rattle.path.specs.Answer.{bounce, path_of};
ghost use Rattle.path.specs.Plain.{bounce_result};
ghost use Rattle.rulvimba.specs.Surfaces.{surface_with};

use path::plain::BounceResult;
use path::records::{Bounce, Path};
use path::thin;
use rulvimba::surfaces::{SurfaceRecord, lent};

#[unsafe(no_mangle)]
pub extern "C" fn path_bounce_on(
    path: &mut Path,
    surface: SurfaceRecord,
    eta: &[f64],
    k: &[f64],
    outer: &[f64],
    b: Bounce,
) -> BounceResult
    ensures { (result ≡ bounce_result (bounce path.old (surface_with surface eta.now k.now outer.now) b)) × (path.new ≡ path_of (bounce path.old (surface_with surface eta.now k.now outer.now) b)) }
{
    BounceResult::from(thin::bounce_on(path, &lent(surface, eta, k, outer), b))
}
