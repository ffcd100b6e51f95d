// Many bounces on one surface in one call, from an array of doubles to another. Each bounce has a path
// of its own: 27 doubles in, 18 out.
ghost use Rattle.std.specs.Prelude.{◌≡◌, ◌++◌, ◌*◌, length, drop};
ghost use Rattle.path.specs.Many.{all_bounced, count_of};
ghost use Rattle.rulvimba.specs.Surfaces.{surface_with};

use crate::surfaces::{SurfaceRecord, lent};
use path::many;

// Runs as many bounces as both arrays have room for, and returns how many; what lies past their places
// in the output stays as it was.
pub fn rulvimba_bounces(
    surface: SurfaceRecord,
    eta: &[f64],
    k: &[f64],
    outer: &[f64],
    input: &[f64],
    output: &mut [f64],
) -> usize
    ensures { (result ≡ count_of (length input.now) (length output.old)) × (output.new ≡ all_bounced (surface_with surface eta.now k.now outer.now) input.now result ++ drop (18 * result) output.old) }
{
    many::bounces(&lent(surface, eta, k, outer), input, output)
}
