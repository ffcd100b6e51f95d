// The thin form of a bounce: the caller's path is updated through a reference.
ghost use Rattle.std.specs.Prelude.{◌≡◌};
ghost use Rattle.path.specs.Answer.{outcome, bounce, path_of};

use crate::bsdf;
use crate::records::{Bounce, Bounced, Path};
use optics::microfacet::Microsurface;

// A bounce of the caller's path, which is then the path that the answer carries: the same as before
// if the bounce is refused.
pub fn bounce_on(path: &mut Path, m: &Microsurface<'_>, b: Bounce) -> Bounced
    ensures { (outcome result ≡ bounce path.old m.now b) × (path.new ≡ path_of (outcome result)) }
{
    let before = *path;
    let answer = bsdf::bounce(before, m, b);
    *path = answer.path;
    answer
}
