// The checks of a bounce (document 01, "At the counter") but the surface's, in its order: the path, then
// the bounce's other arguments.
ghost use Rattle.std.specs.Prelude.{◌≡◌};
ghost use Rattle.floats.specs.Float.{within, f0, f1};
ghost use Rattle.numbers.specs.Refusal.{verdict};
ghost use Rattle.optics.specs.Color.{all4};
ghost use Rattle.path.specs.Bounce.{check_rest};

use crate::records::{Bounce, Path};
use crate::wavelength;
use floats::float;
use numbers::checked::check_direction;
use numbers::refusal::{Check, Refusal, refuse};
use optics::check::{check_circle_pair, check_random};
use optics::color::Color;

// Whether each of four numbers lies from 0 to 1.
fn all_shares(a: Color) -> bool
    ensures { result ≡ all4 (within f0 f1) a }
{
    a.all(|x| float::within(0.0, 1.0, x))
}

#[tactic(auto, unfolding(crate::specs::Bounce::check_rest, crate::specs::Path::is_power, crate::specs::Path::is_filter, numbers::specs::Refusal::number))]
pub(crate) fn check_rest(path: Path, b: Bounce) -> Check
    ensures { verdict result ≡ check_rest path b }
{
    refuse(Refusal::Wavelength, wavelength::is_path_lambda(path.lambda))?;
    refuse(Refusal::Power, all_shares(path.power))?;
    check_direction(b.wo)?;
    check_direction(b.normal)?;
    check_random(b.u)?;
    check_random(b.disk)?;
    check_circle_pair(b.c, b.s)?;
    refuse(Refusal::Filter, all_shares(b.ks))?;
    refuse(Refusal::Filter, all_shares(b.tf))
}
