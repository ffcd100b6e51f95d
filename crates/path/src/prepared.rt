// A surface as a call finds it once, for one bounce or many: whether it is accepted, and what is then known of its
// spectra.
ghost use Rattle.std.specs.Prelude.{◌≡◌};
ghost use Rattle.numbers.specs.Refusal.{answer};
ghost use Rattle.path.specs.Known.{found, found_on};

use numbers::refusal::Refusal;
use optics::check::check_surface;
use optics::microfacet::{Kind, Known, Microsurface};

// What is known of an accepted surface's spectra: on metal nothing asks more than their step.
#[derive(Clone, Copy)]
pub(crate) enum Found {
    Metal { step: f64 },
    Glass(Known),
}

// A surface with what its check and its spectra gave.
#[derive(Drop)]
pub(crate) struct Prepared<'m, 's> {
    pub(crate) surface: &'m Microsurface<'s>,
    pub(crate) found: Result<Found, Refusal>,
    ghost is_found: { answer found ≡ Rattle.path.specs.Known.found surface.now },
}

impl<'m, 's> Prepared<'m, 's> {
    pub(crate) fn new(surface: &'m Microsurface<'s>) -> Self
        ensures { result.surface.now ≡ surface.now }
    {
        Prepared {
            surface,
            found: find(surface),
        }
    }
}

// What a surface gives, if it is accepted.
#[tactic(auto, unfolding(crate::specs::Known::found))]
fn find(m: &Microsurface<'_>) -> Result<Found, Refusal>
    ensures { answer result ≡ found m.now }
{
    check_surface(m)?;
    Ok(found_on(m))
}

#[tactic(auto, unfolding(crate::specs::Known::found_on))]
pub(crate) fn found_on(m: &Microsurface<'_>) -> Found
    ensures { result ≡ found_on m.now.kind m.now.eta m.now.outside }
{
    match m.surface.kind {
        Kind::Metal => Found::Metal {
            step: m.spectra.eta.step(),
        },
        Kind::Glass => Found::Glass(Known::on_glass(&m.spectra)),
    }
}
