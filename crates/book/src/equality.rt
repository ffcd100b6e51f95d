// When two surfaces of a book are equal: by kind, raised roughness and spectra, numbers by value.
ghost use Rattle.std.specs.Prelude.{◌≡◌, ◌&&◌, true};
ghost use Rattle.std.specs.Float.Ieee.{eq};
ghost use Rattle.optics.specs.Surface.{raised};
ghost use Rattle.book.specs.Layout.{is_part};
ghost use Rattle.book.specs.Surfaces.{same_values, equal_for_writing, equal_for_reading};
ghost use Rattle.book.specs.Record.{surface_of};

use crate::record::Record;
use crate::{bytes, layout};
use optics::check;

// Whether the two are of one roughness, raised.
fn same_roughness(r: &Record, s: &Record) -> bool
    ensures { result ≡ eq (raised (surface_of r.now).given) (raised (surface_of s.now).given) }
{
    check::raised(r.given()) == check::raised(s.given())
}

// Whether their spectra are equal, eta and k.
#[tactic(auto, unfolding(crate::specs::Surfaces::same_values))]
fn same_spectra(r: &Record, s: &Record) -> bool
    ensures { let a = surface_of r.now in let b = surface_of s.now in result ≡ (same_values a.eta b.eta && same_values a.k b.k) }
{
    r.eta() == s.eta() && r.k() == s.k()
}

// Of two surfaces to be written.
#[tactic(auto, unfolding(crate::specs::Surfaces::equal_for_writing, crate::specs::Surfaces::equal_surfaces), using(crate::proofs::equality::OfSurfaces::same_kind))]
pub(crate) fn equal_for_writing(r: &Record, s: &Record) -> bool
    ensures { result ≡ equal_for_writing (surface_of r.now) (surface_of s.now) }
{
    r.kind() == s.kind() && same_roughness(r, s) && same_spectra(r, s)
}

// Of two parts that are read. Of equal steps their entries stand at equal places, eta's and then k's.
#[tactic(auto, using(crate::proofs::layout::OnePart::long_part))]
pub(crate) fn equal_for_reading(p: &[u8], q: &[u8]) -> bool
    requires { (is_part p.now ≡ true) × (is_part q.now ≡ true) }
    ensures { result ≡ equal_for_reading p.now q.now }
{
    if p[0] != q[0] || p[1] != q[1] {
        return false;
    }
    if check::raised(bytes::double_at(p, 3)) != check::raised(bytes::double_at(q, 3)) {
        return false;
    }
    bytes::same_doubles(p, q, 11, 2 * layout::samples_of(p[1]))
}
