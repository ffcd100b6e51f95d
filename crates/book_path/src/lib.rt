// Bounces on the surfaces of a material book: two-sided metal ignores the backface flag (document 02, vi).
#![tactic(auto)]

ghost use Rattle.std.specs.Prelude.{◌≡◌};
ghost use Rattle.path.specs.Answer.{outcome};
ghost use Rattle.book.specs.Record.{surface_of, offered};
ghost use Rattle.book_path.specs.BookBounce.{ignores_backface, faced, bounce_on_book};

use book::record::Record;
use optics::microfacet::Kind;
use path::bsdf;
use path::records::{Bounce, Bounced, Path};

// Whether the surface ignores the backface flag.
#[tactic(auto, unfolding(crate::specs::BookBounce::ignores_backface))]
fn ignores_backface(surface: &Record) -> bool
    ensures { result ≡ ignores_backface (surface_of surface.now).kind (surface_of surface.now).two_sided }
{
    match surface.kind() {
        Kind::Metal => surface.is_two_sided(),
        Kind::Glass => false,
    }
}

// The bounce as the surface takes it.
fn faced(surface: &Record, b: Bounce) -> Bounce
    ensures { result ≡ faced (surface_of surface.now) b }
{
    let backface = b.backface & !ignores_backface(surface);
    Bounce { backface, ..b }
}

// A bounce of `path` on a book's surface.
#[tactic(auto, unfolding(crate::specs::BookBounce::bounce_on_book, book::specs::Record::offered))]
pub fn bounce(path: Path, surface: &Record, b: Bounce) -> Bounced
    ensures { outcome result ≡ bounce_on_book path (offered surface.now) b }
{
    bsdf::bounce(path, &surface.lent(), faced(surface, b))
}
