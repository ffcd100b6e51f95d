// A material book in the caller's memory, and calls on its surfaces, which are records of fixed size (the crate `book` has
// them so, for C too).
ghost use Rattle.std.specs.Prelude.{◌≡◌};
ghost use Rattle.numbers.specs.Refusal.{answer};
ghost use Rattle.optics.specs.Check.{check_surface};
ghost use Rattle.book.specs.Surfaces.{offered_on};
ghost use Rattle.book.specs.Record.{offered};
ghost use Rattle.rulvimba.specs.Results.{check_number};
ghost use Rattle.rulvimba.specs.Books.{count_result, ReadCall, WriteCall};
ghost use Rattle.rulvimba.specs.Calls.{BookBounceCall, surface_of_book};

use crate::paths::{keep, load};
use crate::records::{number_and, number_of};
use crate::surfaces::SurfaceRecord;
use book::record::Record;
use book::{reading, writing};
use numbers::refusal::Refusal;
use optics::check;
use path::plain::BounceResult;
use path::records::Bounce;

// How many surfaces a book has, or how many bytes, and the number, 0 where the call is accepted.
#[repr(C)]
#[derive(Clone, Copy)]
pub struct CountResult {
    pub number: u64,
    pub count: usize,
}

impl From<Result<usize, Refusal>> for CountResult {
    ghost from_gives = { λ a r. r ≡ count_result (answer a) };

    #[tactic(auto, unfolding(crate::specs::Books::count_result))]
    fn from(a: Result<usize, Refusal>) -> CountResult {
        let (number, count) = number_and(a, 0);
        CountResult { number, count }
    }
}

// Reads a book's surfaces from the one at `first` on; a refusal leaves the records as they were.
pub fn rulvimba_read_book(book: &[u8], first: usize, surfaces: &mut [Record]) -> CountResult
    ensures { ReadCall book.now first surfaces.old result surfaces.new }
{
    CountResult::from(reading::read(book, first, surfaces))
}

// Writes a book of surfaces over the front of the buffer; a refusal leaves the buffer as it was.
pub fn rulvimba_write_book(surfaces: &[Record], buffer: &mut [u8]) -> CountResult
    ensures { WriteCall surfaces.now buffer.old result buffer.new }
{
    CountResult::from(writing::write(surfaces, buffer))
}

// The number that a book's surface is refused with, or 0.
pub fn rulvimba_check_book_surface(surface: &Record) -> u64
    ensures { result ≡ check_number (check_surface (offered_on (offered surface.now))) }
{
    number_of(check::check_surface(&surface.lent()))
}

// The surface of every other call; one whose roughness isn't as it was given has one that is refused as 1.
pub fn rulvimba_surface_of_book(surface: &Record) -> SurfaceRecord
    ensures { result ≡ surface_of_book surface.now }
{
    SurfaceRecord::from(surface.lent().surface)
}

// A bounce of the path on a book's surface; a refusal leaves the memory as it was.
pub fn rulvimba_book_bounce(path: &mut [f64; 8], surface: &Record, b: Bounce) -> BounceResult
    ensures { BookBounceCall path.old surface.now b result path.new }
{
    let answer = book_path::bounce(load(path), surface, b);
    keep(path, answer);
    BounceResult::from(answer)
}
