// A material book in the caller's memory, and calls on its surfaces.
ghost use Rattle.std.specs.Prelude.{◌≡◌};
ghost use Rattle.optics.specs.Check.{check_surface};
ghost use Rattle.book.specs.Surfaces.{offered_on};
ghost use Rattle.book.specs.Record.{offered};
ghost use Rattle.rulvimba.specs.Results.{check_number};
ghost use Rattle.rulvimba.specs.Books.{ReadCall, WriteCall};
ghost use Rattle.rulvimba.specs.Calls.{BookBounceCall, surface_of_book};

use book::record::Record;
use path::plain::BounceResult;
use path::records::Bounce;
use rulvimba::books::CountResult;
use rulvimba::surfaces::SurfaceRecord;

// Reads a book's surfaces from the one at `first` on; a refusal leaves the records as they were.
#[unsafe(no_mangle)]
pub extern "C" fn rulvimba_read_book(
    book: &[u8],
    first: usize,
    surfaces: &mut [Record],
) -> CountResult
    ensures { ReadCall book.now first surfaces.old result surfaces.new }
{
    rulvimba::books::rulvimba_read_book(book, first, surfaces)
}

// Writes a book of surfaces over the front of the buffer; a refusal leaves the buffer as it was.
#[unsafe(no_mangle)]
pub extern "C" fn rulvimba_write_book(surfaces: &[Record], buffer: &mut [u8]) -> CountResult
    ensures { WriteCall surfaces.now buffer.old result buffer.new }
{
    rulvimba::books::rulvimba_write_book(surfaces, buffer)
}

// The number that a book's surface is refused with, or 0.
#[unsafe(no_mangle)]
pub extern "C" fn rulvimba_check_book_surface(surface: &Record) -> u64
    ensures { result ≡ check_number (check_surface (offered_on (offered surface.now))) }
{
    rulvimba::books::rulvimba_check_book_surface(surface)
}

// The surface of every other call; one whose roughness isn't as it was given has one that is refused as 1.
#[unsafe(no_mangle)]
pub extern "C" fn rulvimba_surface_of_book(surface: &Record) -> SurfaceRecord
    ensures { result ≡ surface_of_book surface.now }
{
    rulvimba::books::rulvimba_surface_of_book(surface)
}

// A bounce of the path on a book's surface; a refusal leaves the memory as it was.
#[unsafe(no_mangle)]
pub extern "C" fn rulvimba_book_bounce(
    path: &mut [f64; 8],
    surface: &Record,
    b: Bounce,
) -> BounceResult
    ensures { BookBounceCall path.old surface.now b result path.new }
{
    rulvimba::books::rulvimba_book_bounce(path, surface, b)
}
