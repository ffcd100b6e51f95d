// Writing a book.
ghost use Rattle.std.specs.Prelude.{◌≡◌, ◌+◌, ◌≤◌, ◌<◌, ◌++◌, length, map, MatchOption, IfOk};
ghost use Rattle.std.specs.List.{list_any};
ghost use Rattle.numbers.specs.Refusal.{verdict, accepted, answer};
ghost use Rattle.numbers.specs.Written.{over};
ghost use Rattle.book.specs.Layout.{book_max};
ghost use Rattle.book.specs.Bytes.{word, put};
ghost use Rattle.book.specs.Surfaces.{part_bytes, check_written, check_all, equal_for_writing};
ghost use Rattle.book.specs.Book.{distinct, surfaces_of, written, write_book};
ghost use Rattle.book.specs.Steps.{is_new};
ghost use Rattle.book.specs.Record.{surface_of, offered, counted, written_to};

use crate::layout::BOOK_MAX;
use crate::record::Record;
use crate::{bytes, equality, layout};
use numbers::refusal::{Check, Refusal, refuse};

// The checks of each surface in order.
#[tactic(auto, using(crate::proofs::writing::Checked::one_passed, crate::proofs::writing::Checked::one_failed, crate::proofs::writing::Checked::none_left))]
fn check_surfaces(surfaces: &[Record]) -> Check
    ensures { verdict result ≡ check_all check_written (map offered surfaces.now) }
{
    for surface in surfaces {
        surface.check_written()?;
    }
    Ok(())
}

// Whether a surface is equal to one of the earlier ones.
fn is_among(surface: &Record, earlier: &[Record]) -> bool
    ensures { result ≡ list_any (λ r. equal_for_writing (surface_of surface.now) (surface_of r)) earlier.now }
{
    earlier
        .iter()
        .any(|r| equality::equal_for_writing(surface, r))
}

// Whether the surface at `i` is equal to no earlier one.
fn is_new(surfaces: &[Record], i: usize) -> bool
    requires { i < length surfaces.now }
    ensures { result ≡ is_new (map surface_of surfaces.now) i }
{
    !is_among(&surfaces[i], &surfaces[..i])
}

// How many parts a book has, and how many bytes.
#[derive(Clone, Copy)]
struct Size {
    parts: usize,
    bytes: usize,
}

// The size of the book of these surfaces; none where it is longer than a book may be.
#[tactic(auto, using(crate::proofs::writing::Checked::passed_at, crate::proofs::writing::Lengths::counting))]
fn size_of(surfaces: &[Record]) -> Option<Size>
    requires { check_all check_written (map offered surfaces.now) ≡ accepted }
    ensures { MatchOption result (book_max < length (written (map offered surfaces.now)))
        (λ size. (size.parts ≡ length (distinct (surfaces_of (map offered surfaces.now))))
        × ((size.bytes ≡ length (written (map offered surfaces.now))) × (size.bytes ≤ book_max))) }
{
    let mut size = Size { parts: 0, bytes: 4 };
    for i in 0..surfaces.len() {
        if is_new(surfaces, i) {
            size.parts += 1;
            size.bytes += 8 + surfaces[i].part_length();
            if size.bytes > BOOK_MAX {
                return None;
            }
        }
    }
    Some(size)
}

// A surface's part to the place `at`, and its pair to the place `pair`: where the part is and how long. The place behind it.
fn put_one(surface: &Record, pair: usize, at: usize, buf: &mut [u8]) -> usize
    requires checked { check_written (offered surface.now) ≡ accepted }
    requires apart { pair + 8 ≤ at }
    requires room { at + length (part_bytes (surface_of surface.now)) ≤ length buf.old }
    requires small { at + length (part_bytes (surface_of surface.now)) ≤ book_max }
    ensures buffer { let part = part_bytes (surface_of surface.now) in buf.new ≡ put (put buf.old pair (word at ++ word (length part))) at part }
    ensures end { result ≡ at + length (part_bytes (surface_of surface.now)) }
{
    let length = surface.part_length();
    bytes::put_word(buf, pair, at);
    bytes::put_word(buf, pair + 4, length);
    let end = at + length;
    surface.put_part(&mut buf[at..end]);
    end
}

// The book over the front of the buffer: the count, then for each surface that isn't left out its pair and its part.
#[tactic(auto, using(crate::proofs::writing::Checked::passed_at, crate::proofs::writing::Lengths::counting))]
fn put_book(surfaces: &[Record], size: Size, buf: &mut [u8])
    requires checked { check_all check_written (map offered surfaces.now) ≡ accepted }
    requires parts { size.parts ≡ length (distinct (surfaces_of (map offered surfaces.now))) }
    requires bytes { size.bytes ≡ length (written (map offered surfaces.now)) }
    requires room { (size.bytes ≤ length buf.old) × (size.bytes ≤ book_max) }
    ensures { buf.new ≡ over (written (map offered surfaces.now)) buf.old }
{
    let mut pair = 4;
    let mut at = layout::parts_start(size.parts);
    bytes::put_word(buf, 0, size.parts);
    for i in 0..surfaces.len() {
        if is_new(surfaces, i) {
            at = put_one(&surfaces[i], pair, at, buf);
            pair += 8;
        }
    }
}

// How many bytes the book of these surfaces has, which then stands at the front of the buffer. A surface that is equal to
// an earlier one is left out. A refusal leaves the buffer as it was.
#[tactic(auto, unfolding(crate::specs::Book::write_book, crate::specs::Book::check_writing, crate::specs::Record::written_to, numbers::specs::Refusal::unless_refused, numbers::specs::Refusal::number))]
pub fn write(surfaces: &[Record], buf: &mut [u8]) -> Result<usize, Refusal>
    ensures length { answer result ≡ counted (write_book (map offered surfaces.now) (length buf.old)) }
    ensures buffer { buf.new ≡ written_to (map offered surfaces.now) buf.old }
    ensures bound { IfOk result (λ n. n ≤ length buf.old) }
{
    check_surfaces(surfaces)?;
    let size = size_of(surfaces).ok_or(Refusal::Book)?;
    refuse(Refusal::Book, size.bytes <= buf.len())?;
    put_book(surfaces, size, buf);
    Ok(size.bytes)
}
