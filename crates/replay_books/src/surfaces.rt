// Surfaces of books in memory, and what is read and written of them.
use crate::command::{Change, Field, Must};
use book::record::Record;
use book::{reading, writing};
use floats::patterns;
use numbers::dense_spectrum::DenseSpectrum;
use numbers::vec2::Vec2;
use std::alloc::{AllocError, Global};

// What a buffer has where nothing was written.
const MARK: u8 = 0xa5;

// A place for a surface.
fn blank() -> Record {
    Record {
        kind: 0,
        two_sided: 0,
        given: 0.0,
        roughness: Vec2 { x: 0.0, y: 0.0 },
        entries: 0,
        eta: [0.0; DenseSpectrum::FINE_SAMPLES],
        k: [0.0; DenseSpectrum::FINE_SAMPLES],
        outer: [0.0; DenseSpectrum::FINE_SAMPLES],
    }
}

// Puts the surfaces of a book behind those of a list, one read after the other. Of a refused book there are none.
pub fn add(list: &mut Vec<Record>, bytes: &[u8]) -> Result<(), AllocError> {
    let n = reading::read(bytes, 0, &mut []).unwrap_or(0);
    for i in 0..n {
        let mut place = [blank()];
        let _ = reading::read(bytes, i, &mut place);
        list.push(place[0])?;
    }
    Ok(())
}

// The surfaces of a book, all of them read at once.
fn all(alloc: Global, bytes: &[u8]) -> Result<Vec<Record>, AllocError> {
    let n = reading::read(bytes, 0, &mut []).unwrap_or(0);
    let mut list = Vec::new(alloc);
    for _ in 0..n {
        list.push(blank())?;
    }
    let _ = reading::read(bytes, 0, &mut list);
    Ok(list)
}

// Puts a number into a field. A place that no spectrum has is passed over.
pub fn set(s: &mut Record, change: Change) {
    let bits = change.bits;
    let x = patterns::of_bits(bits);
    let at = change.place.min(DenseSpectrum::FINE_SAMPLES - 1);
    match change.field {
        Field::Kind => s.kind = bits,
        Field::TwoSided => s.two_sided = bits,
        Field::Given => s.given = x,
        Field::X => s.roughness.x = x,
        Field::Y => s.roughness.y = x,
        Field::Entries => s.entries = bits as usize,
        Field::Eta => s.eta[at] = x,
        Field::K => s.k[at] = x,
        Field::Outer => s.outer[at] = x,
    }
}

// Whether a list is written to so many bytes as it must be: the book in front, and all else as it was.
pub fn is_written(
    alloc: Global,
    list: &[Record],
    room: usize,
    must: Must,
    book: &[u8],
) -> Result<bool, AllocError> {
    let mut buf = vec![in alloc; MARK; room]?;
    let answer = writing::write(list, &mut buf);
    let is_rest_kept = buf.iter().skip(book.len()).all(|b| *b == MARK);
    Ok(must.is(answer) && buf.starts_with(book) && is_rest_kept)
}

// Whether a book is written again as it is, of surfaces that were read at once and of ones that were read one by one.
pub fn is_written_again(alloc: Global, bytes: &[u8]) -> Result<bool, AllocError> {
    let mut one_by_one = Vec::new(alloc);
    add(&mut one_by_one, bytes)?;
    let at_once = all(alloc, bytes)?;
    let must = Must::count(bytes.len());
    Ok(
        is_written(alloc, &one_by_one, bytes.len(), must, bytes)?
            && is_written(alloc, &at_once, bytes.len(), must, bytes)?,
    )
}
