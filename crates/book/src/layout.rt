// The layout of a book's bytes: the count, a pair of offset and length for each part, then the parts without gaps.
ghost use Rattle.std.specs.Prelude.{◌≡◌, ◌+◌, ◌*◌, ◌^◌, ◌==◌, ◌≤◌, ◌<◌, true, length};
ghost use Rattle.numbers.specs.DenseSpectrum.{fine_samples};
ghost use Rattle.book.specs.Bytes.{word_at};
ghost use Rattle.book.specs.Layout.{parts_start, count_in, part_at, samples_of, step_for, is_step, part_length, is_part, is_book};

use crate::bytes;
use numbers::dense_spectrum::DenseSpectrum;
use optics::microfacet::Kind;

// A book is no longer than this.
pub const BOOK_MAX: usize = 65536;

// The most surfaces that a book has: one more, of the coarser spectra, would make it longer than that.
pub const SURFACES_MAX: usize = 42;

// What stands for the spacings of a spectrum's entries, in nanometres.
const STEP: u8 = 5;

const FINE_STEP: u8 = 1;

// Where the parts of a book begin that has so many.
pub(crate) fn parts_start(n: usize) -> usize
    requires { n < 2 ^ 32 }
    ensures { result ≡ parts_start n }
{
    4 + 8 * n
}

// How many entries a spectrum of a step has.
#[tactic(auto, unfolding(crate::specs::Layout::samples_of))]
pub(crate) fn samples_of(step: u8) -> usize
    ensures { (result ≡ samples_of step) × (result ≤ fine_samples) }
{
    if step == FINE_STEP {
        return DenseSpectrum::FINE_SAMPLES;
    }
    DenseSpectrum::SAMPLES
}

// The step of so many entries.
#[tactic(auto, unfolding(crate::specs::Layout::step_for))]
pub(crate) fn step_for(samples: usize) -> u8
    ensures { result ≡ step_for samples }
{
    if samples == DenseSpectrum::FINE_SAMPLES {
        return FINE_STEP;
    }
    STEP
}

// How many bytes a part has whose spectra have so many entries.
#[tactic(auto, unfolding(crate::specs::Layout::part_length))]
pub(crate) fn part_length(samples: usize) -> usize
    requires { samples ≤ fine_samples }
    ensures { result ≡ part_length samples }
{
    11 + 16 * samples
}

// Whether bytes are a part: kind, step and flag, and as many bytes as the step says.
#[tactic(auto, using(crate::proofs::layout::OnePart::part_over_ten), unfolding(crate::specs::Layout::is_part, crate::specs::Layout::is_step, optics::specs::Surface::kind_read))]
fn is_part(p: &[u8]) -> bool
    ensures { result ≡ is_part p.now }
{
    let [kind, step, flag, ..] = p else {
        return false;
    };
    Kind::try_from(*kind as u64).is_ok()
        && (*step == STEP || *step == FINE_STEP)
        && *flag <= 1
        && p.len() == part_length(samples_of(*step))
}

// How many parts the book has.
#[tactic(auto, unfolding(crate::specs::Layout::count_in))]
pub(crate) fn count_in(b: &[u8]) -> usize
    requires { 4 ≤ length b.now }
    ensures { (result ≡ count_in b.now) × (result < 2 ^ 32) }
{
    bytes::word_at(b, 0)
}

// Where the part at `i` begins, as its pair says.
fn offset_at(b: &[u8], i: usize) -> usize
    requires { 12 + 8 * i ≤ length b.now }
    ensures { (result ≡ word_at b.now (4 + 8 * i)) × (result < 2 ^ 32) }
{
    bytes::word_at(b, 4 + 8 * i)
}

// How long it is, as its pair says.
fn length_at(b: &[u8], i: usize) -> usize
    requires { 12 + 8 * i ≤ length b.now }
    ensures { (result ≡ word_at b.now (8 + 8 * i)) × (result < 2 ^ 32) }
{
    bytes::word_at(b, 8 + 8 * i)
}

// Whether it begins at a place.
fn begins_at(b: &[u8], i: usize, at: usize) -> bool
    requires { 12 + 8 * i ≤ length b.now }
    ensures { result ≡ (word_at b.now (4 + 8 * i) == at) }
{
    offset_at(b, i) == at
}

// Whether bytes are a book: each offset is where the part before ends, and the last part ends with the book.
#[tactic(auto, using(crate::proofs::layout::PairByPair::book_room, crate::proofs::layout::PairByPair::next_pair, crate::proofs::layout::PairByPair::last_pair))]
pub(crate) fn is_book(b: &[u8]) -> bool
    ensures { result ≡ is_book b.now }
{
    if b.len() < 4 || b.len() > BOOK_MAX {
        return false;
    }
    let n = count_in(b);
    let start = parts_start(n);
    if b.len() < start {
        return false;
    }
    let mut at = start;
    for i in 0..n {
        if !begins_at(b, i, at) {
            return false;
        }
        let end = at + length_at(b, i);
        if b.len() < end || !is_part(&b[at..end]) {
            return false;
        }
        at = end;
    }
    at == b.len()
}

// The part at `i` of a book.
#[tactic(auto, using(crate::proofs::layout::PairByPair::book_room))]
pub(crate) fn part_at(b: &[u8], i: usize) -> &[u8]
    requires { (is_book b.now ≡ true) × (i < count_in b.now) }
    ensures { (result.now ≡ part_at b.now i) × (is_part result.now ≡ true) }
{
    let from = offset_at(b, i);
    let end = from + length_at(b, i);
    &b[from..end]
}
