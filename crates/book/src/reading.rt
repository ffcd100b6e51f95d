// Reading a book.
ghost use Rattle.std.specs.Prelude.{◌≡◌, ◌<◌, ◌≤◌, ◌+◌, ◌-◌, true, IfOk};
ghost use Rattle.std.specs.List.{list_any};
ghost use Rattle.numbers.specs.Refusal.{verdict, answer};
ghost use Rattle.book.specs.Layout.{surfaces_max, parts, parts_from, part_at, count_in, is_part, is_book, none_equal};
ghost use Rattle.book.specs.Surfaces.{surface_in, equal_for_reading, check_read, check_all};
ghost use Rattle.book.specs.Book.{surfaces_in, check_book, read_book};
ghost use Rattle.book.specs.Record.{counted, read_to};

use crate::record::{PLACES, Record};
use crate::{bytes, equality, layout, record};
use numbers::refusal::{Check, Refusal, refuse};
use optics::check::{check_spectra, is_roughness_given};
use optics::microfacet::{Kind, Spectra};

// Whether a later part is equal to the one at `i`.
#[tactic(auto, using(crate::proofs::reading::Rest::has_count))]
fn comes_again(b: &[u8], i: usize) -> bool
    requires { (is_book b.now ≡ true) × (i < count_in b.now) }
    ensures { result
        ≡ list_any (λ q. equal_for_reading q (part_at b.now i)) (parts_from b.now (i + 1) (count_in b.now - (i + 1))) }
{
    let n = layout::count_in(b);
    let part = layout::part_at(b, i);
    for j in i + 1..n {
        if equality::equal_for_reading(layout::part_at(b, j), part) {
            return true;
        }
    }
    false
}

// Whether no part is equal to an earlier one.
#[tactic(auto, using(crate::proofs::reading::Rest::has_count))]
fn none_equal(b: &[u8]) -> bool
    requires { is_book b.now ≡ true }
    ensures { result ≡ none_equal equal_for_reading (parts b.now) }
{
    let n = layout::count_in(b);
    for i in 0..n {
        if comes_again(b, i) {
            return false;
        }
    }
    true
}

// The checks of a part's surface. Its roughness stands as it was given, and is kept when raised. By hand, no record of it:
// that takes as long again as all the checks, and more.
#[tactic(auto, using(crate::proofs::reading::Given::part_checks, crate::proofs::layout::OnePart::long_part), unfolding(numbers::specs::Refusal::number))]
fn check_part(part: &[u8]) -> Check
    requires { is_part part.now ≡ true }
    ensures { verdict result ≡ check_read (surface_in part.now) }
{
    refuse(
        Refusal::Roughness,
        is_roughness_given(bytes::double_at(part, 3)),
    )?;
    let n = layout::samples_of(part[1]);
    let mut eta = [0.0; PLACES];
    let mut k = [0.0; PLACES];
    let mut air = [0.0; PLACES];
    bytes::spectrum(&mut eta, part, 11, n);
    bytes::spectrum(&mut k, part, 11 + 8 * n, n);
    record::ones(&mut air, n);
    let spectra = Spectra::new(&eta[..n], &k[..n], &air[..n]);
    check_spectra(Kind::of_code(part[0] as u64), &spectra)
}

// The checks of each part's surface in order.
#[tactic(auto, using(crate::proofs::reading::Rest::has_count))]
fn check_parts(b: &[u8]) -> Check
    requires { is_book b.now ≡ true }
    ensures { verdict result ≡ check_all check_read (surfaces_in b.now) }
{
    let n = layout::count_in(b);
    for i in 0..n {
        check_part(layout::part_at(b, i))?;
    }
    Ok(())
}

// Whether bytes are a book whose surfaces are accepted, and no two of them equal.
#[tactic(auto, unfolding(crate::specs::Book::check_book, numbers::specs::Refusal::number))]
pub fn check_book(b: &[u8]) -> Check
    ensures { verdict result ≡ check_book b.now }
{
    let is_laid_out = layout::is_book(b) && none_equal(b);
    refuse(Refusal::Book, is_laid_out)?;
    check_parts(b)
}

// How many surfaces the book has. Those from the one at `first` on are stored, as many as there are places; a refusal
// leaves the places as they were.
#[tactic(auto, unfolding(crate::specs::Book::read_book))]
pub fn read(b: &[u8], first: usize, out: &mut [Record]) -> Result<usize, Refusal>
    ensures count { answer result ≡ counted (read_book b.now) }
    ensures places { out.new ≡ read_to b.now first out.old }
    ensures bound { IfOk result (λ n. n ≤ surfaces_max) }
{
    check_book(b)?;
    let n = layout::count_in(b);
    let stored = n.saturating_sub(first).min(out.len());
    for i in 0..stored {
        out[i].read_part(layout::part_at(b, first + i));
    }
    Ok(n)
}
