// Numbers and doubles as bytes, low byte first.
ghost use Rattle.std.specs.Prelude.{◌≡◌, ◌+◌, ◌*◌, ◌≤◌, ◌<◌, ◌^◌, length, take, drop};
ghost use Rattle.numbers.specs.DenseSpectrum.{fine_samples};
ghost use Rattle.book.specs.Bytes.{word, word_at, double, double_in, doubles, doubles_in, put};
ghost use Rattle.book.specs.Surfaces.{same_values};
ghost use Rattle.book.specs.Record.{laid};

use floats::patterns;
use numbers::dense_spectrum::DenseSpectrum;

// The places of a spectrum in fixed memory.
pub const PLACES: usize = DenseSpectrum::FINE_SAMPLES;

// The number in the four bytes from `at` on.
pub(crate) fn word_at(b: &[u8], at: usize) -> usize
    requires { at + 4 ≤ length b.now }
    ensures { (result ≡ word_at b.now at) × (result < 2 ^ 32) }
{
    u32::from_le_bytes([b[at], b[at + 1], b[at + 2], b[at + 3]]) as usize
}

// The double in the eight bytes from `at` on.
pub(crate) fn double_at(b: &[u8], at: usize) -> f64
    requires { at + 8 ≤ length b.now }
    ensures { result ≡ double_in (take 8 (drop at b.now)) }
{
    patterns::of_bits(u64::from_le_bytes([
        b[at],
        b[at + 1],
        b[at + 2],
        b[at + 3],
        b[at + 4],
        b[at + 5],
        b[at + 6],
        b[at + 7],
    ]))
}

// Fills a spectrum's places: the `n` doubles from the place `from` on, and then zeros. In place: handed back by value they
// were copied, and reading a book took twice as long.
pub(crate) fn spectrum(places: &mut [f64; PLACES], b: &[u8], from: usize, n: usize)
    requires { (from + 8 * n ≤ length b.now) × (n ≤ fine_samples) }
    ensures { places.new ≡ laid (doubles_in n (drop from b.now)) }
{
    *places = [0.0; PLACES];
    for i in 0..n {
        places[i] = double_at(b, from + 8 * i);
    }
}

// Whether the `n` doubles of the two from the place `from` on are equal by value.
pub(crate) fn same_doubles(a: &[u8], b: &[u8], from: usize, n: usize) -> bool
    requires { (from + 8 * n ≤ length a.now) × (from + 8 * n ≤ length b.now) }
    ensures { result ≡ same_values (doubles_in n (drop from a.now)) (doubles_in n (drop from b.now)) }
{
    for i in 0..n {
        if double_at(a, from + 8 * i) != double_at(b, from + 8 * i) {
            return false;
        }
    }
    true
}

// Bytes, to the places from `at` on.
#[tactic(auto, using(crate::proofs::bytes::Sets::lent))]
pub(crate) fn put(buf: &mut [u8], at: usize, bytes: &[u8])
    requires { at + length bytes.now ≤ length buf.old }
    ensures { buf.new ≡ put buf.old at bytes.now }
{
    buf[at..at + bytes.len()].copy_from_slice(bytes);
}

// The four bytes of a number.
#[tactic(auto, unfolding(crate::specs::Bytes::word))]
pub(crate) fn put_word(buf: &mut [u8], at: usize, n: usize)
    requires { (at + 4 ≤ length buf.old) × (n < 2 ^ 32) }
    ensures { buf.new ≡ put buf.old at (word n) }
{
    put(buf, at, &(n as u32).to_le_bytes());
}

// The eight bytes of a double.
#[tactic(auto, unfolding(crate::specs::Bytes::double))]
pub(crate) fn put_double(buf: &mut [u8], at: usize, x: f64)
    requires { at + 8 ≤ length buf.old }
    ensures { buf.new ≡ put buf.old at (double x) }
{
    put(buf, at, &patterns::bits(x).to_le_bytes());
}

// The bytes of doubles, one after the other.
pub(crate) fn put_doubles(buf: &mut [u8], at: usize, xs: &[f64])
    requires { at + 8 * length xs.now ≤ length buf.old }
    ensures { buf.new ≡ put buf.old at (doubles xs.now) }
{
    for i in 0..xs.len() {
        put_double(buf, at + 8 * i, xs[i]);
    }
}
