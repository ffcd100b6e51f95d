// Text put into a buffer that the caller lends. What finds no room is left out.
ghost use Rattle.std.specs.Prelude.{◌≡◌, ◌+◌, ◌<◌, ◌≤◌, [], ◌++◌, length, decimal, IsOk, OnOk};
ghost use Rattle.text.specs.Digits.{glyph, hex_text};
ghost use Rattle.text.specs.Output.{put, number_text, numbers_text};

use floats::patterns;
use std::fmt;
use std::marker::Model;

// The first `used` bytes of a buffer are the text. By hand: the buffer is fixed memory that the caller lends, and a String
// would allocate.
#[derive(Drop)]
pub struct Output<'a> {
    bytes: &'a mut [u8],
    used: usize,
    ghost inside: { used ≤ length bytes.now },
}

impl<'a> Model for Output<'a> {
    ghost use Rattle.std.specs.Prelude.{◌-◌, length, take};
    ghost use Rattle.text.specs.Output.{Text};

    ghost Value = { Text };

    ghost view = { λ o. record { written = take o.used o.bytes.now; room = length o.bytes.now - o.used } };
}

const GLYPHS: &[u8; 16] = b"0123456789abcdef";

// The glyph of a hexadecimal digit. From a table: of a `match` with two ranges the compiler makes steps on all 16 digits in
// one wide register, and to gather them there takes longer than to look each up.
fn glyph(d: u8) -> u8
    ensures { d < 16 → result ≡ glyph d }
{
    GLYPHS[(d & 15) as usize]
}

// The 16 hexadecimal digits of some bits. By hand: with `{:016x}` a job of bounces takes a tenth more time. By index: behind
// `iter_mut().rev()` a proof knows no more of the array than its length.
#[tactic(auto, unfolding(crate::specs::Digits::hex_text))]
fn hex16(bits: u64) -> [u8; 16]
    ensures { result ≡ hex_text bits }
{
    let mut digits = [0; 16];
    let mut rest = bits;
    for i in (0..digits.len()).rev() {
        digits[i] = glyph((rest & 15) as u8);
        rest >>= 4;
    }
    digits
}

impl<'a> Output<'a> {
    // No text yet.
    pub fn new(bytes: &'a mut [u8]) -> Output<'a>
        ensures written { result.written ≡ [] }
        ensures room { result.room ≡ length bytes.old }
    {
        Output { bytes, used: 0 }
    }

    // The text so far.
    pub fn written(&self) -> &[u8]
        ensures { result.now ≡ self.now.written }
    {
        &self.bytes[..self.used]
    }

    // How many bytes more there is room for.
    pub fn room(&self) -> usize
        ensures { result ≡ self.now.room }
    {
        self.bytes.len() - self.used
    }

    // Begins anew.
    pub fn clear(&mut self)
        ensures written { self.new.written ≡ [] }
        ensures room { self.new.room ≡ self.old.room + length self.old.written }
    {
        self.used = 0;
    }

    // Puts a text that there is room for behind the one so far.
    #[inline(always)]
    fn whole(&mut self, text: &[u8])
        requires { length text.now ≤ self.old.room }
        ensures { self.new ≡ put self.old text.now }
    {
        let end = self.used + text.len();
        self.bytes[self.used..end].copy_from_slice(text);
        self.used = end;
    }

    // Puts a text behind the one so far. In two branches, and inlined as `whole` is: so a text of known length is stored
    // directly, with no call of `memcpy`.
    #[inline(always)]
    pub fn text(&mut self, text: &[u8])
        ensures { self.new ≡ put self.old text.now }
    {
        let room = self.room();
        if text.len() <= room {
            self.whole(text);
        } else {
            self.whole(&text[..room]);
        }
    }

    // The decimal digits of a value. std promises them where its writing succeeds, but not that it succeeds
    // wherever each `write_str` does: so of a failure, which never comes, nothing is said.
    fn write_decimal(&mut self, value: u64) -> fmt::Result
        ensures { OnOk result (self.new ≡ put self.old (decimal value)) }
    {
        fmt::Write::write(self, value)
    }

    // No clause, here and in `labelled`: std promises what was written only where it says that it was.
    pub fn decimal(&mut self, value: u64) {
        let _ = self.write_decimal(value);
    }

    // A text and a decimal behind it. Inlined, as `text` is.
    #[inline(always)]
    pub fn labelled(&mut self, label: &[u8], value: u64) {
        self.text(label);
        self.decimal(value);
    }

    // A blank and the number, where there may be no room for all.
    #[cold]
    #[inline(never)]
    #[tactic(auto, using(crate::proofs::output::Put::put_behind), unfolding(crate::specs::Output::number_text))]
    fn cut_number(&mut self, x: f64)
        ensures { self.new ≡ put self.old (number_text x) }
    {
        self.text(b" ");
        self.text(&hex16(patterns::bits(x)));
    }

    // A blank and the number. Where there is room, apart from `cut_number`: so the digits never lie in an array, and each
    // is stored into the buffer. A copy of an array has to wait until its single bytes are stored.
    #[tactic(auto, using(crate::proofs::output::Put::put_behind), unfolding(crate::specs::Output::number_text))]
    pub fn number(&mut self, x: f64)
        ensures { self.new ≡ put self.old (number_text x) }
    {
        if self.room() < 17 {
            self.cut_number(x);
        } else {
            self.whole(b" ");
            self.whole(&hex16(patterns::bits(x)));
        }
    }

    #[tactic(auto, using(crate::proofs::output::Put::one_more, crate::proofs::output::Put::put_nothing))]
    pub fn numbers(&mut self, values: &[f64])
        ensures { self.new ≡ put self.old (numbers_text values.now) }
    {
        for x in values {
            self.number(*x);
        }
    }

    // A text and numbers behind it.
    #[tactic(auto, using(crate::proofs::output::Put::put_behind))]
    pub fn labelled_numbers(&mut self, label: &[u8], values: &[f64])
        ensures { self.new ≡ put self.old (label.now ++ numbers_text values.now) }
    {
        self.text(label);
        self.numbers(values);
    }
}

impl<'a> fmt::Write for Output<'a> {
    ghost write_str_gives = { λ o s n. n ≡ put o s };

    fn write_str(&mut self, s: &str) -> fmt::Result
        ensures ok { IsOk result }
        ensures text { self.new ≡ put self.old s.now }
    {
        self.text(s.as_bytes());
        Ok(())
    }
}
