// Recorded answers, a record to a line, whose numbers have so many digits each: what both replays read and count alike.
ghost use Rattle.std.specs.Prelude.{◌≡◌, IfSome, unwrap_or};
ghost use Rattle.text.specs.Digits.{decimal, hex16};
ghost use Rattle.text.specs.Records.{no_number, replayed};
ghost use Rattle.std.specs.Io.KnownBytes.{Consumes};

use crate::digits;
use std::io::Read;

// A proved loop has to end: no file has so many records.
pub const MOST: u64 = 1000000000;

// What stands for a decimal that is none; five digits can't say it. By hand, no Option: no function and no refusal has
// this number, and no list so many entries, so that the record differs wherever it is looked up.
const NO_NUMBER: u64 = 100000;

// The next `N` bytes, if so many come.
pub fn next<const N: usize, R: Read>(from: &mut R) -> Option<[u8; N]>
    ensures { IfSome result (Consumes (R.remaining from.old) (R.remaining from.new)) }
{
    let mut bytes = [0; N];
    from.read_exact(&mut bytes).ok()?;
    Some(bytes)
}

// The next `N` bytes. Where fewer come, or a read fails, what is missing stays 0, which is no digit. No clause: std says
// nothing of what a read that fails leaves.
pub fn next_or_zeros<const N: usize, R: Read>(from: &mut R) -> [u8; N] {
    let mut bytes = [0; N];
    let _ = from.read_exact(&mut bytes);
    bytes
}

// Reads past the end of a line.
pub fn line_end<R: Read>(from: &mut R) {
    let _end: [u8; 1] = next_or_zeros(from);
}

// The value of decimal digits, no more than five.
pub fn decimal(text: &[u8]) -> u64
    ensures { result ≡ unwrap_or (decimal text.now) no_number }
{
    digits::decimal(text).unwrap_or(NO_NUMBER)
}

// The value of sixteen hexadecimal digits, and 0 where they are none. By hand, no Option: a record is held word by word,
// and a damaged word counts as 0, as one that is missing does.
pub fn hex16(text: &[u8]) -> u64
    ensures { result ≡ unwrap_or (hex16 text.now) 0 }
{
    digits::hex16(text).unwrap_or(0)
}

// How many records there were, and how many of them differ from what was replayed.
#[derive(Clone, Copy, Default)]
pub struct Tally {
    pub records: u64,
    pub differences: u64,
}

impl Tally {
    // One record more, and whether what was replayed is the same.
    pub fn count(&mut self, same: bool)
        ensures { self.new ≡ replayed self.old same }
    {
        self.records = self.records.saturating_add(1);
        if !same {
            self.differences = self.differences.saturating_add(1);
        }
    }
}
