// The bytes of a file that a job names.
ghost use Rattle.std.specs.Prelude.{◌≤◌, length, IfSome};

use std::fs::Files;
use std::io::Read;
use std::{fs, str};

// Fills the places from a file; how many bytes came. By hand, no `read_to_end`: fixed memory is filled, and a longer file
// is read no further. Each read but the last brings a byte at least, so that the turns suffice.
fn fill(from: &mut (impl Read + Drop), bytes: &mut [u8]) -> Option<usize>
    ensures { IfSome result (λ n. n ≤ length bytes.new) }
{
    let mut have = 0;
    for _ in 0..bytes.len() {
        let room = &mut bytes[have..];
        let n = from.read(room).ok()?;
        if n == 0 {
            break;
        }
        have += n;
    }
    Some(have)
}

// How many bytes of a file fill the places; none if it can't be opened or read. std's paths are text.
pub fn read(files: &impl Files, name: &[u8], bytes: &mut [u8]) -> Option<usize>
    ensures { IfSome result (λ n. n ≤ length bytes.new) }
{
    let name = str::from_utf8(name).ok()?;
    let mut file = fs::open(files, name).ok()?;
    fill(&mut file, bytes)
}
