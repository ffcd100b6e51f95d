// A job as it is read, of which a part is held at a time.
ghost use Rattle.std.specs.Prelude.{◌≤◌, ◌≡◌, ◌+◌, length};

use crate::failure::Failure;
use crate::sizes;
use std::io::Read;

// The bytes from `at` to `have` are the next. By hand: a job takes fixed memory, and std's BufReader would allocate.
#[derive(Drop)]
pub struct Input<R: Read + Drop> {
    from: R,
    bytes: [u8; sizes::INPUT],
    at: usize,
    have: usize,
    ghost inside: { (at ≤ have) × (have ≤ 65536) },
}

impl<R: Read + Drop> Input<R> {
    pub fn new(from: R) -> Input<R> {
        Input {
            from,
            bytes: [0; sizes::INPUT],
            at: 0,
            have: 0,
        }
    }

    // What was not handed out yet.
    pub fn rest(&self) -> &[u8]
        ensures { self.now.at + length result.now ≡ self.now.have }
    {
        &self.bytes[self.at..self.have]
    }

    // The next line, without its line feed, if it is there as a whole.
    pub fn line(&mut self) -> Option<&[u8]> {
        let from = self.at;
        let length = self.rest().iter().position(|b| *b == b'\n')?;
        self.at = from + length + 1;
        // the whole is shared, and then a part of it: the check knows no other way to hand it out
        let input = &*self;
        Some(&input.bytes[from..from + length])
    }

    // Leaves the rest out.
    pub fn clear(&mut self) {
        self.at = 0;
        self.have = 0;
    }

    // Reads once, to what is behind the rest, which is moved to the start; how many bytes came.
    pub fn read(&mut self) -> Result<usize, Failure> {
        self.bytes.copy_within(self.at..self.have, 0);
        self.have -= self.at;
        self.at = 0;
        let room = &mut self.bytes[self.have..];
        let n = self.from.read(room).map_err(Failure::Read)?;
        self.have += n;
        Ok(n)
    }
}
