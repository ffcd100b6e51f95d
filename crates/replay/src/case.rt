// A record that is replayed.
use crate::words::{Input, Words};
use std::fs::File;

// The function's number, the words that go in, and the file, whose next words are those that come out.
#[derive(Drop)]
pub struct Case<'a> {
    pub number: u64,
    pub input: Input,
    pub file: &'a mut File,
}

impl Case<'_> {
    // Whether this is the record's answer.
    pub fn holds<T: Words>(&mut self, answer: T) -> bool {
        answer.same(self.file)
    }
}
