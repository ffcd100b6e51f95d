// The sizes of what `rays` holds of a job, and of its answers; how many candidates a list has is the model's, and the sizes
// of lines and of what other programs read too are of the crate `jobs`.
use text::faults::Indices;

// How many paths are held, and their indices in a line.
pub const PATHS: usize = 1024;

pub const PATH: Indices = Indices {
    whose: "a path's",
    count: PATHS as u64,
};

// More than the answer to a line takes, and the error behind it that the next line is too long. A full
// list of candidates takes the most, some 1500 bytes: a blank, five digits, a blank and sixteen digits for
// each of 64.
pub const ANSWER: usize = 2048;

// The buffer of answers that are to be written.
pub const OUTPUT: usize = 8 * ANSWER;
