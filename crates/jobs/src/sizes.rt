// The sizes of what a job holds and of its lines, each in this one place; how many entries a spectrum
// has is the model's.
use numbers::dense_spectrum::DenseSpectrum;
use text::faults::Indices;

// How many surfaces are held, and their indices in a line.
pub const SURFACES: usize = 64;

pub const SURFACE: Indices = Indices {
    whose: "a surface's",
    count: SURFACES as u64,
};

// The entries of a spectrum that are kept of a line: one more than the most, so that a list that is too
// long is still too long.
pub const ENTRIES_READ: usize = DenseSpectrum::FINE_SAMPLES + 1;

// The longest line, without its line feed.
pub const LINE: usize = 32768;

// The buffer that the job is read to: it has room to read on behind the longest line.
pub const INPUT: usize = 65536;

// The buffer for the argument. The system takes no path that is as long.
pub const ARGUMENT: usize = 4096;
