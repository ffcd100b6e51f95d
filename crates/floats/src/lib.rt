// IEEE 754's floats: what Rust's methods give, bit patterns with one NaN, and the square root, by the processor and by
// digits.
// Every public function equals a definition of specs/, for every input.
#![tactic(auto)]

pub mod float;
pub mod patterns;
pub mod square_root;
