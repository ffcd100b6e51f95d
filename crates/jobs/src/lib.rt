// What programs read of a job: its lines, a part of it at a time, and how they are answered one by one; the surfaces that
// lines make; the bytes of a file that a line names; what is held by an index.
#![tactic(auto)]

pub mod answering;
pub mod entries;
pub mod failure;
pub mod file;
mod input;
pub mod places;
pub mod sizes;
pub mod surface;
#[cfg(test)]
mod tests;
