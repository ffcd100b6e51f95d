// The planner's candidate directions, brightest first, in the caller's memory or in a list of one's own.
#![tactic(auto)]

pub mod candidate;
mod columns;
pub mod list;
pub mod owned;
