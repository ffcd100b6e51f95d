// The functions of floats and numbers under names for C, but for the checked ones, for the comparison
// with lumo's Rust. Each returns what the function that it calls returns, by the same definition.
// Nothing else uses this crate. Functions that differ in a type alone stay apart: C has one name for each.
#![tactic(auto)]

mod complex;
mod dense_spectrum;
mod float;
mod onb;
mod spherical_utils;
mod square_root;
mod vec2;
mod vec3;
