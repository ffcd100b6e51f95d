// The functions of optics, counter and path that librulvimba does not export, and the checked ones of numbers,
// under names for C, for the comparison with lumo's Rust. By hand: C calls each function by a name of its own. Each
// returns what the function that it calls returns, by the same definition, laid out by the records of librulvimba.
// Nothing else uses this crate.
#![tactic(auto)]

mod bounce;
mod bxdf;
mod checked;
mod microfacet;
mod results;
