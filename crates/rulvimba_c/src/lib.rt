// The model as a static library for C and Rust, librulvimba: include/rulvimba.h says the same in C.
// By hand: C calls each function by a name of its own, and a crate that other crates use can't be a static library too.
// So each export has the name and the promise of the function of the crate rulvimba that it calls.
#![tactic(auto)]

mod books;
mod bounces;
mod lists;
mod paths;
mod surfaces;
mod terms;
