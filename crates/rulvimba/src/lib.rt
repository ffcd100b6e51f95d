// The model for C, which the crate rulvimba_c exports: include/rulvimba.h says the same in C. Each function
// returns what a definition of the crates below says, laid out by the definitions of specs/, and says
// what the caller's memory then holds. None asks anything of its caller but that its pointers are good.
// By hand: each takes what its export takes, of a surface's spectra a pointer and a length each, but of a book's surface
// one record, so that the export is one call with the same promise; `surfaces::lent` makes one value of them at once.
#![tactic(auto)]

pub mod books;
pub mod bounces;
pub mod lists;
pub mod paths;
pub mod records;
pub mod surfaces;
pub mod terms;
