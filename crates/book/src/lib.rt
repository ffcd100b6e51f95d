// A material book: surfaces as bytes, read and written (document 02, vi). Every public function equals a definition of
// specs/, for any bytes and any surfaces; bytes that are no book, and surfaces that aren't accepted, are refused by their
// number.
#![tactic(auto)]

mod bytes;
mod equality;
mod layout;
pub mod reading;
pub mod record;
pub mod writing;

pub use layout::{BOOK_MAX, SURFACES_MAX};
