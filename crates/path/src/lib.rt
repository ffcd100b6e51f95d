// A path of light and its bounces on metal and glass: from a world direction to the powers that are
// left. Every public function equals a definition of specs/, for every input.
#![tactic(auto)]

pub mod bsdf;
mod check;
mod facet;
pub mod many;
pub mod plain;
mod prepared;
pub mod records;
pub mod thin;
pub mod wavelength;
mod weight;
