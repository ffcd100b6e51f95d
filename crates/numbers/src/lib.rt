// Vectors, complex numbers, spectra, bases and angles: what the light-transport model of
// lumo computes with. Every public function equals a definition of specs/, for every input.
#![tactic(auto)]

pub mod checked;
pub mod complex;
pub mod dense_spectrum;
pub mod onb;
pub mod refusal;
pub mod spherical_utils;
pub mod vec2;
pub mod vec3;

pub const EPSILON: f64 = 1e-10;
