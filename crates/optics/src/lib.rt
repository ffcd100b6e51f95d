// Metal and glass with facets: the GGX half of lumo's microfacet model, its Fresnel term, sampler,
// mirror, bend and densities. Every public function equals a definition of specs/, for every input;
// `Color::map`, `zip_with` and `all` say it of what their closure gives. What document 01 asks of an argument stands in
// `check`; the calls that refuse, in the crate `counter`.
#![tactic(auto)]

pub mod bxdf;
pub mod check;
pub mod color;
pub mod microfacet;
