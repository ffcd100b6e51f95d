// Facets, Fresnel terms, samplers, mirror, bend and densities.
use crate::case::Case;
use numbers::refusal::Refusal;
use optics::bxdf::{conductor, dielectric};
use optics::{bxdf, microfacet};

// A mirror and a bend are laid out as those that may refuse.
fn given<T>(answer: T) -> Result<T, Refusal> {
    Ok(answer)
}

// Whether the answer of the case's function is the record's. A sampler has its random numbers where
// others have the vector u.
pub fn replay(case: &mut Case<'_>) -> bool {
    let w = case.input;
    let mfd = w.facets(0);
    let v = w.vec3(2);
    let u = w.vec3(5);
    let wh = w.vec3(8);
    match case.number {
        901 => case.holds(mfd.is_delta()),
        902 => case.holds(mfd.disney_diffuse(v.x, v.y, v.z)),
        904 => case.holds(mfd.d(v)),
        905 => case.holds(mfd.lambda(v)),
        907 => case.holds(mfd.g(v, u, wh)),
        908 => case.holds(mfd.g1(v, u)),
        909 => case.holds(mfd.g_over_g1(v, u, wh)),
        910 => case.holds(mfd.sample_normal_pdf(v, u)),
        911 => case.holds(mfd.sample_normal(v, w.disk_point(5))),
        923 => case.holds(conductor::sample(v, mfd, w.disk_point(5))),
        925 => case.holds(conductor::pdf(v, u, mfd)),
        926 => case.holds(dielectric::pdf(v, u, w.is_true(8), mfd, w.constants(9))),
        _ => at_facet(case),
    }
}

// At one facet, whatever the roughness: Fresnel terms, whether it is seen, a mirror and a bend.
fn at_facet(case: &mut Case<'_>) -> bool {
    let w = case.input;
    let x = w.vec3(0);
    let y = w.vec3(3);
    match case.number {
        903 => case.holds(microfacet::f_schlick(x.x, x.y, x.z)),
        906 => case.holds(microfacet::chi_pass(x, y)),
        912 => case.holds(microfacet::fr_real(x.x, x.y)),
        913 => case.holds(microfacet::fr_complex(x.x, x.y, x.z)),
        914 => case.holds(microfacet::f_at(x, y, w.float(6), w.float(7))),
        921 => case.holds(given(bxdf::reflect(x, y))),
        922 => case.holds(given(bxdf::refract(x.x, w.vec3(1), w.vec3(4)))),
        924 => glass_sample(case),
        927 => pdf(case),
        _ => false,
    }
}

fn glass_sample(case: &mut Case<'_>) -> bool {
    let w = case.input;
    let mfd = w.facets(0);
    let at = w.constants(2);
    let wo = w.vec3(4);
    let u = w.float(7);
    case.holds(dielectric::sample(wo, mfd, at, u, w.disk_point(8)))
}

// The density of either kind.
fn pdf(case: &mut Case<'_>) -> bool {
    let w = case.input;
    let kind = w.kind(0);
    let mfd = w.facets(1);
    let wo = w.vec3(3);
    let wi = w.vec3(6);
    let reflection = w.is_true(9);
    let at = w.constants(10);
    case.holds(bxdf::pdf(kind, mfd, wo, wi, reflection, at))
}
