// Functions of a whole surface, and the calls of optics that refuse.
use crate::case::Case;
use optics::microfacet;
use optics::microfacet::{Known, Microsurface, Spectra};

// Whether the answer of the case's function is the record's.
pub fn replay(case: &mut Case<'_>, spectra: Spectra<'_>) -> bool {
    let w = case.input;
    let m = Microsurface {
        surface: w.surface(),
        spectra,
    };
    let v = w.vec3(3);
    let u = w.vec3(6);
    match case.number {
        951 => case.holds(counter::is_delta(&m)),
        952 => case.holds(counter::lambda(&m, v)),
        953 => case.holds(counter::chi_pass(&m, v, u)),
        954 => case.holds(counter::g1(&m, v, u)),
        955 => case.holds(counter::g(&m, v, u, w.vec3(9))),
        956 => case.holds(counter::d(&m, v)),
        957 => case.holds(counter::disney_diffuse(&m, v.x, v.y, v.z)),
        958 => case.holds(counter::f_at(&m, v, u, w.float(9))),
        959 => case.holds(counter::f(&m, v, u, w.color(9))),
        // the sampler has its random numbers where others have the vector u
        960 => case.holds(counter::sample_normal(&m, v, w.disk_point(6))),
        961 => case.holds(counter::pdf(&m, v, u, w.is_true(9), w.float(10))),
        _ => apart(case, &m.spectra),
    }
}

// What is not a call on a whole surface: its spectra, the surface that is made, a mirror and a bend.
fn apart(case: &mut Case<'_>, spectra: &Spectra<'_>) -> bool {
    let w = case.input;
    let v = w.vec3(3);
    let u = w.vec3(6);
    match case.number {
        931 => case.holds(Known::on_glass(spectra).eta_constant),
        932 => case.holds(microfacet::eta_at(&spectra.eta, v.x)),
        933 => case.holds(microfacet::k_at(&spectra.eta, &spectra.k, v.x)),
        934 => case.holds(microfacet::f(w.kind(0), spectra, v, u, w.color(9))),
        935 => case.holds(microfacet::optical_constants(w.kind(0), spectra, v.x).eta),
        962 => case.holds(counter::make_surface(w.kind(0), w.float(1), spectra)),
        963 => case.holds(counter::reflect(v, u)),
        964 => case.holds(counter::refract(v.x, w.vec3(4), w.vec3(7))),
        _ => false,
    }
}
