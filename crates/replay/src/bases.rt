// Bases.
use crate::case::Case;
use numbers::onb::Onb;

// Whether the answer of the case's function is the record's.
pub fn replay(case: &mut Case<'_>) -> bool {
    let w = case.input;
    let uvw = Onb {
        u: w.vec3(0),
        v: w.vec3(3),
        w: w.vec3(6),
    };
    let v = w.vec3(9);
    match case.number {
        501 => case.holds(Onb::new(uvw.u)),
        502 => case.holds(uvw.to_world(v)),
        503 => case.holds(uvw.to_local(v)),
        _ => false,
    }
}
