// Vectors of three floats.
use crate::case::Case;
use numbers::vec3::Vec3;

// Whether the answer of the case's function is the record's.
pub fn replay(case: &mut Case<'_>) -> bool {
    let w = case.input;
    let a = w.vec3(0);
    let b = w.vec3(3);
    let c = w.vec3(1);
    match case.number {
        301 => case.holds(Vec3::new(a.x, a.y, a.z)),
        302 => case.holds(Vec3::splat(a.x)),
        303 => case.holds(a.truncate()),
        304 => case.holds(a.length()),
        305 => case.holds(a.length_squared()),
        306 => case.holds(a.distance(b)),
        307 => case.holds(a.distance_squared(b)),
        308 => case.holds(a.scale(b.x)),
        309 => case.holds(a.cross(b)),
        310 => case.holds(a.dot(b)),
        311 => case.holds(a.project_onto(b)),
        312 => case.holds(a.normalize()),
        313 => case.holds(a.is_normalized()),
        314 => case.holds(a.is_direction()),
        315 => case.holds(a.min_element()),
        316 => case.holds(a.max_element()),
        317 => case.holds(a.abs()),
        318 => case.holds(a.min(b)),
        319 => case.holds(a.max(b)),
        320 => case.holds(-a),
        321 => case.holds(a + b),
        322 => case.holds(a - b),
        323 => case.holds(a * b),
        324 => case.holds(a / b),
        325 => case.holds(a + b.x),
        326 => case.holds(a - b.x),
        327 => case.holds(a * b.x),
        328 => case.holds(a / b.x),
        329 => case.holds(a.x + c),
        330 => case.holds(a.x - c),
        331 => case.holds(a.x * c),
        332 => case.holds(a.x / c),
        _ => false,
    }
}
