// Vectors of two floats.
use crate::case::Case;
use numbers::vec2::Vec2;

// Whether the answer of the case's function is the record's.
pub fn replay(case: &mut Case<'_>) -> bool {
    let w = case.input;
    let a = w.vec2(0);
    let b = w.vec2(2);
    let c = w.vec2(1);
    match case.number {
        201 => case.holds(Vec2::new(a.x, a.y)),
        202 => case.holds(Vec2::splat(a.x)),
        203 => case.holds(a.extend(b.x)),
        204 => case.holds(a.dot(b)),
        205 => case.holds(a.abs()),
        206 => case.holds(a.min(b)),
        207 => case.holds(a.max(b)),
        208 => case.holds(-a),
        209 => case.holds(a + b),
        210 => case.holds(a - b),
        211 => case.holds(a * b),
        212 => case.holds(a / b),
        213 => case.holds(a + b.x),
        214 => case.holds(a - b.x),
        215 => case.holds(a * b.x),
        216 => case.holds(a / b.x),
        217 => case.holds(a.x + c),
        218 => case.holds(a.x - c),
        219 => case.holds(a.x * c),
        220 => case.holds(a.x / c),
        _ => false,
    }
}
