// Floats.
use crate::case::Case;
use floats::{float, square_root};

// Whether the answer of the case's function is the record's.
pub fn replay(case: &mut Case<'_>) -> bool {
    let w = case.input;
    let x = w.float(0);
    let y = w.float(1);
    let z = w.float(2);
    match case.number {
        101 => case.holds(float::max(x, y)),
        102 => case.holds(float::min(x, y)),
        103 => case.holds(float::clamp(x, y, z)),
        104 => case.holds(float::abs(x)),
        105 => case.holds(float::is_sign_negative(x)),
        106 => case.holds(float::signum(x)),
        107 => case.holds(float::is_infinite(x)),
        108 => case.holds(float::is_finite(x)),
        109 => case.holds(float::powi2(x)),
        110 => case.holds(float::powi5(x)),
        111 => case.holds(float::within(x, y, z)),
        112 => case.holds(float::nan()),
        120 => case.holds(square_root::sqrt(x)),
        _ => false,
    }
}
