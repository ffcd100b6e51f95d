// Angles.
use crate::case::Case;
use numbers::spherical_utils;

// Whether the answer of the case's function is the record's.
pub fn replay(case: &mut Case<'_>) -> bool {
    let w = case.input;
    let a = w.vec3(0);
    match case.number {
        601 => case.holds(spherical_utils::same_hemisphere(a, w.vec3(3))),
        602 => case.holds(spherical_utils::cos_phi(a)),
        603 => case.holds(spherical_utils::sin_phi(a)),
        604 => case.holds(spherical_utils::cos_theta(a)),
        605 => case.holds(spherical_utils::sin_theta(a)),
        606 => case.holds(spherical_utils::tan_theta(a)),
        607 => case.holds(spherical_utils::cos2_theta(a)),
        608 => case.holds(spherical_utils::sin2_theta(a)),
        609 => case.holds(spherical_utils::tan2_theta(a)),
        _ => false,
    }
}
