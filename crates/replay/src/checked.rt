// Functions of numbers that refuse. The record 800 has the entries for those after it.
use crate::case::Case;
use numbers::checked;
use numbers::dense_spectrum::DenseSpectrum;

// Whether the answer of the case's function is the record's.
pub fn replay(case: &mut Case<'_>, values: &DenseSpectrum<'_>) -> bool {
    let w = case.input;
    let a = w.vec3(0);
    let b = w.vec3(3);
    match case.number {
        801 => case.holds(checked::lookup(values, a.x)),
        802 => case.holds(checked::onb(a)),
        803 => case.holds(checked::to_local(a, b)),
        804 => case.holds(checked::to_world(a, b)),
        805 => case.holds(checked::same_hemisphere(a, b)),
        806 => case.holds(checked::cos_phi(a)),
        807 => case.holds(checked::sin_phi(a)),
        808 => case.holds(checked::cos_theta(a)),
        809 => case.holds(checked::sin_theta(a)),
        810 => case.holds(checked::tan_theta(a)),
        811 => case.holds(checked::cos2_theta(a)),
        812 => case.holds(checked::sin2_theta(a)),
        813 => case.holds(checked::tan2_theta(a)),
        _ => false,
    }
}
