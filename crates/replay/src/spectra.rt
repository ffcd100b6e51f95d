// Spectra. The record 700 has the entries for those after it.
use crate::case::Case;
use numbers::dense_spectrum;
use numbers::dense_spectrum::DenseSpectrum;

// Whether the answer of the case's function is the record's.
pub fn replay(case: &mut Case<'_>, numbers: &DenseSpectrum<'_>) -> bool {
    let w = case.input;
    let x = w.float(0);
    match case.number {
        701 => case.holds(numbers.sample_one(x)),
        702 => case.holds(numbers.is_constant()),
        703 => case.holds(numbers.all_within(x, w.float(1))),
        704 => case.holds(numbers.all_finite()),
        705 => case.holds(dense_spectrum::is_wavelength(x)),
        706 => case.holds(dense_spectrum::is_lookup_wavelength(x)),
        _ => false,
    }
}
