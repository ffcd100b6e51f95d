// Complex numbers.
use crate::case::Case;
use numbers::complex::Complex;

// Whether the answer of the case's function is the record's.
pub fn replay(case: &mut Case<'_>) -> bool {
    let w = case.input;
    let a = w.float(0);
    let c = w.float(2);
    let z = Complex::new(a, w.float(1));
    let y = Complex::new(c, w.float(3));
    let x = Complex::new(w.float(1), c);
    match case.number {
        401 => case.holds(z),
        402 => case.holds(Complex::from(a)),
        403 => case.holds(z.norm_sqr()),
        404 => case.holds(z.co()),
        405 => case.holds(z.sqrt()),
        406 => case.holds(z.norm()),
        407 => case.holds(z.cos_half(c)),
        408 => case.holds(z.sin_half(c)),
        409 => case.holds(z + y),
        410 => case.holds(a + x),
        411 => case.holds(z - y),
        412 => case.holds(a - x),
        413 => case.holds(z * y),
        414 => case.holds(z * c),
        415 => case.holds(a * x),
        416 => case.holds(z / y),
        417 => case.holds(z / c),
        418 => case.holds(a / x),
        _ => false,
    }
}
