// Spectra at equal steps of wavelength: lumo's src/tracer/color/dense_spectrum.rs.
ghost use Rattle.std.specs.Prelude.{◌≡◌, Bool, Float, false, T, pos};
ghost use Rattle.std.specs.Float.{fin, binary64};
ghost use Rattle.std.specs.Float.Ieee.{of_int, lt, eq};
ghost use Rattle.floats.specs.Float.{f1};
ghost use Rattle.numbers.specs.GridPoint.{grid_point, sample_from};
ghost use Rattle.numbers.specs.DenseSpectrum.{ceiling, entry, interpolate, sample_one, every, is_constant, all_within, all_finite, is_table, one_spacing, step_of, is_wavelength, is_lookup_wavelength};

use floats::float;

// The range of wavelengths of a table, in nanometres.
pub const LAMBDA_MIN: f64 = 360.0;

pub const LAMBDA_MAX: f64 = 830.0;

// The last wavelength that is accepted: for now where the table ends.
pub const ACCEPTED_MAX: f64 = LAMBDA_MAX;

// What stands for a wavelength that was ended. By hand, no Option: a path holds it among its wavelengths, in lumo as in
// C's array.
pub const TERMINATED: f64 = 0.0;

// Spectrum sampled at 5nm or at 1nm steps from 360nm to 830nm. The entries are lent: a surface's spectra lie in its
// caller's memory.
#[derive(Clone, Copy)]
pub struct DenseSpectrum<'a> {
    pub values: &'a [f64],
}

impl<'a> DenseSpectrum<'a> {
    // How many entries, and how far apart: lumo's, and of the finer table.
    pub const SAMPLES: usize = 95;

    pub const STEP: f64 = 5.0;

    pub const FINE_SAMPLES: usize = 471;

    pub const FINE_STEP: f64 = 1.0;

    pub fn new(values: &'a [f64]) -> DenseSpectrum<'a>
        ensures { result.values.now ≡ values.now }
    {
        DenseSpectrum { values }
    }

    // How far apart the entries are, which their number tells.
    pub fn step(&self) -> f64
        ensures { result ≡ step_of self.now.values.now }
    {
        if self.values.len() == DenseSpectrum::FINE_SAMPLES {
            return DenseSpectrum::FINE_STEP;
        }
        DenseSpectrum::STEP
    }

    // Are all entries equal?
    pub fn is_constant(&self) -> bool
        ensures { result ≡ is_constant self.now.values.now }
    {
        let first = self.entry(0);
        // Where the last entry differs from the first, as it mostly does in a spectrum that varies, no pass is needed.
        if let Some(last) = self.values.last() {
            if first != *last {
                return false;
            }
        }
        self.every(|value| first == value)
    }

    // Sample the dense spectrum at one wavelength `lambda`
    #[tactic(auto, using(crate::proofs::dense_spectrum::SampleFrom::sample_from_point), unfolding(crate::specs::DenseSpectrum::sample_one))]
    pub fn sample_one(&self, lambda: f64) -> f64
        ensures { result ≡ sample_one self.now.values.now lambda }
    {
        self.sample_from(GridPoint::new(self.step(), lambda))
    }

    // The same, from the wavelength's place among the grid points.
    #[tactic(auto, unfolding(crate::specs::GridPoint::sample_from))]
    pub fn sample_from(&self, point: GridPoint) -> f64
        ensures { result ≡ sample_from self.now.values.now point }
    {
        match point {
            GridPoint::Ended => 0.0,
            GridPoint::At(b1) => self.entry(b1),
            GridPoint::Between { upper, weight } => {
                let i0 = self.entry(upper.saturating_sub(1));
                let i1 = self.entry(upper);
                interpolate(weight, i0, i1)
            }
        }
    }

    // The entry at `i`, and NaN past the end. By hand, no Option: a lookup's sums take the NaN on, as its definition says.
    pub fn entry(&self, i: u64) -> f64
        ensures { result ≡ entry self.now.values.now i }
    {
        self.values.get(i as usize).copied().unwrap_or(float::nan())
    }

    // Whether the test holds of every entry. The loop has no way out, so that the compiler tests several entries at a
    // time: a pass takes a third of the time that `all` would. A `fold` took a tenth more than this.
    fn every<F: Fn(f64) -> bool>(&self, holds: F) -> bool
        requires { F.IsAlwaysCallable holds }
        ensures { (p : Float → Bool) → ((x : Float) (r : Bool) → F.post holds x r → r ≡ p x) → result ≡ every p self.now.values.now }
    {
        let mut ok = true;
        for value in self.values {
            ok &= holds(*value);
        }
        ok
    }

    // Whether every entry lies from `lo` to `hi`.
    #[tactic(auto, unfolding(crate::specs::DenseSpectrum::all_within))]
    pub fn all_within(&self, lo: f64, hi: f64) -> bool
        ensures { result ≡ all_within lo hi self.now.values.now }
    {
        self.every(|value| float::within(lo, hi, value))
    }

    #[tactic(auto, unfolding(crate::specs::DenseSpectrum::all_finite))]
    pub fn all_finite(&self) -> bool
        ensures { result ≡ all_finite self.now.values.now }
    {
        self.every(|value| float::is_finite(value))
    }

    // Whether there are as many entries as a table has.
    #[tactic(auto, unfolding(crate::specs::DenseSpectrum::is_table))]
    pub fn is_table(&self) -> bool
        ensures { result ≡ is_table self.now.values.now }
    {
        self.values.len() == DenseSpectrum::SAMPLES
            || self.values.len() == DenseSpectrum::FINE_SAMPLES
    }

    // Whether the two have one spacing: as many entries of each.
    #[tactic(auto, unfolding(crate::specs::DenseSpectrum::one_spacing))]
    pub fn one_spacing(&self, other: &DenseSpectrum<'_>) -> bool
        ensures { result ≡ one_spacing self.now.values.now other.now.values.now }
    {
        let own = self.values.len();
        let others = other.values.len();
        own == others
    }
}

// Where a wavelength lies among the grid points, which is found once for spectra of one spacing that are
// read at one wavelength: at none if it was ended, at the wavelength of an entry, or between the entry `upper`
// and the one before, from which it lies `weight` steps.
#[derive(Clone, Copy)]
pub enum GridPoint {
    Ended,
    At(u64),
    Between { upper: u64, weight: f64 },
}

impl GridPoint {
    pub fn new(step: f64, lambda: f64) -> GridPoint
        ensures { result ≡ grid_point step lambda }
    {
        if lambda == TERMINATED {
            return GridPoint::Ended;
        }
        let b1 = ceiling((lambda - LAMBDA_MIN) / step);
        let l1 = LAMBDA_MIN + step * b1.value;
        if lambda == l1 {
            return GridPoint::At(b1.number);
        }
        GridPoint::Between {
            upper: b1.number,
            weight: (lambda - (l1 - step)) / step,
        }
    }
}

// 2 ^ 52, from where on doubles are the whole numbers; its pattern; and a half less.
const WHOLE: f64 = 4503599627370496.0;

const WHOLE_BITS: u64 = 0x4330000000000000;

const WHOLE_LESS_HALF: f64 = 4503599627370495.5;

// 2 ^ 51: a value below it stays, with WHOLE added, below 2 ^ 53, up to where every whole number is a double.
const SMALL_END: f64 = 2251799813685248.0;

// A whole number, and its double.
#[derive(Clone, Copy)]
struct Whole {
    number: u64,
    value: f64,
}

// The least whole number from `x` up.
fn ceiling(x: f64) -> Whole
    ensures { (result.number ≡ ceiling x) × (result.value ≡ of_int binary64 (pos (ceiling x))) }
{
    if 1.0 < x && x < SMALL_END {
        return small_ceiling(x);
    }
    let number = any_ceiling(x);
    Whole {
        number,
        value: std::num::nearest_u64_to_f64(number),
    }
}

// The same above 1 and below SMALL_END, as it is of nearly every wavelength: with no cast, for Rattle's are
// slow. The sum reaches WHOLE, so that it is rounded to a whole number: of x less a half that is the one
// below x, and where x is whole it is x or the one before.
fn small_ceiling(x: f64) -> Whole
    requires { T (lt f1 x) × T (lt x (fin false 1 (pos 51))) }
    ensures { (result.number ≡ ceiling x) × (result.value ≡ of_int binary64 (pos (ceiling x))) }
{
    let near = x + WHOLE_LESS_HALF;
    let number = f64::to_bits(near) - WHOLE_BITS;
    let value = near - WHOLE;
    if value < x {
        return Whole {
            number: number + 1,
            value: value + 1.0,
        };
    }
    Whole { number, value }
}

// The same of any value.
fn any_ceiling(x: f64) -> u64
    ensures { result ≡ ceiling x }
{
    if -1.0 < x && x < 18446744073709551616.0 {
        let floor = std::num::truncating_f64_to_u64(x);
        if std::num::nearest_u64_to_f64(floor) < x {
            return floor + 1;
        }
        return floor;
    }
    0
}

fn interpolate(x1: f64, i0: f64, i1: f64) -> f64
    ensures { result ≡ interpolate x1 i0 i1 }
{
    let x0 = 1.0 - x1;
    i0 * x0 + i1 * x1
}

// Whether a path may start with the wavelength.
pub fn is_wavelength(lambda: f64) -> bool
    ensures { result ≡ is_wavelength lambda }
{
    float::within(LAMBDA_MIN, ACCEPTED_MAX, lambda)
}

// Whether a lookup accepts the wavelength: one that was ended as well.
#[tactic(auto, unfolding(crate::specs::DenseSpectrum::is_lookup_wavelength))]
pub fn is_lookup_wavelength(lambda: f64) -> bool
    ensures { result ≡ is_lookup_wavelength lambda }
{
    lambda == TERMINATED || is_wavelength(lambda)
}
