// A float's bit pattern, and one pattern for every NaN.
ghost use Rattle.std.specs.Prelude.{◌≡◌};
ghost use Rattle.std.specs.Float.{binary64};
ghost use Rattle.std.specs.Float.Ieee.{to_bits, of_bits};

use crate::float;

// The sign's bit.
const SIGN: u64 = 0x8000000000000000;

// The pattern of infinity: those above it, their sign aside, are the NaNs'.
const INFINITY: u64 = 0x7ff0000000000000;

// The one pattern that stands for every NaN.
const NAN: u64 = 0x7ff8000000000000;

// The float of a pattern. `from_bits` asks for one that is no NaN's.
#[tactic(auto, using(crate::proofs::patterns::OneNan::nan_of_pattern, std::proofs::lemmas::Float::not_nan_f64_bits))]
pub fn of_bits(bits: u64) -> f64
    ensures { result ≡ of_bits binary64 bits }
{
    if bits % SIGN > INFINITY {
        return float::nan();
    }
    f64::from_bits(bits)
}

// The pattern of a float. `to_bits` asks for one that is no NaN.
#[tactic(auto, using(crate::proofs::patterns::OneNan::pattern_of_nan))]
pub fn bits(x: f64) -> u64
    ensures { result ≡ to_bits binary64 x }
{
    if x.is_nan() {
        return NAN;
    }
    x.to_bits()
}
