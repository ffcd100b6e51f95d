// IEEE 754's square root, correctly rounded, of every value: the processor's, and the same root by whole numbers alone,
// digit by digit. There a finite value above 0 is scaled once, to an operand, before the first digit.
ghost use Rattle.std.specs.Prelude.{◌≡◌, ◌<◌, ◌≤◌, ◌+◌, ◌*◌, ◌^◌, T};
ghost use Rattle.std.specs.Float.Ieee.Positive.{positive};
ghost use Rattle.floats.specs.Float.{max, f0};
ghost use Rattle.floats.specs.SquareRoot.{sqrt};
ghost use Rattle.floats.specs.RootDigits.{digit, two_bits, after};
ghost use Rattle.floats.specs.RootSteps.{InRange, Placed, Scaled, RootOf, Nearest};

// 2 ^ 52. In the pattern of a value that is not negative, bits / HIDDEN is the field of the exponent
// and bits % HIDDEN the digits that are stored; a normal value has HIDDEN, its first digit, besides.
const HIDDEN: u64 = 0x0010000000000000;

// ---- one digit: no branch depends on it, so that the time does not either

// The root of the number that the bits taken so far form, and what its square leaves of it.
#[derive(Clone, Copy)]
struct RootRem {
    root: u64,
    rem: u64,
}

impl RootRem {
    // One digit more, from two bits more. Nothing here wraps, even behind 56 digits, the most that 02 (iii) has.
    fn digit(self, two: u64) -> Self
        requires { (self.root < 2 ^ 56) × (self.rem ≤ 2 * self.root) × (two < 4) }
        ensures { result ≡ digit self.root self.rem two }
    {
        let x = 4 * self.rem + two;
        let t = 4 * self.root + 1;
        let c = u64::from(t <= x);
        RootRem {
            root: 2 * self.root + c,
            rem: x - t * c,
        }
    }
}

// ---- the operand: a finite value above 0 is scaled once, before the first digit

// How many binary digits a number lacks to have 53, which leave 11 of the 64 bits in front.
fn lacking(t: u64) -> u64
    requires { (0 < t) × (t < 2 ^ 52) }
    ensures { (result ≤ 52) × (2 ^ 52 ≤ t * 2 ^ result) × (t * 2 ^ result < 2 ^ 53) }
{
    u64::from(t.leading_zeros() - 11)
}

// A finite value above 0 is m * 4 ^ h times 2 ^ -2148, m being of 53 or 54 binary digits.
#[derive(Clone, Copy)]
struct Operand {
    m: u64,
    h: u64,
    ghost in_range: { InRange m h },
}

impl Operand {
    // The operand of d * 2 ^ e times 2 ^ -2148, d being of 53 digits: an odd exponent gives it one more.
    #[tactic(auto, using(crate::proofs::square_root::RootOperand::placed_at))]
    fn placed(d: u64, e: u64) -> Self
        requires { (2 ^ 52 ≤ d) × (d < 2 ^ 53) × (1022 ≤ e) × (e ≤ 3119) }
        ensures { Placed d e result.m result.h }
    {
        Operand {
            m: d * (e % 2 + 1),
            h: e / 2,
        }
    }

    // The operand of a finite value above 0, by its bit pattern. In units of 2 ^ -2148 a normal value is
    // (t + HIDDEN) * 2 ^ (f + 1073), and a subnormal t * 2 ^ 1074, whose digits are shifted up to 53 at once.
    fn of(x: f64) -> Self
        requires { T (positive x) }
        ensures { Scaled x result.m result.h }
    {
        let bits = x.to_bits();
        let f = bits / HIDDEN;
        let t = bits % HIDDEN;
        if f == 0 {
            let z = lacking(t);
            Operand::placed(t << z, 1074 - z)
        } else {
            Operand::placed(t + HIDDEN, f + 1073)
        }
    }

    // The two bits of m * 2 ^ 52 that the digit after i others takes, from the top: 27 pairs are m's own 54 bits, the
    // others zeros. m is only read, and is the same at every digit.
    fn two_bits(self, i: u64) -> u64
        requires { i < 53 }
        ensures { result ≡ two_bits 53 (self.m * 2 ^ 52) i }
    {
        if i < 27 {
            (self.m >> (52 - 2 * i)) % 4
        } else {
            0
        }
    }

    // The whole root of m * 2 ^ 52, by its 53 binary digits, and the remainder. By index: a digit's two bits hang on its
    // place.
    fn digits(self) -> RootRem
        ensures { result ≡ after 53 (self.m * 2 ^ 52) 53 }
    {
        let mut s = RootRem { root: 0, rem: 0 };
        for i in 0..53 {
            s = s.digit(self.two_bits(i));
        }
        s
    }

    // The whole number nearest to the root of m * 2 ^ 52: the whole root, or one more where the remainder is
    // above it, the root being past the middle then. No root is in the middle, whose square is no whole number.
    fn nearest(self) -> u64
        ensures { Nearest result (self.m * 2 ^ 52) }
    {
        let s = self.digits();
        s.root + u64::from(s.root < s.rem)
    }

    // The root of the value that has this operand: nearest * 2 ^ (h - 26) times 2 ^ -1074. The exponent's field is
    // h - 25: the first of the 53 digits adds 1 to the h - 26 that is put there.
    fn root(self) -> f64
        ensures { RootOf self.m self.h result }
    {
        f64::from_bits((self.h - 26) * HIDDEN + self.nearest())
    }
}

// The root of every value, by its digits alone. Not inlined: whoever takes a root stays small.
#[cold]
#[inline(never)]
pub fn by_digits(x: f64) -> f64
    ensures { result ≡ sqrt x }
{
    if x < 0.0 {
        f64::NAN
    } else if x > 0.0 && x.is_finite() {
        Operand::of(x).root()
    } else {
        // a zero, the infinity or a NaN, each its own root
        x
    }
}

// ---- the processor's root

// IEEE 754's square root: of a normal value above 0 one operation of the processor. specs/ defines the root otherwise;
// the law `by_processor` shows that the two agree. Every other value, a subnormal among them, goes by its digits.
pub fn sqrt(x: f64) -> f64
    ensures { result ≡ sqrt x }
{
    if x >= f64::MIN_POSITIVE {
        x.sqrt()
    } else {
        by_digits(x)
    }
}

// lumo's `x.max(0.0).sqrt()`, with no maximum for the root to wait for: 0 where x is below 0 or no number.
pub fn sqrt_or_zero(x: f64) -> f64
    ensures { result ≡ sqrt (max x f0) }
{
    if x > 0.0 {
        sqrt(x)
    } else if x == 0.0 {
        x
    } else {
        0.0
    }
}
