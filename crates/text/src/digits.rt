// The digits of a number, in hexadecimal and in decimal.
ghost use Rattle.std.specs.Prelude.{◌≡◌};
ghost use Rattle.text.specs.Digits.{digit, hex16, decimal};

// The most decimal digits that are read.
const DECIMALS: usize = 5;

// The value of a hexadecimal digit. By hand: `char::to_digit` asks of each whether it is a letter, which no
// processor foresees, and with it a job of bounces takes a fifth more time. So the value is guessed from the
// byte's bits and then looked at.
fn digit(b: u8) -> Option<u8>
    ensures { result ≡ digit 16 b }
{
    let d = (b & 15) + (b >> 6) * 9 & 15;
    let glyphs = (b"0123456789abcdef", b"0123456789ABCDEF");
    let i = d as usize;
    if b == glyphs.0[i] || b == glyphs.1[i] {
        return Some(d);
    }
    None
}

// The value of sixteen hexadecimal digits.
#[tactic(auto, unfolding(crate::specs::Digits::hex16))]
pub fn hex16(digits: &[u8]) -> Option<u64>
    ensures { result ≡ hex16 digits.now }
{
    if digits.len() != 16 {
        return None;
    }
    let mut bits = 0u64;
    for b in digits {
        bits = bits << 4 | u64::from(digit(*b)?);
    }
    Some(bits)
}

// The value of decimal digits, no more than five. By hand: `str::parse` reads text, which bytes would first have to be
// shown to be, and takes a `+` and any number of digits.
#[tactic(auto, unfolding(crate::specs::Digits::decimal))]
pub fn decimal(digits: &[u8]) -> Option<u64>
    ensures { result ≡ decimal digits.now }
{
    if DECIMALS < digits.len() {
        return None;
    }
    let mut value = 0u64;
    for b in digits {
        if !b.is_ascii_digit() {
            return None;
        }
        value = value * 10 + u64::from(*b - b'0');
    }
    Some(value)
}
