// The answers as records for C: the number of the refusal, which is 0 where the call is accepted, and the
// values, which are zeros where there are none.
ghost use Rattle.std.specs.Prelude.{◌≡◌};
ghost use Rattle.numbers.specs.Refusal.{verdict, answer};
ghost use Rattle.optics.specs.Bxdf.{reflected, refracted};
ghost use Rattle.counter.specs.Counter.{map_answer};
ghost use Rattle.rulvimba.specs.Results.{check_number, number_of, value_or, float_result, color_result, vec3_result, direction_result};

use numbers::refusal::{Check, Refusal};
use numbers::vec3::Vec3;
use optics::bxdf::{NoDirection, Refracted};
use optics::color::Color;

// By hand: a record for each type of value, since no generic struct crosses to C; what they share is `number_and`.
#[repr(C)]
#[derive(Clone, Copy)]
pub struct FloatResult {
    pub number: u64,
    pub value: f64,
}

#[repr(C)]
#[derive(Clone, Copy)]
pub struct ColorResult {
    pub number: u64,
    pub value: Color,
}

#[repr(C)]
#[derive(Clone, Copy)]
pub struct Vec3Result {
    pub number: u64,
    pub value: Vec3,
}

// What a mirror or a bend gives: no direction may be total internal reflection. Each has its number in C. By hand, with
// numbers: no enum crosses to C.
#[derive(Clone, Copy, PartialEq, Eq, Debug)]
pub enum Case {
    Refused = 0,
    Direction = 1,
    None = 2,
    Total = 3,
}

// `outcome` is the number of a `Case`; where it is no direction, zeros stand in its place.
#[repr(C)]
#[derive(Clone, Copy)]
pub struct DirectionResult {
    pub number: u64,
    pub outcome: u64,
    pub direction: Vec3,
}

// What stands where there is no direction.
const NO_DIRECTION: DirectionResult = DirectionResult {
    number: 0,
    outcome: Case::Refused as u64,
    direction: Vec3::ZERO,
};

// The number of a check. By hand: 0 is C's word for accepted.
#[tactic(auto, unfolding(crate::specs::Results::check_number))]
pub fn number_of(check: Check) -> u64
    ensures { result ≡ check_number (verdict check) }
{
    match check {
        Ok(()) => 0,
        Err(why) => why.number(),
    }
}

// The number of an answer and its value, or the one that stands where there is none.
pub fn number_and<T: Copy>(a: Result<T, Refusal>, nothing: T) -> (u64, T)
    ensures { (result.0 ≡ number_of (answer a)) × (result.1 ≡ value_or (answer a) nothing) }
{
    match a {
        Ok(value) => (0, value),
        Err(why) => (why.number(), nothing),
    }
}

impl From<Result<f64, Refusal>> for FloatResult {
    ghost from_gives = { λ a r. r ≡ float_result (answer a) };

    #[tactic(auto, unfolding(crate::specs::Results::float_result))]
    fn from(a: Result<f64, Refusal>) -> FloatResult {
        let (number, value) = number_and(a, 0.0);
        FloatResult { number, value }
    }
}

impl From<Result<Color, Refusal>> for ColorResult {
    ghost from_gives = { λ a r. r ≡ color_result (answer a) };

    #[tactic(auto, unfolding(crate::specs::Results::color_result))]
    fn from(a: Result<Color, Refusal>) -> ColorResult {
        let (number, value) = number_and(a, Color::ZERO);
        ColorResult { number, value }
    }
}

impl From<Result<Vec3, Refusal>> for Vec3Result {
    ghost from_gives = { λ a r. r ≡ vec3_result (answer a) };

    #[tactic(auto, unfolding(crate::specs::Results::vec3_result))]
    fn from(a: Result<Vec3, Refusal>) -> Vec3Result {
        let (number, value) = number_and(a, Vec3::ZERO);
        Vec3Result { number, value }
    }
}

impl From<Result<Refracted, Refusal>> for DirectionResult {
    ghost from_gives = { λ a r. r ≡ direction_result (map_answer refracted (answer a)) };

    #[tactic(auto, unfolding(crate::specs::Results::direction_result, optics::specs::Bxdf::refracted))]
    fn from(a: Result<Refracted, Refusal>) -> DirectionResult {
        match a {
            Err(why) => DirectionResult {
                number: why.number(),
                ..NO_DIRECTION
            },
            Ok(Ok(direction)) => DirectionResult {
                outcome: Case::Direction as u64,
                direction,
                ..NO_DIRECTION
            },
            Ok(Err(NoDirection::WrongSide)) => DirectionResult {
                outcome: Case::None as u64,
                ..NO_DIRECTION
            },
            Ok(Err(NoDirection::Total)) => DirectionResult {
                outcome: Case::Total as u64,
                ..NO_DIRECTION
            },
        }
    }
}

// A mirror answers as a bend that never reflects totally.
#[tactic(auto, unfolding(optics::specs::Bxdf::reflected, optics::specs::Bxdf::refracted))]
fn as_bend(wi: Option<Vec3>) -> Refracted
    ensures { refracted result ≡ reflected wi }
{
    wi.ok_or(NoDirection::WrongSide)
}

impl From<Result<Option<Vec3>, Refusal>> for DirectionResult {
    ghost from_gives = { λ a r. r ≡ direction_result (map_answer reflected (answer a)) };

    fn from(a: Result<Option<Vec3>, Refusal>) -> DirectionResult {
        DirectionResult::from(a.map(as_bend))
    }
}
