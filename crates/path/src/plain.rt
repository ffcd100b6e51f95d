// An answer as a plain record, laid out as C has it: document 01's number, which is 0 where the bounce
// is accepted, and the values, which are zeros where there are none.
ghost use Rattle.std.specs.Prelude.{◌≡◌, cond};
ghost use Rattle.path.specs.Answer.{outcome};
ghost use Rattle.path.specs.declared.plain.Case.TheVariants.{Reflected, Passed};
ghost use Rattle.path.specs.Plain.{density_record, shares_record, bounce_result};

use crate::records::{Bounced, Light, Shares};
use numbers::vec3::Vec3;

// `finite` is 1 where there is a density and it is finite, else 0. By hand: C has no Option.
#[repr(C)]
#[derive(Clone, Copy)]
pub struct DensityRecord {
    pub finite: u64,
    pub value: f64,
}

// `given` is 1 on glass, which has shares, else 0. By hand: C has no Option.
#[repr(C)]
#[derive(Clone, Copy)]
pub struct SharesRecord {
    pub given: u64,
    pub reflected: f64,
    pub passed: f64,
}

// The cases of an answer, each with its number in C.
#[derive(Clone, Copy, PartialEq, Eq, Debug)]
enum Case {
    Refused = 0,
    Lost = 1,
    Reflected = 2,
    Passed = 3,
}

impl Case {
    // Light that is sent on, by the branch that was taken.
    fn sent(reflection: bool) -> Case
        ensures { result ≡ cond reflection Reflected Passed }
    {
        if reflection {
            Case::Reflected
        } else {
            Case::Passed
        }
    }
}

// `number` is the refusal's, and `outcome` that of a `Case`. By hand, with numbers: no enum crosses to C.
#[repr(C)]
#[derive(Clone, Copy)]
pub struct BounceResult {
    pub number: u64,
    pub outcome: u64,
    pub wi: Vec3,
    pub density: DensityRecord,
    pub shares: SharesRecord,
}

// What stands where an answer has no value.
const NOTHING: BounceResult = BounceResult {
    number: 0,
    outcome: 0,
    wi: Vec3::ZERO,
    density: DensityRecord {
        finite: 0,
        value: 0.0,
    },
    shares: SharesRecord {
        given: 0,
        reflected: 0.0,
        passed: 0.0,
    },
};

impl From<Option<f64>> for DensityRecord {
    ghost from_gives = { λ density r. r ≡ density_record density };

    #[tactic(auto, unfolding(crate::specs::Plain::density_record))]
    fn from(density: Option<f64>) -> Self {
        match density {
            Some(value) => DensityRecord { finite: 1, value },
            None => NOTHING.density,
        }
    }
}

impl From<Option<Shares>> for SharesRecord {
    ghost from_gives = { λ shares r. r ≡ shares_record shares };

    #[tactic(auto, unfolding(crate::specs::Plain::shares_record))]
    fn from(shares: Option<Shares>) -> Self {
        match shares {
            Some(Shares { reflected, passed }) => SharesRecord {
                given: 1,
                reflected,
                passed,
            },
            None => NOTHING.shares,
        }
    }
}

impl From<Bounced> for BounceResult {
    ghost from_gives = { λ answer r. r ≡ bounce_result (outcome answer) };

    #[tactic(auto, unfolding(crate::specs::Answer::outcome, crate::specs::Plain::bounce_result), using(crate::proofs::Outcome::sent_result))]
    fn from(answer: Bounced) -> Self {
        match answer.light {
            Err(why) => BounceResult {
                number: why.number(),
                outcome: Case::Refused as u64,
                ..NOTHING
            },
            Ok(Light::Lost { shares }) => BounceResult {
                outcome: Case::Lost as u64,
                shares: shares.into(),
                ..NOTHING
            },
            Ok(
                Light::Sent {
                    reflection,
                    wi,
                    density,
                    shares,
                },
            ) => BounceResult {
                outcome: Case::sent(reflection) as u64,
                wi,
                density: density.into(),
                shares: shares.into(),
                ..NOTHING
            },
        }
    }
}
