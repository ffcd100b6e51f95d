// Answers that librulvimba has none of, laid out for C as it lays out its own. By hand: a record for each type of
// value, since no generic struct crosses to C.
ghost use Rattle.std.specs.Prelude.{◌≡◌};
ghost use Rattle.numbers.specs.Refusal.{answer};
ghost use Rattle.optics.specs.Bxdf.{sampled};
ghost use Rattle.compare_path.specs.Results.{bool_result, onb_result, scattered_result};

use numbers::onb::Onb;
use numbers::refusal::Refusal;
use numbers::vec3::Vec3;
use optics::bxdf::{NoDirection, Sample, Sampled};
use rulvimba::records::{Case, number_and};

#[repr(C)]
#[derive(Clone, Copy)]
pub struct BoolResult {
    pub number: u64,
    pub value: bool,
}

#[repr(C)]
#[derive(Clone, Copy)]
pub struct OnbResult {
    pub number: u64,
    pub value: Onb,
}

// A sampler's answer: `outcome` is that of a `DirectionResult`, and `reflection` the branch it took.
#[repr(C)]
#[derive(Clone, Copy)]
pub struct ScatteredResult {
    pub outcome: u64,
    pub reflection: bool,
    pub direction: Vec3,
}

const NO_ONB: Onb = Onb {
    u: Vec3::ZERO,
    v: Vec3::ZERO,
    w: Vec3::ZERO,
};

impl From<Result<bool, Refusal>> for BoolResult {
    ghost from_gives = { λ a r. r ≡ bool_result (answer a) };

    #[tactic(auto, unfolding(crate::specs::Results::bool_result))]
    fn from(a: Result<bool, Refusal>) -> BoolResult {
        let (number, value) = number_and(a, false);
        BoolResult { number, value }
    }
}

impl From<Result<Onb, Refusal>> for OnbResult {
    ghost from_gives = { λ a r. r ≡ onb_result (answer a) };

    #[tactic(auto, unfolding(crate::specs::Results::onb_result))]
    fn from(a: Result<Onb, Refusal>) -> OnbResult {
        let (number, value) = number_and(a, NO_ONB);
        OnbResult { number, value }
    }
}

impl From<Sampled> for ScatteredResult {
    ghost from_gives = { λ s r. r ≡ scattered_result (sampled s) };

    #[tactic(auto, unfolding(crate::specs::Results::scattered_result, optics::specs::Bxdf::sampled))]
    fn from(s: Sampled) -> ScatteredResult {
        let (case, reflection, direction) = match s {
            Ok(Sample { wi, reflection }) => (Case::Direction, reflection, wi),
            Err(NoDirection::WrongSide) => (Case::None, false, Vec3::ZERO),
            Err(NoDirection::Total) => (Case::Total, false, Vec3::ZERO),
        };
        ScatteredResult {
            outcome: case as u64,
            reflection,
            direction,
        }
    }
}
