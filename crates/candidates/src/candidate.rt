// A candidate direction: its id and its density.
ghost use Rattle.std.specs.Prelude.{◌≡◌};
ghost use Rattle.numbers.specs.Refusal.{verdict};
ghost use Rattle.candidates.specs.Candidate.{is_density, check_candidate, goes_before};

use floats::float;
use numbers::refusal::{Check, Refusal, refuse};

#[repr(C)]
#[derive(Clone, Copy)]
pub struct Candidate {
    pub id: u16,
    pub density: f64,
}

// Whether a number is a density: finite and not below 0.
#[tactic(auto, unfolding(crate::specs::Candidate::is_density))]
fn is_density(x: f64) -> bool
    ensures { result ≡ is_density x }
{
    float::is_finite(x) && 0.0 <= x
}

impl Candidate {
    // What an arrival is refused for by itself.
    #[tactic(auto, unfolding(crate::specs::Candidate::check_candidate, numbers::specs::Refusal::number))]
    pub fn check(self) -> Check
        ensures { verdict result ≡ check_candidate self }
    {
        refuse(Refusal::NotFinite, is_density(self.density))
    }

    // Whether it stands before another, whichever arrived first. No PartialOrd: that has to agree with equality, and
    // two of one density are not equal.
    pub fn goes_before(self, other: Candidate) -> bool
        ensures { result ≡ goes_before self other }
    {
        other.density < self.density
    }
}
