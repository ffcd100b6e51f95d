// Why a call is refused, and checks: one after the other, the first that fails decides.
ghost use Rattle.std.specs.Prelude.{◌≡◌};
ghost use Rattle.numbers.specs.Refusal.{number, verdict, refuse};

// What was refused, with its number: document 01's and from 11 on 02's. A density is refused as `NotFinite` also where
// it is to be listed and below 0.
#[derive(Clone, Copy, PartialEq, Eq, Debug)]
pub enum Refusal {
    Roughness = 1,
    Eta = 2,
    K = 3,
    Wavelength = 4,
    Direction = 5,
    RandomNumber = 6,
    CirclePair = 7,
    Filter = 8,
    NotFinite = 9,
    Power = 10,
    Full = 11,
    Id = 12,
    Outer = 13,
    Book = 14,
}

// Whether a check passed, and why not.
pub type Check = Result<(), Refusal>;

impl Refusal {
    // The number of the refusal. By hand: it was public before, and a `From` beside it would say the same twice.
    #[tactic(auto, unfolding(crate::specs::Refusal::number))]
    pub fn number(self) -> u64
        ensures { result ≡ number self }
    {
        self as u64
    }
}

// Refused for `why`, unless the test holds.
pub fn refuse(why: Refusal, holds: bool) -> Check
    ensures { verdict result ≡ refuse (number why) «holds» }
{
    if holds { Ok(()) } else { Err(why) }
}
