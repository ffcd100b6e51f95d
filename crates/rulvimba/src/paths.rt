// A path in the caller's memory: eight doubles, four wavelengths and then four powers. By hand: so C lends one.
ghost use Rattle.std.specs.Prelude.{◌≡◌};
ghost use Rattle.numbers.specs.Refusal.{verdict};
ghost use Rattle.path.specs.Answer.{outcome};
ghost use Rattle.rulvimba.specs.Results.{check_number};
ghost use Rattle.rulvimba.specs.Paths.{path_in, numbers_of, path_after, StartCall, BounceCall};

use crate::records::number_of;
use crate::surfaces::{SurfaceRecord, lent};
use numbers::refusal::Check;
use optics::color::Color;
use path::bsdf;
use path::plain::BounceResult;
use path::records::{Bounce, Bounced, Path};

// By hand beside `path::many`, which reads its eight by their places: cut out of 27, they would be an Option whose other
// case never comes.
pub(crate) fn load(numbers: &[f64; 8]) -> Path
    ensures { result ≡ path_in numbers.now }
{
    let [l0, l1, l2, l3, p0, p1, p2, p3] = *numbers;
    Path {
        lambda: Color {
            s0: l0,
            s1: l1,
            s2: l2,
            s3: l3,
        },
        power: Color {
            s0: p0,
            s1: p1,
            s2: p2,
            s3: p3,
        },
    }
}

fn store(numbers: &mut [f64; 8], path: Path)
    ensures { numbers.new ≡ numbers_of path }
{
    *numbers = [
        path.lambda.s0,
        path.lambda.s1,
        path.lambda.s2,
        path.lambda.s3,
        path.power.s0,
        path.power.s1,
        path.power.s2,
        path.power.s3,
    ];
}

// Stores the path that an answer carries; a refusal stores nothing.
#[tactic(auto, using(crate::proofs::AfterAnswer::path_after_lem))]
pub(crate) fn keep(numbers: &mut [f64; 8], answer: Bounced)
    ensures { numbers.new ≡ path_after numbers.old (outcome answer) }
{
    if answer.light.is_ok() {
        store(numbers, answer.path);
    }
}

// Stores a path that starts at four wavelengths; a refusal stores nothing.
#[tactic(auto, unfolding(crate::specs::Paths::path_started, crate::specs::Results::check_number))]
fn start(numbers: &mut [f64; 8], lambda: Color) -> Check
    ensures { StartCall numbers.old lambda (check_number (verdict result)) numbers.new }
{
    store(numbers, Path::start(lambda)?);
    Ok(())
}

// Starts a path at four wavelengths; a refusal leaves the memory as it was.
pub fn rulvimba_start(path: &mut [f64; 8], lambda: Color) -> u64
    ensures { StartCall path.old lambda result path.new }
{
    number_of(start(path, lambda))
}

// A bounce of the path; a refusal leaves the memory as it was.
pub fn rulvimba_bounce(
    path: &mut [f64; 8],
    surface: SurfaceRecord,
    eta: &[f64],
    k: &[f64],
    outer: &[f64],
    b: Bounce,
) -> BounceResult
    ensures { BounceCall path.old surface eta.now k.now outer.now b result path.new }
{
    let answer = bsdf::bounce(load(path), &lent(surface, eta, k, outer), b);
    keep(path, answer);
    BounceResult::from(answer)
}
