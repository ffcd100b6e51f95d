// Many bounces on one surface, from an array of doubles to another: the surface is checked once, before
// the first. Each bounce has a path of its own: 27 doubles in, 18 out.
ghost use Rattle.std.specs.Prelude.{◌≡◌, ◌+◌, ◌*◌, ◌≤◌, ◌++◌, length, drop};
ghost use Rattle.std.proofs.Math.Seq.{paste};
ghost use Rattle.optics.specs.Color.{color};
ghost use Rattle.numbers.specs.Vec3.{vec3};
ghost use Rattle.path.specs.Answer.{outcome};
ghost use Rattle.path.specs.Many.{at, is_set, path_in, bounce_in, numbers_out, bounced, all_bounced, count_of};

use crate::plain::BounceResult;
use crate::prepared::Prepared;
use crate::records::{Bounce, Bounced, Path};
use numbers::vec3::Vec3;
use optics::color::Color;
use optics::microfacet::Microsurface;
use std::num::nearest_u64_to_f64;

// How many doubles a bounce takes and gives. By hand, arrays of doubles: so C hands them over.
const IN: usize = 27;

const OUT: usize = 18;

// Whether a number stands for true: any but 0 does. By hand: in C's array a flag is a double.
#[tactic(auto, unfolding(crate::specs::Many::is_set))]
fn is_set(x: f64) -> bool
    ensures { result ≡ is_set x }
{
    x != 0.0
}

fn color_at(numbers: &[f64; IN], i: usize) -> Color
    requires { i + 4 ≤ 27 }
    ensures { result ≡ color (at numbers.now i) (at numbers.now (i + 1)) (at numbers.now (i + 2)) (at numbers.now (i + 3)) }
{
    Color {
        s0: numbers[i],
        s1: numbers[i + 1],
        s2: numbers[i + 2],
        s3: numbers[i + 3],
    }
}

fn vec3_at(numbers: &[f64; IN], i: usize) -> Vec3
    requires { i + 3 ≤ 27 }
    ensures { result ≡ vec3 (at numbers.now i) (at numbers.now (i + 1)) (at numbers.now (i + 2)) }
{
    Vec3 {
        x: numbers[i],
        y: numbers[i + 1],
        z: numbers[i + 2],
    }
}

#[tactic(auto, unfolding(crate::specs::Many::path_in))]
fn path_in(numbers: &[f64; IN]) -> Path
    ensures { result ≡ path_in numbers.now }
{
    Path {
        lambda: color_at(numbers, 0),
        power: color_at(numbers, 4),
    }
}

fn bounce_in(numbers: &[f64; IN]) -> Bounce
    ensures { result ≡ bounce_in numbers.now }
{
    Bounce {
        wo: vec3_at(numbers, 8),
        normal: vec3_at(numbers, 11),
        backface: is_set(numbers[14]),
        u: numbers[15],
        disk: numbers[16],
        c: numbers[17],
        s: numbers[18],
        ks: color_at(numbers, 19),
        tf: color_at(numbers, 23),
    }
}

#[tactic(auto, unfolding(crate::specs::Many::numbers_out, crate::specs::Many::result_numbers), using(crate::proofs::Outcome::path_carried))]
fn numbers_out(answer: Bounced) -> [f64; OUT]
    ensures { result ≡ numbers_out (outcome answer) }
{
    let p = answer.path;
    let r = BounceResult::from(answer);
    [
        p.lambda.s0,
        p.lambda.s1,
        p.lambda.s2,
        p.lambda.s3,
        p.power.s0,
        p.power.s1,
        p.power.s2,
        p.power.s3,
        nearest_u64_to_f64(r.number),
        nearest_u64_to_f64(r.outcome),
        r.wi.x,
        r.wi.y,
        r.wi.z,
        nearest_u64_to_f64(r.density.finite),
        r.density.value,
        nearest_u64_to_f64(r.shares.given),
        r.shares.reflected,
        r.shares.passed,
    ]
}

// Stores a bounce's numbers from `at` on. By hand: copy_from_slice goes through memory and calls memcpy, which takes 3 in
// 100 of a bounce, and which the library for C would need from outside.
fn put(output: &mut [f64], at: usize, numbers: &[f64; OUT])
    requires { at + 18 ≤ length output.old }
    ensures { output.new ≡ paste output.old at numbers.now 18 }
{
    for (j, x) in numbers.iter().enumerate() {
        output[at + j] = *x;
    }
}

impl Prepared<'_, '_> {
    // One bounce, from its numbers.
    #[tactic(auto, unfolding(crate::specs::Many::bounced))]
    fn bounced(&self, numbers: &[f64; IN]) -> [f64; OUT]
        ensures { result ≡ bounced self.now.surface.now numbers.now }
    {
        numbers_out(self.bounce(path_in(numbers), bounce_in(numbers)))
    }

    // The first `n` bounces. By hand, the place of each in the output: std says nothing of what a slice ends as behind
    // `as_chunks_mut`, and one chunk after the other by `split_first_chunk_mut` would be longer.
    fn run(&self, input: &[f64], output: &mut [f64], n: usize)
        requires { (27 * n ≤ length input.now) × (18 * n ≤ length output.old) }
        ensures { output.new ≡ all_bounced self.now.surface.now input.now n ++ drop (18 * n) output.old }
    {
        let (records, _) = input.as_chunks::<IN>();
        for (i, numbers) in records[..n].iter().enumerate() {
            put(output, OUT * i, &self.bounced(numbers));
        }
    }
}

// As many bounces as both arrays have room for.
fn count(input: usize, output: usize) -> usize
    ensures { (result ≡ count_of input output) × (27 * result ≤ input) × (18 * result ≤ output) }
{
    (input / IN).min(output / OUT)
}

// Runs as many bounces as both arrays have room for, and returns how many; what lies past their places
// in the output stays as it was.
pub fn bounces(m: &Microsurface<'_>, input: &[f64], output: &mut [f64]) -> usize
    ensures { (result ≡ count_of (length input.now) (length output.old)) × (output.new ≡ all_bounced m.now input.now result ++ drop (18 * result) output.old) }
{
    let n = count(input.len(), output.len());
    Prepared::new(m).run(input, output, n);
    n
}
