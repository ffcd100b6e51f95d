// Words in, as they come in a record, and words out, each held to the record's next.
use crate::record;
use floats::patterns;
use numbers::complex::Complex;
use numbers::onb::Onb;
use numbers::refusal::Refusal;
use numbers::vec2::Vec2;
use numbers::vec3::Vec3;
use optics::bxdf::{NoDirection, Refracted, Sample};
use optics::color::Color;
use optics::microfacet::{DiskPoint, Ggx, Kind, OpticalConstants, Surface};
use path::plain::{BounceResult, DensityRecord, SharesRecord};
use path::records::Path;
use std::fs::File;

// ---- in
// The words that go into a call, and zeros behind them: no call takes more.
#[derive(Clone, Copy)]
pub struct Input([f64; 30]);

// What stands in the words from the i-th on. Behind the last stand zeros.
impl Input {
    // The next `ins` words of the file.
    pub fn read(file: &mut File, ins: u64) -> Input {
        let mut words = [0.0; 30];
        record::read_floats(file, ins, &mut words);
        Input(words)
    }

    fn words<const N: usize>(&self, i: usize) -> [f64; N] {
        let mut words = [0.0; N];
        for (word, x) in words.iter_mut().zip(self.0.iter().skip(i)) {
            *word = *x;
        }
        words
    }

    pub fn float(&self, i: usize) -> f64 {
        let [x] = self.words::<1>(i);
        x
    }

    pub fn is_true(&self, i: usize) -> bool {
        self.float(i) != 0.0
    }

    // The kind of a surface: glass where the word is not 0.
    pub fn kind(&self, i: usize) -> Kind {
        if self.is_true(i) {
            Kind::Glass
        } else {
            Kind::Metal
        }
    }

    pub fn vec2(&self, i: usize) -> Vec2 {
        let [x, y] = self.words::<2>(i);
        Vec2 { x, y }
    }

    pub fn vec3(&self, i: usize) -> Vec3 {
        let [x, y, z] = self.words::<3>(i);
        Vec3 { x, y, z }
    }

    pub fn color(&self, i: usize) -> Color {
        let [s0, s1, s2, s3] = self.words::<4>(i);
        Color { s0, s1, s2, s3 }
    }

    pub fn facets(&self, i: usize) -> Ggx {
        Ggx {
            roughness: self.vec2(i),
        }
    }

    pub fn constants(&self, i: usize) -> OpticalConstants {
        let [eta, k] = self.words::<2>(i);
        OpticalConstants { eta, k }
    }

    pub fn disk_point(&self, i: usize) -> DiskPoint {
        let [disk, c, s] = self.words::<3>(i);
        DiskPoint { disk, c, s }
    }

    // The surface that a call begins with: its kind, and its roughness.
    pub fn surface(&self) -> Surface {
        Surface {
            kind: self.kind(0),
            roughness: self.vec2(1),
        }
    }
}

// ---- out
// What a call answers, as words.
pub trait Words {
    // Whether the record's next words are these. Each is read, whatever those before it were.
    fn same(self, file: &mut File) -> bool;
}

// What a call answers unless it is refused: in its place stand as many zeros as it has words.
pub trait Value: Words {
    const COUNT: u64;
}

impl Words for u64 {
    fn same(self, file: &mut File) -> bool {
        record::word(file) == self
    }
}

impl Words for bool {
    fn same(self, file: &mut File) -> bool {
        (self as u64).same(file)
    }
}

impl Words for f64 {
    fn same(self, file: &mut File) -> bool {
        patterns::bits(self).same(file)
    }
}

impl Words for Vec2 {
    fn same(self, file: &mut File) -> bool {
        self.x.same(file) & self.y.same(file)
    }
}

impl Words for Vec3 {
    fn same(self, file: &mut File) -> bool {
        self.x.same(file) & self.y.same(file) & self.z.same(file)
    }
}

impl Words for Complex {
    fn same(self, file: &mut File) -> bool {
        self.Re.same(file) & self.Im.same(file)
    }
}

impl Words for Onb {
    fn same(self, file: &mut File) -> bool {
        self.u.same(file) & self.v.same(file) & self.w.same(file)
    }
}

impl Words for Color {
    fn same(self, file: &mut File) -> bool {
        self.s0.same(file) & self.s1.same(file) & self.s2.same(file) & self.s3.same(file)
    }
}

// A surface that was made: whether it is glass, and its roughness.
impl Words for Surface {
    fn same(self, file: &mut File) -> bool {
        u64::from(self.kind).same(file) & self.roughness.same(file)
    }
}

// Whether the record's next `n` words are zeros.
fn are_zeros(file: &mut File, n: u64) -> bool {
    let mut zeros = true;
    for _ in 0..n {
        zeros &= record::word(file) == 0;
    }
    zeros
}

// Document 01's number, and zeros where the call is refused; 0 and the value where it isn't.
impl<T: Value> Words for Result<T, Refusal> {
    fn same(self, file: &mut File) -> bool {
        match self {
            Ok(value) => 0u64.same(file) & value.same(file),
            Err(why) => why.number().same(file) & are_zeros(file, T::COUNT),
        }
    }
}

// What a mirror, a bend or a sampler answers: 1 and the value, and zeros behind 2 for none or 3 for total reflection.
impl<T: Value> Words for Result<T, NoDirection> {
    fn same(self, file: &mut File) -> bool {
        match self {
            Ok(value) => 1u64.same(file) & value.same(file),
            Err(NoDirection::WrongSide) => 2u64.same(file) & are_zeros(file, T::COUNT),
            Err(NoDirection::Total) => 3u64.same(file) & are_zeros(file, T::COUNT),
        }
    }
}

impl Words for Option<Vec3> {
    fn same(self, file: &mut File) -> bool {
        self.ok_or(NoDirection::WrongSide).same(file)
    }
}

// Whether it is a reflection, and the direction.
impl Words for Sample {
    fn same(self, file: &mut File) -> bool {
        self.reflection.same(file) & self.wi.same(file)
    }
}

impl Words for DensityRecord {
    fn same(self, file: &mut File) -> bool {
        self.finite.same(file) & self.value.same(file)
    }
}

impl Words for SharesRecord {
    fn same(self, file: &mut File) -> bool {
        self.given.same(file) & self.reflected.same(file) & self.passed.same(file)
    }
}

impl Words for BounceResult {
    fn same(self, file: &mut File) -> bool {
        self.number.same(file)
            & self.outcome.same(file)
            & self.wi.same(file)
            & self.density.same(file)
            & self.shares.same(file)
    }
}

impl Words for Path {
    fn same(self, file: &mut File) -> bool {
        self.lambda.same(file) & self.power.same(file)
    }
}

impl Value for bool {
    const COUNT: u64 = 1;
}

impl Value for f64 {
    const COUNT: u64 = 1;
}

impl Value for Vec3 {
    const COUNT: u64 = 3;
}

impl Value for Sample {
    const COUNT: u64 = 4;
}

impl Value for Onb {
    const COUNT: u64 = 9;
}

impl Value for Color {
    const COUNT: u64 = 4;
}

impl Value for Surface {
    const COUNT: u64 = 3;
}

impl Value for Refracted {
    const COUNT: u64 = 4;
}

impl Value for Option<Vec3> {
    const COUNT: u64 = 4;
}
