// Families of functions, by which records are counted.
use std::fmt;

#[derive(Clone, Copy, PartialEq, Eq, Drop)]
pub enum Family {
    Floats,
    Vectors2,
    Vectors3,
    Complexes,
    Bases,
    Angles,
    Spectra,
    Checked,
    Optics,
    Bounces,
    OutsideAir,
    BouncesOutsideAir,
    // by its number's hundreds
    Unknown(u64),
}

impl Family {
    // The family of a function's number, where glass lies in air and where it doesn't.
    pub fn of(number: u64, air: bool) -> Family {
        match number {
            990 if air => Family::Bounces,
            990 => Family::BouncesOutsideAir,
            _ if !air => Family::OutsideAir,
            100..=199 => Family::Floats,
            200..=299 => Family::Vectors2,
            300..=399 => Family::Vectors3,
            400..=499 => Family::Complexes,
            500..=599 => Family::Bases,
            600..=699 => Family::Angles,
            700..=799 => Family::Spectra,
            800..=899 => Family::Checked,
            900..=999 => Family::Optics,
            n => Family::Unknown(n / 100),
        }
    }
}

impl fmt::Display for Family {
    fn fmt<W: fmt::Write>(&self, f: &mut fmt::Formatter<W>) -> fmt::Result {
        f.write_str(match self {
            Family::Floats => "floats",
            Family::Vectors2 => "vectors of two",
            Family::Vectors3 => "vectors of three",
            Family::Complexes => "complex numbers",
            Family::Bases => "bases",
            Family::Angles => "angles",
            Family::Spectra => "spectra",
            Family::Checked => "checked calls",
            Family::Optics => "optics",
            Family::Bounces => "bounces",
            Family::OutsideAir => "optics, not in air",
            Family::BouncesOutsideAir => "bounces, not in air",
            Family::Unknown(_) => "unknown",
        })
    }
}
