// The records of a path and its bounces (document 01, "Records"), and what a bounce answers.
ghost use Rattle.std.specs.Prelude.{◌≡◌};
ghost use Rattle.path.specs.Path.{path, start, weighed};
ghost use Rattle.numbers.specs.Refusal.{answer};

use crate::wavelength;
use numbers::refusal::{Refusal, refuse};
use numbers::vec3::Vec3;
use optics::color::Color;
use optics::microfacet::DiskPoint;

// Four wavelengths, each with the power that is left. 0 is a wavelength that was ended; the first,
// the leading one, never is.
#[repr(C)]
#[derive(Clone, Copy)]
pub struct Path {
    pub lambda: Color,
    pub power: Color,
}

// A bounce's arguments but the path and the surface: `wo` and the shading normal in world space, the
// number `u`, the disk number, a point (c, s) of the circle, and the filters of reflected and passed
// light. By hand, the three numbers of a point of the disk: so C lays a bounce out.
#[repr(C)]
#[derive(Clone, Copy)]
pub struct Bounce {
    pub wo: Vec3,
    pub normal: Vec3,
    pub backface: bool,
    pub u: f64,
    pub disk: f64,
    pub c: f64,
    pub s: f64,
    pub ks: Color,
    pub tf: Color,
}

impl Bounce {
    // The point of the disk at which a facet's normal is sampled.
    pub(crate) fn disk_point(self) -> DiskPoint
        ensures { (result.disk ≡ self.disk) × (result.c ≡ self.c) × (result.s ≡ self.s) }
    {
        DiskPoint {
            disk: self.disk,
            c: self.c,
            s: self.s,
        }
    }
}

// The shares of reflected and passed light at the leading wavelength, which glass has.
#[derive(Clone, Copy)]
pub struct Shares {
    pub reflected: f64,
    pub passed: f64,
}

// What becomes of light that a surface meets: it is lost, or sent on, reflected or passed. A density is given where it
// is finite.
#[derive(Clone, Copy)]
pub enum Light {
    Lost {
        shares: Option<Shares>,
    },
    Sent {
        reflection: bool,
        wi: Vec3,
        density: Option<f64>,
        shares: Option<Shares>,
    },
}

// What a bounce answers. A refused bounce's path is as it was, every other's has its new powers.
#[derive(Clone, Copy)]
pub struct Bounced {
    pub path: Path,
    pub light: Result<Light, Refusal>,
}

impl Path {
    // A path at four wavelengths of the range.
    #[tactic(auto, unfolding(crate::specs::Path::start, crate::specs::Path::ones, numbers::specs::Refusal::number))]
    pub fn start(lambda: Color) -> Result<Path, Refusal>
        ensures { answer result ≡ start lambda }
    {
        refuse(Refusal::Wavelength, wavelength::is_start(lambda))?;
        Ok(Path {
            lambda,
            power: Color::ONE,
        })
    }

    // The path with each power times the weight at its wavelength.
    #[tactic(auto, unfolding(crate::specs::Path::weighed))]
    pub fn weighed(self, weight: Color) -> Path
        ensures { result ≡ path self.lambda (weighed self.power weight) }
    {
        Path {
            lambda: self.lambda,
            power: self.power.zip_with(weight, |power, weight| power * weight),
        }
    }
}
