// Four samples of a spectrum: lumo's src/tracer/color.rs. The same record holds the four wavelengths
// at which a spectrum is sampled, lumo's `ColorWavelength`.
ghost use Rattle.optics.specs.Color.{MappedBy, ZippedBy, TestedBy};

#[repr(C)]
#[derive(Clone, Copy)]
pub struct Color {
    pub s0: f64,
    pub s1: f64,
    pub s2: f64,
    pub s3: f64,
}

impl Color {
    pub const ZERO: Color = Color {
        s0: 0.0,
        s1: 0.0,
        s2: 0.0,
        s3: 0.0,
    };

    pub const ONE: Color = Color {
        s0: 1.0,
        s1: 1.0,
        s2: 1.0,
        s3: 1.0,
    };

    // `f` of each sample.
    pub fn map<F: Fn(f64) -> f64>(self, f: F) -> Color
        requires { F.IsAlwaysCallable f }
        ensures { MappedBy (F.post f) self result }
    {
        Color {
            s0: f(self.s0),
            s1: f(self.s1),
            s2: f(self.s2),
            s3: f(self.s3),
        }
    }

    // `f` of each sample and the other color's at its place.
    pub fn zip_with<F: Fn(f64, f64) -> f64>(self, other: Color, f: F) -> Color
        requires { F.IsAlwaysCallable f }
        ensures { ZippedBy (F.post f) self other result }
    {
        Color {
            s0: f(self.s0, other.s0),
            s1: f(self.s1, other.s1),
            s2: f(self.s2, other.s2),
            s3: f(self.s3, other.s3),
        }
    }

    // Whether each sample passes a test. All are tried: no branch stands between them.
    pub fn all<F: Fn(f64) -> bool>(self, test: F) -> bool
        requires { F.IsAlwaysCallable test }
        ensures { TestedBy (F.post test) self result }
    {
        test(self.s0) & test(self.s1) & test(self.s2) & test(self.s3)
    }
}
