// Bounces: a record for each, with the path before it and the answer after it.
use crate::case::Case;
use crate::words::Input;
use optics::microfacet::{Microsurface, Spectra};
use path::bsdf;
use path::plain::BounceResult;
use path::records::{Bounce, Path};

fn path_of(w: &Input) -> Path {
    Path {
        lambda: w.color(3),
        power: w.color(7),
    }
}

fn bounce_of(w: &Input) -> Bounce {
    Bounce {
        wo: w.vec3(11),
        normal: w.vec3(14),
        backface: w.is_true(17),
        u: w.float(18),
        disk: w.float(19),
        c: w.float(20),
        s: w.float(21),
        ks: w.color(22),
        tf: w.color(26),
    }
}

// Whether the answer of the bounce is the record's.
pub fn replay(case: &mut Case<'_>, spectra: Spectra<'_>) -> bool {
    let w = case.input;
    let m = Microsurface {
        surface: w.surface(),
        spectra,
    };
    let answer = bsdf::bounce(path_of(&w), &m, bounce_of(&w));
    case.holds(BounceResult::from(answer)) & case.holds(answer.path)
}
