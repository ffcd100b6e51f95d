// What the commands answer, and how it is written. By hand, no Display: a bounce, its shares and its colors are types
// of other crates, each of which would need one of this crate around it.
use candidates::owned::List;
use numbers::refusal::{Check, Refusal};
use numbers::vec3::Vec3;
use optics::color::Color;
use path::records::{Bounced, Light, Path, Shares};
use std::fmt;
use std::fmt::Write;
use text::answers;
use text::answers::Outcome;
use text::output::Output;

// What a density is on a surface: the probability of the one direction that light is scattered into, or
// per solid angle.
#[derive(Clone, Copy)]
pub enum Measure {
    Probability,
    PerSteradian,
}

impl fmt::Display for Measure {
    fn fmt<W: fmt::Write>(&self, f: &mut fmt::Formatter<W>) -> fmt::Result {
        f.write_str(match self {
            Measure::Probability => "probability",
            Measure::PerSteradian => "per-sr",
        })
    }
}

// What each command answers: the index that its line names, or the id, and what came of it.
#[derive(Clone, Copy)]
pub enum Reply {
    Surface(u64, Check),
    Book(u64, Result<usize, Refusal>),
    Start(u64, Check),
    Bounce(u64, Bounced, Measure),
    Density(u64, Result<(f64, Measure), Refusal>),
    Arrive(u16, Check),
    Depart(u16, Check),
    List,
}

fn refused(out: &mut Output<'_>, why: Refusal) -> Outcome {
    answers::refused(out, why.number())
}

// A command by its label and index, and that it was done, or why it is refused.
fn checked(out: &mut Output<'_>, label: &[u8], index: u64, check: Check) -> Outcome {
    out.labelled(label, index);
    match check {
        Ok(()) => answers::done(out),
        Err(why) => refused(out, why),
    }
}

// A book by its first surface's index, and how many surfaces were read, or why it is refused.
fn book(out: &mut Output<'_>, index: u64, surfaces: Result<usize, Refusal>) -> Outcome {
    out.labelled(b" book ", index);
    match surfaces {
        Ok(count) => {
            out.labelled(b" ok ", count as u64);
            answers::ended(out)
        }
        Err(why) => refused(out, why),
    }
}

// A density's number and its measure.
fn measured(out: &mut Output<'_>, x: f64, measure: Measure) {
    out.number(x);
    let _ = write!(out, " {measure}");
}

// The answer for a density that was asked for.
fn asked(out: &mut Output<'_>, density: Result<(f64, Measure), Refusal>) -> Outcome {
    match density {
        Ok((x, measure)) => {
            measured(out, x, measure);
            answers::ended(out)
        }
        Err(why) => refused(out, why),
    }
}

// A density that is none is not finite.
fn density(out: &mut Output<'_>, given: Option<f64>, measure: Measure) {
    out.text(b" density");
    match given {
        Some(x) => measured(out, x, measure),
        None => out.text(b" not finite"),
    }
}

fn shares(out: &mut Output<'_>, given: Option<Shares>) {
    match given {
        Some(Shares { reflected, passed }) => {
            out.labelled_numbers(b" shares", &[reflected, passed])
        }
        None => out.text(b" shares none"),
    }
}

fn color(out: &mut Output<'_>, label: &[u8], a: Color) {
    out.labelled_numbers(label, &[a.s0, a.s1, a.s2, a.s3]);
}

// The shares and the path, with which an answer ends.
fn left(out: &mut Output<'_>, given: Option<Shares>, path: Path) -> Outcome {
    shares(out, given);
    color(out, b" lambda", path.lambda);
    color(out, b" power", path.power);
    answers::ended(out)
}

// The branch that light took.
fn branch(out: &mut Output<'_>, reflection: bool) {
    out.text(if reflection {
        b" reflected"
    } else {
        b" passed"
    });
}

// A direction and its density.
fn sampled(out: &mut Output<'_>, wi: Vec3, given: Option<f64>, measure: Measure) {
    out.labelled_numbers(b" wi", &[wi.x, wi.y, wi.z]);
    density(out, given, measure);
}

// The answer to a bounce, after the path's index.
fn bounced(out: &mut Output<'_>, answer: Bounced, measure: Measure) -> Outcome {
    match answer.light {
        Err(why) => refused(out, why),
        Ok(Light::Lost { shares }) => {
            out.text(b" lost");
            left(out, shares, answer.path)
        }
        Ok(
            Light::Sent {
                reflection,
                wi,
                density,
                shares,
            },
        ) => {
            branch(out, reflection);
            sampled(out, wi, density, measure);
            left(out, shares, answer.path)
        }
    }
}

// The candidates of a list, from the top.
fn listed(out: &mut Output<'_>, list: &List) -> Outcome {
    out.labelled(b" list ", list.count() as u64);
    for (id, density) in list.ids().iter().zip(list.densities().iter()) {
        out.labelled(b" ", u64::from(*id));
        out.number(*density);
    }
    answers::ended(out)
}

// Writes an answer, behind the number of its line.
pub fn write(out: &mut Output<'_>, reply: Reply, list: &List) -> Outcome {
    match reply {
        Reply::Surface(i, check) => checked(out, b" surface ", i, check),
        Reply::Book(i, surfaces) => book(out, i, surfaces),
        Reply::Start(i, check) => checked(out, b" start ", i, check),
        Reply::Bounce(p, answer, measure) => {
            out.labelled(b" bounce ", p);
            bounced(out, answer, measure)
        }
        Reply::Density(s, density) => {
            out.labelled(b" density ", s);
            asked(out, density)
        }
        Reply::Arrive(id, check) => checked(out, b" arrive ", u64::from(id), check),
        Reply::Depart(id, check) => checked(out, b" depart ", u64::from(id), check),
        Reply::List => listed(out, list),
    }
}
