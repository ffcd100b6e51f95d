// The commands of a job. Each reads its line and calls the model; what it answers is then written in one place.
ghost use Rattle.std.specs.Prelude.{◌≡◌, MatchOption, None, Some, OnOk};
ghost use Rattle.path.specs.Answer.{outcome, path_of};
ghost use Rattle.book.specs.Record.{offered};
ghost use Rattle.book_path.specs.BookBounce.{bounce_on_book};
ghost use Rattle.path.specs.declared.records.Path.{Path};
ghost use Rattle.text.specs.Line.{left};
ghost use Rattle.rays.specs.Store.{path_in, keep_path};
ghost use Rattle.rays.specs.Numbers.{vec3, color, past_three, past_four};

use crate::replies::{Measure, Reply};
use crate::sizes::{PATH, PATHS};
use crate::{list, replies};
use book::record::Record;
use book::{BOOK_MAX, SURFACES_MAX, reading};
use candidates::owned::List;
use jobs::places::Places;
use jobs::surface::Words;
use jobs::{file, sizes};
use numbers::vec3::Vec3;
use optics::bxdf::dielectric;
use optics::color::Color;
use optics::microfacet;
use optics::microfacet::{Ggx, Kind, Microsurface};
use path::records::{Bounce, Bounced, Path};
use std::fs::Files;
use text::answers;
use text::answers::Outcome;
use text::faults::{Fault, Wrong};
use text::line::Line;
use text::output::Output;

// What is wrong with a word that was read before, by its number.
fn at_word(word: u64, wrong: Wrong) -> Fault {
    Fault { word, wrong }
}

// What a job holds between two lines, and the words of a surface, which each line of one is read into.
#[derive(Drop)]
pub struct Job {
    words: Words,
    surfaces: Places<Record, { sizes::SURFACES }>,
    paths: Places<Path, PATHS>,
    list: List,
}

// ---- words of a line

// Three numbers, x, y and z in this order.
#[tactic(auto, unfolding(crate::specs::Numbers::vec3))]
fn vec3(line: &mut Line<'_>) -> Result<Vec3, Fault>
    ensures value { result ≡ vec3 (left line.old) }
    ensures rest { OnOk result (left line.new ≡ past_three (left line.old)) }
{
    Ok(Vec3 {
        x: line.number()?,
        y: line.number()?,
        z: line.number()?,
    })
}

// Four numbers, s0 to s3 in this order.
#[tactic(auto, unfolding(crate::specs::Numbers::color))]
fn color(line: &mut Line<'_>) -> Result<Color, Fault>
    ensures value { result ≡ color (left line.old) }
    ensures rest { OnOk result (left line.new ≡ past_four (left line.old)) }
{
    Ok(Color {
        s0: line.number()?,
        s1: line.number()?,
        s2: line.number()?,
        s3: line.number()?,
    })
}

// BACKFACE WO*3 NORMAL*3 U DISK C S KS*4 TF*4
fn bounce_of(line: &mut Line<'_>) -> Result<Bounce, Fault> {
    Ok(Bounce {
        backface: line.flag()?,
        wo: vec3(line)?,
        normal: vec3(line)?,
        u: line.number()?,
        disk: line.number()?,
        c: line.number()?,
        s: line.number()?,
        ks: color(line)?,
        tf: color(line)?,
    })
}

// ---- surfaces

// Smooth facets send light into one direction whatever the index, which is then not read: that takes a pass
// over the outer spectrum.
fn is_one_direction(m: &Microsurface<'_>, leading: f64) -> bool {
    let facets = Ggx::new(m.surface.roughness);
    if facets.is_delta() {
        return true;
    }
    let kind = m.surface.kind;
    match kind {
        Kind::Metal => false,
        Kind::Glass => {
            let at = microfacet::optical_constants(kind, &m.spectra, leading);
            dielectric::is_smooth(facets, at.eta)
        }
    }
}

fn measure_on(m: &Microsurface<'_>, leading: f64) -> Measure {
    if is_one_direction(m, leading) {
        return Measure::Probability;
    }
    Measure::PerSteradian
}

// ---- bounces

// A bounce of the path that is held as `p`, which is then the path that the answer carries: the same as
// before if the bounce is refused. None if none is held.
#[tactic(auto, using(path::proofs::Outcome::path_carried))]
fn bounce_held(
    paths: &mut Places<Path, PATHS>,
    p: u64,
    surface: &Record,
    b: Bounce,
) -> Option<Bounced>
    ensures { MatchOption result
        ((path_in paths.old.held p ≡ None) × (paths.new.held ≡ paths.old.held))
        (λ r. (before : Path)
        × ((path_in paths.old.held p ≡ Some before)
        × ((outcome r ≡ bounce_on_book before (offered surface.now) b)
        × (paths.new.held ≡ keep_path paths.old.held p (path_of (outcome r)))))) }
{
    let before = *paths.get(p)?;
    let answer = book_path::bounce(before, surface, b);
    paths.keep(p, answer.path);
    Some(answer)
}

impl Job {
    pub fn new() -> Job {
        Job {
            words: Words::NONE,
            surfaces: Places::new(),
            paths: Places::new(),
            list: List::new(),
        }
    }

    // surface INDEX KIND [two-sided] ROUGHNESS eta ENTRIES k ENTRIES [outer ENTRIES]
    fn surface(&mut self, line: &mut Line<'_>) -> Result<Reply, Fault> {
        let i = line.index(sizes::SURFACE)?;
        self.words.read(line)?;
        let check = self.words.keep(i, &mut self.surfaces);
        Ok(Reply::Surface(i, check))
    }

    // Keeps the surfaces of a book from an index on, and says how many they are; none is kept where there aren't as many
    // places.
    fn keep_all(&mut self, i: u64, surfaces: &[Record]) -> Option<usize> {
        if sizes::SURFACES.saturating_sub(i as usize) < surfaces.len() {
            return None;
        }
        for (place, surface) in (i..).zip(surfaces) {
            self.surfaces.keep(place, *surface);
        }
        Some(surfaces.len())
    }

    // book INDEX FILE
    fn book(&mut self, files: &impl Files, line: &mut Line<'_>) -> Result<Reply, Fault> {
        let i = line.index(sizes::SURFACE)?;
        let name = line.word()?;
        line.end()?;
        let mut bytes = [0u8; BOOK_MAX + 1];
        let n = file::read(files, name, &mut bytes).ok_or(at_word(3, Wrong::NoFile))?;
        let mut surfaces = [Record::NOTHING; SURFACES_MAX];
        let count = match reading::read(&bytes[..n], 0, &mut surfaces) {
            Ok(count) => count,
            Err(why) => return Ok(Reply::Book(i, Err(why))),
        };
        let kept = self.keep_all(i, &surfaces[..count]);
        let count = kept.ok_or(at_word(2, Wrong::NoPlace))?;
        Ok(Reply::Book(i, Ok(count)))
    }

    // start PATH LAMBDA*4
    fn start(&mut self, line: &mut Line<'_>) -> Result<Reply, Fault> {
        let i = line.index(PATH)?;
        let lambda = color(line)?;
        line.end()?;
        let check = Path::start(lambda).map(|path| self.paths.keep(i, path));
        Ok(Reply::Start(i, check))
    }

    // bounce PATH SURFACE BACKFACE WO*3 NORMAL*3 U DISK C S KS*4 TF*4
    fn bounce(&mut self, line: &mut Line<'_>) -> Result<Reply, Fault> {
        let p = line.index(PATH)?;
        let s = line.index(sizes::SURFACE)?;
        let b = bounce_of(line)?;
        line.end()?;
        let no_path = at_word(2, Wrong::NoPath);
        let no_surface = at_word(3, Wrong::NoSurface);
        let leading = self.paths.get(p).ok_or(no_path)?.lambda.s0;
        let surface = self.surfaces.get(s).ok_or(no_surface)?;
        let answer = bounce_held(&mut self.paths, p, surface, b).ok_or(no_path)?;
        Ok(Reply::Bounce(p, answer, measure_on(&surface.lent(), leading)))
    }

    // density SURFACE REFLECTION WO*3 WI*3 LAMBDA
    fn density(&self, line: &mut Line<'_>) -> Result<Reply, Fault> {
        let s = line.index(sizes::SURFACE)?;
        let reflection = line.flag()?;
        let wo = vec3(line)?;
        let wi = vec3(line)?;
        let lambda = line.number()?;
        line.end()?;
        let no_surface = at_word(2, Wrong::NoSurface);
        let m = self.surfaces.get(s).ok_or(no_surface)?.lent();
        let density = counter::pdf(&m, wo, wi, reflection, lambda);
        let measured = density.map(|x| (x, measure_on(&m, lambda)));
        Ok(Reply::Density(s, measured))
    }

    // The command of a word, of which the rest of its line is to be read.
    fn command(
        &mut self,
        files: &impl Files,
        word: &[u8],
        line: &mut Line<'_>,
    ) -> Result<Reply, Fault> {
        match word {
            b"book" => self.book(files, line),
            b"bounce" => self.bounce(line),
            b"density" => self.density(line),
            b"start" => self.start(line),
            b"surface" => self.surface(line),
            b"arrive" => list::arrive(&mut self.list, line),
            b"depart" => list::depart(&mut self.list, line),
            b"list" => list::all(line),
            _ => Err(line.wrong(Wrong::Command)),
        }
    }

    // Answers the line `number` of a job; `text` is the line without its line feed.
    pub fn answer(
        &mut self,
        files: &impl Files,
        text: &[u8],
        number: u64,
        out: &mut Output<'_>,
    ) -> Outcome {
        let mut line = Line::new(text);
        let Ok(word) = line.word() else {
            return Outcome::Nothing;
        };
        out.decimal(number);
        match self.command(files, word, &mut line) {
            Ok(reply) => replies::write(out, reply, &self.list),
            Err(fault) => answers::fault(out, fault),
        }
    }
}
