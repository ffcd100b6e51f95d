// A surface as a job's line has it.
ghost use Rattle.std.specs.Prelude.{◌≡◌, ◌≤◌, codes};
ghost use Rattle.text.specs.declared.faults.Indices.{Indices};
ghost use Rattle.text.specs.Line.{left, past_word};
ghost use Rattle.numbers.specs.Refusal.{answer};
ghost use Rattle.book.specs.Record.{MadeIn, answer_offered};
ghost use Rattle.jobs.specs.Surface.{entries_of, samples, kind, outer, past_outer, surface, described, described_by, entries_by, spread_all};
ghost use Rattle.jobs.specs.Making.{offered_by, HeldAs, read, read_by};

use crate::entries::Entries;
use crate::places::Places;
use crate::sizes;
use book::record::Record;
use numbers::dense_spectrum::DenseSpectrum;
use numbers::refusal::{Check, Refusal};
use optics::microfacet::{Kind, Spectra};
use text::faults::{Fault, Wrong};
use text::line::Line;

// By hand: a `TryFrom` of a word for optics' `Kind` can stand in optics alone, which knows no words of a job.
#[tactic(auto, unfolding(crate::specs::Surface::kind))]
fn kind(line: &mut Line<'_>) -> Result<Kind, Fault>
    ensures value { result ≡ kind (left line.old) }
    ensures rest { left line.new ≡ past_word (left line.old) }
{
    match line.word()? {
        b"metal" => Ok(Kind::Metal),
        b"glass" => Ok(Kind::Glass),
        _ => Err(line.wrong(Wrong::Kind)),
    }
}

// What a line has of a surface. In a program one lives as long as a job is read, and each line is read into it: its
// spectra are large, and where they were cleared, or handed on by value, that took longer than all else.
#[derive(Drop)]
pub struct Words {
    kind: Kind,
    two_sided: bool,
    given: f64,
    eta: Entries,
    k: Entries,
    outer: Entries,
}

impl Words {
    // What stands there before a line was read.
    pub const NONE: Words = Words {
        kind: Kind::Metal,
        two_sided: false,
        given: 0.0,
        eta: Entries::NONE,
        k: Entries::NONE,
        outer: Entries::NONE,
    };

    // The outer spectrum, where the line has one, and else the 1.0 of air. Metal has none, whatever its line
    // says.
    #[tactic(auto, unfolding(crate::specs::Surface::outer, crate::specs::Surface::past_outer))]
    fn read_outer(&mut self, line: &mut Line<'_>) -> Result<(), Fault>
        ensures value { entries_by result self.new.outer ≡ outer self.old.kind (left line.old) }
        ensures rest { left line.new ≡ past_outer (left line.old) }
        ensures kind { self.new.kind ≡ self.old.kind }
        ensures flag { self.new.two_sided ≡ self.old.two_sided }
        ensures given { self.new.given ≡ self.old.given }
        ensures eta { self.new.eta ≡ self.old.eta }
        ensures k { self.new.k ≡ self.old.k }
    {
        self.outer.set_lone(1.0);
        if line.optional(b"outer") {
            self.outer.read_in(line)?;
        }
        match self.kind {
            Kind::Metal => self.outer.clear(),
            Kind::Glass => {}
        }
        Ok(())
    }

    // How many entries a lone one stands for: as many as the first spectrum that is a table has, and where none is, as many
    // as lumo's.
    #[tactic(auto, unfolding(crate::specs::Surface::samples, numbers::specs::DenseSpectrum::is_table))]
    fn samples(&self) -> usize
        ensures value { result ≡ samples (entries_of self.now.eta) (entries_of self.now.k) (entries_of self.now.outer) }
        ensures bound { result ≤ 471 }
    {
        let eta = self.eta.spectrum();
        if eta.is_table() {
            return eta.values.len();
        }
        let k = self.k.spectrum();
        if k.is_table() {
            return k.values.len();
        }
        let outer = self.outer.spectrum();
        if outer.is_table() {
            return outer.values.len();
        }
        DenseSpectrum::SAMPLES
    }

    // Puts each lone entry at every wavelength.
    fn spread(&mut self)
        ensures { described self.new ≡ spread_all (described self.old) }
    {
        let samples = self.samples();
        self.eta.spread(samples);
        self.k.spread(samples);
        self.outer.spread(samples);
    }

    // KIND [two-sided] ROUGHNESS eta ENTRIES k ENTRIES [outer ENTRIES]: becomes what the line has, unless that is wrong.
    #[tactic(auto, unfolding(crate::specs::Surface::surface))]
    pub fn read(&mut self, line: &mut Line<'_>) -> Result<(), Fault>
        ensures { described_by result self.new ≡ surface (left line.old) }
    {
        self.kind = kind(line)?;
        self.two_sided = line.optional(b"two-sided");
        self.given = line.number()?;
        line.keyword(b"eta", Wrong::Eta)?;
        self.eta.read_in(line)?;
        line.keyword(b"k", Wrong::K)?;
        self.k.read_in(line)?;
        self.read_outer(line)?;
        line.end()?;
        self.spread();
        Ok(())
    }

    // Makes the surface, which has as many entries of each spectrum, in its place. One that is refused leaves the place as
    // it was.
    pub fn make_in(&self, place: &mut Option<Record>) -> Check
        ensures { MadeIn (offered_by (described self.now)) result place.old place.new }
    {
        let spectra = Spectra {
            eta: self.eta.spectrum(),
            k: self.k.spectrum(),
            outer: self.outer.spectrum(),
        };
        Record::make_in(place, self.kind, self.two_sided, self.given, &spectra)
    }

    // The surface that is made, or why it is refused.
    fn made(&self) -> Result<Record, Refusal>
        ensures { answer_offered (answer result) ≡ offered_by (described self.now) }
    {
        let mut place = None;
        self.make_in(&mut place)?;
        Ok(place.unwrap())
    }

    // Makes the surface, and holds it as `i`. One that is refused leaves what is held as it was.
    pub fn keep(&self, i: u64, surfaces: &mut Places<Record, { sizes::SURFACES }>) -> Check
        ensures { HeldAs 64 i (offered_by (described self.now)) result surfaces.old.held surfaces.new.held }
    {
        self.make_in(&mut surfaces.held[i as usize % sizes::SURFACES])
    }
}

// The index that a line names, and the surface that is made for it, or why it is refused.
#[tactic(auto, unfolding(crate::specs::Making::read))]
pub fn read(line: &mut Line<'_>) -> Result<(u64, Result<Record, Refusal>), Fault>
    ensures { (of : Indices) × ((of.count ≡ 64) × ((of.whose.now ≡ codes "a surface's") × (read_by result ≡ read of (left line.old)))) }
{
    let i = line.index(sizes::SURFACE)?;
    let mut words = Words::NONE;
    words.read(line)?;
    Ok((i, words.made()))
}
