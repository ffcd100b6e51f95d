// The entries of a spectrum as a line has them.
ghost use Rattle.std.specs.Prelude.{◌≡◌, ◌≤◌, ◌<◌, cond, ◌==◌, [], ◌∷◌, length};
ghost use Rattle.text.specs.Line.{left, past_entries};
ghost use Rattle.jobs.specs.Surface.{entries_of, entries_by, entries_read, kept, spread};

use crate::sizes::ENTRIES_READ;
use numbers::dense_spectrum::DenseSpectrum;
use text::faults::Fault;
use text::line::Line;

// The entries of a spectrum: the first `count` of the values. By hand: a job takes fixed memory, and a Vec would
// allocate. Those of a surface's line are read and changed in place, and what stands behind them is an earlier line's.
#[derive(Clone, Copy)]
pub struct Entries {
    values: [f64; ENTRIES_READ],
    count: usize,
}

impl Entries {
    pub(crate) const NONE: Entries = Entries {
        values: [0.0; ENTRIES_READ],
        count: 0,
    };

    #[tactic(auto, unfolding(crate::specs::Surface::entries_of))]
    pub fn none() -> Entries
        ensures { entries_of result ≡ [] }
    {
        Entries::NONE
    }

    // A lone entry.
    pub fn lone(x: f64) -> Entries
        ensures { entries_of result ≡ x ∷ [] }
    {
        let mut entries = Entries::NONE;
        entries.set_lone(x);
        entries
    }

    // Those of a line.
    pub fn read(line: &mut Line<'_>) -> Result<Entries, Fault>
        ensures value { entries_read result ≡ kept (left line.old) }
        ensures rest { left line.new ≡ past_entries (left line.old) }
    {
        let mut entries = Entries::NONE;
        entries.read_in(line)?;
        Ok(entries)
    }

    // Becomes no entries.
    #[tactic(auto, unfolding(crate::specs::Surface::entries_of))]
    pub(crate) fn clear(&mut self)
        ensures { entries_of self.new ≡ [] }
    {
        self.count = 0;
    }

    // Becomes a lone entry.
    #[tactic(auto, unfolding(crate::specs::Surface::entries_of))]
    pub(crate) fn set_lone(&mut self, x: f64)
        ensures { entries_of self.new ≡ x ∷ [] }
    {
        self.values[..1].fill(x);
        self.count = 1;
    }

    // Becomes those of a line.
    #[tactic(auto, using(crate::proofs::Kept::kept_read, crate::proofs::Kept::kept_wrong))]
    pub(crate) fn read_in(&mut self, line: &mut Line<'_>) -> Result<(), Fault>
        ensures value { entries_by result self.new ≡ kept (left line.old) }
        ensures rest { left line.new ≡ past_entries (left line.old) }
    {
        self.count = line.entries(&mut self.values)?;
        Ok(())
    }

    #[tactic(auto, unfolding(crate::specs::Surface::entries_of))]
    pub fn spectrum(&self) -> DenseSpectrum<'_>
        ensures { result.values.now ≡ entries_of self.now }
    {
        DenseSpectrum::new(self.values.get(..self.count).unwrap_or(&[]))
    }

    // Puts a lone entry at each of so many wavelengths. Where these are more than there is room for, it is dropped.
    #[tactic(auto, unfolding(crate::specs::Surface::entries_of, crate::specs::Surface::spread))]
    pub fn spread(&mut self, samples: usize)
        ensures within { samples ≤ 472 → entries_of self.new ≡ spread samples (entries_of self.old) }
        ensures past { 472 < samples → entries_of self.new ≡ cond (length (entries_of self.old) == 1) [] (entries_of self.old) }
    {
        if self.count == 1 {
            if samples > ENTRIES_READ {
                self.count = 0;
                return;
            }
            let x = self.values[0];
            self.values[..samples].fill(x);
            self.count = samples;
        }
    }
}
