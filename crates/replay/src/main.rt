// Replays a sample of the Rust's answers through the libraries, and one of a second reading's where glass doesn't lie
// in air. For each family of functions: how many records there are and how many of them differ; and before that the
// line of each that differs.
#![tactic(auto)]

use case::Case;
use family::Family;
use record::Head;
use spectrum::Spectra;
use std::fs::File;
use std::{fmt, io};
use text::records;
use text::records::{MOST, Tally};
use words::Input;

mod angles;
mod bases;
mod bounces;
mod case;
mod checked;
mod complexes;
mod facets;
mod family;
mod record;
mod scalars;
mod spectra;
mod spectrum;
mod surfaces;
mod vectors2;
mod vectors3;
mod words;

// The line of the last record, its family, what was counted in the family so far, and where it is printed.
#[derive(Drop)]
struct Counts<'a, P: Print> {
    rt: &'a P,
    line: u64,
    family: Family,
    tally: Tally,
}

impl<P: Print> Counts<'_, P> {
    // A new family is counted anew.
    fn begin(&mut self, family: Family) -> io::Result<()> {
        if self.family == family {
            return Ok(());
        }
        if 0 < self.tally.records {
            println!(self.rt; "{self}")?;
        }
        self.family = family;
        self.tally = Tally::default();
        Ok(())
    }

    // One record more.
    fn count(&mut self, same: bool) -> io::Result<()> {
        self.tally.count(same);
        if same {
            return Ok(());
        }
        println!(self.rt; "line {} differs", self.line)
    }
}

impl<P: Print> fmt::Display for Counts<'_, P> {
    fn fmt<W: fmt::Write>(&self, f: &mut fmt::Formatter<W>) -> fmt::Result {
        let family = self.family;
        let records = self.tally.records;
        let differences = self.tally.differences;
        write!(f, "{family}: {records} records, {differences} differ")
    }
}

// Whether the libraries' answer is the record's. By a match: a function goes by its number, which is all that the file
// says of it.
fn holds(case: &mut Case<'_>, spectra: &Spectra) -> bool {
    match case.number {
        990 => bounces::replay(case, spectra.lent()),
        931..=989 | 991.. => surfaces::replay(case, spectra.lent()),
        100..=199 => scalars::replay(case),
        200..=299 => vectors2::replay(case),
        300..=399 => vectors3::replay(case),
        400..=499 => complexes::replay(case),
        500..=599 => bases::replay(case),
        600..=699 => angles::replay(case),
        700..=799 => spectra::replay(case, &spectra.numbers()),
        800..=899 => checked::replay(case, &spectra.numbers()),
        _ => facets::replay(case),
    }
}

// Reads what follows the head of a record.
fn step<P: Print>(
    file: &mut File,
    counts: &mut Counts<'_, P>,
    spectra: &mut Spectra,
    head: Head,
) -> io::Result<()> {
    if spectra.read(file, head) {
        return Ok(());
    }
    // the record is read first, and then the family before it counted out: a file may be a pipe
    let input = Input::read(file, head.ins);
    counts.begin(Family::of(head.number, spectra.in_air()))?;
    let mut case = Case {
        number: head.number,
        input,
        file,
    };
    let same = holds(&mut case, spectra);
    counts.count(same)
}

fn replay(rt: &impl Print, file: &mut File) -> io::Result<()> {
    let mut spectra = Spectra::new();
    let mut counts = Counts {
        rt,
        line: 0,
        // of no record yet: it is printed of a file that has none
        family: Family::Unknown(0),
        tally: Tally::default(),
    };
    for line in 1..=MOST {
        let Some(head) = record::read_head(file) else {
            return println!(rt; "{counts}");
        };
        counts.line = line;
        step(file, &mut counts, &mut spectra, head)?;
        records::line_end(file);
    }
    Ok(())
}

// A file that can't be opened is named on standard error, and the others are replayed all the same. By hand, here and
// in the candidates' replay: one function for both would take what is done with the file as a closure, and be no shorter.
fn replay_file(rt: &HostRuntime, name: &str) -> io::Result<()> {
    match File::open(rt, name) {
        Ok(mut file) => replay(rt, &mut file),
        Err(why) => eprintln!(rt; "{name}: {why}"),
    }
}

fn main(rt: HostRuntime) -> io::Result<()> {
    for name in ["numbers.hex", "optics.hex", "path.hex", "outer.hex"] {
        replay_file(&rt, name)?;
    }
    Ok(())
}
