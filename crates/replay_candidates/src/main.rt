// Replays recorded lists of calls through the candidates crate. After each call the answer and the whole
// list are held to the record's. Says how many calls and lists there are and how many calls differ, and
// before that the line of the first that does.
#![tactic(auto)]

use candidates::owned::List;
use numbers::refusal::Check;
use record::{Call, Head};
use std::fs::File;
use std::{fmt, io};
use text::records;
use text::records::{MOST, Tally};

mod record;

// The line of the last record, the lists and calls so far, and where they are printed.
#[derive(Drop)]
struct Counts<'a, P: Print> {
    rt: &'a P,
    line: u64,
    lists: u64,
    calls: Tally,
}

impl<P: Print> Counts<'_, P> {
    // One call more.
    fn count(&mut self, same: bool) -> io::Result<()> {
        if !same && self.calls.differences == 0 {
            println!(self.rt; "line {} is the first that differs", self.line)?;
        }
        self.calls.count(same);
        Ok(())
    }
}

impl<P: Print> fmt::Display for Counts<'_, P> {
    fn fmt<W: fmt::Write>(&self, f: &mut fmt::Formatter<W>) -> fmt::Result {
        let calls = self.calls.records;
        let lists = self.lists;
        let differences = self.calls.differences;
        write!(
            f,
            "candidates: {calls} calls in {lists} lists, {differences} differ"
        )
    }
}

// The number of an answer. By hand: 0 is the record's word for accepted, and rulvimba's own is of the library for C.
fn number_of(check: Check) -> u64 {
    check.err().map_or(0, |why| why.number())
}

// Runs the call of a record, and counts whether what it gave is the record's: the number, and the candidates that are
// present. All entries of the record are read, whatever came before.
fn step<P: Print>(
    file: &mut File,
    counts: &mut Counts<'_, P>,
    list: &mut List,
    head: Head,
) -> io::Result<()> {
    let number = match head.call {
        Call::Begin => {
            list.clear();
            counts.lists = counts.lists.saturating_add(1);
            return Ok(());
        }
        Call::Arrival(c) => number_of(list.arrive(c)),
        Call::Departure(id) => number_of(list.depart(id)),
    };
    let entries = record::same_entries(file, head.entries, list);
    counts.count(entries && number == head.number)
}

fn replay(rt: &impl Print, file: &mut File) -> io::Result<()> {
    let mut list = List::new();
    let mut counts = Counts {
        rt,
        line: 0,
        lists: 0,
        calls: Tally::default(),
    };
    for line in 1..=MOST {
        let Some(head) = record::read_head(file) else {
            break;
        };
        counts.line = line;
        step(file, &mut counts, &mut list, head)?;
        records::line_end(file);
    }
    println!(rt; "{counts}")
}

// A file that can't be opened is named on standard error, which is no failure of the program.
fn replay_file(rt: &HostRuntime, name: &str) -> io::Result<()> {
    match File::open(rt, name) {
        Ok(mut file) => replay(rt, &mut file),
        Err(why) => eprintln!(rt; "{name}: {why}"),
    }
}

fn main(rt: HostRuntime) -> io::Result<()> {
    replay_file(&rt, "candidates.hex")
}
