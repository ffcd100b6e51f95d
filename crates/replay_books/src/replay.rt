// What is replayed, and what was counted of it.
use crate::command::{Command, Must};
use crate::surfaces;
use book::reading;
use book::record::Record;
use std::{fmt, fs, io};

// The list of surfaces that lines speak of, the last line, and how many books were read, how many of them written again,
// and how many lists written.
#[derive(Drop)]
pub struct Replay<'a> {
    rt: &'a HostRuntime,
    list: Vec<Record>,
    line: u64,
    reads: u64,
    again: u64,
    writes: u64,
    differences: u64,
}

impl<'a> Replay<'a> {
    pub fn new(rt: &'a HostRuntime) -> Replay<'a> {
        Replay {
            rt,
            list: Vec::new(rt.alloc()),
            line: 0,
            reads: 0,
            again: 0,
            writes: 0,
            differences: 0,
        }
    }

    // Does what the next line asks for, and counts whether it gave what it must.
    pub fn step(&mut self, command: Command<'_>) -> io::Result<()> {
        self.line = self.line.saturating_add(1);
        let same = self.run(command)?;
        if same {
            return Ok(());
        }
        if self.differences == 0 {
            println!(self.rt; "line {} is the first that differs", self.line)?;
        }
        self.differences = self.differences.saturating_add(1);
        Ok(())
    }

    // A line that is none differs.
    fn run(&mut self, command: Command<'_>) -> io::Result<bool> {
        let alloc = self.rt.alloc();
        match command {
            Command::Read { book, must } => {
                self.reads = self.reads.saturating_add(1);
                let bytes = fs::read(self.rt, book)?;
                Ok(must.is(reading::read(&bytes, 0, &mut [])))
            }
            Command::Again { book } => {
                self.again = self.again.saturating_add(1);
                let bytes = fs::read(self.rt, book)?;
                Ok(surfaces::is_written_again(alloc, &bytes)?)
            }
            Command::List { books } => {
                self.begin(books)?;
                Ok(true)
            }
            Command::Set(change) => {
                if let Some(surface) = self.list.get_mut(change.surface) {
                    surfaces::set(surface, change);
                }
                Ok(true)
            }
            Command::Write { room, must, book } => {
                self.writes = self.writes.saturating_add(1);
                self.is_written(room, must, book)
            }
            Command::Unknown => Ok(false),
        }
    }

    // A new list, of the surfaces of these books.
    fn begin(&mut self, books: &str) -> io::Result<()> {
        self.list.clear();
        for book in books.split_whitespace() {
            let bytes = fs::read(self.rt, book)?;
            surfaces::add(&mut self.list, &bytes)?;
        }
        Ok(())
    }

    // Whether the list is written so. `none` stands for no book.
    fn is_written(&self, room: usize, must: Must, book: &str) -> io::Result<bool> {
        let alloc = self.rt.alloc();
        let bytes = if book == "none" {
            Vec::new(alloc)
        } else {
            fs::read(self.rt, book)?
        };
        Ok(surfaces::is_written(alloc, &self.list, room, must, &bytes)?)
    }
}

impl fmt::Display for Replay<'_> {
    fn fmt<W: fmt::Write>(&self, f: &mut fmt::Formatter<W>) -> fmt::Result {
        let reads = self.reads;
        let again = self.again;
        let writes = self.writes;
        let differences = self.differences;
        write!(
            f,
            "books: {reads} read, {again} of them written again, {writes} lists written, {differences} differ"
        )
    }
}
