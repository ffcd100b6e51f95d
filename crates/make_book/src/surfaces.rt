// The surfaces of a job's lines, and the book of those that are held at the job's end.
ghost use Rattle.std.specs.Prelude.{◌≤◌};

use book::record::Record;
use book::{BOOK_MAX, writing};
use jobs::answering::Answers;
use jobs::failure::Failure;
use jobs::places::Places;
use jobs::sizes;
use jobs::surface::Words;
use numbers::refusal::{Check, Refusal};
use text::faults::Fault;
use text::line::Line;

// Each surface is made in a place of its own, before it is held. `number` is the next line's; `passing`, whether the rest
// of a line that is too long is being passed over; `stopped`, whether a line was wrong, after which nothing is written.
#[derive(Drop)]
pub struct Surfaces<'a, P: Print + Eprint> {
    rt: &'a P,
    words: Words,
    made: Option<Record>,
    held: Places<Record, { sizes::SURFACES }>,
    number: u64,
    passing: bool,
    stopped: bool,
}

// What is wrong with a line that begins with the word `surface`.
enum Wrong {
    TooLong,
    Fault(Fault),
    Refused(u64, Refusal),
}

impl<'a, P: Print + Eprint> Surfaces<'a, P> {
    pub fn new(rt: &'a P) -> Surfaces<'a, P> {
        Surfaces {
            rt,
            words: Words::NONE,
            made: None,
            held: Places::new(),
            number: 1,
            passing: false,
            stopped: false,
        }
    }

    // Makes the surface of the words that were read, and holds it as `i`, if it may stand in a book.
    fn keep(&mut self, i: u64) -> Check {
        self.words.make_in(&mut self.made)?;
        if let Some(surface) = &self.made {
            surface.check_written()?;
            self.held.keep(i, *surface);
        }
        Ok(())
    }

    // Holds the surface of a line, if it may stand in a book.
    fn surface(&mut self, text: &[u8]) -> Result<(), Wrong> {
        let mut line = Line::new(text);
        if !line.optional(b"surface") {
            return Ok(());
        }
        if sizes::LINE < text.len() {
            return Err(Wrong::TooLong);
        }
        let i = line.index(sizes::SURFACE).map_err(Wrong::Fault)?;
        self.words.read(&mut line).map_err(Wrong::Fault)?;
        self.keep(i).map_err(|why| Wrong::Refused(i, why))
    }

    // Says what is wrong with the line. Where that can't be written either, nothing is left to be said.
    fn stop(&mut self, wrong: Wrong) {
        let number = self.number;
        let _ = match wrong {
            Wrong::TooLong => {
                let most = sizes::LINE;
                eprintln!(self.rt; "line {number}: a line is at most {most} bytes")
            }
            Wrong::Fault(fault) => eprintln!(self.rt; "line {number}: {fault}"),
            Wrong::Refused(i, why) => {
                let why = why.number();
                eprintln!(self.rt; "line {number}: surface {i} refused {why}")
            }
        };
        self.stopped = true;
    }

    // Reads a line, or as much of it as there is room for. Nothing more is read once a line was wrong.
    fn read(&mut self, text: &[u8]) {
        if self.stopped || self.passing {
            return;
        }
        if let Err(wrong) = self.surface(text) {
            self.stop(wrong);
        }
    }

    // The surfaces that are held, in the order of their indices, at the front of the places; how many there are.
    fn in_order(&self, surfaces: &mut [Record; sizes::SURFACES]) -> usize
        ensures { result ≤ 64 }
    {
        let mut count = 0;
        for i in 0..surfaces.len() {
            if let Some(surface) = self.held.get(i as u64) {
                surfaces[count] = *surface;
                count += 1;
            }
        }
        count
    }

    fn write(&self) -> Result<(), Failure> {
        let mut surfaces = [Record::NOTHING; sizes::SURFACES];
        let count = self.in_order(&mut surfaces);
        let mut bytes = [0u8; BOOK_MAX];
        match writing::write(&surfaces[..count], &mut bytes) {
            Ok(n) => self.rt.write_all(&bytes[..n]).map_err(Failure::Write),
            Err(why) => {
                let why = why.number();
                let _ = eprintln!(self.rt; "the book is refused {why}");
                Ok(())
            }
        }
    }
}

impl<P: Print + Eprint> Answers for Surfaces<'_, P> {
    fn answer(&mut self, text: &[u8]) -> Result<(), Failure> {
        self.read(text);
        self.passing = false;
        self.number = self.number.saturating_add(1);
        Ok(())
    }

    fn passes(&mut self, text: &[u8]) -> bool {
        if sizes::LINE < text.len() {
            self.read(text);
            self.passing = true;
        }
        self.passing
    }

    fn flush(&mut self) -> Result<(), Failure> {
        Ok(())
    }

    fn end(&mut self) -> Result<(), Failure> {
        if self.stopped {
            return Ok(());
        }
        self.write()
    }
}
