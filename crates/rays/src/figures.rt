// The answers to a job's lines, in the order of the lines, and the figures' last line, as they are written.
use crate::commands::Job;
use crate::sizes::ANSWER;
use jobs::answering::Answers;
use jobs::failure::Failure;
use jobs::sizes;
use std::fmt::Write;
use std::fs::Files;
use text::answers;
use text::answers::{Outcome, Tally};
use text::output::Output;

// `number` is the next line's; `passing`, whether the rest of a line that is too long is being passed over.
#[derive(Drop)]
pub struct Figures<'a, P: Files + Print> {
    rt: &'a P,
    job: Job,
    out: Output<'a>,
    number: u64,
    tally: Tally,
    passing: bool,
}

impl<'a, P: Files + Print> Figures<'a, P> {
    pub fn new(rt: &'a P, out: Output<'a>) -> Figures<'a, P> {
        Figures {
            rt,
            job: Job::new(),
            out,
            number: 1,
            tally: Tally::default(),
            passing: false,
        }
    }

    fn too_long(&mut self) -> Outcome {
        answers::too_long(&mut self.out, self.number, sizes::LINE as u64)
    }

    fn outcome(&mut self, text: &[u8]) -> Outcome {
        if self.passing {
            return Outcome::Nothing;
        }
        if sizes::LINE < text.len() {
            return self.too_long();
        }
        self.job.answer(self.rt, text, self.number, &mut self.out)
    }
}

impl<P: Files + Print> Answers for Figures<'_, P> {
    // Answers a line, once there is room for the answer, or passes over the rest of one.
    fn answer(&mut self, text: &[u8]) -> Result<(), Failure> {
        if self.out.room() < ANSWER {
            self.flush()?;
        }
        let outcome = self.outcome(text);
        self.tally.count(outcome);
        self.passing = false;
        self.number = self.number.saturating_add(1);
        Ok(())
    }

    // Whether a line that begins with `text`, and goes on, is too long, and so passed over.
    fn passes(&mut self, text: &[u8]) -> bool {
        if !self.passing && sizes::LINE < text.len() {
            let outcome = self.too_long();
            self.tally.count(outcome);
            self.passing = true;
        }
        self.passing
    }

    // Writes the answers that are there.
    fn flush(&mut self) -> Result<(), Failure> {
        self.rt
            .write_all(self.out.written())
            .map_err(Failure::Write)?;
        self.out.clear();
        Ok(())
    }

    // Writes what is left and the last line. Figures without it were cut.
    fn end(&mut self) -> Result<(), Failure> {
        let tally = self.tally;
        let _ = writeln!(self.out, "{tally}");
        self.flush()
    }
}
