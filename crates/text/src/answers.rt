// Answers to the lines of a job, as far as they know nothing of the model.
ghost use Rattle.std.specs.Prelude.{◌≡◌, Some, OnOk};
ghost use Rattle.text.specs.Answers.{counted, end_text, fault_line, long_line, done_text, tally_text};
ghost use Rattle.text.specs.Output.{put};

use crate::faults::Fault;
use crate::output::Output;
use std::fmt;
use std::fmt::Write;

#[derive(Clone, Copy)]
pub enum Outcome {
    // no word, or the rest of a line that is skipped
    Nothing,
    Answer,
    Refusal,
    Error,
}

// As `Output::write_decimal` these two say what std promises: what is written where its writing succeeds.
fn write_fault(out: &mut Output<'_>, fault: Fault) -> fmt::Result
    ensures { OnOk result (out.new ≡ put out.old (fault_line fault)) }
{
    writeln!(out, " {fault}")
}

fn write_too_long(out: &mut Output<'_>, number: u64, most: u64) -> fmt::Result
    ensures { OnOk result (out.new ≡ put out.old (long_line number most)) }
{
    writeln!(out, "{number} error line: a line is at most {most} bytes")
}

// `LINE error word N: what is wrong`, after the line's number.
pub fn fault(out: &mut Output<'_>, fault: Fault) -> Outcome
    ensures { result ≡ Outcome.Error }
{
    let _ = write_fault(out, fault);
    Outcome::Error
}

// The answer to the line `number`, which has more than `most` bytes.
pub fn too_long(out: &mut Output<'_>, number: u64, most: u64) -> Outcome
    ensures { result ≡ Outcome.Error }
{
    let _ = write_too_long(out, number, most);
    Outcome::Error
}

// A refusal by its number, after the line's.
pub fn refused(out: &mut Output<'_>, number: u64) -> Outcome
    ensures { result ≡ Outcome.Refusal }
{
    out.labelled(b" refused ", number);
    out.text(b"\n");
    Outcome::Refusal
}

// The end of an answer.
pub fn ended(out: &mut Output<'_>) -> Outcome
    ensures outcome { result ≡ Outcome.Answer }
    ensures text { out.new ≡ put out.old end_text }
{
    out.text(b"\n");
    Outcome::Answer
}

// That a command was done, which ends its answer.
#[tactic(auto, using(crate::proofs::output::Put::put_behind))]
pub fn done(out: &mut Output<'_>) -> Outcome
    ensures outcome { result ≡ Outcome.Answer }
    ensures text { out.new ≡ put out.old done_text }
{
    out.text(b" ok");
    ended(out)
}

// How many lines of a job were answered in which way.
#[derive(Clone, Copy, Default)]
pub struct Tally {
    pub answers: u64,
    pub refusals: u64,
    pub errors: u64,
}

impl Tally {
    // One line more, by how it was answered.
    pub fn count(&mut self, outcome: Outcome)
        ensures { self.new ≡ counted self.old outcome }
    {
        match outcome {
            Outcome::Nothing => {}
            Outcome::Answer => self.answers = self.answers.saturating_add(1),
            Outcome::Refusal => self.refusals = self.refusals.saturating_add(1),
            Outcome::Error => self.errors = self.errors.saturating_add(1),
        }
    }
}

// The figures' last line: figures without it were cut.
impl fmt::Display for Tally {
    ghost output = { λ t. Some (tally_text t) };

    fn fmt<W: fmt::Write>(&self, f: &mut fmt::Formatter<W>) -> fmt::Result {
        let answers = self.answers;
        let refusals = self.refusals;
        let errors = self.errors;
        write!(
            f,
            "end {answers} answers {refusals} refusals {errors} errors"
        )
    }
}
