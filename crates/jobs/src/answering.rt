// A program that answers a job, which it reads from standard input or from the file that its argument names.
use crate::failure::Failure;
use crate::input::Input;
use crate::sizes;
use std::env::{Env, FillError};
use std::fs::Files;
use std::io::Read;
use std::{fs, str};

// What answers the lines of a job, one after the other.
pub trait Answers {
    // Answers a line, which comes without its line feed.
    fn answer(&mut self, text: &[u8]) -> Result<(), Failure>;

    // Whether a line that begins with `text`, and goes on, is too long, and so passed over.
    fn passes(&mut self, text: &[u8]) -> bool;

    // Writes the answers that are there.
    fn flush(&mut self) -> Result<(), Failure>;

    // Ends the answers.
    fn end(&mut self) -> Result<(), Failure>;
}

// Reads on, once all answers are written; whether the job went on.
fn more<R: Read + Drop>(input: &mut Input<R>, answers: &mut impl Answers) -> Result<bool, Failure> {
    if answers.passes(input.rest()) {
        input.clear();
    }
    answers.flush()?;
    Ok(0 < input.read()?)
}

// The job's end is its last line's, which may lack its line feed. A proved loop has to end, so this one
// counts its turns, up to a number that no job uses up.
fn answer_all<R: Read + Drop>(
    input: &mut Input<R>,
    answers: &mut impl Answers,
) -> Result<(), Failure> {
    for _ in 0..u64::MAX {
        if let Some(line) = input.line() {
            answers.answer(line)?;
        } else if !more(input, answers)? {
            answers.answer(input.rest())?;
            return answers.end();
        }
    }
    Ok(())
}

// Says on standard error what failed. Where that can't be written either, nothing is left to be said.
fn answer_job(rt: &impl Eprint, program: &str, from: impl Read + Drop, answers: &mut impl Answers) {
    let mut input = Input::new(from);
    if let Err(failure) = answer_all(&mut input, answers) {
        let _ = eprintln!(rt; "{program}: {failure}");
    }
}

// Answers the job in a file, whose path is the argument. std's paths are text.
fn answer_file(rt: &(impl Files + Eprint), program: &str, path: &[u8], answers: &mut impl Answers) {
    let name = match str::from_utf8(path) {
        Ok(name) => name,
        Err(why) => {
            let _ = eprintln!(rt; "{program}: argument: {why}");
            return;
        }
    };
    match fs::open(rt, name) {
        Ok(file) => answer_job(rt, program, file, answers),
        Err(why) => {
            let _ = eprintln!(rt; "{name}: {why}");
        }
    }
}

// Whether the program has a second argument, which it has no use for.
fn has_more(rt: &impl Env) -> bool {
    !matches!(rt.arg(2, &mut [0u8; 1]), Err(FillError::NotPresent))
}

// Answers the job of the program's argument, or else that of standard input.
pub fn run(
    rt: &(impl Env + Files + Eprint),
    program: &str,
    stdin: impl Read + Drop,
    answers: &mut impl Answers,
) {
    if has_more(rt) {
        let _ = eprintln!(rt; "usage: {program} [JOB]");
        return;
    }
    let mut path = [0u8; sizes::ARGUMENT];
    match rt.arg(1, &mut path) {
        Ok(n) => answer_file(rt, program, &path[..n], answers),
        Err(FillError::NotPresent) => answer_job(rt, program, stdin, answers),
        Err(FillError::TooLong) => {
            let _ = eprintln!(rt; "{program}: argument: File name too long");
        }
    }
}
