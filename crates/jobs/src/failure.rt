// Why a job isn't answered to its end.
use std::{fmt, io};

#[derive(Drop)]
pub enum Failure {
    Read(io::Error),
    Write(io::Error),
}

impl fmt::Display for Failure {
    fn fmt<W: fmt::Write>(&self, f: &mut fmt::Formatter<W>) -> fmt::Result {
        match self {
            Failure::Read(why) => write!(f, "read: {why}"),
            Failure::Write(why) => write!(f, "write: {why}"),
        }
    }
}
