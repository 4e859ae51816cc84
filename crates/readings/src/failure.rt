// Why the readings end early: a call that was to be done was refused, or a reading could not be written.
use refusal::Refusal;
use std::{fmt, io};

// The refusal, or what standard output failed with.
#[derive(Debug, Drop)]
pub enum Failure {
    Refused(Refusal),
    Output(io::Error),
}

impl From<Refusal> for Failure {
    fn from(e: Refusal) -> Failure {
        Failure::Refused(e)
    }
}

impl From<io::Error> for Failure {
    fn from(e: io::Error) -> Failure {
        Failure::Output(e)
    }
}

impl fmt::Display for Failure {
    fn fmt<W: fmt::Write>(&self, f: &mut fmt::Formatter<W>) -> fmt::Result {
        match self {
            Failure::Refused(e) => write!(f, "refused: {e}"),
            Failure::Output(e) => write!(f, "standard output: {e}"),
        }
    }
}
