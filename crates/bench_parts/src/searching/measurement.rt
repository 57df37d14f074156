//! The line that is printed of a search.

use super::command::Command;
use crate::searched::{LogSize, Outcome, Searched};
use std::fmt;

/// What was measured of a set. Its `Display` is the line that is printed.
#[derive(Clone, Copy, Debug)]
pub(super) struct Measurement {
    pub(super) command: Command,
    pub(super) searched: Searched,
}

impl fmt::Display for LogSize {
    fn fmt<W: fmt::Write>(&self, f: &mut fmt::Formatter<W>) -> fmt::Result {
        write!(f, "{} clauses learned", self.clauses)?;
        write!(f, ", {} literals, {} hints", self.literals, self.hints)
    }
}

impl fmt::Display for Outcome {
    fn fmt<W: fmt::Write>(&self, f: &mut fmt::Formatter<W>) -> fmt::Result {
        match self {
            Outcome::Sat => write!(f, "Sat"),
            Outcome::Limit { log } => write!(f, "Limit, {log}"),
            Outcome::Unsat { log, .. } => write!(f, "Unsat, {log}, log checked"),
        }
    }
}

/// Writes how long the search took, and the check of its log.
fn write_times<W: fmt::Write>(f: &mut fmt::Formatter<W>, searched: &Searched) -> fmt::Result {
    write!(f, ", search {} us", searched.searching.as_micros())?;
    match searched.outcome {
        Outcome::Sat | Outcome::Limit { .. } => Ok(()),
        Outcome::Unsat { checking, .. } => write!(f, ", check {} us", checking.as_micros()),
    }
}

impl fmt::Display for Measurement {
    fn fmt<W: fmt::Write>(&self, f: &mut fmt::Formatter<W>) -> fmt::Result {
        write!(f, "{}: {}", self.command.family, self.searched.outcome)?;
        if self.command.timed {
            write_times(f, &self.searched)?;
        }
        Ok(())
    }
}
