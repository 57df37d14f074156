//! Why the program fails.

use ir_reader::IrError;
use rule_reader::RuleError;
use std::alloc::AllocError;
use std::fmt;

/// A cause of the program's failure.
#[derive(Clone, Copy, Debug)]
pub(crate) enum Failure {
    /// The words are none that the program takes.
    Usage,
    /// The file couldn't be read.
    Unreadable,
    /// The text is no module; its first fault is on this line.
    NoModule(usize),
    /// The file is no rule file; its first fault is on this line.
    NoRules(usize),
    /// A clause names a variable that the set doesn't have.
    NoSuchSet,
    /// A graph has too many gates for clauses.
    TooLarge,
    /// The checker refused the log of a refutation.
    RefusedLog,
    /// Want of memory.
    NoMemory,
    /// The clock couldn't be read.
    Clock,
    /// A line or a file couldn't be written.
    Output,
}

/// The words that the program takes.
const USAGE: &str =
    "usage: bench_parts [read MODULE | search (random INPUTS CLAUSES SEED | pigeonhole PIGEONS | parity INPUTS SEED) [untimed] | verify RULES CONFLICTS [untimed | --dimacs FOLDER] | command WORD ..]";

impl Failure {
    /// The exit status, which no command has: 11 where memory is wanting, else 10.
    pub(crate) fn status(self) -> u8 {
        match self {
            Failure::NoMemory => 11,
            _ => 10,
        }
    }

    /// What is said of it, without its line.
    fn text(self) -> &'static str {
        match self {
            Failure::Usage => USAGE,
            Failure::Unreadable => "the file can't be read",
            Failure::NoModule(_) => "no module",
            Failure::NoRules(_) => "no rule file",
            Failure::NoSuchSet => "no such set",
            Failure::TooLarge => "a graph is too large",
            Failure::RefusedLog => "the log is no refutation",
            Failure::NoMemory => "no memory is left",
            Failure::Clock => "the clock can't be read",
            Failure::Output => "the output can't be written",
        }
    }
}

impl fmt::Display for Failure {
    fn fmt<W: fmt::Write>(&self, f: &mut fmt::Formatter<W>) -> fmt::Result {
        match self {
            Failure::NoModule(line) | Failure::NoRules(line) => {
                write!(f, "{}: line {line}", self.text())
            }
            _ => write!(f, "{}", self.text()),
        }
    }
}

impl From<AllocError> for Failure {
    fn from(_error: AllocError) -> Failure {
        Failure::NoMemory
    }
}

impl From<IrError> for Failure {
    fn from(error: IrError) -> Failure {
        match error {
            IrError::Refused(fault) => Failure::NoModule(fault.line),
            IrError::NoMemory => Failure::NoMemory,
        }
    }
}

impl From<RuleError> for Failure {
    fn from(error: RuleError) -> Failure {
        match error {
            RuleError::Refused(fault) => Failure::NoRules(fault.line),
            RuleError::NoMemory => Failure::NoMemory,
        }
    }
}
