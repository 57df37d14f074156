//! Searches sets of clauses, and checks the logs.
//!
//! The words are `random INPUTS CLAUSES SEED`, `pigeonhole PIGEONS` or `parity INPUTS SEED`, and `untimed` behind them
//! leaves the times out.

mod clause_sets;
mod command;
mod generator;
mod measurement;

use crate::failure::Failure;
use crate::searched::search_set;
use clause_sets::Family;
use command::Command;
use measurement::Measurement;

/// The most clauses that a search may learn.
const LIMIT: u32 = 1_000_000;

/// Searches the set that the command names, and prints the line.
fn measure(rt: &HostRuntime, command: Command) -> Result<(), Failure> {
    let clauses = command.family.clauses(rt.alloc())?;
    let set = clauses.ok_or(Failure::NoSuchSet)?;
    let measurement = Measurement {
        command,
        searched: search_set(rt, &set, LIMIT)?,
    };
    println!(rt; "{measurement}").map_err(|_| Failure::Output)
}

/// Searches the set that the words name.
pub(crate) fn search_named(rt: &HostRuntime, words: &[String]) -> Result<(), Failure> {
    let command = Command::of_words(words).ok_or(Failure::Usage)?;
    measure(rt, command)
}

/// Searches the pigeonhole set of 7 pigeons, without times.
pub(crate) fn search_pigeons(rt: &HostRuntime) -> Result<(), Failure> {
    let command = Command {
        family: Family::Pigeonhole { pigeons: 7 },
        timed: false,
    };
    measure(rt, command)
}
