//! The search of a set of clauses and the check of its log, measured.

ghost use Rattle.std.specs.Prelude.{◌≤◌};
ghost use Rattle.cdcl_log.specs.Found.{most_conflicts};

use crate::failure::Failure;
use cdcl_log::{Found, search};
use clauses::{Cnf, Step};
use rup_checker::check_refutation;
use std::time::{Duration, Instant};

/// The size of a log: its clauses, their literals, and their hints.
#[derive(Clone, Copy, Debug)]
pub(crate) struct LogSize {
    pub(crate) clauses: usize,
    pub(crate) literals: usize,
    pub(crate) hints: usize,
}

/// What a search came to. The learned clauses of a refutation include the empty one that ends it, and the checker found
/// that the log refutes the set.
#[derive(Clone, Copy, Debug)]
pub(crate) enum Outcome {
    Sat,
    Unsat { log: LogSize, checking: Duration },
    Limit { log: LogSize },
}

/// What was measured.
#[derive(Clone, Copy, Debug)]
pub(crate) struct Searched {
    pub(crate) outcome: Outcome,
    pub(crate) searching: Duration,
}

impl LogSize {
    fn of(log: &[Step]) -> LogSize {
        let mut size = LogSize {
            clauses: log.len(),
            literals: 0,
            hints: 0,
        };
        for step in log {
            size.literals = size.literals.saturating_add(step.clause.len());
            size.hints = size.hints.saturating_add(step.hints.len());
        }
        size
    }
}

/// The clock's time.
pub(crate) fn now(rt: &HostRuntime) -> Result<Instant, Failure> {
    Instant::now(rt).map_err(|_| Failure::Clock)
}

/// Searches the set, and checks the log of a refutation.
pub(crate) fn search_set(rt: &HostRuntime, set: &Cnf, limit: u32) -> Result<Searched, Failure>
    requires { limit ≤ most_conflicts }
{
    let start = now(rt)?;
    let found = search(rt.alloc(), set, limit)?;
    let searching = now(rt)?.duration_since(start);
    let outcome = checked(rt, set, found)?;
    Ok(Searched { outcome, searching })
}

/// What was found, with the log of a refutation checked.
fn checked(rt: &HostRuntime, set: &Cnf, found: Found) -> Result<Outcome, Failure> {
    match found {
        Found::Sat(_) => Ok(Outcome::Sat),
        Found::Limit(log) => Ok(Outcome::Limit {
            log: LogSize::of(log.as_slice()),
        }),
        Found::Unsat(log) => {
            let start = now(rt)?;
            let refuted = check_refutation(rt.alloc(), set, &log)?;
            let checking = now(rt)?.duration_since(start);
            if !refuted {
                return Err(Failure::RefusedLog);
            }
            Ok(Outcome::Unsat {
                log: LogSize::of(log.as_slice()),
                checking,
            })
        }
    }
}
