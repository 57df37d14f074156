//! Logs in text.

ghost use Rattle.std.specs.Prelude.{◌≡◌, ◌≤◌, ◌++◌, length, IfOk, IfErr};
ghost use Rattle.std.specs.List.{AllByRecursion};
ghost use Rattle.proof_text.specs.Limits.{most_bytes};
ghost use Rattle.proof_text.specs.Texts.{log_text};
ghost use Rattle.proof_text.specs.WellFormed.{IsStep};
ghost use Rattle.proof_text.specs.Reading.{Logs, ReadsCount, StopsIn};

use crate::number::{Form, number};
use crate::step::step;
use crate::stop::{Stopped, take_text};
use clauses::Log;
use lists::List;
use std::alloc::Global;

/// How many steps follow; 2^64 - 1 where it is more.
fn count(rest: &mut &[u8]) -> Result<u64, Stopped>
    ensures ok { IfOk result (λ count. ReadsCount count rest.old.now rest.new.now) }
    ensures stop { IfErr result (λ e. StopsIn Logs e rest.old.now rest.new.now) }
{
    let form = Form {
        least: 0,
        most: u64::MAX,
        ends: (b'\n', b'\n'),
    };
    take_text(rest, b"log ")?;
    let (count, _) = number(rest, form)?;
    Ok(count)
}

/// A log: the line `log K`, and K steps.
pub(crate) fn log(alloc: Global, rest: &mut &[u8]) -> Result<Log, Stopped>
    requires short { length rest.old.now ≤ most_bytes }
    ensures ok { IfOk result (λ l. AllByRecursion IsStep l × (rest.old.now ≡ log_text l ++ rest.new.now)) }
    ensures stop { IfErr result (λ e. StopsIn Logs e rest.old.now rest.new.now) }
{
    let count = count(rest)?;
    let mut log = List::new(alloc);
    while (log.len() as u64) < count {
        log.push(step(alloc, rest)?)?;
    }
    Ok(log)
}
