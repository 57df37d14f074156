//! The backward pass: from the last step of a log to the steps that it needs.

ghost use Rattle.std.specs.Prelude.{◌≡◌, ◌≤◌, ◌⊎◌, length, All, Contains, IfOk};
ghost use Rattle.clauses.specs.ClauseSet.{IsRefutation, clauses_of_steps};

use crate::needed::needed_hints;
use crate::renumbered::{Kept, renumbered};
use crate::table::Known;
use clauses::{Cnf, Log, Step};
use rup_checker::check_refutation;
use std::alloc::{AllocError, Global};

/// A log that refutes the set if this one does, without the steps and hints that its end doesn't need. What is left is
/// checked once more; where it doesn't refute the set, the log is given back as it was. The only error is want of
/// memory.
pub fn trimmed(alloc: Global, set: &Cnf, log: Log) -> Result<Log, AllocError>
    ensures refutes { IfOk result (λ kept. IsRefutation set.now log → IsRefutation set.now kept) }
    ensures few { IfOk result (λ kept. length kept ≤ length log) }
    ensures of_log { IfOk result (λ kept. All (λ step. Contains (clauses_of_steps log) step.clause) kept) }
    ensures or_same { IfOk result (λ kept. IsRefutation set.now kept ⊎ (kept ≡ log)) }
{
    let kept = kept_steps(alloc, set, log.as_slice())?;
    let short = renumbered(alloc, log.as_slice(), &kept, set.clause_count())?;
    if check_refutation(alloc, set, &short)? {
        Ok(short)
    } else {
        Ok(log)
    }
}

/// The last step, and each step that a needed hint of a kept step names, in order.
fn kept_steps(alloc: Global, set: &Cnf, log: &[Step]) -> Result<Vec<Kept>, AllocError>
    ensures { IfOk result (λ kept. length kept.items ≤ length log.now) }
{
    let mut table = vec![in alloc; Known::NOTHING; set.count as usize + 1]?;
    let mut named = vec![in alloc; false; log.len()]?;
    if let Some(last) = named.last_mut() {
        *last = true;
    }
    let mut kept = Vec::new(alloc);
    let mut place = log.len();
    while place > 0 {
        place -= 1;
        if named.get(place).copied().unwrap_or(false) {
            let hints = needed_hints(alloc, set, &log[..place], &log[place], &mut table)?;
            name_steps(&mut named, &hints, set.clause_count());
            kept.push(Kept { place, hints })?;
        }
    }
    kept.reverse();
    Ok(kept)
}

/// Marks the steps that these hints name. `first` is the number of the first step.
fn name_steps(named: &mut [bool], hints: &[u32], first: u32) {
    for hint in hints {
        if let Some(place) = hint.checked_sub(first) {
            if let Some(step) = named.get_mut(place as usize) {
                *step = true;
            }
        }
    }
}
