//! The steps that are kept, as a log of their own.

ghost use Rattle.std.specs.Prelude.{◌≡◌, ◌≤◌, ◌++◌, ◌∷◌, [], length, All, Contains, IfOk, OnOk};
ghost use Rattle.clauses.specs.ClauseSet.{clauses_of_steps};
ghost use Rattle.clauses.specs.declared.step.Step.{Step as Anew};

use clauses::{Clause, Log, Step};
use lists::List;
use std::alloc::{AllocError, Global};

/// A step that is kept.
#[derive(Drop)]
pub(crate) struct Kept {
    /// Its place in the log.
    pub(crate) place: usize,
    /// The hints of the step that are needed, in order, by the numbers that clauses have in the log before.
    pub(crate) hints: Vec<u32>,
}

/// The log of the steps that are kept, with their hints renumbered. `first` is the number of a log's first step. A
/// number past 2^32 wraps.
pub(crate) fn renumbered(
    alloc: Global,
    log: &[Step],
    kept: &[Kept],
    first: u32,
) -> Result<Log, AllocError>
    ensures few { IfOk result (λ steps. length steps ≤ length kept.now) }
    ensures of_log { IfOk result (λ steps. All (λ step. Contains (clauses_of_steps log.now) step.clause) steps) }
{
    let mut numbers = vec![in alloc; first; log.len()]?;
    let mut next = first;
    let mut steps = List::new(alloc);
    for step in kept {
        let Some(old) = log.get(step.place) else {
            return Ok(steps);
        };
        push_anew(alloc, old, &step.hints, &numbers, first, &mut steps)?;
        if let Some(number) = numbers.get_mut(step.place) {
            *number = next;
        }
        next = next.wrapping_add(1);
    }
    Ok(steps)
}

/// Adds this step, with these hints in place of its own, renumbered.
fn push_anew(
    alloc: Global,
    old: &Step,
    hints: &[u32],
    numbers: &[u32],
    first: u32,
    steps: &mut Log,
) -> Result<(), AllocError>
    ensures { OnOk result ((step : Anew) × (step.clause ≡ old.now.clause) × (steps.new ≡ steps.old ++ step ∷ [])) }
{
    let clause = Clause::from_slice(alloc, old.clause.as_slice())?;
    let hints = numbered_anew(alloc, hints, numbers, first)?;
    steps.push(Step { clause, hints })
}

/// The hints by the numbers that clauses have in the new log: those below `first` are the set's, and stay.
fn numbered_anew(
    alloc: Global,
    hints: &[u32],
    numbers: &[u32],
    first: u32,
) -> Result<List<u32>, AllocError> {
    let mut anew = List::new(alloc);
    for &hint in hints {
        let number = match hint.checked_sub(first) {
            None => hint,
            Some(place) => numbers.get(place as usize).copied().unwrap_or(hint),
        };
        anew.push(number)?;
    }
    Ok(anew)
}
