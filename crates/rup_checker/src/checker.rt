//! The check of steps and logs, all by one table.
ghost use Rattle.std.specs.Prelude.{◌≡◌, ◌↔◌, ◌+◌, ◌<◌, ◌≤◌, ℕ, Bool, false, [], length, IsTrue, IfOk};
ghost use Rattle.std.specs.Bool.{OnTrue};
ghost use Rattle.clauses.specs.Literal.{Meets, VariablesWithin};
ghost use Rattle.clauses.specs.ClauseSet.{EndsEmpty, IsRefutation, LogFollows, StepFollows, all_clauses, clauses_of_steps, clauses_with};
ghost use Rattle.rup_checker.specs.Table.{Represents, used_in};

use crate::hints::{hints_refute, release_hinted};
use crate::table::{Entry, hold_negations, release};
use clauses::{Cnf, Log, Step, is_within};
use std::alloc::{AllocError, Global};

/// Whether each step of the log follows from the set and the steps before it, by reverse unit
/// propagation (RUP). A model of the set then makes each clause of the log true. An `Err` says that
/// there is no memory for the table of the variables and the clauses, which is all that it takes. A
/// step costs its hints, the literals of its clause, and once the literals of each clause that a
/// hint names.
pub fn check(alloc: Global, cnf: &Cnf, log: &Log) -> Result<bool, AllocError>
    ensures follows { IfOk result (λ yes. IsTrue yes ↔ LogFollows cnf.now log.now) }
    ensures model_meets_log { IfOk result (λ yes. IsTrue yes
        → (v : ℕ → Bool) → Meets v (all_clauses cnf.now) → Meets v (clauses_of_steps log.now)) }
{
    let steps = log.as_slice();
    let variables = cnf.count as usize + 1;
    let clauses = steps.len().checked_add(cnf.clause_count() as usize);
    let entries = clauses.and_then(|clauses| clauses.checked_add(variables));
    let mut table = vec![in alloc; Entry::BLANK; entries.ok_or(AllocError)?]?;
    let (held, used) = table.split_at_mut(variables);
    Ok(log_follows(cnf, steps, held, used))
}

/// Whether the log refutes the set: each step follows, and the last is the empty clause. A set that
/// is refuted has no model. An `Err` is as at `check`.
pub fn check_refutation(alloc: Global, cnf: &Cnf, log: &Log) -> Result<bool, AllocError>
    ensures refutes { IfOk result (λ yes. IsTrue yes ↔ IsRefutation cnf.now log.now) }
    ensures no_model { IfOk result (λ yes. IsTrue yes → (v : ℕ → Bool) → ¬ (Meets v (all_clauses cnf.now))) }
{
    Ok(ends_empty(log.as_slice()) && check(alloc, cnf, log)?)
}

/// Whether the log ends with the empty clause.
fn ends_empty(log: &[Step]) -> bool
    ensures { IsTrue result ↔ EndsEmpty log.now }
{
    match log.last() {
        None => false,
        Some(step) => step.clause.is_empty(),
    }
}

/// Whether each step of the log follows, by a table that holds no literal and marks no clause.
fn log_follows(cnf: &Cnf, log: &[Step], table: &mut [Entry], used: &mut [Entry]) -> bool
    requires blank { Represents table.old [] }
    requires unused { (number : ℕ) → used_in used.old number ≡ false }
    requires room { cnf.now.count < length table.old }
    requires clause_room { length (all_clauses cnf.now) + length log.now ≤ length used.old }
    ensures { IsTrue result ↔ LogFollows cnf.now log.now }
{
    for place in 0..log.len() {
        if !step_follows(cnf, &log[..place], &log[place], table, used) {
            return false;
        }
    }
    true
}

/// Whether the step follows from the set and the earlier steps, by a table that holds no literal
/// and marks no clause. Where it does, the table is so again: only variables of the step's clause
/// and of the marked clauses were written, and these are released one by one, without a pass over
/// the whole table. Where it doesn't follow, the log is refused, and the table isn't used any more.
fn step_follows(
    cnf: &Cnf,
    earlier: &[Step],
    step: &Step,
    table: &mut [Entry],
    used: &mut [Entry],
) -> bool
    requires within { VariablesWithin cnf.now.count (clauses_with cnf.now earlier.now) }
    requires blank { Represents table.old [] }
    requires unused { (number : ℕ) → used_in used.old number ≡ false }
    requires room { cnf.now.count < length table.old }
    requires clause_room { length (clauses_with cnf.now earlier.now) ≤ length used.old }
    ensures follows { IsTrue result ↔ StepFollows cnf.now (clauses_with cnf.now earlier.now) step.now }
    ensures blank { OnTrue result (Represents table.new []) }
    ensures unused { OnTrue result ((number : ℕ) → used_in used.new number ≡ false) }
{
    let clause = step.clause.as_slice();
    if !is_within(cnf.count, clause) {
        return false;
    }
    hold_negations(table, clause);
    if !hints_refute(cnf, earlier, step, table, used) {
        return false;
    }
    release_hinted(cnf, earlier, step, table, used);
    release(table, clause);
    true
}
