//! Small logs, of which it is seen by hand whether each step follows by unit propagation along its hints (RUP); and
//! logs that are packed.

use super::repeated::{Clauses, clause, literal, set};
use clauses::{Clause, Cnf, Log, Step};
use lists::List;
use packed_log::{pack, unpack};
use rup_checker::{check, check_refutation};
use std::alloc::{AllocError, Global};
use std::test::Fail;
use trimmed_logs::trimmed;

/// The steps of a log: the literals of each step's clause, and its hints.
type Steps = &'static [(&'static [i16], &'static [u32])];

/// A step with these literals and hints.
fn step(alloc: Global, literals: &[i16], hints: &[u32]) -> Result<Step, AllocError> {
    let clause = clause(alloc, literals)?;
    let hints = List::from_vec(hints.to_vec(alloc)?);
    Ok(Step { clause, hints })
}

/// The log of some steps.
fn log(alloc: Global, steps: Steps) -> Result<Log, AllocError> {
    let mut log = List::new(alloc);
    for (literals, hints) in steps {
        log.push(step(alloc, literals, hints)?)?;
    }
    Ok(log)
}

/// Whether a clause has these literals, in this order.
fn has_literals(clause: &Clause, literals: &[i16]) -> bool {
    if clause.len() != literals.len() {
        return false;
    }
    for (found, number) in clause.as_slice().iter().zip(literals) {
        if *found != literal(*number) {
            return false;
        }
    }
    true
}

/// Whether a log has these steps, in this order.
fn has_steps(log: &Log, steps: Steps) -> bool {
    if log.len() != steps.len() {
        return false;
    }
    for (step, (literals, hints)) in log.as_slice().iter().zip(steps) {
        if !has_literals(&step.clause, literals) || step.hints.as_slice() != *hints {
            return false;
        }
    }
    true
}

/// Two clauses that contradict one another.
const OPPOSED: Clauses = &[&[1], &[-1]];

/// Each clause over two variables.
const FULL: Clauses = &[&[1, 2], &[1, -2], &[-1, 2], &[-1, -2]];

/// Clauses, a log over them, whether each of its steps follows, and whether it refutes them.
static CHECKED: [(Clauses, Steps, bool, bool); 14] = [
    (&[&[]], &[(&[], &[0])], true, true),
    // the empty clause isn't the log's last
    (&[&[]], &[(&[], &[0]), (&[1], &[1])], true, false),
    // no hints; and a step that is its own hint
    (OPPOSED, &[(&[], &[])], false, false),
    (OPPOSED, &[(&[], &[2])], false, false),
    (OPPOSED, &[(&[], &[0, 1])], true, true),
    // the clause is a tautology: negating it assigns variable 1 both ways
    (OPPOSED, &[(&[1, -1], &[1])], true, false),
    // the clause of the last hint is not false
    (OPPOSED, &[(&[-1], &[0])], false, false),
    // the set has no variable 3
    (OPPOSED, &[(&[3], &[0, 1])], false, false),
    (FULL, &[(&[1], &[0, 1]), (&[], &[4, 2, 3])], true, true),
    // the assignments of the first step are undone before the second; and a step has a later one as a hint
    (FULL, &[(&[1], &[0, 1]), (&[], &[1])], false, false),
    (FULL, &[(&[], &[5, 2, 3]), (&[1], &[0, 1])], false, false),
    // a unit clause that is hinted again is satisfied, so it is never the conflict
    (
        FULL,
        &[(&[1], &[0, 1]), (&[], &[4, 4, 2, 4, 2, 3])],
        true,
        true,
    ),
    (FULL, &[(&[1], &[0, 1]), (&[], &[4, 2, 2])], false, false),
    // what one step has propagated is undone before the next
    (FULL, &[(&[2], &[0, 2]), (&[], &[0, 2, 3])], false, false),
];

/// Whether each step of a log follows, and whether the log refutes the set.
fn checked(alloc: Global, set: &Cnf, log: &Log) -> Result<(bool, bool), AllocError> {
    let follows = check(alloc, set, log)?;
    let refutes = check_refutation(alloc, set, log)?;
    Ok((follows, refutes))
}

/// The same for a log with these steps.
fn checked_steps(alloc: Global, set: &Cnf, steps: Steps) -> Result<(bool, bool), AllocError> {
    let log = log(alloc, steps)?;
    checked(alloc, set, &log)
}

/// Whether the checker's two answers for a set and these steps are the expected ones.
fn is_checked_so(
    alloc: Global,
    set: &Cnf,
    steps: Steps,
    follows: bool,
    refutes: bool,
) -> Result<bool, AllocError> {
    let found = checked_steps(alloc, set, steps)?;
    Ok(found.0 == follows && found.1 == refutes)
}

/// The same for clauses over two variables.
fn are_checked_so(
    alloc: Global,
    clauses: Clauses,
    steps: Steps,
    follows: bool,
    refutes: bool,
) -> Result<bool, AllocError> {
    match set(alloc, clauses, 2)? {
        Some(set) => is_checked_so(alloc, &set, steps, follows, refutes),
        None => Ok(false),
    }
}

#[test]
fn logs_follow_or_are_refused(rt: HostRuntime) -> Result<(), Fail> {
    for (row, (clauses, steps, follows, refutes)) in CHECKED.iter().enumerate() {
        let is_so = are_checked_so(rt.alloc(), clauses, steps, *follows, *refutes)?;
        assert!(rt; is_so, "row {row}");
    }
    Ok(())
}

/// Clauses, the steps of a log, and those that are left once it is trimmed.
static TRIMMED: [(Clauses, Steps, Steps); 10] = [
    // these logs refute nothing, and are left as they are
    (OPPOSED, &[], &[]),
    (OPPOSED, &[(&[], &[0])], &[(&[], &[0])]),
    (
        FULL,
        &[(&[2], &[0, 2]), (&[1], &[0, 1])],
        &[(&[2], &[0, 2]), (&[1], &[0, 1])],
    ),
    // the last step doesn't follow, although the first, which is none of its hints, does
    (
        FULL,
        &[(&[1], &[0, 1]), (&[], &[2, 3])],
        &[(&[1], &[0, 1]), (&[], &[2, 3])],
    ),
    // a step that is no hint; and two, of which the second alone has the first as a hint
    (
        FULL,
        &[(&[2], &[0, 2]), (&[1], &[0, 1]), (&[], &[5, 2, 3])],
        &[(&[1], &[0, 1]), (&[], &[4, 2, 3])],
    ),
    (
        FULL,
        &[
            (&[2], &[0, 2]),
            (&[1], &[0, 1]),
            (&[-1, 2], &[4]),
            (&[], &[5, 2, 3]),
        ],
        &[(&[1], &[0, 1]), (&[], &[4, 2, 3])],
    ),
    // variable 2 is assigned, but the conflict doesn't depend on it
    (
        &[&[1], &[-1], &[2]],
        &[(&[], &[2, 0, 1])],
        &[(&[], &[0, 1])],
    ),
    // nor on what propagates from variable 1
    (
        &[&[1], &[-1, 2], &[3], &[-3]],
        &[(&[], &[0, 1, 2, 3])],
        &[(&[], &[2, 3])],
    ),
    // a hint that only assigns again what is assigned
    (
        FULL,
        &[(&[2], &[0, 2]), (&[1], &[0, 1]), (&[], &[5, 2, 4, 3])],
        &[(&[1], &[0, 1]), (&[], &[4, 2, 3])],
    ),
    // every step and hint is needed
    (
        FULL,
        &[(&[2], &[0, 2]), (&[1], &[0, 1]), (&[], &[5, 4, 3])],
        &[(&[2], &[0, 2]), (&[1], &[0, 1]), (&[], &[5, 4, 3])],
    ),
];

/// Whether the log of these steps is trimmed to those.
fn is_trimmed_to(alloc: Global, set: &Cnf, steps: Steps, kept: Steps) -> Result<bool, AllocError> {
    let found = trimmed(alloc, set, log(alloc, steps)?)?;
    Ok(has_steps(&found, kept))
}

/// The same for clauses over three variables.
fn are_trimmed_to(
    alloc: Global,
    clauses: Clauses,
    steps: Steps,
    kept: Steps,
) -> Result<bool, AllocError> {
    match set(alloc, clauses, 3)? {
        Some(set) => is_trimmed_to(alloc, &set, steps, kept),
        None => Ok(false),
    }
}

#[test]
fn logs_are_trimmed(rt: HostRuntime) -> Result<(), Fail> {
    for (row, (clauses, steps, kept)) in TRIMMED.iter().enumerate() {
        let is_so = are_trimmed_to(rt.alloc(), clauses, steps, kept)?;
        assert!(rt; is_so, "row {row}");
    }
    Ok(())
}

/// Logs without steps, without hints, and with differences between hints that fit one byte or take more, rising and
/// falling.
static PACKED: [Steps; 4] = [
    &[],
    &[(&[], &[])],
    &[
        (&[1, -2, 3, -4, 5], &[7, 7, 71, 8, 72, 7]),
        (&[], &[]),
        (&[-1], &[64]),
    ],
    &[
        (&[1], &[4_294_967_295, 0, 2_147_483_648, 16_383]),
        (&[-1], &[5]),
    ],
];

/// Whether a log with these steps is the same after packing and unpacking.
fn is_read_back(alloc: Global, steps: Steps) -> Result<bool, AllocError> {
    let log = log(alloc, steps)?;
    let packed = pack(alloc, &log)?;
    let read = unpack(alloc, &packed)?;
    Ok(has_steps(&read, steps))
}

#[test]
fn what_is_packed_is_read_back(rt: HostRuntime) -> Result<(), Fail> {
    for (row, steps) in PACKED.iter().enumerate() {
        assert!(rt; is_read_back(rt.alloc(), steps)?, "row {row}");
    }
    Ok(())
}
