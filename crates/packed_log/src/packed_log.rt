//! Logs in few bytes.

ghost use Rattle.std.specs.Prelude.{◌≡◌, IfOk};

use crate::hints::{push_hints, take_hints};
use clauses::{Clause, Log, Step};
use lists::List;
use std::alloc::{AllocError, Global};
use std::marker::Model;

/// A log with its hints in few bytes.
#[derive(Drop)]
pub struct PackedLog {
    clauses: List<Clause>,
    hints: Vec<u8>,
}

impl Model for PackedLog {
    ghost use Rattle.std.specs.Prelude.{List as Seq};
    ghost use Rattle.clauses.specs.declared.step.Step.{Step as StepOf};
    ghost use Rattle.packed_log.specs.Steps.{steps, AllHintsFit};

    ghost Value = { Seq StepOf };

    ghost view = { λ p. steps p.clauses p.hints.items };

    ghost invariant = { λ p. AllHintsFit p.clauses p.hints.items };
}

/// The log in few bytes. The only error is want of memory.
pub fn pack(alloc: Global, log: &Log) -> Result<PackedLog, AllocError>
    ensures { IfOk result (λ packed. packed ≡ log.now) }
{
    let steps = log.as_slice();
    let mut clauses = List::new(alloc);
    let mut hints = Vec::new(alloc);
    for step in steps {
        clauses.push(Clause::from_slice(alloc, step.clause.as_slice())?)?;
        push_hints(&mut hints, step.hints.as_slice())?;
    }
    hints.shrink_to_fit();
    Ok(PackedLog { clauses, hints })
}

/// The log that was packed. The only error is want of memory.
pub fn unpack(alloc: Global, packed: &PackedLog) -> Result<Log, AllocError>
    ensures { IfOk result (λ log. log ≡ packed.now) }
{
    let clauses = packed.clauses.as_slice();
    let mut rest = packed.hints.as_slice();
    let mut log = List::new(alloc);
    for clause in clauses {
        let hints = take_hints(alloc, &mut rest)?;
        let clause = Clause::from_slice(alloc, clause.as_slice())?;
        log.push(Step { clause, hints })?;
    }
    Ok(log)
}
