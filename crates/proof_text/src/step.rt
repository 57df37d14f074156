//! Steps in text.

ghost use Rattle.std.specs.Prelude.{◌≡◌, ◌++◌, IfOk, IfErr};
ghost use Rattle.std.specs.List.{AllByRecursion};
ghost use Rattle.proof_text.specs.Texts.{hints_text, step_text};
ghost use Rattle.proof_text.specs.WellFormed.{IsNumber, IsStep};
ghost use Rattle.proof_text.specs.Reading.{Hints, Steps, StopsIn};

use crate::clause::clause;
use crate::numbers::numbers;
use crate::stop::{Stopped, take_byte, takes};
use clauses::Step;
use lists::List;
use std::alloc::Global;

/// The hints of a step, up to the end of its line.
fn hints(alloc: Global, rest: &mut &[u8]) -> Result<List<u32>, Stopped>
    ensures ok { IfOk result (λ hs. AllByRecursion IsNumber hs × (rest.old.now ≡ hints_text hs ++ rest.new.now)) }
    ensures stop { IfErr result (λ e. StopsIn Hints e rest.old.now rest.new.now) }
{
    if takes(rest, b'\n') {
        return Ok(List::new(alloc));
    }
    take_byte(rest, b' ')?;
    numbers(alloc, rest, b'\n')
}

/// A step: its clause and its hints.
pub(crate) fn step(alloc: Global, rest: &mut &[u8]) -> Result<Step, Stopped>
    ensures ok { IfOk result (λ s. IsStep s × (rest.old.now ≡ step_text s ++ rest.new.now)) }
    ensures stop { IfErr result (λ e. StopsIn Steps e rest.old.now rest.new.now) }
{
    let clause = clause(alloc, rest)?;
    let hints = hints(alloc, rest)?;
    Ok(Step { clause, hints })
}
