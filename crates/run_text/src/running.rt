//! What `run` writes of a function of a module.

ghost use Rattle.std.specs.Prelude.{map, IfOk, IfErr};
ghost use Rattle.refusal.specs.Refusals.{IfRefused};
ghost use Rattle.run_text.specs.Runs.{IsRun};
ghost use Rattle.run_text.specs.RunFaults.{IsRunFault};

use crate::argument::values_said;
use crate::fault::{RunError, RunFault, of_text};
use crate::named::function_named;
use crate::outcome::outcome_line;
use ir_meaning::run_zero;
use ir_reader::read_module;
use refusal::Refusal;
use std::alloc::Global;

/// Runs a function of a module, known by its name without the `@`, at the values that the arguments say, and enters at
/// most `blocks` blocks. Each number that is left open is 0: what a literal `undef` gives, and what `freeze` gives in
/// place of poison (LangRef, "Undefined Values", "freeze").
///
/// An argument is `poison`, at i1 `true` or `false`, or a decimal from 0 to 2^N - 1 for a parameter of type `iN`. What
/// is written is a line: `return V`, where V is a literal, `undefined` where the behaviour is undefined, or `running
/// block K` where the run would enter that block next, counted from 0.
///
/// It is refused for the text's first fault, or where no function has the name or the arguments don't fit its
/// parameters.
///
/// Beside [`read_module`]'s it takes as many steps as the module has entries and the run has instructions, where a
/// `phi` goes through its entries and a `switch` through its cases ([`run_zero`]).
#[tactic(auto, using(crate::proofs::RunningLemmas::misnamed, crate::proofs::RunningLemmas::refused_text))]
pub fn run(
    alloc: Global,
    bytes: &[u8],
    name: &[u8],
    arguments: &[&str],
    blocks: u32,
) -> Result<Vec<u8>, RunError>
    ensures ok { IfOk result (λ text. IsRun bytes.now name.now (map (λ a. a.now) arguments.now) blocks text.items) }
    ensures refused { IfErr result (λ e. IfRefused e (IsRunFault bytes.now name.now (map (λ a. a.now) arguments.now))) }
{
    let module = match read_module(alloc, bytes) {
        Ok(module) => module,
        Err(error) => return Err(of_text(error)),
    };
    let Some(function) = function_named(&module, name) else {
        return Err(Refusal::Refused(RunFault::Argument));
    };
    let Some(values) = values_said(alloc, function.parameters.as_slice(), arguments)? else {
        return Err(Refusal::Refused(RunFault::Argument));
    };
    let outcome = run_zero(alloc, function, &values, blocks)?;
    let line = outcome_line(alloc, outcome)?;
    Ok(line)
}
