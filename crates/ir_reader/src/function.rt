//! Resolving and checking a function of a module.

ghost use Rattle.std.specs.Prelude.{List as Seq, IfOk, OnOk, IfErr};
ghost use Rattle.ir_tokens.specs.declared.raw.RawFunction.{RawFunction as written_function};
ghost use Rattle.ir_resolve.specs.Faults.{MarksFunction, HasNoFault};
ghost use Rattle.ir_resolve.specs.Formed.{IsWellWritten};
ghost use Rattle.ir_resolve.specs.Means.{Means};
ghost use Rattle.refusal.specs.Refusals.{IfRefused};
ghost use Rattle.ir_reader.specs.Faults.{IsFunctionOf, IsFaultOfFunction};

use crate::assigned::check_reads;
use crate::count::is_countable;
use crate::entry::named_entry;
use crate::phis::bad_phi;
use crate::predecessors::predecessors;
use ir_core::Function;
use ir_resolve::resolve;
use ir_tokens::{IrError, IrFaultKind, RawFunction};
use refusal::refused;
use std::alloc::Global;

/// The function that the syntax tree means, or its first fault.
pub(crate) fn function(
    alloc: Global,
    raw: &RawFunction,
    is_repeated: bool,
) -> Result<Function, IrError>
    requires { IsWellWritten raw.now }
    ensures ok { IfOk result (λ f. (earlier : Seq written_function) → MarksFunction is_repeated earlier raw.now → IsFunctionOf earlier raw.now f) }
    ensures refused { IfErr result (λ e. IfRefused e (λ fault. (earlier : Seq written_function) → MarksFunction is_repeated earlier raw.now → IsFaultOfFunction earlier raw.now fault)) }
{
    let f = resolve(alloc, raw, is_repeated)?;
    check(alloc, raw, &f)?;
    Ok(f)
}

/// Checks a function that is resolved: its phis, its entry block, and that registers are assigned where they are read.
fn check(alloc: Global, raw: &RawFunction, f: &Function) -> Result<(), IrError>
    requires written { IsWellWritten raw.now }
    requires means { Means raw.now f.now }
    ensures ok { OnOk result ((earlier : Seq written_function) → HasNoFault earlier raw.now → IsFunctionOf earlier raw.now f.now) }
    ensures refused { IfErr result (λ e. IfRefused e (λ fault. (earlier : Seq written_function) → HasNoFault earlier raw.now → IsFaultOfFunction earlier raw.now fault)) }
{
    if !is_countable(f) {
        return Err(IrError::NoMemory);
    }
    let predecessors = predecessors(alloc, f)?;
    if let Some(line) = bad_phi(alloc, predecessors.as_slice(), raw, f)? {
        return Err(refused(line, IrFaultKind::BadPhi));
    }
    if let Some(line) = named_entry(predecessors.as_slice(), raw) {
        return Err(refused(line, IrFaultKind::EntryPred));
    }
    check_reads(alloc, raw, f)
}
