//! The check that each register is assigned wherever it is read.

ghost use Rattle.std.specs.Prelude.{◌≡◌, ◌<◌, ℕ, length, OnOk, IfErr};
ghost use Rattle.ir_tokens.specs.declared.called.Identifier.{Identifier as called};
ghost use Rattle.ir_tokens.specs.declared.raw.RawValue.TheVariants.{Register as register};
ghost use Rattle.ir_core.specs.Assigned.{ReadsAreAssigned};
ghost use Rattle.ir_core.specs.Blocks.{Names};
ghost use Rattle.ir_resolve.specs.Means.{Means};
ghost use Rattle.ir_reader.specs.Counts.{IsCountable};
ghost use Rattle.refusal.specs.Refusals.{IfRefused};
ghost use Rattle.ir_reader.specs.FlowFaults.{IsUnassignedFault};
ghost use Rattle.ir_tokens.specs.declared.fault.IrFaultKind.TheVariants.{Unassigned as unassigned_kind};

use crate::text::identifier;
use crate::written::operand;
use assigned_flow::{FlowError, check_assigned};
use ir_core::Function;
use ir_tokens::{IrError, IrFaultKind, RawFunction, RawOperand, RawValue};
use refusal::refused;
use std::alloc::Global;

/// The refusal for a register that is written as an operand in a block.
fn unassigned(alloc: Global, written: &RawOperand, block: u32) -> IrError
    requires { (name : called) × (written.now.value ≡ register name) }
    ensures { IfRefused result (λ fault. (name : called) × (written.now.value ≡ register name)
        × (fault ≡ record { line = written.now.line; kind = unassigned_kind name block })) }
{
    match &written.value {
        RawValue::Register(name) => match identifier(alloc, name) {
            Ok(name) => refused(written.line, IrFaultKind::Unassigned(name, block)),
            Err(_) => IrError::NoMemory,
        },
        _ => unreachable!(),
    }
}

/// Checks that each register is assigned where it is read.
pub(crate) fn check_reads(alloc: Global, raw: &RawFunction, f: &Function) -> Result<(), IrError>
    requires means { Means raw.now f.now }
    requires some_block { 0 < length f.now.blocks }
    requires targets { (b c : ℕ) → Names f.now b c → c < length f.now.blocks }
    requires counts { IsCountable f.now }
    ensures ok { OnOk result (ReadsAreAssigned f.now) }
    ensures refused { IfErr result (λ e. IfRefused e (IsUnassignedFault raw.now f.now)) }
{
    match check_assigned(alloc, f) {
        Ok(_) => Ok(()),
        Err(FlowError::NoMemory) => Err(IrError::NoMemory),
        Err(
            FlowError::Unassigned {
                register: _,
                block,
                place,
                operand: index,
            },
        ) => match operand(raw, block, place, index) {
            Some(written) => Err(unassigned(alloc, written, block)),
            None => unreachable!(),
        },
    }
}
