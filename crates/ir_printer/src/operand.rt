//! Printing operands.

ghost use Rattle.std.specs.Prelude.{◌≡◌, ◌++◌, OnOk};
ghost use Rattle.ir_text.specs.PrintedText.{operand_text, typed_text};

use crate::identifiers::Identifiers;
use crate::name::push_register;
use crate::number::{push_number, push_type};
use ir_core::Operand;
use ops::Width;
use std::alloc::AllocError;

/// Appends an operand.
#[tactic(auto, unfolding(ir_text::specs::PrintedText::operand_text))]
pub(crate) fn push_operand(
    out: &mut Vec<u8>,
    called: &Identifiers<'_>,
    operand: Operand,
) -> Result<(), AllocError>
    ensures { OnOk result (out.new.items
        ≡ out.old.items ++ operand_text called.now.function.now operand) }
{
    match operand {
        Operand::Register(register) => push_register(out, called, register),
        Operand::Number(number) => push_number(out, number),
        Operand::Undef => out.extend_from_slice(b"undef"),
        Operand::Poison => out.extend_from_slice(b"poison"),
    }
}

/// Appends an operand with its type before it.
#[tactic(auto, unfolding(ir_text::specs::PrintedText::typed_text))]
pub(crate) fn push_typed(
    out: &mut Vec<u8>,
    called: &Identifiers<'_>,
    width: Width,
    operand: Operand,
) -> Result<(), AllocError>
    ensures { OnOk result (out.new.items
        ≡ out.old.items ++ typed_text called.now.function.now width operand) }
{
    push_type(out, width)?;
    out.push(b' ')?;
    push_operand(out, called, operand)
}
