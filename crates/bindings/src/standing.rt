//! Which operands of instructions the operands of a rule stand for, under a binding.

ghost use Rattle.std.specs.Prelude.{◌≡◌, ◌↔◌, ℕ, IsTrue, Some, slice_get};
ghost use Rattle.bindings.specs.Operands.{StandsFor, OperandMatches};

use crate::binding::Binding;
use ir_core::{Operand, Read};
use ops::{Width, Word, residue};
use rule_core::{Argument, Operand as RuleOperand, Register as Name};

/// Whether an operand of the source matches an operand of an instruction.
pub(crate) fn operand_matches(binding: &Binding, operand: RuleOperand, read: Read) -> bool
    ensures { IsTrue result ↔ OperandMatches binding.now operand read }
{
    has_width(binding, operand.class, read.width)
        && stands_for(binding, read.width, operand.value, read.operand)
}

/// Whether a class has this width.
pub(crate) fn has_width(binding: &Binding, class: u32, width: Width) -> bool
    ensures { IsTrue result ↔ (slice_get binding.now.typing class ≡ Some width) }
{
    match binding.typing.as_slice().get(class as usize) {
        Some(bound) => *bound == width,
        None => false,
    }
}

/// Whether an argument of the source may stand for an operand that an instruction reads at this width.
fn stands_for(binding: &Binding, width: Width, argument: Argument, operand: Operand) -> bool
    ensures { IsTrue result ↔ StandsFor binding.now width argument operand }
{
    match argument {
        Argument::Register(name) => names(binding, name, operand),
        Argument::Literal(literal) => {
            operand == Operand::Number(Word::fitting(width, residue(width, literal)))
        }
        Argument::Truth(truth) => operand == Operand::Number(Word::truth(truth)),
        Argument::Constant(k) => is_constant(binding, width, k, operand),
        Argument::Undef(_) => operand == Operand::Undef,
        Argument::Term(_) => false,
    }
}

/// Whether a register of the source is bound to the operand.
fn names(binding: &Binding, name: Name, operand: Operand) -> bool
    ensures { (width : ℕ) → IsTrue result ↔ StandsFor binding.now width (Argument.Register name) operand }
{
    match name {
        Name::Input(i) => match binding.inputs.as_slice().get(i as usize) {
            Some(bound) => *bound == operand,
            None => false,
        },
        Name::Source(j) => match binding.statements.as_slice().get(j as usize) {
            Some(register) => operand == Operand::Register(*register),
            None => false,
        },
        Name::Target(_) => false,
    }
}

/// Whether a constant is bound to the operand, which is a number of this width.
fn is_constant(binding: &Binding, width: Width, k: u32, operand: Operand) -> bool
    ensures { IsTrue result ↔ StandsFor binding.now width (Argument.Constant k) operand }
{
    match (binding.constants.as_slice().get(k as usize), operand) {
        (Some(bound), Operand::Number(number)) => number.width() == width && *bound == number,
        _ => false,
    }
}
