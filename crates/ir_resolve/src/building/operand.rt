//! Operands and targets, whose registers and blocks are known to be defined.

ghost use Rattle.ir_resolve.specs.FaultKinds.{IsUnknownValue, IsUnknownBlock};
ghost use Rattle.ir_resolve.specs.Means.{ValueMeans, BlockMeans};
ghost use Rattle.ir_resolve.specs.Views.{known_by, CallsIn};

use crate::names::{Names, block, register};
use ir_core::Operand;
use ir_tokens::{Identifier, RawValue};
use ops::Word;

/// The operand that a value means.
pub(crate) fn operand(names: &Names<'_>, value: &RawValue) -> Operand
    requires { ¬ IsUnknownValue (CallsIn (known_by names.now)) value.now }
    ensures { ValueMeans (CallsIn (known_by names.now)) value.now result }
{
    match value {
        RawValue::Register(identifier) => match register(names, identifier) {
            Some((register, _)) => Operand::Register(register),
            None => unreachable!(),
        },
        RawValue::Number(word) => Operand::Number(*word),
        RawValue::True => Operand::Number(Word::truth(true)),
        RawValue::False => Operand::Number(Word::truth(false)),
        RawValue::Undef => Operand::Undef,
        RawValue::Poison => Operand::Poison,
    }
}

/// The index of the block that an identifier names.
pub(crate) fn target(names: &Names<'_>, identifier: &Identifier) -> u32
    requires { ¬ IsUnknownBlock (CallsIn (known_by names.now)) identifier.now }
    ensures { BlockMeans (CallsIn (known_by names.now)) identifier.now result }
{
    match block(names, identifier) {
        Some(number) => number,
        None => unreachable!(),
    }
}
