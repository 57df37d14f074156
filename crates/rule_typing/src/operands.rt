//! The operands of an operation of any kind, as one list.

ghost use Rattle.std.specs.Prelude.{◌≡◌, ◌≤◌};

use rule_core::{Argument, Op, Operand};

/// Fills the array behind the last operand.
const NO_OPERAND: Operand = Operand {
    value: Argument::Truth(false),
    written: None,
    class: 0,
};

/// The operands of an operation, of which there are at most three.
#[derive(Clone, Copy)]
pub(crate) struct Operands {
    held: [Operand; 3],
    count: usize,
    ghost few: { count ≤ 3 },
}

impl Operands {
    ghost use Rattle.rule_core.specs.Positions.{operands_of};
    ghost use Rattle.rule_typing.specs.Operands.{listed};

    /// The operands of the operation, from left to right.
    pub(crate) fn of(op: Op) -> Operands
        ensures { listed result ≡ operands_of op }
    {
        match op {
            Op::Binary(_, _, left, right) => Operands {
                held: [left, right, NO_OPERAND],
                count: 2,
            },
            Op::Compare(_, _, left, right) => Operands {
                held: [left, right, NO_OPERAND],
                count: 2,
            },
            Op::Select(condition, yes, no) => Operands {
                held: [condition, yes, no],
                count: 3,
            },
            Op::Unary(_, _, operand) | Op::Convert(_, _, operand, _) => Operands {
                held: [operand, NO_OPERAND, NO_OPERAND],
                count: 1,
            },
            Op::Freeze(operand, _) | Op::Copy(operand) => Operands {
                held: [operand, NO_OPERAND, NO_OPERAND],
                count: 1,
            },
        }
    }

    /// The list of them.
    pub(crate) fn as_slice(&self) -> &[Operand]
        ensures { result.now ≡ listed self.now }
    {
        &self.held[..self.count]
    }
}
