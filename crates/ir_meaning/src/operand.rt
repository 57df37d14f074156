//! The values of operands.

ghost use Rattle.std.specs.Prelude.{◌≡◌};
ghost use Rattle.ops.specs.Integer.{bits};
ghost use Rattle.ops.specs.Value.{IsValueOf};
ghost use Rattle.ir_core.specs.Checks.{OperandHasWidth};
ghost use Rattle.ir_core.specs.Run.{OnlyZero, OperandGives};
ghost use Rattle.ir_meaning.specs.Table.{IsTable, held_of};

use crate::table::Table;
use ir_core::{Function, Operand};
use ops::{Value, Width, Word};

/// The value of an operand of the function at the width: what its register holds, or the literal, with 0 for `undef`.
pub(crate) fn operand(f: &Function, table: &Table, width: Width, operand: Operand) -> Value
    requires table { IsTable f.now table.now.firsts.items table.now.values.items }
    requires width { OperandHasWidth f.now width operand }
    ensures gives { OperandGives OnlyZero (held_of f.now table.now.values.items) width operand result }
    ensures width { IsValueOf width result }
{
    match operand {
        Operand::Register(register) => table.get(f, register),
        Operand::Number(number) => Value::Bits(number),
        Operand::Undef => zero(width),
        Operand::Poison => Value::Poison,
    }
}

/// The number 0.
pub(crate) fn zero(width: Width) -> Value
    ensures { result ≡ bits width 0 }
{
    Value::Bits(Word::wrapped(width, 0))
}
