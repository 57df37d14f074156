//! The effects of instructions on what registers hold.

ghost use Rattle.ops.specs.Value.{IsEffectOf, IsValueOf};
ghost use Rattle.ir_core.specs.Run.{Freezes, OnlyZero, OpGives};
ghost use Rattle.ir_meaning.specs.Step.{OpFits};
ghost use Rattle.ir_meaning.specs.Table.{IsTable, held_of};

use crate::operand::{operand, zero};
use crate::table::Table;
use ir_core::{Function, Op};
use ops::{Effect, Value, Width, choose, compare, convert, evaluate, unary};

/// The effect of an instruction of the function that is no phi, where each number that is left open is 0.
pub(crate) fn instruction(f: &Function, table: &Table, width: Width, op: &Op) -> Effect
    requires table { IsTable f.now table.now.firsts.items table.now.values.items }
    requires fits { OpFits f.now width op.now }
    ensures effect { OpGives OnlyZero (held_of f.now table.now.values.items) width op.now result }
    ensures width { IsEffectOf width result }
{
    match op {
        Op::Binary(op, flags, x, y) => {
            let left = operand(f, table, width, *x);
            let right = operand(f, table, width, *y);
            evaluate(*op, *flags, width, left, right)
        }
        Op::Compare(pred, samesign, compared, x, y) => {
            let left = operand(f, table, *compared, *x);
            let right = operand(f, table, *compared, *y);
            Effect::Gives(compare(*pred, *samesign, *compared, left, right))
        }
        Op::Unary(op, truth, x) => {
            let a = operand(f, table, width, *x);
            Effect::Gives(unary(*op, *truth, width, a))
        }
        Op::Select(c, x, y) => {
            let condition = operand(f, table, Width::ONE, *c);
            let chosen = operand(f, table, width, *x);
            let other = operand(f, table, width, *y);
            Effect::Gives(choose(condition, chosen, other))
        }
        Op::Convert(cast, flags, from, x) => {
            let converted = operand(f, table, *from, *x);
            Effect::Gives(convert(*cast, *flags, *from, width, converted))
        }
        Op::Freeze(x) => Effect::Gives(frozen(width, operand(f, table, width, *x))),
        Op::Phi(_) => unreachable!(),
    }
}

/// The value, with 0 in place of poison.
fn frozen(width: Width, value: Value) -> Value
    requires { IsValueOf width value }
    ensures value { Freezes OnlyZero width value result }
    ensures width { IsValueOf width result }
{
    match value {
        Value::Poison => zero(width),
        Value::Bits(_) => value,
    }
}
