//! The semantics of instructions and intrinsics with two operands of one type.

ghost use Rattle.std.specs.Prelude.{◌≡◌, ◌<◌, ◌^◌};
ghost use Rattle.ops.specs.Flags.{FlagsFit};
ghost use Rattle.ops.specs.Instruction.{instruction, on_numbers, on_poison};
ghost use Rattle.ops.specs.Value.{HasWidth, IsEffectOf};

use crate::arithmetic::{add, mul, sub};
use crate::bitwise::{and, or, xor};
use crate::division::{sdiv, signed_poison, srem, udiv, unsigned_poison, urem};
use crate::extremes::{smax, smin, umax, umin};
use crate::opcode::{Flags, Opcode};
use crate::shift::{ashr, lshr, shl};
use crate::value::{Effect, Value};
use crate::width::Width;

/// What an instruction over `iN` does at these operands, where N is `width`. It takes no memory.
#[tactic(auto, unfolding(crate::specs::Instruction::instruction))]
pub fn evaluate(op: Opcode, flags: Flags, width: Width, a: Value, b: Value) -> Effect
    requires left { HasWidth a width }
    requires right { HasWidth b width }
    requires flags { FlagsFit op flags }
    ensures effect { result ≡ instruction op flags width a b }
    ensures width { IsEffectOf width result }
{
    let Value::Bits(left) = a else {
        return on_poison(op, width, b);
    };
    let Value::Bits(right) = b else {
        return on_poison(op, width, b);
    };
    on_numbers(op, flags, width, left.number(), right.number())
}

/// The effect where an operand is poison; `b` is the one on the right.
#[tactic(auto, unfolding(crate::specs::Instruction::on_poison))]
fn on_poison(op: Opcode, width: Width, b: Value) -> Effect
    ensures { result ≡ on_poison op width b }
{
    match op {
        Opcode::UDiv | Opcode::URem => unsigned_poison(b),
        Opcode::SDiv | Opcode::SRem => signed_poison(width, b),
        Opcode::Add
        | Opcode::Sub
        | Opcode::Mul
        | Opcode::Shl
        | Opcode::LShr
        | Opcode::AShr
        | Opcode::And
        | Opcode::Or
        | Opcode::Xor
        | Opcode::UMin
        | Opcode::UMax
        | Opcode::SMin
        | Opcode::SMax => Effect::Gives(Value::Poison),
    }
}

/// The effect where both operands are numbers.
#[tactic(auto, unfolding(crate::specs::Instruction::on_numbers))]
fn on_numbers(op: Opcode, flags: Flags, width: Width, a: u64, b: u64) -> Effect
    requires left { a < 2 ^ width }
    requires right { b < 2 ^ width }
    ensures { result ≡ on_numbers op flags width a b }
{
    match op {
        Opcode::Add => Effect::Gives(add(flags, width, a, b)),
        Opcode::Sub => Effect::Gives(sub(flags, width, a, b)),
        Opcode::Mul => Effect::Gives(mul(flags, width, a, b)),
        Opcode::UDiv => udiv(flags, width, a, b),
        Opcode::SDiv => sdiv(flags, width, a, b),
        Opcode::URem => urem(width, a, b),
        Opcode::SRem => srem(width, a, b),
        Opcode::Shl => Effect::Gives(shl(flags, width, a, b)),
        Opcode::LShr => Effect::Gives(lshr(flags, width, a, b)),
        Opcode::AShr => Effect::Gives(ashr(flags, width, a, b)),
        Opcode::And => Effect::Gives(and(width, a, b)),
        Opcode::Or => Effect::Gives(or(flags, width, a, b)),
        Opcode::Xor => Effect::Gives(xor(width, a, b)),
        Opcode::UMin => Effect::Gives(umin(width, a, b)),
        Opcode::UMax => Effect::Gives(umax(width, a, b)),
        Opcode::SMin => Effect::Gives(smin(width, a, b)),
        Opcode::SMax => Effect::Gives(smax(width, a, b)),
    }
}
