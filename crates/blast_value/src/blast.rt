//! The circuit of an instruction.
ghost use Rattle.std.specs.Prelude.{◌≡◌, Bool, List as Seq, map, length, IfOk};
ghost use Rattle.std.specs.List.{All};
ghost use Rattle.ops.specs.Instruction.{instruction};
ghost use Rattle.circuits.specs.Circuit.{Adds};
ghost use Rattle.blast_value.specs.Effect.{held_value, effect_of, widths_of, IsOwn, IsOwnEffect};
ghost use Rattle.blast_value.specs.Meaning.{HasEffect, Takes};
ghost use Rattle.blast_value.specs.Gates.{gates_of, greatest, opcode_gates};

use crate::arithmetic::Arithmetic;
use crate::bitwise::Bitwise;
use crate::comparison::{choose, compare};
use crate::conversion::convert;
use crate::division::{Division, divide};
use crate::extreme::Extreme;
use crate::held::{Blasted, Held};
use crate::instruction::Instruction;
use crate::one_operand::unary_effect;
use crate::strict::{Strict, strict_effect};
use circuits::Circuit;
use lists::List;
use ops::{Flags, Opcode, Width};
use std::alloc::{AllocError, Global};

/// The effect of an instruction on operands, where `width` is that of the result. It makes no input, and at most as
/// many gates as [`gates_of`](crate::gates_of) says. Flags that the instruction doesn't take are ignored.
pub fn blast_value<C: Circuit>(
    alloc: Global,
    c: &mut C,
    what: Instruction,
    width: Width,
    operands: &List<Held<C::Literal>>,
) -> Result<Blasted<C::Literal>, AllocError>
    requires operands { Takes what width (widths_of operands.now) }
    requires own { All (IsOwn (C.has_literal c.old)) operands.now }
    ensures effect { IfOk result (λ made. (inputs : Seq Bool) → C.admits c.old inputs →
        HasEffect what width (map (held_value (C.value c.old inputs)) operands.now)
        (effect_of (C.value c.new inputs) made)) }
    ensures width { IfOk result (λ made. length made.bits ≡ width) }
    ensures own { IfOk result (IsOwnEffect (C.has_literal c.new)) }
    ensures adds { Adds C.State c.old c.new (gates_of what width (greatest (widths_of operands.now))) }
{
    let operands = operands.as_slice();
    match what {
        Instruction::Binary(op, flags) => {
            binary(alloc, c, op, flags, width, &operands[0], &operands[1])
        }
        Instruction::Compare(pred, samesign) => {
            compare(alloc, c, pred, samesign, &operands[0], &operands[1])
        }
        Instruction::Select => choose(alloc, c, &operands[0], &operands[1], &operands[2]),
        Instruction::Convert(cast, flags) => { convert(alloc, c, cast, flags, width, &operands[0]) }
        Instruction::Unary(op, truth) => { unary_effect(alloc, c, op, truth, width, &operands[0]) }
    }
}

/// The effect of an instruction with two operands of the result's width.
fn binary<C: Circuit>(
    alloc: Global,
    c: &mut C,
    op: Opcode,
    flags: Flags,
    width: Width,
    a: &Held<C::Literal>,
    b: &Held<C::Literal>,
) -> Result<Blasted<C::Literal>, AllocError>
    requires width_a { length a.now.bits ≡ width }
    requires width_b { length b.now.bits ≡ width }
    requires own_a { IsOwn (C.has_literal c.old) a.now }
    requires own_b { IsOwn (C.has_literal c.old) b.now }
    ensures effect { IfOk result (λ made. (inputs : Seq Bool) → C.admits c.old inputs →
        effect_of (C.value c.new inputs) made
        ≡ instruction op flags width
        (held_value (C.value c.old inputs) a.now) (held_value (C.value c.old inputs) b.now)) }
    ensures width { IfOk result (λ made. length made.bits ≡ width) }
    ensures own { IfOk result (IsOwnEffect (C.has_literal c.new)) }
    ensures adds { Adds C.State c.old c.new (opcode_gates op width) }
{
    match op {
        Opcode::Add => strict_effect(
            alloc,
            c,
            Strict::Arithmetic(Arithmetic::Add),
            flags,
            width,
            a,
            b,
        ),
        Opcode::Sub => strict_effect(
            alloc,
            c,
            Strict::Arithmetic(Arithmetic::Sub),
            flags,
            width,
            a,
            b,
        ),
        Opcode::Mul => strict_effect(
            alloc,
            c,
            Strict::Arithmetic(Arithmetic::Mul),
            flags,
            width,
            a,
            b,
        ),
        Opcode::UDiv => divide(alloc, c, Division::UDiv, flags, width, a, b),
        Opcode::SDiv => divide(alloc, c, Division::SDiv, flags, width, a, b),
        Opcode::URem => divide(alloc, c, Division::URem, flags, width, a, b),
        Opcode::SRem => divide(alloc, c, Division::SRem, flags, width, a, b),
        Opcode::Shl => strict_effect(alloc, c, Strict::Shl, flags, width, a, b),
        Opcode::LShr => strict_effect(alloc, c, Strict::LShr, flags, width, a, b),
        Opcode::AShr => strict_effect(alloc, c, Strict::AShr, flags, width, a, b),
        Opcode::And => strict_effect(alloc, c, Strict::Bitwise(Bitwise::And), flags, width, a, b),
        Opcode::Or => strict_effect(alloc, c, Strict::Bitwise(Bitwise::Or), flags, width, a, b),
        Opcode::Xor => strict_effect(alloc, c, Strict::Bitwise(Bitwise::Xor), flags, width, a, b),
        Opcode::UMin => strict_effect(alloc, c, Strict::Extreme(Extreme::UMin), flags, width, a, b),
        Opcode::UMax => strict_effect(alloc, c, Strict::Extreme(Extreme::UMax), flags, width, a, b),
        Opcode::SMin => strict_effect(alloc, c, Strict::Extreme(Extreme::SMin), flags, width, a, b),
        Opcode::SMax => strict_effect(alloc, c, Strict::Extreme(Extreme::SMax), flags, width, a, b),
    }
}
