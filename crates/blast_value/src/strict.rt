//! The instructions with two operands that give poison where an operand is poison.
ghost use Rattle.std.specs.Prelude.{◌≡◌, ◌+◌, Bool, ◌||◌, if◌then◌else◌, List as Seq, length, IfOk};
ghost use Rattle.std.specs.List.{All};
ghost use Rattle.ops.specs.declared.value.Value.TheVariants.{Poison};
ghost use Rattle.ops.specs.declared.value.Effect.TheVariants.{Gives};
ghost use Rattle.ops.specs.Instruction.{instruction, on_numbers};
ghost use Rattle.circuits.specs.Circuit.{Adds};
ghost use Rattle.circuits.specs.Word.{number_of};
ghost use Rattle.blast_value.specs.Effect.{held_value, effect_of, IsOwn, IsOwnEffect};
ghost use Rattle.blast_value.specs.Families.{strict_opcode};
ghost use Rattle.blast_value.specs.Gates.{number_gates, poison_gates};

use crate::arithmetic::{Arithmetic, checked};
use crate::bitwise::{Bitwise, bit_by_bit};
use crate::extreme::{Extreme, one_of_two};
use crate::held::{Blasted, Held};
use crate::shift::{moved_left, moved_right};
use circuits::{Bits, Circuit, or};
use ops::{Flags, Width};
use std::alloc::{AllocError, Global};

/// The instructions with two operands, but for those that divide.
#[derive(Clone, Copy)]
pub(crate) enum Strict {
    Arithmetic(Arithmetic),
    Shl,
    LShr,
    AShr,
    Bitwise(Bitwise),
    Extreme(Extreme),
}

/// The effect of such an instruction: poison where an operand is, and else its result at their numbers.
pub(crate) fn strict_effect<C: Circuit>(
    alloc: Global,
    c: &mut C,
    op: Strict,
    flags: Flags,
    width: Width,
    a: &Held<C::Literal>,
    b: &Held<C::Literal>,
) -> Result<Blasted<C::Literal>, AllocError>
    requires width_a { length a.now.bits ≡ width }
    requires width_b { length b.now.bits ≡ width }
    requires own_a { IsOwn (C.has_literal c.old) a.now }
    requires own_b { IsOwn (C.has_literal c.old) b.now }
    ensures effect { IfOk result (λ made. (inputs : Seq Bool) → C.admits c.old inputs →
        effect_of (C.value c.new inputs) made
        ≡ instruction (strict_opcode op) flags width
        (held_value (C.value c.old inputs) a.now) (held_value (C.value c.old inputs) b.now)) }
    ensures width { IfOk result (λ made. length made.bits ≡ width) }
    ensures own { IfOk result (IsOwnEffect (C.has_literal c.new)) }
    ensures adds { Adds C.State c.old c.new (number_gates op width + poison_gates) }
{
    let made = at_numbers(alloc, c, op, flags, width, &a.bits, &b.bits)?;
    with_poison(alloc, c, made, a.poison, b.poison)
}

/// The result of such an instruction at two numbers.
fn at_numbers<C: Circuit>(
    alloc: Global,
    c: &mut C,
    op: Strict,
    flags: Flags,
    width: Width,
    a: &Bits<C::Literal>,
    b: &Bits<C::Literal>,
) -> Result<Held<C::Literal>, AllocError>
    requires width_a { length a.now ≡ width }
    requires width_b { length b.now ≡ width }
    requires own_a { All (C.has_literal c.old) a.now }
    requires own_b { All (C.has_literal c.old) b.now }
    ensures value { IfOk result (λ made. (inputs : Seq Bool) → C.admits c.old inputs →
        Gives (held_value (C.value c.new inputs) made)
        ≡ on_numbers (strict_opcode op) flags width
        (number_of (C.value c.old inputs) a.now) (number_of (C.value c.old inputs) b.now)) }
    ensures width { IfOk result (λ made. length made.bits ≡ width) }
    ensures own { IfOk result (IsOwn (C.has_literal c.new)) }
    ensures adds { Adds C.State c.old c.new (number_gates op width) }
{
    match op {
        Strict::Arithmetic(which) => checked(alloc, c, which, flags, width, a, b),
        Strict::Shl => moved_left(alloc, c, flags, width, a, b),
        Strict::LShr => moved_right(alloc, c, flags.exact, false, width, a, b),
        Strict::AShr => moved_right(alloc, c, flags.exact, true, width, a, b),
        Strict::Bitwise(which) => bit_by_bit(alloc, c, which, flags, width, a, b),
        Strict::Extreme(which) => one_of_two(alloc, c, which, flags, width, a, b),
    }
}

/// The effect that gives poison where one of two operands is poison, and else a value.
fn with_poison<C: Circuit>(
    alloc: Global,
    c: &mut C,
    made: Held<C::Literal>,
    poison_a: C::Literal,
    poison_b: C::Literal,
) -> Result<Blasted<C::Literal>, AllocError>
    requires own { IsOwn (C.has_literal c.old) made }
    requires own_a { C.has_literal c.old poison_a }
    requires own_b { C.has_literal c.old poison_b }
    ensures effect { IfOk result (λ effect. (inputs : Seq Bool) → C.admits c.old inputs →
        effect_of (C.value c.new inputs) effect
        ≡ Gives (if C.value c.old inputs poison_a || C.value c.old inputs poison_b
        then Poison else held_value (C.value c.old inputs) made)) }
    ensures bits { IfOk result (λ effect. effect.bits ≡ made.bits) }
    ensures own { IfOk result (IsOwnEffect (C.has_literal c.new)) }
    ensures adds { Adds C.State c.old c.new poison_gates }
{
    let operand = or(alloc, c, poison_a, poison_b)?;
    let poison = or(alloc, c, operand, made.poison)?;
    Ok(Blasted {
        bits: made.bits,
        poison,
        undefined: c.zero(),
    })
}
