//! Operators and functions of terms.
ghost use Rattle.std.specs.Prelude.{◌≡◌, ◌+◌, ◌-◌, ◌^◌, ◌<◌, ◌≤◌, Bool, nat_lt, if◌then◌else◌, List as Seq, length, IfOk};
ghost use Rattle.std.specs.List.{All};
ghost use Rattle.ops.specs.Integer.{bits, least};
ghost use Rattle.ops.specs.Flags.{no_flags};
ghost use Rattle.ops.specs.Instruction.{instruction};
ghost use Rattle.circuits.specs.Circuit.{Adds};
ghost use Rattle.circuits.specs.Gates.{comparison_gates};
ghost use Rattle.circuits.specs.Word.{number_of};
ghost use Rattle.rule_core.specs.Terms.{value_given, function_value};
ghost use Rattle.rule_core.specs.declared.rule.Function.TheVariants as functions;
ghost use Rattle.blast_value.specs.Effect.{held_value, IsOwn};
ghost use Rattle.blast_value.specs.Gates.{opcode_gates};
ghost use Rattle.blast_term.specs.Gates.{function_gates};

use crate::numbers::number;
use crate::pair::blast_pair;
use crate::power::blast_exponent;
use blast_value::{Blasted, Held, Instruction, constant};
use circuits::{Bits, Circuit, less_unsigned, neg, or, select};
use ops::{Flags, Opcode, Width};
use rule_core::Function;
use std::alloc::{AllocError, Global};

/// The value of an operator: that of its instruction without flags, and poison where that has undefined behaviour.
pub(crate) fn blast_operator<C: Circuit>(
    alloc: Global,
    c: &mut C,
    op: Opcode,
    width: Width,
    left: &Held<C::Literal>,
    right: &Held<C::Literal>,
) -> Result<Held<C::Literal>, AllocError>
    requires width_left { length left.now.bits ≡ width }
    requires width_right { length right.now.bits ≡ width }
    requires own_left { IsOwn (C.has_literal c.old) left.now }
    requires own_right { IsOwn (C.has_literal c.old) right.now }
    ensures value { IfOk result (λ made. (inputs : Seq Bool) → C.admits c.old inputs →
        held_value (C.value c.new inputs) made
        ≡ value_given (instruction op no_flags width
        (held_value (C.value c.old inputs) left.now) (held_value (C.value c.old inputs) right.now))) }
    ensures width { IfOk result (λ made. length made.bits ≡ width) }
    ensures own { IfOk result (IsOwn (C.has_literal c.new)) }
    ensures adds { Adds C.State c.old c.new (opcode_gates op width + 1) }
{
    let what = Instruction::Binary(op, Flags::NONE);
    let Blasted {
        bits,
        poison,
        undefined,
    } = blast_pair(alloc, c, what, width, left, right)?;
    let poison = or(alloc, c, poison, undefined)?;
    Ok(Held { bits, poison })
}

/// The value of a function at an operand, which is poison where the operand is.
pub(crate) fn blast_function<C: Circuit>(
    alloc: Global,
    c: &mut C,
    function: Function,
    width: Width,
    operand: &Held<C::Literal>,
) -> Result<Held<C::Literal>, AllocError>
    requires width { length operand.now.bits ≡ width }
    requires own { IsOwn (C.has_literal c.old) operand.now }
    ensures value { IfOk result (λ made. (inputs : Seq Bool) → C.admits c.old inputs →
        held_value (C.value c.new inputs) made
        ≡ function_value function width (held_value (C.value c.old inputs) operand.now)) }
    ensures width { IfOk result (λ made. length made.bits ≡ width) }
    ensures own { IfOk result (IsOwn (C.has_literal c.new)) }
    ensures adds { Adds C.State c.old c.new
        (function_gates function width) }
{
    match function {
        Function::Negate => blast_with(alloc, c, Opcode::Sub, width, 0, operand),
        Function::Not => blast_with(alloc, c, Opcode::Xor, width, minus_one(width), operand),
        Function::Log2 => logarithm(alloc, c, operand),
        Function::Abs => absolute(alloc, c, width, operand),
    }
}

/// The value of an operator at a number and an operand.
fn blast_with<C: Circuit>(
    alloc: Global,
    c: &mut C,
    op: Opcode,
    width: Width,
    left: u64,
    right: &Held<C::Literal>,
) -> Result<Held<C::Literal>, AllocError>
    requires fits { left < 2 ^ width }
    requires width { length right.now.bits ≡ width }
    requires own { IsOwn (C.has_literal c.old) right.now }
    ensures value { IfOk result (λ made. (inputs : Seq Bool) → C.admits c.old inputs →
        held_value (C.value c.new inputs) made
        ≡ value_given (instruction op no_flags width
        (bits width left) (held_value (C.value c.old inputs) right.now))) }
    ensures width { IfOk result (λ made. length made.bits ≡ width) }
    ensures own { IfOk result (IsOwn (C.has_literal c.new)) }
    ensures adds { Adds C.State c.old c.new (opcode_gates op width + 1) }
{
    let left = number(alloc, c, width, left)?;
    blast_operator(alloc, c, op, width, &left, right)
}

/// The number that is -1 in two's complement.
fn minus_one(width: Width) -> u64
    ensures { result ≡ 2 ^ width - 1 }
{
    ((1u128 << width.bits()) - 1) as u64
}

/// The exponent of a power of two, and else poison.
fn logarithm<C: Circuit>(
    alloc: Global,
    c: &mut C,
    operand: &Held<C::Literal>,
) -> Result<Held<C::Literal>, AllocError>
    requires least { 1 ≤ length operand.now.bits }
    requires most { length operand.now.bits ≤ 64 }
    requires own { IsOwn (C.has_literal c.old) operand.now }
    ensures value { IfOk result (λ made. (inputs : Seq Bool) → C.admits c.old inputs →
        held_value (C.value c.new inputs) made
        ≡ function_value functions.Log2 (length operand.now.bits) (held_value (C.value c.old inputs) operand.now)) }
    ensures width { IfOk result (λ made. length made.bits ≡ length operand.now.bits) }
    ensures own { IfOk result (IsOwn (C.has_literal c.new)) }
    ensures adds { Adds C.State c.old c.new
        (function_gates functions.Log2 (length operand.now.bits)) }
{
    let found = blast_exponent(alloc, c, &operand.bits)?;
    let poison = or(alloc, c, operand.poison, c.not(found.exists))?;
    Ok(Held {
        bits: found.bits,
        poison,
    })
}

/// The absolute value of the operand.
fn absolute<C: Circuit>(
    alloc: Global,
    c: &mut C,
    width: Width,
    operand: &Held<C::Literal>,
) -> Result<Held<C::Literal>, AllocError>
    requires width { length operand.now.bits ≡ width }
    requires own { IsOwn (C.has_literal c.old) operand.now }
    ensures value { IfOk result (λ made. (inputs : Seq Bool) → C.admits c.old inputs →
        held_value (C.value c.new inputs) made
        ≡ function_value functions.Abs width (held_value (C.value c.old inputs) operand.now)) }
    ensures width { IfOk result (λ made. length made.bits ≡ width) }
    ensures own { IfOk result (IsOwn (C.has_literal c.new)) }
    ensures adds { Adds C.State c.old c.new
        (function_gates functions.Abs width) }
{
    let bits = without_sign(alloc, c, width, &operand.bits)?;
    Ok(Held {
        bits,
        poison: operand.poison,
    })
}

/// The word of the absolute value: the number itself, where it is below the least signed one, and else its negation.
fn without_sign<C: Circuit>(
    alloc: Global,
    c: &mut C,
    width: Width,
    word: &Bits<C::Literal>,
) -> Result<Bits<C::Literal>, AllocError>
    requires width { length word.now ≡ width }
    requires own { All (C.has_literal c.old) word.now }
    ensures number { IfOk result (λ made. (inputs : Seq Bool) → C.admits c.old inputs →
        number_of (C.value c.new inputs) made
        ≡ (if nat_lt (number_of (C.value c.old inputs) word.now) (least width)
        then number_of (C.value c.old inputs) word.now
        else 2 ^ width - number_of (C.value c.old inputs) word.now)) }
    ensures width { IfOk result (λ made. length made ≡ width) }
    ensures own { IfOk result (All (C.has_literal c.new)) }
    ensures adds { Adds C.State c.old c.new
        (function_gates functions.Abs width) }
{
    let is_below = is_below_least(alloc, c, width, word)?;
    let negated = neg(alloc, c, word)?;
    select(alloc, c, is_below, word.as_slice(), negated.as_slice())
}

/// Whether the number, read as unsigned, is below the least signed one, of which the highest bit alone is set.
fn is_below_least<C: Circuit>(
    alloc: Global,
    c: &mut C,
    width: Width,
    word: &Bits<C::Literal>,
) -> Result<C::Literal, AllocError>
    requires width { length word.now ≡ width }
    requires own { All (C.has_literal c.old) word.now }
    ensures value { IfOk result (λ below. (inputs : Seq Bool) → C.admits c.old inputs →
        C.value c.new inputs below ≡ nat_lt (number_of (C.value c.old inputs) word.now) (least width)) }
    ensures own { IfOk result (λ below. C.has_literal c.new below) }
    ensures adds { Adds C.State c.old c.new (comparison_gates width) }
{
    let least = constant(alloc, c, 1 << (width.bits() - 1), word.len())?;
    less_unsigned(alloc, c, word, &least)
}
