//! Quotients and remainders. (LLVM Language Reference, "Binary Operations".)
ghost use Rattle.std.specs.Prelude.{◌≡◌, ◌≢◌, ◌==◌, ◌+◌, ◌*◌, ◌/◌, ◌%◌, ◌^◌, ◌<◌, Bool, not, ◌&&◌, ◌||◌, if◌then◌else◌, List as Seq, length, IfOk};
ghost use Rattle.std.specs.List.{All};
ghost use Rattle.ops.specs.Division.{quotient, remainder};
ghost use Rattle.ops.specs.Integer.{signed as signed_number, residue, minus_one, least};
ghost use Rattle.ops.specs.Instruction.{instruction};
ghost use Rattle.circuits.specs.Circuit.{Adds};
ghost use Rattle.circuits.specs.Gates.{equality_gates};
ghost use Rattle.circuits.specs.Word.{number_of};
ghost use Rattle.blast_value.specs.Effect.{held_value, effect_of, IsOwn, IsOwnEffect};
ghost use Rattle.blast_value.specs.Families.{division_opcode, divided, is_signed};
ghost use Rattle.blast_value.specs.Gates.{opcode_gates, quotient_gates};

use crate::held::{Blasted, Held};
use crate::known::equals;
use circ_muldiv::{Divided, divide_signed, divide_unsigned};
use circuits::{Bits, Circuit, or};
use ops::{Flags, Width};
use std::alloc::{AllocError, Global};

/// The instructions that divide.
#[derive(Clone, Copy)]
pub(crate) enum Division {
    UDiv,
    SDiv,
    URem,
    SRem,
}

impl Division {
    /// Whether the operands are read as signed numbers.
    fn is_signed(self) -> bool
        ensures { result ≡ is_signed self }
    {
        match self {
            Division::UDiv | Division::URem => false,
            Division::SDiv | Division::SRem => true,
        }
    }
}

/// The effect of such an instruction: undefined behaviour where the divisor is 0 or poison, and, for signed numbers,
/// where it is -1 and the dividend the least number or poison; else poison where the dividend is, or where a remainder
/// is left that `exact` rules out.
pub(crate) fn divide<C: Circuit>(
    alloc: Global,
    c: &mut C,
    op: Division,
    flags: Flags,
    width: Width,
    a: &Held<C::Literal>,
    b: &Held<C::Literal>,
) -> Result<Blasted<C::Literal>, AllocError>
    requires width_a { length a.now.bits ≡ width }
    requires width_b { length b.now.bits ≡ width }
    requires own_a { IsOwn (C.has_literal c.old) a.now }
    requires own_b { IsOwn (C.has_literal c.old) b.now }
    ensures effect { IfOk result (λ made. (inputs : Seq Bool) → C.admits c.old inputs →
        effect_of (C.value c.new inputs) made
        ≡ instruction (division_opcode op) flags width
        (held_value (C.value c.old inputs) a.now) (held_value (C.value c.old inputs) b.now)) }
    ensures width { IfOk result (λ made. length made.bits ≡ width) }
    ensures own { IfOk result (IsOwnEffect (C.has_literal c.new)) }
    ensures adds { Adds C.State c.old c.new (opcode_gates (division_opcode op) width) }
{
    let undefined = has_no_quotient(alloc, c, op.is_signed(), width, a, b)?;
    let made = result(alloc, c, op, flags, width, &a.bits, &b.bits)?;
    let poison = or(alloc, c, a.poison, made.poison)?;
    Ok(Blasted {
        bits: made.bits,
        poison,
        undefined,
    })
}

/// Whether there is undefined behaviour: where the divisor is poison or 0, and for signed numbers also where the
/// quotient may not fit.
fn has_no_quotient<C: Circuit>(
    alloc: Global,
    c: &mut C,
    signed: bool,
    width: Width,
    a: &Held<C::Literal>,
    b: &Held<C::Literal>,
) -> Result<C::Literal, AllocError>
    requires width_a { length a.now.bits ≡ width }
    requires width_b { length b.now.bits ≡ width }
    requires own_a { IsOwn (C.has_literal c.old) a.now }
    requires own_b { IsOwn (C.has_literal c.old) b.now }
    ensures own { IfOk result (λ made. C.has_literal c.new made) }
    ensures value { IfOk result (λ made. (inputs : Seq Bool) → C.admits c.old inputs →
        C.value c.new inputs made
        ≡ ((C.value c.old inputs b.now.poison || (number_of (C.value c.old inputs) b.now.bits == 0))
        || (signed && ((number_of (C.value c.old inputs) b.now.bits == minus_one width)
        && (C.value c.old inputs a.now.poison || (number_of (C.value c.old inputs) a.now.bits == least width)))))) }
    ensures adds { Adds C.State c.old c.new
        (if signed then 3 * equality_gates width + 4 else equality_gates width + 1) }
{
    let zero = equals(alloc, c, &b.bits, 0)?;
    let by_nothing = or(alloc, c, b.poison, zero)?;
    if !signed {
        return Ok(by_nothing);
    }
    let too_large = may_be_too_large(alloc, c, width, a, b)?;
    or(alloc, c, by_nothing, too_large)
}

/// Whether the signed quotient may not fit N bits: where the dividend is poison or the least number, and the divisor is
/// -1.
fn may_be_too_large<C: Circuit>(
    alloc: Global,
    c: &mut C,
    width: Width,
    a: &Held<C::Literal>,
    b: &Held<C::Literal>,
) -> Result<C::Literal, AllocError>
    requires width_a { length a.now.bits ≡ width }
    requires width_b { length b.now.bits ≡ width }
    requires own_a { IsOwn (C.has_literal c.old) a.now }
    requires own_b { IsOwn (C.has_literal c.old) b.now }
    ensures own { IfOk result (λ made. C.has_literal c.new made) }
    ensures value { IfOk result (λ made. (inputs : Seq Bool) → C.admits c.old inputs →
        C.value c.new inputs made
        ≡ ((number_of (C.value c.old inputs) b.now.bits == minus_one width)
        && (C.value c.old inputs a.now.poison || (number_of (C.value c.old inputs) a.now.bits == least width)))) }
    ensures adds { Adds C.State c.old c.new (2 * equality_gates width + 2) }
{
    let by_minus_one = equals(alloc, c, &b.bits, minus_one(width))?;
    let of_least = equals(alloc, c, &a.bits, least(width))?;
    let dividend = or(alloc, c, a.poison, of_least)?;
    c.and(alloc, by_minus_one, dividend)
}

/// The number that is -1 in two's complement.
fn minus_one(width: Width) -> u64
    ensures value { result ≡ minus_one width }
    ensures fits { result < 2 ^ width }
{
    ((1u128 << width.bits()) - 1) as u64
}

/// The least number in two's complement.
pub(crate) fn least(width: Width) -> u64
    ensures value { result ≡ least width }
    ensures fits { result < 2 ^ width }
{
    1 << (width.bits() - 1)
}

/// A quotient or a remainder of two numbers; poison where a remainder is left that `exact` rules out. Division by 0
/// leaves it open.
fn result<C: Circuit>(
    alloc: Global,
    c: &mut C,
    op: Division,
    flags: Flags,
    width: Width,
    a: &Bits<C::Literal>,
    b: &Bits<C::Literal>,
) -> Result<Held<C::Literal>, AllocError>
    requires width_a { length a.now ≡ width }
    requires width_b { length b.now ≡ width }
    requires own_a { All (C.has_literal c.old) a.now }
    requires own_b { All (C.has_literal c.old) b.now }
    ensures value { IfOk result (λ made. (inputs : Seq Bool) → C.admits c.old inputs →
        number_of (C.value c.old inputs) b.now ≢ 0 →
        held_value (C.value c.new inputs) made
        ≡ divided op flags width (number_of (C.value c.old inputs) a.now) (number_of (C.value c.old inputs) b.now)) }
    ensures width { IfOk result (λ made. length made.bits ≡ width) }
    ensures own { IfOk result (IsOwn (C.has_literal c.new)) }
    ensures adds { Adds C.State c.old c.new (quotient_gates (is_signed op) width + equality_gates width) }
{
    let divided = quotient_and_remainder(alloc, c, op.is_signed(), a, b)?;
    match op {
        Division::UDiv | Division::SDiv => {
            let poison = is_left(alloc, c, flags.exact, &divided.remainder)?;
            Ok(Held {
                bits: divided.quotient,
                poison,
            })
        }
        Division::URem | Division::SRem => Ok(Held {
            bits: divided.remainder,
            poison: c.zero(),
        }),
    }
}

/// The quotient and the remainder of two numbers.
fn quotient_and_remainder<C: Circuit>(
    alloc: Global,
    c: &mut C,
    signed: bool,
    a: &Bits<C::Literal>,
    b: &Bits<C::Literal>,
) -> Result<Divided<C::Literal>, AllocError>
    requires width { 0 < length a.now }
    requires same_width { length b.now ≡ length a.now }
    requires own_a { All (C.has_literal c.old) a.now }
    requires own_b { All (C.has_literal c.old) b.now }
    ensures own_quotient { IfOk result (λ divided. All (C.has_literal c.new) divided.quotient) }
    ensures own_remainder { IfOk result (λ divided. All (C.has_literal c.new) divided.remainder) }
    ensures quotient_width { IfOk result (λ divided. length divided.quotient ≡ length a.now) }
    ensures remainder_width { IfOk result (λ divided. length divided.remainder ≡ length a.now) }
    ensures quotient { IfOk result (λ divided. (inputs : Seq Bool) → C.admits c.old inputs →
        let n = length a.now in
        let a = number_of (C.value c.old inputs) a.now in
        let b = number_of (C.value c.old inputs) b.now in
        b ≢ 0 →
        number_of (C.value c.new inputs) divided.quotient
        ≡ (if signed then residue n (quotient (signed_number n a) (signed_number n b)) else a / b)) }
    ensures remainder { IfOk result (λ divided. (inputs : Seq Bool) → C.admits c.old inputs →
        let n = length a.now in
        let a = number_of (C.value c.old inputs) a.now in
        let b = number_of (C.value c.old inputs) b.now in
        b ≢ 0 →
        number_of (C.value c.new inputs) divided.remainder
        ≡ (if signed then residue n (remainder (signed_number n a) (signed_number n b)) else a % b)) }
    ensures adds { Adds C.State c.old c.new (quotient_gates signed (length a.now)) }
{
    if signed {
        divide_signed(alloc, c, a, b)
    } else {
        divide_unsigned(alloc, c, a, b)
    }
}

/// Whether a remainder is left. Where that isn't asked, since `exact` isn't set, it is false.
fn is_left<C: Circuit>(
    alloc: Global,
    c: &mut C,
    asked: bool,
    remainder: &Bits<C::Literal>,
) -> Result<C::Literal, AllocError>
    requires { All (C.has_literal c.old) remainder.now }
    ensures own { IfOk result (λ left. C.has_literal c.new left) }
    ensures value { IfOk result (λ left. (inputs : Seq Bool) → C.admits c.old inputs →
        C.value c.new inputs left
        ≡ (asked && not (number_of (C.value c.old inputs) remainder.now == 0))) }
    ensures adds { Adds C.State c.old c.new (equality_gates (length remainder.now)) }
{
    if !asked {
        return Ok(c.zero());
    }
    let divides = equals(alloc, c, remainder, 0)?;
    Ok(c.not(divides))
}
