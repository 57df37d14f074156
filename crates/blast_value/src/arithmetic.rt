//! Sums, differences and products. (LLVM Language Reference, "Binary Operations".)
ghost use Rattle.std.specs.Prelude.{◌≡◌, ◌<◌, Bool, not, ◌&&◌, pos, List as Seq, length, IfOk};
ghost use Rattle.std.specs.List.{All};
ghost use Rattle.ops.specs.Arithmetic.{arithmetic};
ghost use Rattle.ops.specs.Integer.{signed, residue};
ghost use Rattle.circuits.specs.Circuit.{Adds};
ghost use Rattle.circuits.specs.Word.{number_of};
ghost use Rattle.circ_muldiv.specs.Overflow.{fits, whole};
ghost use Rattle.blast_value.specs.Effect.{held_value, IsOwn};
ghost use Rattle.blast_value.specs.Families.{exact};
ghost use Rattle.blast_value.specs.Gates.{checked_gates, overflow_gates, result_gates};

use crate::held::Held;
use circ_muldiv::{multiply, overflow_add, overflow_mul, overflow_sub};
use circuits::{Bits, Circuit, add, or, sub};
use ops::{Flags, Width};
use std::alloc::{AllocError, Global};

/// The instructions that add, subtract or multiply.
#[derive(Clone, Copy)]
pub(crate) enum Arithmetic {
    Add,
    Sub,
    Mul,
}

/// The result at two numbers: modulo 2^N, and poison where it doesn't fit as a flag promises.
pub(crate) fn checked<C: Circuit>(
    alloc: Global,
    c: &mut C,
    op: Arithmetic,
    flags: Flags,
    width: Width,
    a: &Bits<C::Literal>,
    b: &Bits<C::Literal>,
) -> Result<Held<C::Literal>, AllocError>
    requires width_a { length a.now ≡ width }
    requires width_b { length b.now ≡ width }
    requires own_a { All (C.has_literal c.old) a.now }
    requires own_b { All (C.has_literal c.old) b.now }
    ensures value { IfOk result (λ made. (inputs : Seq Bool) → C.admits c.old inputs →
        let a = number_of (C.value c.old inputs) a.now in
        let b = number_of (C.value c.old inputs) b.now in
        held_value (C.value c.new inputs) made
        ≡ arithmetic flags width (exact op (pos a) (pos b)) (exact op (signed width a) (signed width b))) }
    ensures width { IfOk result (λ made. length made.bits ≡ width) }
    ensures own { IfOk result (IsOwn (C.has_literal c.new)) }
    ensures adds { Adds C.State c.old c.new (checked_gates op width) }
{
    let bits = wrapped(alloc, c, op, a, b)?;
    let wraps = overflows(alloc, c, flags.nuw, false, op, a, b)?;
    let wraps_signed = overflows(alloc, c, flags.nsw, true, op, a, b)?;
    let poison = or(alloc, c, wraps, wraps_signed)?;
    Ok(Held { bits, poison })
}

/// The result modulo 2^N.
fn wrapped<C: Circuit>(
    alloc: Global,
    c: &mut C,
    op: Arithmetic,
    a: &Bits<C::Literal>,
    b: &Bits<C::Literal>,
) -> Result<Bits<C::Literal>, AllocError>
    requires width { 0 < length a.now }
    requires same_width { length b.now ≡ length a.now }
    requires own_a { All (C.has_literal c.old) a.now }
    requires own_b { All (C.has_literal c.old) b.now }
    ensures own { IfOk result (All (C.has_literal c.new)) }
    ensures width { IfOk result (λ word. length word ≡ length a.now) }
    ensures number { IfOk result (λ word. (inputs : Seq Bool) → C.admits c.old inputs →
        number_of (C.value c.new inputs) word
        ≡ residue (length a.now) (exact op (pos (number_of (C.value c.old inputs) a.now))
        (pos (number_of (C.value c.old inputs) b.now)))) }
    ensures adds { Adds C.State c.old c.new (result_gates op (length a.now)) }
{
    match op {
        Arithmetic::Add => add(alloc, c, a, b),
        Arithmetic::Sub => sub(alloc, c, a, b),
        Arithmetic::Mul => multiply(alloc, c, a, b),
    }
}

/// Whether the result doesn't fit N bits, both operands read as signed or both as unsigned. Where that isn't asked,
/// since the flag isn't set, it is false.
fn overflows<C: Circuit>(
    alloc: Global,
    c: &mut C,
    asked: bool,
    signed: bool,
    op: Arithmetic,
    a: &Bits<C::Literal>,
    b: &Bits<C::Literal>,
) -> Result<C::Literal, AllocError>
    requires width { 0 < length a.now }
    requires same_width { length b.now ≡ length a.now }
    requires own_a { All (C.has_literal c.old) a.now }
    requires own_b { All (C.has_literal c.old) b.now }
    ensures own { IfOk result (λ overflow. C.has_literal c.new overflow) }
    ensures value { IfOk result (λ overflow. (inputs : Seq Bool) → C.admits c.old inputs →
        C.value c.new inputs overflow
        ≡ (asked && not (fits signed (length a.now) (exact op
        (whole signed (length a.now) (number_of (C.value c.old inputs) a.now))
        (whole signed (length a.now) (number_of (C.value c.old inputs) b.now)))))) }
    ensures adds { Adds C.State c.old c.new (overflow_gates signed op (length a.now)) }
{
    if !asked {
        return Ok(c.zero());
    }
    match op {
        Arithmetic::Add => overflow_add(alloc, c, a, b, signed),
        Arithmetic::Sub => overflow_sub(alloc, c, a, b, signed),
        Arithmetic::Mul => overflow_mul(alloc, c, a, b, signed),
    }
}
