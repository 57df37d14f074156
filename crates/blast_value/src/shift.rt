//! Shifts. (LLVM Language Reference, "Bitwise Binary Operations".)
ghost use Rattle.std.specs.Prelude.{◌≡◌, ◌==◌, nat_le, ◌+◌, ◌-◌, ◌*◌, ◌%◌, ◌^◌, ◌<◌, Bool, not, ◌&&◌, List as Seq, length, IfOk};
ghost use Rattle.std.specs.List.{All};
ghost use Rattle.ops.specs.Shifts.{shl};
ghost use Rattle.circuits.specs.Circuit.{Adds};
ghost use Rattle.circuits.specs.Gates.{comparison_gates, equality_gates, shift_gates};
ghost use Rattle.circuits.specs.Word.{number_of};
ghost use Rattle.blast_value.specs.Effect.{held_value, IsOwn};
ghost use Rattle.blast_value.specs.Families.{floor, moved_back};
ghost use Rattle.blast_value.specs.Gates.{left_gates, right_gates};

use crate::held::Held;
use crate::known::constant;
use circ_muldiv::sign;
use circuits::{Bits, Circuit, equal, less_unsigned, or, shift_left, shift_right};
use ops::{Flags, Width};
use std::alloc::{AllocError, Global};

/// `shl`: the number times 2^b, modulo 2^N; poison where b is not below N, and where what is shifted out breaks a flag.
pub(crate) fn moved_left<C: Circuit>(
    alloc: Global,
    c: &mut C,
    flags: Flags,
    width: Width,
    a: &Bits<C::Literal>,
    b: &Bits<C::Literal>,
) -> Result<Held<C::Literal>, AllocError>
    requires width_a { length a.now ≡ width }
    requires width_b { length b.now ≡ width }
    requires own_a { All (C.has_literal c.old) a.now }
    requires own_b { All (C.has_literal c.old) b.now }
    ensures value { IfOk result (λ made. (inputs : Seq Bool) → C.admits c.old inputs →
        held_value (C.value c.new inputs) made
        ≡ shl flags width (number_of (C.value c.old inputs) a.now) (number_of (C.value c.old inputs) b.now)) }
    ensures width { IfOk result (λ made. length made.bits ≡ width) }
    ensures own { IfOk result (IsOwn (C.has_literal c.new)) }
    ensures adds { Adds C.State c.old c.new (left_gates width) }
{
    let is_far = is_too_far(alloc, c, width, b)?;
    let bits = shift_left(alloc, c, a, b)?;
    let wraps = loses(alloc, c, flags.nuw, false, a, &bits, b)?;
    let wraps_signed = loses(alloc, c, flags.nsw, true, a, &bits, b)?;
    let breaks = or(alloc, c, wraps, wraps_signed)?;
    let poison = or(alloc, c, is_far, breaks)?;
    Ok(Held { bits, poison })
}

/// The bit that comes in above a word when it is shifted right or extended: its highest bit where it is read as signed,
/// and else 0.
pub(crate) fn sign_where<C: Circuit>(c: &C, signed: bool, word: &Bits<C::Literal>) -> C::Literal
    requires width { 0 < length word.now }
    requires own { All (C.has_literal c.now) word.now }
    ensures own { C.has_literal c.now result }
    ensures value { (inputs : Seq Bool) → C.admits c.now inputs →
        C.value c.now inputs result
        ≡ (signed && nat_le (2 ^ (length word.now - 1)) (number_of (C.value c.now inputs) word.now)) }
{
    if signed { sign(word) } else { c.zero() }
}

/// Whether shifting a word back to the right, unsigned or signed, gives another number than before. Where that isn't
/// asked, since the flag isn't set, it is false.
fn loses<C: Circuit>(
    alloc: Global,
    c: &mut C,
    asked: bool,
    signed: bool,
    before: &Bits<C::Literal>,
    shifted: &Bits<C::Literal>,
    amount: &Bits<C::Literal>,
) -> Result<C::Literal, AllocError>
    requires some { 0 < length before.now }
    requires width { length shifted.now ≡ length before.now }
    requires width_amount { length amount.now ≡ length before.now }
    requires own_before { All (C.has_literal c.old) before.now }
    requires own_shifted { All (C.has_literal c.old) shifted.now }
    requires own_amount { All (C.has_literal c.old) amount.now }
    ensures own { IfOk result (λ made. C.has_literal c.new made) }
    ensures value { IfOk result (λ made. (inputs : Seq Bool) → C.admits c.old inputs →
        let n = number_of (C.value c.old inputs) shifted.now in
        let amount = number_of (C.value c.old inputs) amount.now in
        C.value c.new inputs made
        ≡ (asked && not (moved_back signed (length before.now) n amount
        == number_of (C.value c.old inputs) before.now))) }
    ensures adds { Adds C.State c.old c.new
        (shift_gates (length before.now) (length before.now) + equality_gates (length before.now)) }
{
    if !asked {
        return Ok(c.zero());
    }
    let top = sign_where(c, signed, shifted);
    let back = shift_right(alloc, c, shifted, amount, top)?;
    let same = equal(alloc, c, &back, before)?;
    Ok(c.not(same))
}

/// `lshr` and `ashr`: the floor of the number, or of the signed number, by 2^b; poison where b is not below N, and
/// where a true bit is shifted out that `exact` rules out.
pub(crate) fn moved_right<C: Circuit>(
    alloc: Global,
    c: &mut C,
    exact: bool,
    signed: bool,
    width: Width,
    a: &Bits<C::Literal>,
    b: &Bits<C::Literal>,
) -> Result<Held<C::Literal>, AllocError>
    requires width_a { length a.now ≡ width }
    requires width_b { length b.now ≡ width }
    requires own_a { All (C.has_literal c.old) a.now }
    requires own_b { All (C.has_literal c.old) b.now }
    ensures value { IfOk result (λ made. (inputs : Seq Bool) → C.admits c.old inputs →
        held_value (C.value c.new inputs) made
        ≡ floor exact signed width (number_of (C.value c.old inputs) a.now) (number_of (C.value c.old inputs) b.now)) }
    ensures width { IfOk result (λ made. length made.bits ≡ width) }
    ensures own { IfOk result (IsOwn (C.has_literal c.new)) }
    ensures adds { Adds C.State c.old c.new (right_gates width) }
{
    let is_far = is_too_far(alloc, c, width, b)?;
    let top = sign_where(c, signed, a);
    let bits = shift_right(alloc, c, a, b, top)?;
    let lost = cuts(alloc, c, exact, a, &bits, b)?;
    let poison = or(alloc, c, is_far, lost)?;
    Ok(Held { bits, poison })
}

/// Whether shifting a word back to the left gives another number than before. Where that isn't asked, since `exact`
/// isn't set, it is false.
fn cuts<C: Circuit>(
    alloc: Global,
    c: &mut C,
    asked: bool,
    before: &Bits<C::Literal>,
    shifted: &Bits<C::Literal>,
    amount: &Bits<C::Literal>,
) -> Result<C::Literal, AllocError>
    requires width { length shifted.now ≡ length before.now }
    requires width_amount { length amount.now ≡ length before.now }
    requires own_before { All (C.has_literal c.old) before.now }
    requires own_shifted { All (C.has_literal c.old) shifted.now }
    requires own_amount { All (C.has_literal c.old) amount.now }
    ensures own { IfOk result (λ made. C.has_literal c.new made) }
    ensures value { IfOk result (λ made. (inputs : Seq Bool) → C.admits c.old inputs →
        C.value c.new inputs made
        ≡ (asked && not ((number_of (C.value c.old inputs) shifted.now * 2 ^ number_of (C.value c.old inputs) amount.now)
        % 2 ^ length before.now == number_of (C.value c.old inputs) before.now))) }
    ensures adds { Adds C.State c.old c.new
        (shift_gates (length before.now) (length before.now) + equality_gates (length before.now)) }
{
    if !asked {
        return Ok(c.zero());
    }
    let back = shift_left(alloc, c, shifted, amount)?;
    let same = equal(alloc, c, &back, before)?;
    Ok(c.not(same))
}

/// Whether a shift's amount is not below N.
fn is_too_far<C: Circuit>(
    alloc: Global,
    c: &mut C,
    width: Width,
    amount: &Bits<C::Literal>,
) -> Result<C::Literal, AllocError>
    requires width { length amount.now ≡ width }
    requires own { All (C.has_literal c.old) amount.now }
    ensures own { IfOk result (λ made. C.has_literal c.new made) }
    ensures value { IfOk result (λ made. (inputs : Seq Bool) → C.admits c.old inputs →
        C.value c.new inputs made ≡ nat_le width (number_of (C.value c.old inputs) amount.now)) }
    ensures adds { Adds C.State c.old c.new (comparison_gates width) }
{
    let limit = constant(alloc, c, u64::from(width.bits()), amount.len())?;
    let below = less_unsigned(alloc, c, amount, &limit)?;
    Ok(c.not(below))
}
