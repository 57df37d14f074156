//! Whether exact sums, differences and products fit the width of their words.
ghost use Rattle.std.specs.Prelude.{◌≡◌, ◌+ℤ◌, ◌-ℤ◌, ◌*ℤ◌, ◌-◌, ◌^◌, ◌<◌, Bool, true, not, ◌&&◌, if◌then◌else◌, List as Seq, length, IfOk};
ghost use Rattle.std.specs.Bool.{xor};
ghost use Rattle.std.specs.List.{All};
ghost use Rattle.circuits.specs.Circuit.{Adds};
ghost use Rattle.circuits.specs.Word.{number_of};
ghost use Rattle.circ_muldiv.specs.Gates.{overflow_add_gates, overflow_mul_gates};
ghost use Rattle.circ_muldiv.specs.Overflow.{fits, whole};

use crate::product::multiply_with_overflow;
use crate::signs::{absolute, sign};
use circuits::{Bits, Circuit, add_with_carry, less_unsigned, or, repeated, sub};
use std::alloc::{AllocError, Global};

/// Whether the sum of two words of one width N, both read as signed or both as unsigned, doesn't fit N bits. It adds at
/// most 5 N + 3 gates.
pub fn overflow_add<C: Circuit>(
    alloc: Global,
    c: &mut C,
    a: &Bits<C::Literal>,
    b: &Bits<C::Literal>,
    signed: bool,
) -> Result<C::Literal, AllocError>
    requires width { 0 < length a.now }
    requires same_width { length b.now ≡ length a.now }
    requires own_a { All (C.has_literal c.old) a.now }
    requires own_b { All (C.has_literal c.old) b.now }
    ensures own { IfOk result (λ overflow. C.has_literal c.new overflow) }
    ensures value { IfOk result (λ overflow. (inputs : Seq Bool) → C.admits c.old inputs →
        C.value c.new inputs overflow
        ≡ not (fits signed (length a.now)
        (whole signed (length a.now) (number_of (C.value c.old inputs) a.now)
        +ℤ whole signed (length a.now) (number_of (C.value c.old inputs) b.now)))) }
    ensures adds { Adds C.State c.old c.new
        (overflow_add_gates (length a.now)) }
{
    let first = c.zero();
    let sum = add_with_carry(alloc, c, a.as_slice(), b.as_slice(), first)?;
    if signed {
        differs_from_both(alloc, c, sign(&sum.bits), sign(a), sign(b))
    } else {
        Ok(sum.carry)
    }
}

/// Whether the difference of two words of one width N, both read as signed or both as unsigned, doesn't fit N bits. It
/// adds at most 5 N + 3 gates.
pub fn overflow_sub<C: Circuit>(
    alloc: Global,
    c: &mut C,
    a: &Bits<C::Literal>,
    b: &Bits<C::Literal>,
    signed: bool,
) -> Result<C::Literal, AllocError>
    requires width { 0 < length a.now }
    requires same_width { length b.now ≡ length a.now }
    requires own_a { All (C.has_literal c.old) a.now }
    requires own_b { All (C.has_literal c.old) b.now }
    ensures own { IfOk result (λ overflow. C.has_literal c.new overflow) }
    ensures value { IfOk result (λ overflow. (inputs : Seq Bool) → C.admits c.old inputs →
        C.value c.new inputs overflow
        ≡ not (fits signed (length a.now)
        (whole signed (length a.now) (number_of (C.value c.old inputs) a.now)
        -ℤ whole signed (length a.now) (number_of (C.value c.old inputs) b.now)))) }
    ensures adds { Adds C.State c.old c.new
        (overflow_add_gates (length a.now)) }
{
    if signed {
        let difference = sub(alloc, c, a, b)?;
        differs_from_both(alloc, c, sign(a), sign(b), sign(&difference))
    } else {
        less_unsigned(alloc, c, a, b)
    }
}

/// Whether the product of two words of one width N, both read as signed or both as unsigned, doesn't fit N bits. It
/// adds at most 3 N^2 + 16 N - 2 gates, unsigned 3 N^2 + 2 N - 4.
pub fn overflow_mul<C: Circuit>(
    alloc: Global,
    c: &mut C,
    a: &Bits<C::Literal>,
    b: &Bits<C::Literal>,
    signed: bool,
) -> Result<C::Literal, AllocError>
    requires width { 0 < length a.now }
    requires same_width { length b.now ≡ length a.now }
    requires own_a { All (C.has_literal c.old) a.now }
    requires own_b { All (C.has_literal c.old) b.now }
    ensures own { IfOk result (λ overflow. C.has_literal c.new overflow) }
    ensures value { IfOk result (λ overflow. (inputs : Seq Bool) → C.admits c.old inputs →
        C.value c.new inputs overflow
        ≡ not (fits signed (length a.now)
        (whole signed (length a.now) (number_of (C.value c.old inputs) a.now)
        *ℤ whole signed (length a.now) (number_of (C.value c.old inputs) b.now)))) }
    ensures adds { Adds C.State c.old c.new
        (overflow_mul_gates signed (length a.now)) }
{
    if signed {
        overflow_mul_signed(alloc, c, a, b)
    } else {
        let product = multiply_with_overflow(alloc, c, a.as_slice(), b.as_slice())?;
        Ok(product.overflow)
    }
}

/// Whether the signed product of two words of one width N doesn't fit N bits: whether the product of the absolute
/// values is greater than 2^(N-1) - 1, or, where the signs differ, than 2^(N-1).
fn overflow_mul_signed<C: Circuit>(
    alloc: Global,
    c: &mut C,
    a: &Bits<C::Literal>,
    b: &Bits<C::Literal>,
) -> Result<C::Literal, AllocError>
    requires width { 0 < length a.now }
    requires same_width { length b.now ≡ length a.now }
    requires own_a { All (C.has_literal c.old) a.now }
    requires own_b { All (C.has_literal c.old) b.now }
    ensures own { IfOk result (λ overflow. C.has_literal c.new overflow) }
    ensures value { IfOk result (λ overflow. (inputs : Seq Bool) → C.admits c.old inputs →
        C.value c.new inputs overflow
        ≡ not (fits true (length a.now)
        (whole true (length a.now) (number_of (C.value c.old inputs) a.now)
        *ℤ whole true (length a.now) (number_of (C.value c.old inputs) b.now)))) }
    ensures adds { Adds C.State c.old c.new
        (overflow_mul_gates true (length a.now)) }
{
    let absolute_a = absolute(alloc, c, a)?;
    let absolute_b = absolute(alloc, c, b)?;
    let product = multiply_with_overflow(alloc, c, absolute_a.as_slice(), absolute_b.as_slice())?;
    let differ = c.xor(alloc, sign(a), sign(b))?;
    let greatest = greatest(alloc, c, differ, a.len())?;
    let exceeds = less_unsigned(alloc, c, &greatest, &product.bits)?;
    or(alloc, c, product.overflow, exceeds)
}

/// The greatest absolute value that a signed number of N bits can have: 2^(N-1) where it is negative, and else 2^(N-1)
/// - 1. It makes no gate.
fn greatest<C: Circuit>(
    alloc: Global,
    c: &C,
    negative: C::Literal,
    width: usize,
) -> Result<Bits<C::Literal>, AllocError>
    requires width { 0 < width }
    requires own { C.has_literal c.now negative }
    ensures own { IfOk result (All (C.has_literal c.now)) }
    ensures width { IfOk result (λ greatest. length greatest ≡ width) }
    ensures number { IfOk result (λ greatest. (inputs : Seq Bool) → C.admits c.now inputs →
        number_of (C.value c.now inputs) greatest
        ≡ (if C.value c.now inputs negative then 2 ^ (width - 1) else 2 ^ (width - 1) - 1)) }
{
    let mut greatest = repeated(alloc, c.not(negative), width - 1)?;
    greatest.push(negative)?;
    Ok(greatest)
}

/// Whether a literal differs from each of two others.
fn differs_from_both<C: Circuit>(
    alloc: Global,
    c: &mut C,
    x: C::Literal,
    y: C::Literal,
    z: C::Literal,
) -> Result<C::Literal, AllocError>
    requires own_x { C.has_literal c.old x }
    requires own_y { C.has_literal c.old y }
    requires own_z { C.has_literal c.old z }
    ensures own { IfOk result (λ made. C.has_literal c.new made) }
    ensures value { IfOk result (λ made. (inputs : Seq Bool) → C.admits c.old inputs →
        C.value c.new inputs made
        ≡ (xor (C.value c.old inputs x) (C.value c.old inputs y)
        && xor (C.value c.old inputs x) (C.value c.old inputs z))) }
    ensures adds { Adds C.State c.old c.new 3 }
{
    let from_y = c.xor(alloc, x, y)?;
    let from_z = c.xor(alloc, x, z)?;
    c.and(alloc, from_y, from_z)
}
