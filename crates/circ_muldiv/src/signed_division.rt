//! Quotients and remainders of words that are read as signed.
ghost use Rattle.std.specs.Prelude.{◌≡◌, ◌≢◌, ◌+◌, ◌-◌, ◌*◌, ◌/◌, ◌%◌, ◌^◌, ◌<◌, unsigned_abs, Bool, if◌then◌else◌, List as Seq, length, IfOk};
ghost use Rattle.std.specs.List.{All};
ghost use Rattle.circuits.specs.Circuit.{Adds};
ghost use Rattle.circuits.specs.Word.{number_of, signed};
ghost use Rattle.circ_muldiv.specs.Gates.{absolute_gates, division_gates, signed_division_gates};
ghost use Rattle.circ_muldiv.specs.Division.{quotient, remainder, residue};

use crate::division::{Divided, divide_unsigned};
use crate::signs::{absolute, sign};
use circuits::{Bits, Circuit, neg, select};
use std::alloc::{AllocError, Global};

/// The quotient and the remainder of two words of one width N, at least 1, read as signed in two's complement. Both are
/// modulo 2^N, so that the least number by -1 gives the least number and 0. Division by 0 leaves both words open. It
/// adds at most 6 N^2 + 29 N + 1 gates.
pub fn divide_signed<C: Circuit>(
    alloc: Global,
    c: &mut C,
    a: &Bits<C::Literal>,
    b: &Bits<C::Literal>,
) -> Result<Divided<C::Literal>, AllocError>
    requires width { 0 < length a.now }
    requires same_width { length b.now ≡ length a.now }
    requires own_a { All (C.has_literal c.old) a.now }
    requires own_b { All (C.has_literal c.old) b.now }
    ensures own_quotient { IfOk result (λ divided. All (C.has_literal c.new) divided.quotient) }
    ensures own_remainder { IfOk result (λ divided. All (C.has_literal c.new) divided.remainder) }
    ensures quotient_width { IfOk result (λ divided. length divided.quotient ≡ length a.now) }
    ensures remainder_width { IfOk result (λ divided. length divided.remainder ≡ length a.now) }
    ensures quotient { IfOk result (λ divided. (inputs : Seq Bool) → C.admits c.old inputs →
        number_of (C.value c.old inputs) b.now ≢ 0 →
        number_of (C.value c.new inputs) divided.quotient
        ≡ residue (length a.now) (quotient (signed (length a.now) (number_of (C.value c.old inputs) a.now))
        (signed (length a.now) (number_of (C.value c.old inputs) b.now)))) }
    ensures remainder { IfOk result (λ divided. (inputs : Seq Bool) → C.admits c.old inputs →
        number_of (C.value c.old inputs) b.now ≢ 0 →
        number_of (C.value c.new inputs) divided.remainder
        ≡ residue (length a.now) (remainder (signed (length a.now) (number_of (C.value c.old inputs) a.now))
        (signed (length a.now) (number_of (C.value c.old inputs) b.now)))) }
    ensures adds { Adds C.State c.old c.new
        (signed_division_gates (length a.now)) }
{
    let divided = divide_absolute(alloc, c, a, b)?;
    let sign_a = sign(a);
    let sign_b = sign(b);
    let differ = c.xor(alloc, sign_a, sign_b)?;
    let quotient = negated_where(alloc, c, differ, &divided.quotient)?;
    let remainder = negated_where(alloc, c, sign_a, &divided.remainder)?;
    Ok(Divided {
        quotient,
        remainder,
    })
}

/// The quotient and the remainder of the absolute values of two words that are read as signed.
fn divide_absolute<C: Circuit>(
    alloc: Global,
    c: &mut C,
    a: &Bits<C::Literal>,
    b: &Bits<C::Literal>,
) -> Result<Divided<C::Literal>, AllocError>
    requires width { 0 < length a.now }
    requires same_width { length b.now ≡ length a.now }
    requires own_a { All (C.has_literal c.old) a.now }
    requires own_b { All (C.has_literal c.old) b.now }
    ensures own_quotient { IfOk result (λ divided. All (C.has_literal c.new) divided.quotient) }
    ensures own_remainder { IfOk result (λ divided. All (C.has_literal c.new) divided.remainder) }
    ensures quotient_width { IfOk result (λ divided. length divided.quotient ≡ length a.now) }
    ensures remainder_width { IfOk result (λ divided. length divided.remainder ≡ length a.now) }
    ensures quotient { IfOk result (λ divided. (inputs : Seq Bool) → C.admits c.old inputs →
        number_of (C.value c.old inputs) b.now ≢ 0 →
        number_of (C.value c.new inputs) divided.quotient
        ≡ unsigned_abs (signed (length a.now) (number_of (C.value c.old inputs) a.now))
        / unsigned_abs (signed (length a.now) (number_of (C.value c.old inputs) b.now))) }
    ensures remainder { IfOk result (λ divided. (inputs : Seq Bool) → C.admits c.old inputs →
        number_of (C.value c.old inputs) b.now ≢ 0 →
        number_of (C.value c.new inputs) divided.remainder
        ≡ unsigned_abs (signed (length a.now) (number_of (C.value c.old inputs) a.now))
        % unsigned_abs (signed (length a.now) (number_of (C.value c.old inputs) b.now))) }
    ensures adds { Adds C.State c.old c.new
        (2 * absolute_gates (length a.now) + division_gates (length a.now)) }
{
    let absolute_a = absolute(alloc, c, a)?;
    let absolute_b = absolute(alloc, c, b)?;
    divide_unsigned(alloc, c, &absolute_a, &absolute_b)
}

/// The negation of a word, modulo 2^N, where `negative` is true, and else the word.
fn negated_where<C: Circuit>(
    alloc: Global,
    c: &mut C,
    negative: C::Literal,
    word: &Bits<C::Literal>,
) -> Result<Bits<C::Literal>, AllocError>
    requires own_negative { C.has_literal c.old negative }
    requires own_word { All (C.has_literal c.old) word.now }
    ensures own { IfOk result (All (C.has_literal c.new)) }
    ensures width { IfOk result (λ made. length made ≡ length word.now) }
    ensures number { IfOk result (λ made. (inputs : Seq Bool) → C.admits c.old inputs →
        let n = number_of (C.value c.old inputs) word.now in
        number_of (C.value c.new inputs) made
        ≡ (if C.value c.old inputs negative then (2 ^ length word.now - n) % 2 ^ length word.now else n)) }
    ensures adds { Adds C.State c.old c.new
        (absolute_gates (length word.now)) }
{
    let negation = neg(alloc, c, word)?;
    select(alloc, c, negative, negation.as_slice(), word.as_slice())
}
