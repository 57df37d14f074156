//! The smaller and the larger of two words, as unsigned and as signed numbers.
ghost use Rattle.std.specs.Prelude.{◌≡◌, ◌<◌, Bool, List as Seq, length, IfOk};
ghost use Rattle.std.specs.List.{All};
ghost use Rattle.circuits.specs.Circuit.{Adds};
ghost use Rattle.circuits.specs.Extreme.{is_less, smaller, larger};
ghost use Rattle.circuits.specs.Gates.{comparison_gates, extreme_gates};
ghost use Rattle.circuits.specs.Word.{number_of};

use crate::circuit::Circuit;
use crate::compare::{less_signed, less_unsigned};
use crate::word::{Bits, select};
use std::alloc::{AllocError, Global};

/// The smaller of two words of one width N, at least 1, as unsigned numbers or as signed ones in two's complement. It
/// adds at most 3 N gates.
pub fn minimum<C: Circuit>(
    alloc: Global,
    c: &mut C,
    a: &Bits<C::Literal>,
    b: &Bits<C::Literal>,
    signed: bool,
) -> Result<Bits<C::Literal>, AllocError>
    requires width { 0 < length a.now }
    requires same_width { length b.now ≡ length a.now }
    requires own_a { All (C.has_literal c.old) a.now }
    requires own_b { All (C.has_literal c.old) b.now }
    ensures own { IfOk result (All (C.has_literal c.new)) }
    ensures width { IfOk result (λ minimum. length minimum ≡ length a.now) }
    ensures number { IfOk result (λ minimum. (inputs : Seq Bool) → C.admits c.old inputs →
        number_of (C.value c.new inputs) minimum
        ≡ smaller signed (length a.now) (number_of (C.value c.old inputs) a.now)
        (number_of (C.value c.old inputs) b.now)) }
    ensures adds { Adds C.State c.old c.new (extreme_gates (length a.now)) }
{
    let a_is_less = less(alloc, c, a, b, signed)?;
    select(alloc, c, a_is_less, a.as_slice(), b.as_slice())
}

/// The larger of two words of one width N, at least 1, as unsigned numbers or as signed ones in two's complement. It
/// adds at most 3 N gates.
pub fn maximum<C: Circuit>(
    alloc: Global,
    c: &mut C,
    a: &Bits<C::Literal>,
    b: &Bits<C::Literal>,
    signed: bool,
) -> Result<Bits<C::Literal>, AllocError>
    requires width { 0 < length a.now }
    requires same_width { length b.now ≡ length a.now }
    requires own_a { All (C.has_literal c.old) a.now }
    requires own_b { All (C.has_literal c.old) b.now }
    ensures own { IfOk result (All (C.has_literal c.new)) }
    ensures width { IfOk result (λ maximum. length maximum ≡ length a.now) }
    ensures number { IfOk result (λ maximum. (inputs : Seq Bool) → C.admits c.old inputs →
        number_of (C.value c.new inputs) maximum
        ≡ larger signed (length a.now) (number_of (C.value c.old inputs) a.now)
        (number_of (C.value c.old inputs) b.now)) }
    ensures adds { Adds C.State c.old c.new (extreme_gates (length a.now)) }
{
    let a_is_less = less(alloc, c, a, b, signed)?;
    select(alloc, c, a_is_less, b.as_slice(), a.as_slice())
}

/// Whether a word's number is below another's, both unsigned or both signed.
fn less<C: Circuit>(
    alloc: Global,
    c: &mut C,
    a: &Bits<C::Literal>,
    b: &Bits<C::Literal>,
    signed: bool,
) -> Result<C::Literal, AllocError>
    requires width { 0 < length a.now }
    requires same_width { length b.now ≡ length a.now }
    requires own_a { All (C.has_literal c.old) a.now }
    requires own_b { All (C.has_literal c.old) b.now }
    ensures own { IfOk result (λ less. C.has_literal c.new less) }
    ensures value { IfOk result (λ less. (inputs : Seq Bool) → C.admits c.old inputs →
        C.value c.new inputs less
        ≡ is_less signed (length a.now) (number_of (C.value c.old inputs) a.now)
        (number_of (C.value c.old inputs) b.now)) }
    ensures adds { Adds C.State c.old c.new (comparison_gates (length a.now)) }
{
    if signed {
        less_signed(alloc, c, a, b)
    } else {
        less_unsigned(alloc, c, a, b)
    }
}
