//! Comparisons of words, as unsigned and as signed numbers.
ghost use Rattle.std.specs.Prelude.{◌≡◌, ◌==◌, nat_lt, int_lt, ◌+◌, ◌-◌, ◌^◌, ◌<◌, ◌%◌, Bool, not, ◌&&◌, if◌then◌else◌, List as Seq, length, IfOk};
ghost use Rattle.std.specs.Bool.{xor};
ghost use Rattle.std.specs.List.{All};
ghost use Rattle.circuits.specs.Circuit.{Adds};
ghost use Rattle.circuits.specs.Gates.{comparison_gates, equality_gates};
ghost use Rattle.circuits.specs.Word.{number_of, signed};

use crate::circuit::Circuit;
use crate::word::Bits;
use lists::List;
use std::alloc::{AllocError, Global};

/// Whether a word's number is below another's of the same width N. It adds at most 2 N gates.
pub fn less_unsigned<C: Circuit>(
    alloc: Global,
    c: &mut C,
    a: &Bits<C::Literal>,
    b: &Bits<C::Literal>,
) -> Result<C::Literal, AllocError>
    requires same_width { length b.now ≡ length a.now }
    requires own_a { All (C.has_literal c.old) a.now }
    requires own_b { All (C.has_literal c.old) b.now }
    ensures own { IfOk result (λ less. C.has_literal c.new less) }
    ensures value { IfOk result (λ less. (inputs : Seq Bool) → C.admits c.old inputs →
        C.value c.new inputs less
        ≡ nat_lt (number_of (C.value c.old inputs) a.now) (number_of (C.value c.old inputs) b.now)) }
    ensures adds { Adds C.State c.old c.new (comparison_gates (length a.now)) }
{
    let a = a.as_slice();
    let b = b.as_slice();
    let mut less = c.zero();
    for i in 0..a.len() {
        less = less_above(alloc, c, a[i], b[i], less)?;
    }
    Ok(less)
}

/// Whether a word whose highest bit is `x` is below one whose highest bit is `y`, where `less` says so of the bits
/// below: the highest bit in which two words differ decides.
fn less_above<C: Circuit>(
    alloc: Global,
    c: &mut C,
    x: C::Literal,
    y: C::Literal,
    less: C::Literal,
) -> Result<C::Literal, AllocError>
    requires own_x { C.has_literal c.old x }
    requires own_y { C.has_literal c.old y }
    requires own_less { C.has_literal c.old less }
    ensures own { IfOk result (λ made. C.has_literal c.new made) }
    ensures value { IfOk result (λ made. (inputs : Seq Bool) → C.admits c.old inputs →
        C.value c.new inputs made
        ≡ (if xor (C.value c.old inputs x) (C.value c.old inputs y)
        then C.value c.old inputs y else C.value c.old inputs less)) }
    ensures adds { Adds C.State c.old c.new 2 }
{
    let differ = c.xor(alloc, x, y)?;
    c.mux(alloc, differ, y, less)
}

/// Whether two words of one width N have one number. It adds at most 2 N gates.
pub fn equal<C: Circuit>(
    alloc: Global,
    c: &mut C,
    a: &Bits<C::Literal>,
    b: &Bits<C::Literal>,
) -> Result<C::Literal, AllocError>
    requires same_width { length b.now ≡ length a.now }
    requires own_a { All (C.has_literal c.old) a.now }
    requires own_b { All (C.has_literal c.old) b.now }
    ensures own { IfOk result (λ equal. C.has_literal c.new equal) }
    ensures value { IfOk result (λ equal. (inputs : Seq Bool) → C.admits c.old inputs →
        C.value c.new inputs equal
        ≡ (number_of (C.value c.old inputs) a.now == number_of (C.value c.old inputs) b.now)) }
    ensures adds { Adds C.State c.old c.new (equality_gates (length a.now)) }
{
    let a = a.as_slice();
    let b = b.as_slice();
    let mut same = c.one();
    for i in 0..a.len() {
        same = equal_above(alloc, c, a[i], b[i], same)?;
    }
    Ok(same)
}

/// Whether a word whose highest bit is `x` equals one whose highest bit is `y`, where `same` says so of the bits below.
fn equal_above<C: Circuit>(
    alloc: Global,
    c: &mut C,
    x: C::Literal,
    y: C::Literal,
    same: C::Literal,
) -> Result<C::Literal, AllocError>
    requires own_x { C.has_literal c.old x }
    requires own_y { C.has_literal c.old y }
    requires own_same { C.has_literal c.old same }
    ensures own { IfOk result (λ made. C.has_literal c.new made) }
    ensures value { IfOk result (λ made. (inputs : Seq Bool) → C.admits c.old inputs →
        C.value c.new inputs made
        ≡ (C.value c.old inputs same && not (xor (C.value c.old inputs x) (C.value c.old inputs y)))) }
    ensures adds { Adds C.State c.old c.new 2 }
{
    let differ = c.xor(alloc, x, y)?;
    c.and(alloc, same, c.not(differ))
}

/// Whether a word's signed number, in two's complement, is below another's of the same width N, at least 1. It adds at
/// most 2 N gates.
pub fn less_signed<C: Circuit>(
    alloc: Global,
    c: &mut C,
    a: &Bits<C::Literal>,
    b: &Bits<C::Literal>,
) -> Result<C::Literal, AllocError>
    requires width { 0 < length a.now }
    requires same_width { length b.now ≡ length a.now }
    requires own_a { All (C.has_literal c.old) a.now }
    requires own_b { All (C.has_literal c.old) b.now }
    ensures own { IfOk result (λ less. C.has_literal c.new less) }
    ensures value { IfOk result (λ less. (inputs : Seq Bool) → C.admits c.old inputs →
        C.value c.new inputs less
        ≡ int_lt (signed (length a.now) (number_of (C.value c.old inputs) a.now))
        (signed (length a.now) (number_of (C.value c.old inputs) b.now))) }
    ensures adds { Adds C.State c.old c.new (comparison_gates (length a.now)) }
{
    let raised_a = raised(alloc, c, a.as_slice())?;
    let raised_b = raised(alloc, c, b.as_slice())?;
    less_unsigned(alloc, c, &raised_a, &raised_b)
}

/// The word with its highest bit negated: its signed number, raised by 2^(N-1), is the number of the result.
fn raised<C: Circuit>(
    alloc: Global,
    c: &C,
    a: &[C::Literal],
) -> Result<Bits<C::Literal>, AllocError>
    requires width { 0 < length a.now }
    requires own { All (C.has_literal c.now) a.now }
    ensures own { IfOk result (All (C.has_literal c.now)) }
    ensures width { IfOk result (λ word. length word ≡ length a.now) }
    ensures number { IfOk result (λ word. (inputs : Seq Bool) → C.admits c.now inputs →
        number_of (C.value c.now inputs) word
        ≡ (number_of (C.value c.now inputs) a.now + 2 ^ (length a.now - 1)) % 2 ^ length a.now) }
{
    let top = a.len() - 1;
    let mut word = Vec::from_slice(alloc, &a[..top])?;
    word.push(c.not(a[top]))?;
    Ok(List::from_vec(word))
}
