//! Addition, subtraction and negation of words, modulo a power of two.
ghost use Rattle.std.specs.Prelude.{◌≡◌, ◌+◌, ◌-◌, ◌%◌, ◌^◌, Bool, true, false, List as Seq, length, map, IfOk};
ghost use Rattle.std.specs.List.{All};
ghost use Rattle.circuits.specs.Circuit.{Adds};
ghost use Rattle.circuits.specs.Gates.{adder_gates};
ghost use Rattle.circuits.specs.Kleene.{certain, known_not};
ghost use Rattle.circuits.specs.KnownSum.{known_sum};
ghost use Rattle.circuits.specs.Word.{number_of};

use crate::adder::add_with_carry;
use crate::circuit::Circuit;
use crate::gates::Gates;
use crate::word::{Bits, inverted, repeated};
use std::alloc::{AllocError, Global};

/// The sum of two words of one width N, modulo 2^N. It adds at most 5 N gates.
pub fn add<C: Gates>(
    alloc: Global,
    c: &mut C,
    a: &Bits<C::Literal>,
    b: &Bits<C::Literal>,
) -> Result<Bits<C::Literal>, AllocError>
    requires same_width { length b.now ≡ length a.now }
    requires own_a { All (C.has_literal c.old) a.now }
    requires own_b { All (C.has_literal c.old) b.now }
    ensures own { IfOk result (All (C.has_literal c.new)) }
    ensures width { IfOk result (λ sum. length sum ≡ length a.now) }
    ensures number { IfOk result (λ sum. (inputs : Seq Bool) → C.admits c.old inputs →
        number_of (C.value c.new inputs) sum
        ≡ (number_of (C.value c.old inputs) a.now + number_of (C.value c.old inputs) b.now)
        % 2 ^ length a.now) }
    ensures known { IfOk result (λ sum. (inputs : Seq Bool) →
        map (C.known c.new inputs) sum
        ≡ known_sum (certain false) (map (C.known c.old inputs) a.now) (map (C.known c.old inputs) b.now)) }
    ensures adds { Adds C.State c.old c.new (adder_gates (length a.now)) }
{
    let first = c.zero();
    let sum = add_with_carry(alloc, c, a.as_slice(), b.as_slice(), first)?;
    Ok(sum.bits)
}

/// The difference of two words of one width N, modulo 2^N: `a + not b + 1`. It adds at most 5 N gates.
pub fn sub<C: Gates>(
    alloc: Global,
    c: &mut C,
    a: &Bits<C::Literal>,
    b: &Bits<C::Literal>,
) -> Result<Bits<C::Literal>, AllocError>
    requires same_width { length b.now ≡ length a.now }
    requires own_a { All (C.has_literal c.old) a.now }
    requires own_b { All (C.has_literal c.old) b.now }
    ensures own { IfOk result (All (C.has_literal c.new)) }
    ensures width { IfOk result (λ difference. length difference ≡ length a.now) }
    ensures number { IfOk result (λ difference. (inputs : Seq Bool) → C.admits c.old inputs →
        number_of (C.value c.new inputs) difference
        ≡ (number_of (C.value c.old inputs) a.now
        + (2 ^ length a.now - number_of (C.value c.old inputs) b.now)) % 2 ^ length a.now) }
    ensures known { IfOk result (λ difference. (inputs : Seq Bool) →
        map (C.known c.new inputs) difference
        ≡ known_sum (certain true) (map (C.known c.old inputs) a.now)
        (map known_not (map (C.known c.old inputs) b.now))) }
    ensures adds { Adds C.State c.old c.new (adder_gates (length a.now)) }
{
    let complement = inverted(alloc, c, b.as_slice())?;
    let first = c.one();
    let sum = add_with_carry(alloc, c, a.as_slice(), complement.as_slice(), first)?;
    Ok(sum.bits)
}

/// The negation of a word of width N, modulo 2^N: `0 + not a + 1`. It adds at most 5 N gates.
pub fn neg<C: Circuit>(
    alloc: Global,
    c: &mut C,
    a: &Bits<C::Literal>,
) -> Result<Bits<C::Literal>, AllocError>
    requires { All (C.has_literal c.old) a.now }
    ensures own { IfOk result (All (C.has_literal c.new)) }
    ensures width { IfOk result (λ negation. length negation ≡ length a.now) }
    ensures number { IfOk result (λ negation. (inputs : Seq Bool) → C.admits c.old inputs →
        number_of (C.value c.new inputs) negation
        ≡ (2 ^ length a.now - number_of (C.value c.old inputs) a.now) % 2 ^ length a.now) }
    ensures adds { Adds C.State c.old c.new (adder_gates (length a.now)) }
{
    let zeros = repeated(alloc, c.zero(), a.len())?;
    sub(alloc, c, &zeros, a)
}
