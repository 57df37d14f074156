//! Signs and absolute values of words, read as signed numbers.
ghost use Rattle.std.specs.Prelude.{◌≡◌, ◌<◌, ◌-◌, slice_index_or, unsigned_abs, Bool, List as Seq, length, IfOk};
ghost use Rattle.std.specs.List.{All};
ghost use Rattle.circuits.specs.Circuit.{Adds};
ghost use Rattle.circuits.specs.Word.{number_of, signed};
ghost use Rattle.circ_muldiv.specs.Gates.{absolute_gates};

use circuits::{Bits, Circuit, neg, select};
use std::alloc::{AllocError, Global};

/// The highest bit of a word: where the word is read as signed, whether it is negative.
pub fn sign<L: Copy>(word: &Bits<L>) -> L
    requires { 0 < length word.now }
    ensures { result ≡ slice_index_or word.now (length word.now - 1) result }
{
    word.as_slice()[word.len() - 1]
}

/// The absolute value of a signed number of N bits, at least 1, in two's complement. It is at most 2^(N-1), so it fits
/// N bits, read as unsigned; that of the least number is the same word. It adds at most 6 N gates.
pub fn absolute<C: Circuit>(
    alloc: Global,
    c: &mut C,
    a: &Bits<C::Literal>,
) -> Result<Bits<C::Literal>, AllocError>
    requires width { 0 < length a.now }
    requires own { All (C.has_literal c.old) a.now }
    ensures own { IfOk result (All (C.has_literal c.new)) }
    ensures width { IfOk result (λ absolute. length absolute ≡ length a.now) }
    ensures number { IfOk result (λ absolute. (inputs : Seq Bool) → C.admits c.old inputs →
        number_of (C.value c.new inputs) absolute
        ≡ unsigned_abs (signed (length a.now) (number_of (C.value c.old inputs) a.now))) }
    ensures adds { Adds C.State c.old c.new
        (absolute_gates (length a.now)) }
{
    let negation = neg(alloc, c, a)?;
    select(alloc, c, sign(a), negation.as_slice(), a.as_slice())
}
