//! Words made longer or shorter.
ghost use Rattle.std.specs.Prelude.{◌≡◌, ◌+◌, ◌-◌, ◌*◌, ◌%◌, ◌^◌, ◌≤◌, Bool, List as Seq, ◌++◌, replicate, take, length, IfOk};
ghost use Rattle.std.specs.List.{All};
ghost use Rattle.circuits.specs.Word.{bit, number_of};

use crate::gates::Gates;
use crate::word::Bits;
use lists::List;
use std::alloc::{AllocError, Global};

/// A word of `to` bits: those of a word of width N, and then `top` as often as they are fewer. It makes no gate.
pub fn extend<C: Gates>(
    alloc: Global,
    c: &mut C,
    a: &Bits<C::Literal>,
    to: usize,
    top: C::Literal,
) -> Result<Bits<C::Literal>, AllocError>
    requires wider { length a.now ≤ to }
    requires own_a { All (C.has_literal c.old) a.now }
    requires own_top { C.has_literal c.old top }
    ensures own { IfOk result (All (C.has_literal c.new)) }
    ensures bits { IfOk result (λ word. word ≡ a.now ++ replicate (to - length a.now) top) }
    ensures width { IfOk result (λ word. length word ≡ to) }
    ensures number { IfOk result (λ word. (inputs : Seq Bool) → C.admits c.old inputs →
        number_of (C.value c.new inputs) word
        ≡ number_of (C.value c.old inputs) a.now
        + bit (C.value c.old inputs top) * (2 ^ to - 2 ^ length a.now)) }
    ensures same { c.new ≡ c.old }
{
    let mut word = Vec::from_slice(alloc, a.as_slice())?;
    word.resize(to, top)?;
    Ok(List::from_vec(word))
}

/// The lowest `to` bits of a word: its number modulo 2^to. It makes no gate.
pub fn cut<C: Gates>(
    alloc: Global,
    c: &mut C,
    a: &Bits<C::Literal>,
    to: usize,
) -> Result<Bits<C::Literal>, AllocError>
    requires narrower { to ≤ length a.now }
    requires own { All (C.has_literal c.old) a.now }
    ensures own { IfOk result (All (C.has_literal c.new)) }
    ensures bits { IfOk result (λ word. word ≡ take to a.now) }
    ensures width { IfOk result (λ word. length word ≡ to) }
    ensures number { IfOk result (λ word. (inputs : Seq Bool) → C.admits c.old inputs →
        number_of (C.value c.new inputs) word ≡ number_of (C.value c.old inputs) a.now % 2 ^ to) }
    ensures same { c.new ≡ c.old }
{
    Ok(List::from_vec(Vec::from_slice(alloc, &a.as_slice()[..to])?))
}
