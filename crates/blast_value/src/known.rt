//! Words of constants, and the test whether a word has a number.
ghost use Rattle.std.specs.Prelude.{◌≡◌, ◌==◌, ◌^◌, ◌<◌, Bool, List as Seq, length, IfOk};
ghost use Rattle.std.specs.List.{All};
ghost use Rattle.circuits.specs.Circuit.{Adds};
ghost use Rattle.circuits.specs.Gates.{equality_gates};
ghost use Rattle.circuits.specs.Word.{number_of};

use circuits::{Bits, Circuit, equal};
use lists::List;
use std::alloc::{AllocError, Global};

/// The word of a number, of constant literals. It makes no gate.
pub fn constant<C: Circuit>(
    alloc: Global,
    c: &C,
    number: u64,
    width: usize,
) -> Result<Bits<C::Literal>, AllocError>
    requires { number < 2 ^ width }
    ensures own { IfOk result (All (C.has_literal c.now)) }
    ensures width { IfOk result (λ word. length word ≡ width) }
    ensures number { IfOk result (λ word. (inputs : Seq Bool) → C.admits c.now inputs →
        number_of (C.value c.now inputs) word ≡ number) }
{
    let mut word = List::new(alloc);
    let mut rest = number;
    for _i in 0..width {
        word.push(truth(c, rest % 2 == 1))?;
        rest /= 2;
    }
    Ok(word)
}

/// The constant literal of a truth value.
fn truth<C: Circuit>(c: &C, holds: bool) -> C::Literal
    ensures own { C.has_literal c.now result }
    ensures value { (inputs : Seq Bool) → C.admits c.now inputs → C.value c.now inputs result ≡ holds }
{
    if holds { c.one() } else { c.zero() }
}

/// Whether a word of width N has this number. It adds at most 2 N gates.
pub fn equals<C: Circuit>(
    alloc: Global,
    c: &mut C,
    word: &Bits<C::Literal>,
    number: u64,
) -> Result<C::Literal, AllocError>
    requires number { number < 2 ^ length word.now }
    requires own { All (C.has_literal c.old) word.now }
    ensures own { IfOk result (λ equal. C.has_literal c.new equal) }
    ensures value { IfOk result (λ equal. (inputs : Seq Bool) → C.admits c.old inputs →
        C.value c.new inputs equal ≡ (number_of (C.value c.old inputs) word.now == number)) }
    ensures adds { Adds C.State c.old c.new (equality_gates (length word.now)) }
{
    let number = constant(alloc, c, number, word.len())?;
    equal(alloc, c, word, &number)
}
