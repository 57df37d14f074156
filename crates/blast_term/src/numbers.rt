//! Numbers as literals.
ghost use Rattle.std.specs.Prelude.{◌≡◌, ◌^◌, ◌<◌, Bool, List as Seq, length, IfOk};
ghost use Rattle.std.specs.List.{All};
ghost use Rattle.ops.specs.Integer.{bits, residue};
ghost use Rattle.circuits.specs.Circuit.{Adds};
ghost use Rattle.circuits.specs.Gates.{select_gates};
ghost use Rattle.circuits.specs.Word.{number_of};
ghost use Rattle.rule_core.specs.Terms.{number_or_zero, within};
ghost use Rattle.blast_value.specs.Effect.{held_value, IsOwn};
ghost use Rattle.blast_value.specs.Words.{word_value};

use crate::scope::word_copied;
use blast_value::{Held, constant};
use circuits::{Bits, Circuit, repeated, select};
use ops::{Width, Word};
use std::alloc::{AllocError, Global};

/// The value that is this number, of constant literals. It makes no gate.
pub fn number<C: Circuit>(
    alloc: Global,
    c: &C,
    width: Width,
    number: u64,
) -> Result<Held<C::Literal>, AllocError>
    requires fits { number < 2 ^ width }
    ensures value { IfOk result (λ held. (inputs : Seq Bool) → C.admits c.now inputs →
        held_value (C.value c.now inputs) held ≡ bits width number) }
    ensures width { IfOk result (λ held. length held.bits ≡ width) }
    ensures own { IfOk result (IsOwn (C.has_literal c.now)) }
{
    let bits = constant(alloc, c, number, width.bits() as usize)?;
    Ok(valued(c, bits))
}

/// The value that is the number of a word: its poison bit is false.
pub(crate) fn valued<C: Circuit>(c: &C, bits: Bits<C::Literal>) -> Held<C::Literal>
    requires { All (C.has_literal c.now) bits }
    ensures value { (inputs : Seq Bool) → C.admits c.now inputs →
        held_value (C.value c.now inputs) result ≡ word_value (C.value c.now inputs) bits }
    ensures bits { result.bits ≡ bits }
    ensures own { IsOwn (C.has_literal c.now) result }
{
    Held {
        bits,
        poison: c.zero(),
    }
}

/// The value that is the number of a word, which is copied.
pub fn of_word<C: Circuit>(
    alloc: Global,
    c: &C,
    word: &Bits<C::Literal>,
) -> Result<Held<C::Literal>, AllocError>
    requires { All (C.has_literal c.now) word.now }
    ensures value { IfOk result (λ held. (inputs : Seq Bool) → C.admits c.now inputs →
        held_value (C.value c.now inputs) held ≡ word_value (C.value c.now inputs) word.now) }
    ensures bits { IfOk result (λ held. held.bits ≡ word.now) }
    ensures own { IfOk result (IsOwn (C.has_literal c.now)) }
{
    Ok(valued(c, word_copied(alloc, word)?))
}

/// The number of a value, which is 0 where the value is poison.
pub(crate) fn number_or_zero<C: Circuit>(
    alloc: Global,
    c: &mut C,
    held: &Held<C::Literal>,
) -> Result<Bits<C::Literal>, AllocError>
    requires { IsOwn (C.has_literal c.old) held.now }
    ensures number { IfOk result (λ word. (inputs : Seq Bool) → C.admits c.old inputs →
        number_of (C.value c.new inputs) word ≡ number_or_zero (held_value (C.value c.old inputs) held.now)) }
    ensures width { IfOk result (λ word. length word ≡ length held.now.bits) }
    ensures own { IfOk result (All (C.has_literal c.new)) }
    ensures adds { Adds C.State c.old c.new
        (select_gates (length held.now.bits)) }
{
    let zeros = repeated(alloc, c.zero(), held.bits.len())?;
    select(
        alloc,
        c,
        held.poison,
        zeros.as_slice(),
        held.bits.as_slice(),
    )
}

/// The value that is this number, if the number is one of `iN`, and else poison.
pub(crate) fn within<C: Circuit>(
    alloc: Global,
    c: &C,
    width: Width,
    number: u32,
) -> Result<Held<C::Literal>, AllocError>
    ensures value { IfOk result (λ held. (inputs : Seq Bool) → C.admits c.now inputs →
        held_value (C.value c.now inputs) held ≡ within width number) }
    ensures width { IfOk result (λ held. length held.bits ≡ width) }
    ensures own { IfOk result (IsOwn (C.has_literal c.now)) }
{
    match Word::new(width, u64::from(number)) {
        Some(word) => self::number(alloc, c, width, word.number()),
        None => Ok(Held {
            bits: repeated(alloc, c.zero(), width.bits() as usize)?,
            poison: c.one(),
        }),
    }
}

/// A literal of a rule, a whole number, modulo 2^N.
#[tactic(auto, unfolding(ops::specs::Integer::residue))]
pub fn residue(width: Width, literal: i128) -> u64
    ensures residue { result ≡ residue width literal }
    ensures fits { result < 2 ^ width }
{
    let modulus = (1u128 << width.bits()) as i128;
    literal.rem_euclid(modulus) as u64
}
