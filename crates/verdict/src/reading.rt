//! Values of words and effects of circuits over truth values.

ghost use Rattle.std.specs.Prelude.{◌≡◌, ◌≤◌, ◌<◌, ◌^◌, length, map, All, IfOk};
ghost use Rattle.circuits.specs.Word.{bit, number};
ghost use Rattle.blast_value.specs.Effect.{effect_of};
ghost use Rattle.blast_rule.specs.Parts.{number_held};
ghost use Rattle.verdict.specs.WideWords.{IsWide};

use blast_value::Blasted;
use circuits::Bits;
use lists::List;
use ops::{Effect, Value, Width, Word};
use std::alloc::{AllocError, Global};

/// The numbers of words.
pub(crate) fn words_read(alloc: Global, words: &[Bits<bool>]) -> Result<List<Word>, AllocError>
    requires { All IsWide words.now }
    ensures { IfOk result (λ numbers. numbers ≡ map (number_held (λ b. b)) words.now) }
{
    let mut numbers = List::new(alloc);
    for word in words {
        numbers.push(word_read(word.as_slice()))?;
    }
    Ok(numbers)
}

/// The effect that a circuit gives.
pub(crate) fn effect_read(made: &Blasted<bool>) -> Effect
    requires { IsWide made.now.bits }
    ensures { result ≡ effect_of (λ b. b) made.now }
{
    if made.undefined {
        Effect::Undefined
    } else if made.poison {
        Effect::Gives(Value::Poison)
    } else {
        Effect::Gives(Value::Bits(word_read(made.bits.as_slice())))
    }
}

/// The number of a word, whose lowest bit is first.
fn word_read(bits: &[bool]) -> Word
    requires { IsWide bits.now }
    ensures { result ≡ number_held (λ b. b) bits.now }
{
    let Some(width) = Width::new(bits.len() as u32) else {
        unreachable!();
    };
    Word::wrapped(width, number_read(bits))
}

/// The sum of the powers of two at the places of the true bits.
fn number_read(bits: &[bool]) -> u64
    requires { length bits.now ≤ 64 }
    ensures number { result ≡ number bits.now }
    ensures fits { result < 2 ^ length bits.now }
{
    let mut number = 0;
    for place in (0..bits.len()).rev() {
        number = 2 * number + digit(bits[place]);
    }
    number
}

/// A truth value as a binary digit.
fn digit(is_set: bool) -> u64
    ensures { result ≡ bit is_set }
{
    if is_set { 1 } else { 0 }
}
