//! Literals.

ghost use Rattle.std.specs.Prelude.{◌≡◌};
ghost use Rattle.ir_resolve.specs.FaultKinds.{literal_of};

use ir_tokens::RawValue;
use ops::Word;

/// The number that a literal spells, with its width.
pub(crate) fn literal(value: &RawValue) -> Option<Word>
    ensures { result ≡ literal_of value.now }
{
    match value {
        RawValue::Number(word) => Some(*word),
        RawValue::True => Some(Word::truth(true)),
        RawValue::False => Some(Word::truth(false)),
        RawValue::Register(_) | RawValue::Undef | RawValue::Poison => None,
    }
}
