//! Words that may be items of a header or of a call.

ghost use Rattle.std.specs.Prelude.{◌≡◌};
ghost use Rattle.std.specs.List.{list_any};
ghost use Rattle.std.specs.Str.{bytes_eq};
ghost use Rattle.ir_instructions.specs.Items as items;

use crate::word::{TypeWord, type_of};
use ops::keywords::is;

/// Whether a word is one of these.
fn is_among(word: &[u8], words: &[&str]) -> bool
    ensures { result ≡ list_any (λ w. bytes_eq word.now w.now) words.now }
{
    words.iter().any(|wanted| is(word, wanted))
}

/// The types that are not supported; their names are no items either.
const LEFT_OUT_TYPES: [&str; 12] = [
    "void",
    "half",
    "bfloat",
    "float",
    "double",
    "fp128",
    "x86_fp80",
    "ppc_fp128",
    "ptr",
    "label",
    "token",
    "metadata",
];

/// Whether a word may be an item.
#[tactic(auto, unfolding(crate::specs::Items::is_item_word))]
pub(crate) fn is_item_word(word: &[u8]) -> bool
    ensures { result ≡ items.is_item_word word.now }
{
    match type_of(word) {
        TypeWord::Other => !is_among(word, &LEFT_OUT_TYPES),
        TypeWord::OutOfRange | TypeWord::Integer(_) => false,
    }
}
