//! Tokens that end a primary of a term.

ghost use Rattle.std.specs.Prelude.{◌≡◌};
ghost use Rattle.std.specs.List.{list_all};
ghost use Rattle.scan.specs.Bytes as bytes;
ghost use Rattle.scan.specs.RuleTokens as tokens;

use crate::begins::{begins_digit, behind};
use crate::bytes::is_digit;
use crate::rule_token::RuleKind;

fn all_digits(text: &[u8]) -> bool
    ensures { result ≡ list_all bytes.is_digit text.now }
{
    text.iter().all(|byte| is_digit(*byte))
}

/// Whether a word is a constant of a rule: `C`, and any number of digits.
fn is_constant(word: &[u8]) -> bool
    ensures { result ≡ tokens.is_constant word.now }
{
    match behind(word, b'C') {
        Some(digits) => all_digits(digits),
        None => false,
    }
}

/// Whether a word is the name of a choice of the target, as `Wit:` uses it: `t` and digits.
fn is_choice(word: &[u8]) -> bool
    ensures { result ≡ tokens.is_choice word.now }
{
    match behind(word, b't') {
        Some(digits) => begins_digit(digits) && all_digits(digits),
        None => false,
    }
}

/// Whether a token of this kind with these bytes ends a primary of a term: a register, a number, `)`, a constant, or a
/// choice of the target. A token behind it on its line is in an operator's place.
#[tactic(auto, unfolding(crate::specs::RuleTokens::ends_primary))]
pub fn ends_primary(kind: RuleKind, bytes: &[u8]) -> bool
    ensures { result ≡ tokens.ends_primary kind bytes.now }
{
    match kind {
        RuleKind::Register | RuleKind::Number => true,
        RuleKind::Word => is_constant(bytes) || is_choice(bytes),
        RuleKind::Mark => bytes == b")".as_slice(),
        RuleKind::End | RuleKind::Other | RuleKind::Head | RuleKind::Arrow => false,
    }
}
