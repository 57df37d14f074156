//! Tests of the first byte of a text.

ghost use Rattle.std.specs.Prelude.{◌≡◌, ◌==◌, ◌∷◌, false, IfSome, IfNone};
ghost use Rattle.scan.specs.Bytes as bytes;
ghost use Rattle.scan.specs.Bytes.{begins_with};
ghost use Rattle.scan.specs.RuleTokens as tokens;

use crate::bytes::{
    begins_name, is_bad, is_blank, is_digit, is_letter, is_name_byte, is_word_start,
};

/// The text behind its first byte, if that is this byte.
pub(crate) fn behind(text: &[u8], byte: u8) -> Option<&[u8]>
    ensures some { IfSome result (λ rest. text.now ≡ byte ∷ rest.now) }
    ensures none { IfNone result (begins_with (λ b. b == byte) text.now ≡ false) }
{
    match text {
        [first, rest @ ..] if *first == byte => Some(rest),
        _ => None,
    }
}

/// Whether the text begins with the byte.
pub(crate) fn begins_byte(text: &[u8], byte: u8) -> bool
    ensures { result ≡ begins_with (λ b. b == byte) text.now }
{
    match text {
        [] => false,
        [first, ..] => *first == byte,
    }
}

/// Whether the text begins with a byte that is invalid outside comments and quotes.
pub(crate) fn begins_bad(text: &[u8]) -> bool
    ensures { result ≡ begins_with bytes.is_bad text.now }
{
    match text {
        [] => false,
        [first, ..] => is_bad(*first),
    }
}

/// Whether the text begins with a byte with which a word of a rule file may begin.
pub(crate) fn begins_word(text: &[u8]) -> bool
    ensures { result ≡ begins_with bytes.is_letter text.now }
{
    match text {
        [] => false,
        [first, ..] => is_letter(*first),
    }
}

/// Whether the text begins with a digit.
pub(crate) fn begins_digit(text: &[u8]) -> bool
    ensures { result ≡ begins_with bytes.is_digit text.now }
{
    match text {
        [] => false,
        [first, ..] => is_digit(*first),
    }
}

/// Whether the text begins with a byte that may stand in a name.
pub(crate) fn begins_name_byte(text: &[u8]) -> bool
    ensures { result ≡ begins_with bytes.is_name_byte text.now }
{
    match text {
        [] => false,
        [first, ..] => is_name_byte(*first),
    }
}

/// Whether the text begins with a byte with which a name may begin that is written without quotes and is no number.
pub(crate) fn begins_plain_name(text: &[u8]) -> bool
    ensures { result ≡ begins_with bytes.begins_name text.now }
{
    match text {
        [] => false,
        [first, ..] => begins_name(*first),
    }
}

/// Whether the text begins with a byte with which a word of a module may begin.
pub(crate) fn begins_module_word(text: &[u8]) -> bool
    ensures { result ≡ begins_with bytes.begins_word text.now }
{
    match text {
        [] => false,
        [first, ..] => is_word_start(*first),
    }
}

/// Whether the text begins with a blank or `(`, which make a `%` before them an operator.
pub(crate) fn begins_argument(text: &[u8]) -> bool
    ensures { result ≡ begins_with tokens.begins_argument text.now }
{
    match text {
        [] => false,
        [first, ..] => is_blank(*first) || *first == b'(',
    }
}
