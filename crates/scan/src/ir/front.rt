//! What a module's text that does not begin with a gap begins with: a token, its end, or a byte that begins no token.

ghost use Rattle.std.specs.Prelude.{◌≡◌, ◌⊎◌, ◌≤◌, ◌==◌, ◌||◌, true, false, take, drop, IfSome, IfNone, OnSome};
ghost use Rattle.std.specs.List.{list_all};
ghost use Rattle.scan.specs.Bytes as bytes;
ghost use Rattle.scan.specs.Bytes.{begins_with};
ghost use Rattle.scan.specs.IrTokens.{IsLongestFront, Begins, BeginsBadly, HoldsZero};
ghost use Rattle.scan.specs.Quoted.{is_quotable};
ghost use Rattle.scan.specs.GapFronts.{in_gap};

use crate::begins::{begins_bad, begins_byte, begins_module_word, begins_name_byte};
use crate::ir::length::{function, group, label, mark, metadata, number, register};
use crate::ir::name::{name, quoted};
use crate::ir::quoted::holds_zero;
use crate::ir::token::TokenKind;

/// The longer of two prefixes of a text, the first one where they are equally long.
fn longer(first: (TokenKind, usize), second: (TokenKind, usize)) -> (TokenKind, usize)
    ensures one { (result ≡ first) ⊎ (result ≡ second) }
    ensures first { first.1 ≤ result.1 }
    ensures second { second.1 ≤ result.1 }
{
    if first.1 < second.1 { second } else { first }
}

/// The longest label, word or number at the start of a text whose first byte may stand in a name, of 0 bytes where
/// there is none. It is as long as the longest name there, but for the `:` of a label.
fn plain_token(text: &[u8]) -> (TokenKind, usize)
    requires { begins_with bytes.is_name_byte text.now ≡ true }
    ensures longest { IsLongestFront text.now result.0 result.1 }
    ensures plain { list_all is_quotable (take result.1 text.now) ≡ true }
{
    let name = name(text);
    if name > 0 && begins_byte(&text[name..], b':') {
        (TokenKind::Label, name + 1)
    } else if begins_module_word(text) {
        (TokenKind::Word, name)
    } else {
        (TokenKind::Number, number(text))
    }
}

/// The longest label or quoted text at the start of a text whose first byte is a quote, of 0 bytes where there is none.
fn quoted_token(text: &[u8]) -> (TokenKind, usize)
    requires { begins_with (λ b. b == 34) text.now ≡ true }
    ensures { IsLongestFront text.now result.0 result.1 }
{
    longer(
        (TokenKind::Label, label(text)),
        (TokenKind::Quoted, quoted(text)),
    )
}

/// The longest token at the start of a text whose first byte is no quote and may not stand in a name, of 0 bytes where
/// there is none.
fn marked_token(text: &[u8]) -> (TokenKind, usize)
    requires no_name { begins_with bytes.is_name_byte text.now ≡ false }
    requires no_quote { begins_with (λ b. b == 34) text.now ≡ false }
    ensures { IsLongestFront text.now result.0 result.1 }
{
    if begins_byte(text, b'%') {
        (TokenKind::Register, register(text))
    } else if begins_byte(text, b'@') {
        (TokenKind::Function, function(text))
    } else if begins_byte(text, b'!') {
        (TokenKind::Metadata, metadata(text))
    } else if begins_byte(text, b'#') {
        longer(
            (TokenKind::Group, group(text)),
            (TokenKind::Mark, mark(text)),
        )
    } else {
        (TokenKind::Mark, mark(text))
    }
}

/// The longest token at the start of a text whose first byte may not stand in a name, of 0 bytes where there is none.
fn other_token(text: &[u8]) -> (TokenKind, usize)
    requires { begins_with bytes.is_name_byte text.now ≡ false }
    ensures { IsLongestFront text.now result.0 result.1 }
{
    if begins_byte(text, b'"') {
        quoted_token(text)
    } else {
        marked_token(text)
    }
}

/// Whether one of the first two bytes is a quote. Only then can a token have quotes whose first byte may not stand in a
/// name.
fn has_early_quote(text: &[u8]) -> bool
    ensures { result ≡ (begins_with (λ b. b == 34) text.now || begins_with (λ b. b == 34) (drop 1 text.now)) }
{
    match text {
        [] => false,
        [first, rest @ ..] => *first == b'"' || begins_byte(rest, b'"'),
    }
}

/// The longest token at the start of the text, of 0 bytes where there is none; `None` where the first byte is invalid,
/// or the token has a quoted text with a byte 0.
fn longest_token(text: &[u8]) -> Option<(TokenKind, usize)>
    ensures bad { IfNone result (BeginsBadly text.now) }
    ensures good { OnSome result (begins_with bytes.is_bad text.now ≡ false) }
    ensures token { IfSome result (λ t. IsLongestFront text.now t.0 t.1) }
    ensures no_zero { IfSome result (λ t. ¬ HoldsZero (take t.1 text.now)) }
{
    if begins_name_byte(text) {
        return Some(plain_token(text));
    }
    if begins_bad(text) {
        return None;
    }
    let found = other_token(text);
    if has_early_quote(text) && holds_zero(&text[..found.1]) {
        None
    } else {
        Some(found)
    }
}

/// The kind and the length of what the text begins with; `None` where the first byte is invalid, or the token has a
/// quoted text with a byte 0.
pub(crate) fn front(text: &[u8]) -> Option<(TokenKind, usize)>
    requires { begins_with in_gap text.now ≡ false }
    ensures bad { IfNone result (BeginsBadly text.now) }
    ensures token { IfSome result (λ t. Begins text.now t.0 t.1) }
    ensures no_zero { IfSome result (λ t. ¬ HoldsZero (take t.1 text.now)) }
{
    if text.is_empty() {
        return Some((TokenKind::End, 0));
    }
    let found = longest_token(text)?;
    if found.1 == 0 {
        Some((TokenKind::Other, 1))
    } else {
        Some(found)
    }
}
