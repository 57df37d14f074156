//! For each kind of token, the length of the longest one that a text begins with: 0 where it begins with none.

ghost use Rattle.std.specs.Prelude.{◌≡◌, [], ◌∷◌};
ghost use Rattle.scan.specs.IrTokens as tokens;
ghost use Rattle.scan.specs.Longest.{IsLongest};
ghost use Rattle.scan.specs.RuleTokens.{is_among};

use crate::begins::{begins_byte, behind};
use crate::ir::name::name;
use crate::length::number as literal;
use crate::run::{digit_run, name_run};

/// A name, and `:` behind it.
pub(crate) fn label(text: &[u8]) -> usize
    ensures { IsLongest (λ bytes _. tokens.is_label bytes) text.now result }
{
    let name = name(text);
    if name > 0 && begins_byte(&text[name..], b':') {
        name + 1
    } else {
        0
    }
}

/// Digits, maybe behind a `-`, where no byte of a name follows.
pub(crate) fn number(text: &[u8]) -> usize
    ensures { IsLongest tokens.is_number text.now result }
{
    let run = name_run(text);
    if literal(text, false) == run { run } else { 0 }
}

#[tactic(auto, unfolding(crate::specs::IrTokens::is_register))]
pub(crate) fn register(text: &[u8]) -> usize
    ensures { IsLongest (λ bytes _. tokens.is_register bytes) text.now result }
{
    named(text, b'%')
}

#[tactic(auto, unfolding(crate::specs::IrTokens::is_function))]
pub(crate) fn function(text: &[u8]) -> usize
    ensures { IsLongest (λ bytes _. tokens.is_function bytes) text.now result }
{
    named(text, b'@')
}

/// The mark, and a name behind it.
fn named(text: &[u8], mark: u8) -> usize
    ensures { IsLongest (λ bytes _. tokens.is_behind mark tokens.is_name bytes) text.now result }
{
    let Some(behind) = behind(text, mark) else {
        return 0;
    };
    let name = name(behind);
    if name == 0 { 0 } else { name + 1 }
}

/// `#` and digits.
pub(crate) fn group(text: &[u8]) -> usize
    ensures { IsLongest (λ bytes _. tokens.is_group bytes) text.now result }
{
    let Some(digits) = behind(text, b'#') else {
        return 0;
    };
    let run = digit_run(digits);
    if run == 0 { 0 } else { run + 1 }
}

/// `!`, and any number of bytes of names.
pub(crate) fn metadata(text: &[u8]) -> usize
    ensures { IsLongest (λ bytes _. tokens.is_metadata bytes) text.now result }
{
    match behind(text, b'!') {
        Some(name) => name_run(name) + 1,
        None => 0,
    }
}

/// Whether the byte by itself is a mark.
fn is_mark(byte: u8) -> bool
    ensures { result ≡ is_among tokens.marks (byte ∷ []) }
{
    matches!(
        byte,
        b'=' | b',' | b'(' | b')' | b'{' | b'}' | b'[' | b']' | b'<' | b'#'
    )
}

/// A mark; `#` before digits is one, but a longer token begins with it.
pub(crate) fn mark(text: &[u8]) -> usize
    ensures { IsLongest (λ bytes _. is_among tokens.marks bytes) text.now result }
{
    match text {
        [first, ..] if is_mark(*first) => 1,
        _ => 0,
    }
}
