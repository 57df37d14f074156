//! The bytes that quoted texts stand for.

ghost use Rattle.std.specs.Prelude.{◌≡◌, ◌∷◌, [], ◌<◌, ◌≤◌, ◌==◌, ◌+◌, ◌*◌, ◌&&◌, ◌↔◌, ℕ, List, true, false, IsTrue, IfSome, IfNone, length};
ghost use Rattle.std.specs.List.{list_any, position_or_len};
ghost use Rattle.scan.specs.IrTokens.{HoldsZero};
ghost use Rattle.scan.specs.Quoted as quoted;

use crate::begins::behind;

/// How many bytes there are before the first `"`.
fn before_quote(text: &[u8]) -> usize
    ensures value { result ≡ position_or_len (λ b. b == 34) text.now }
    ensures within { result ≤ length text.now }
{
    text.iter().take_while(|byte| **byte != b'"').count()
}

/// The bytes between the first two quotes; none where there are no two.
fn in_quotes(text: &[u8]) -> &[u8]
    ensures value { result.now ≡ quoted.in_quotes text.now }
{
    let opens = before_quote(text);
    if opens == text.len() {
        return &[];
    }
    let inner = &text[opens + 1..];
    &inner[..before_quote(inner)]
}

/// The value of a hexadecimal digit.
#[tactic(auto, unfolding(crate::specs::Quoted::is_hex, crate::specs::Quoted::hex_value, crate::specs::Bytes::is_digit))]
fn hex_digit(byte: u8) -> Option<u8>
    ensures some { IfSome result (λ digit. (quoted.is_hex byte ≡ true) × (digit ≡ quoted.hex_value byte) × (digit < 16)) }
    ensures none { IfNone result (quoted.is_hex byte ≡ false) }
{
    match byte {
        b'0'..=b'9' => Some(byte - b'0'),
        b'A'..=b'F' => Some(byte - b'A' + 10),
        b'a'..=b'f' => Some(byte - b'a' + 10),
        _ => None,
    }
}

/// The byte that two hexadecimal digits at the start of the text spell, and what follows them; `None` where the text
/// begins otherwise.
fn hex_byte(text: &[u8]) -> Option<(u8, &[u8])>
    ensures some { IfSome result (λ x. (b : ℕ) × (c : ℕ) × (quoted.is_hex b ≡ true) × (quoted.is_hex c ≡ true)
        × (text.now ≡ b ∷ c ∷ x.1.now) × (x.0 ≡ 16 * quoted.hex_value b + quoted.hex_value c)) }
    ensures none { IfNone result ((b c : ℕ) (rest : List ℕ) → text.now ≡ b ∷ c ∷ rest → (quoted.is_hex b && quoted.is_hex c) ≡ false) }
{
    let [high, low, rest @ ..] = text else {
        return None;
    };
    let high = hex_digit(*high)?;
    let low = hex_digit(*low)?;
    Some((16 * high + low, rest))
}

/// The first byte that the bytes between quotes stand for, and the bytes whose meaning follows; `None` where there are
/// none.
pub fn unescaped(text: &[u8]) -> Option<(u8, &[u8])>
    ensures some { IfSome result (λ x. (quoted.unquoted text.now ≡ x.0 ∷ quoted.unquoted x.1.now) × (length x.1.now < length text.now)) }
    ensures none { IfNone result (text.now ≡ []) }
{
    let [first, rest @ ..] = text else {
        return None;
    };
    if *first != b'\\' {
        return Some((*first, rest));
    }
    if let Some(behind) = behind(rest, b'\\') {
        return Some((b'\\', behind));
    }
    match hex_byte(rest) {
        Some((byte, behind)) => Some((byte, behind)),
        None => Some((b'\\', rest)),
    }
}

/// Whether one of the bytes that these bytes between quotes stand for is 0.
fn has_zero(inner: &[u8]) -> bool
    ensures { result ≡ list_any (λ b. b == 0) (quoted.unquoted inner.now) }
{
    let mut rest = inner;
    while let Some((byte, behind)) = unescaped(rest) {
        if byte == 0 {
            return true;
        }
        rest = behind;
    }
    false
}

/// Whether one of the bytes that the first quoted text of a token stands for is 0.
pub(crate) fn holds_zero(token: &[u8]) -> bool
    ensures { IsTrue result ↔ HoldsZero token.now }
{
    has_zero(in_quotes(token))
}
