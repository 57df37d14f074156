//! Tests of a token's bytes.

ghost use Rattle.std.specs.Prelude.{◌≡◌, ◌-◌, length, take, drop};
ghost use Rattle.std.specs.List.{list_all, list_any};
ghost use Rattle.std.specs.Str.{bytes_eq};
ghost use Rattle.scan.specs.Bytes as kinds;
ghost use Rattle.scan.specs.IrTokens as names;
ghost use Rattle.ir_tokens.specs.Numbers as numbers;

/// Whether the bytes are the wanted word.
pub(crate) fn is(bytes: &[u8], wanted: &str) -> bool
    ensures { result ≡ bytes_eq bytes.now wanted.now }
{
    bytes == wanted.as_bytes()
}

/// Whether the bytes are one of the words.
pub(crate) fn is_among(bytes: &[u8], words: &[&str]) -> bool
    ensures { result ≡ list_any (λ w. bytes_eq bytes.now w.now) words.now }
{
    words.iter().any(|wanted| is(bytes, wanted))
}

/// The bytes without the first.
pub(crate) fn without_first(bytes: &[u8]) -> &[u8]
    ensures { result.now ≡ drop 1 bytes.now }
{
    match bytes {
        [] => bytes,
        [_, rest @ ..] => rest,
    }
}

/// The bytes without the last.
pub(crate) fn without_last(bytes: &[u8]) -> &[u8]
    ensures { result.now ≡ take (length bytes.now - 1) bytes.now }
{
    match bytes {
        [] => bytes,
        [rest @ .., _] => rest,
    }
}

#[tactic(auto, unfolding(scan::specs::Bytes::is_digit))]
fn is_digit(byte: u8) -> bool
    ensures { result ≡ kinds.is_digit byte }
{
    byte.is_ascii_digit()
}

#[tactic(auto, unfolding(scan::specs::Bytes::is_letter))]
fn is_letter(byte: u8) -> bool
    ensures { result ≡ kinds.is_letter byte }
{
    byte.is_ascii_alphabetic()
}

/// Whether a plain name may begin with the byte.
#[tactic(auto, unfolding(scan::specs::Bytes::begins_name))]
fn begins_name(byte: u8) -> bool
    ensures { result ≡ kinds.begins_name byte }
{
    is_letter(byte) || matches!(byte, b'-' | b'$' | b'.' | b'_')
}

/// Whether the byte may stand in a plain name.
#[tactic(auto, unfolding(scan::specs::Bytes::is_name_byte))]
fn is_name_byte(byte: u8) -> bool
    ensures { result ≡ kinds.is_name_byte byte }
{
    begins_name(byte) || is_digit(byte)
}

fn all_digits(text: &[u8]) -> bool
    ensures { result ≡ list_all kinds.is_digit text.now }
{
    text.iter().all(|byte| is_digit(*byte))
}

fn all_name_bytes(text: &[u8]) -> bool
    ensures { result ≡ list_all kinds.is_name_byte text.now }
{
    text.iter().all(|byte| is_name_byte(*byte))
}

/// Whether the text is at least one digit and nothing else.
pub(crate) fn are_digits(text: &[u8]) -> bool
    ensures { result ≡ kinds.are_digits text.now }
{
    match text {
        [] => false,
        [_, ..] => all_digits(text),
    }
}

/// Whether the text is a number: at least one digit, maybe with a `-` before them.
#[tactic(auto, unfolding(crate::specs::Numbers::is_number, scan::specs::Bytes::is_digit))]
pub fn is_number(text: &[u8]) -> bool
    ensures { result ≡ numbers.is_number text.now }
{
    match text {
        [b'-', digits @ ..] => are_digits(digits),
        digits => are_digits(digits),
    }
}

/// Whether the text is a name that is written without quotes: letters, digits, `-`, `$`, `.` and `_`, not beginning
/// with a digit.
#[tactic(auto, unfolding(scan::specs::IrTokens::is_plain_name))]
pub fn is_plain_name(text: &[u8]) -> bool
    ensures { result ≡ names.is_plain_name text.now }
{
    match text {
        [] => false,
        [first, ..] => begins_name(*first) && all_name_bytes(text),
    }
}
