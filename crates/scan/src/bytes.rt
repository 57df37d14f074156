//! Kinds of bytes.

ghost use Rattle.std.specs.Prelude.{◌≡◌};
ghost use Rattle.scan.specs.Bytes as bytes;
ghost use Rattle.scan.specs.Quoted.{is_quotable};

/// Whether a byte is a space, a tab or a carriage return.
#[tactic(auto, unfolding(crate::specs::Bytes::is_blank))]
pub(crate) fn is_blank(byte: u8) -> bool
    ensures { result ≡ bytes.is_blank byte }
{
    matches!(byte, b' ' | b'\t' | b'\r')
}

/// Whether a byte is a blank or a line feed.
#[tactic(auto, unfolding(crate::specs::Bytes::is_space))]
pub(crate) fn is_space(byte: u8) -> bool
    ensures { result ≡ bytes.is_space byte }
{
    is_blank(byte) || byte == b'\n'
}

#[tactic(auto, unfolding(crate::specs::Bytes::is_printable))]
fn is_printable(byte: u8) -> bool
    ensures { result ≡ bytes.is_printable byte }
{
    b' ' <= byte && byte <= b'~'
}

/// Whether a byte is invalid outside comments and quotes.
#[tactic(auto, unfolding(crate::specs::Bytes::is_bad))]
pub(crate) fn is_bad(byte: u8) -> bool
    ensures { result ≡ bytes.is_bad byte }
{
    !(is_printable(byte) || is_space(byte))
}

#[tactic(auto, unfolding(crate::specs::Bytes::is_digit))]
pub(crate) fn is_digit(byte: u8) -> bool
    ensures { result ≡ bytes.is_digit byte }
{
    byte.is_ascii_digit()
}

#[tactic(auto, unfolding(crate::specs::Bytes::is_letter))]
pub(crate) fn is_letter(byte: u8) -> bool
    ensures { result ≡ bytes.is_letter byte }
{
    byte.is_ascii_alphabetic()
}

/// Whether a name that is written without quotes may begin with the byte, if it is no number.
#[tactic(auto, unfolding(crate::specs::Bytes::begins_name))]
pub(crate) fn begins_name(byte: u8) -> bool
    ensures { result ≡ bytes.begins_name byte }
{
    is_letter(byte) || matches!(byte, b'-' | b'$' | b'.' | b'_')
}

/// Whether a word of a module may begin with the byte.
#[tactic(auto, unfolding(crate::specs::Bytes::begins_word))]
pub(crate) fn is_word_start(byte: u8) -> bool
    ensures { result ≡ bytes.begins_word byte }
{
    begins_name(byte) && byte != b'-'
}

/// Whether a byte may stand in a name. Lower-case letters are tested for first, since most bytes of names are such.
#[tactic(auto, unfolding(crate::specs::Bytes::is_name_byte, crate::specs::Bytes::begins_name, crate::specs::Bytes::is_letter))]
pub(crate) fn is_name_byte(byte: u8) -> bool
    ensures { result ≡ bytes.is_name_byte byte }
{
    byte.is_ascii_lowercase() || begins_name(byte) || is_digit(byte)
}

/// Whether a byte may stand in a word of a rule.
#[tactic(auto, unfolding(crate::specs::Bytes::is_word_byte))]
pub(crate) fn is_word_byte(byte: u8) -> bool
    ensures { result ≡ bytes.is_word_byte byte }
{
    is_letter(byte) || is_digit(byte) || byte == b'_'
}

/// Whether a byte may stand in a register of a rule.
#[tactic(auto, unfolding(crate::specs::Bytes::is_register_byte))]
pub(crate) fn is_register_byte(byte: u8) -> bool
    ensures { result ≡ bytes.is_register_byte byte }
{
    is_word_byte(byte) || byte == b'.'
}

/// Whether a byte may stand between quotes.
#[tactic(auto, unfolding(crate::specs::Quoted::is_quotable))]
pub(crate) fn is_quotable(byte: u8) -> bool
    ensures { result ≡ is_quotable byte }
{
    !matches!(byte, b'"' | b'\n')
}
