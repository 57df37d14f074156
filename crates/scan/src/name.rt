//! The rest of a line, as the name of a rule is written.

ghost use Rattle.std.specs.Prelude.{◌≡◌, ◌≤◌, length};
ghost use Rattle.std.specs.List.{list_any, prefix_len};
ghost use Rattle.scan.specs.Bytes as bytes;
ghost use Rattle.scan.specs.Names as names;

use crate::bytes::{is_bad, is_blank};

/// How many bytes there are before the first line feed or `;`.
#[tactic(auto, unfolding(crate::specs::Names::is_in_rest))]
fn rest_run(text: &[u8]) -> usize
    ensures { result ≡ prefix_len names.is_in_rest text.now }
{
    text.iter()
        .take_while(|byte| !matches!(**byte, b'\n' | b';'))
        .count()
}

/// The text from the place up to the end of its line or a comment.
pub(crate) fn rest_of_line(text: &[u8], place: usize) -> &[u8]
    requires { place ≤ length text.now }
    ensures value { result.now ≡ names.rest_of_line text.now place }
{
    let ahead = &text[place..];
    &ahead[..rest_run(ahead)]
}

/// Whether the text has a byte that is invalid outside comments.
pub(crate) fn has_bad(text: &[u8]) -> bool
    ensures { result ≡ list_any bytes.is_bad text.now }
{
    text.iter().any(|byte| is_bad(*byte))
}

pub(crate) fn blanks_before(text: &[u8]) -> usize
    ensures value { result ≡ names.blanks_before text.now }
    ensures within { result ≤ length text.now }
{
    text.iter().take_while(|byte| is_blank(**byte)).count()
}

pub(crate) fn blanks_behind(text: &[u8]) -> usize
    ensures value { result ≡ names.blanks_behind text.now }
    ensures within { result ≤ length text.now }
{
    text.iter()
        .rev()
        .take_while(|byte| is_blank(**byte))
        .count()
}
