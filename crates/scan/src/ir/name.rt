//! The length of the longest name that a text begins with: 0 where it begins with none.

ghost use Rattle.scan.specs.IrTokens as tokens;
ghost use Rattle.scan.specs.Longest.{IsLongest};
ghost use Rattle.scan.specs.Quoted as quoted;

use crate::begins::{begins_byte, begins_digit, begins_plain_name, behind};
use crate::run::{digit_run, name_run, quotable_run};

/// A quoted text, with its quotes.
pub(crate) fn quoted(text: &[u8]) -> usize
    ensures { IsLongest (λ bytes _. quoted.is_quoted bytes) text.now result }
{
    let Some(inner) = behind(text, b'"') else {
        return 0;
    };
    let run = quotable_run(inner);
    if begins_byte(&inner[run..], b'"') {
        run + 2
    } else {
        0
    }
}

/// A name of a label, a register or a function: plain, digits or quoted.
pub(crate) fn name(text: &[u8]) -> usize
    ensures { IsLongest (λ bytes _. tokens.is_name bytes) text.now result }
{
    if begins_digit(text) {
        digit_run(text)
    } else if begins_plain_name(text) {
        name_run(text)
    } else {
        quoted(text)
    }
}
