//! What a text that does not begin with a gap begins with: a token, its end, or a byte that begins no token.

ghost use Rattle.std.specs.Prelude.{◌≡◌, true, false, nat_lt, if◌then◌else◌, MatchOption};
ghost use Rattle.scan.specs.Bytes as bytes;
ghost use Rattle.scan.specs.Bytes.{begins_with};
ghost use Rattle.scan.specs.Longest.{IsLongestOf};
ghost use Rattle.scan.specs.RuleTokens.{kind_of, Begins};
ghost use Rattle.scan.specs.GapFronts.{in_gap};

use crate::begins::begins_bad;
use crate::length::{arrow, head, mark, number, register, word};
use crate::rule_token::RuleKind;

/// The longer of two prefixes of a text, the first one where they are equally long.
fn longer(first: (RuleKind, usize), second: (RuleKind, usize)) -> (RuleKind, usize)
    ensures { result ≡ (if nat_lt first.1 second.1 then second else first) }
{
    if first.1 < second.1 { second } else { first }
}

/// The longest token that the text begins with, of 0 bytes where it begins with none.
fn longest_token(text: &[u8], operator: bool) -> (RuleKind, usize)
    ensures { IsLongestOf (kind_of operator) text.now result.0 result.1 }
{
    let found = (RuleKind::Number, number(text, operator));
    let found = longer((RuleKind::Word, word(text)), found);
    let found = longer((RuleKind::Register, register(text)), found);
    let found = longer((RuleKind::Arrow, arrow(text)), found);
    let found = longer((RuleKind::Head, head(text)), found);
    longer((RuleKind::Mark, mark(text, operator)), found)
}

/// The kind and the length of what the text begins with; `None` where the first byte is invalid.
pub(crate) fn front(text: &[u8], operator: bool) -> Option<(RuleKind, usize)>
    requires { begins_with in_gap text.now ≡ false }
    ensures { MatchOption result (begins_with bytes.is_bad text.now ≡ true) (λ t. Begins operator text.now t.0 t.1) }
{
    if text.is_empty() {
        return Some((RuleKind::End, 0));
    }
    if begins_bad(text) {
        return None;
    }
    let found = longest_token(text, operator);
    if found.1 == 0 {
        Some((RuleKind::Other, 1))
    } else {
        Some(found)
    }
}
