//! Stops at the token with which a rule passes the limit of operands, literals, names, operators and functions.

ghost use Rattle.std.specs.Prelude.{◌≡◌, IfOk};
ghost use Rattle.rule_parse.specs.CutTokens as spelled;
ghost use Rattle.rule_tokens.specs.SeenTokens.{seen, seen_token};

use ops::keywords::is;
use rule_terms::is_among;
use rule_tokens::Token;
use scan::{RuleKind, ends_primary};
use std::alloc::{AllocError, Global};

/// The most operands, literals, names, operators and functions of a rule.
const MOST_NODES: u32 = 256;

/// Whether a word is an operand, a function or a predicate of `Pre:`.
#[tactic(auto, unfolding(crate::specs::CutTokens::is_node_word))]
fn is_node_word(word: &[u8]) -> bool
    ensures { result ≡ spelled.is_node_word word.now }
{
    ends_primary(RuleKind::Word, word)
        || is_among(
            word,
            &[
                "true",
                "false",
                "undef",
                "width",
                "log2",
                "abs",
                "isPowerOf2",
                "isSignBit",
                "hasOneUse",
            ],
        )
}

/// Whether a token counts towards the limit; `begins` where it is the first of its line.
fn is_counted(begins: bool, token: &Token<'_>) -> bool
    ensures { result ≡ spelled.is_counted begins (seen_token token.now) }
{
    match token {
        Token::Register(_) => !begins,
        Token::Number(_) | Token::Fact(_) => true,
        Token::Word(word) => is_node_word(word),
        Token::Mark(mark) => !is_among(mark, &["=", ",", "(", ")"]),
        _ => false,
    }
}

/// Whether a rule begins with a token.
fn begins_rule(token: &Token<'_>) -> bool
    ensures { result ≡ spelled.begins_rule (seen_token token.now) }
{
    match token {
        Token::Head(head) => is(head, "Name:"),
        _ => false,
    }
}

/// Whether the token behind this one begins a line.
fn ends_before_line(token: &Token<'_>) -> bool
    ensures { result ≡ spelled.ends_before_line (seen_token token.now) }
{
    match token {
        Token::Line(_) => true,
        _ => false,
    }
}

/// The room that is left behind this token, of this room before it; `None` where it passes the limit.
fn room_behind(room: u32, begins: bool, token: &Token<'_>) -> Option<u32>
    ensures { result ≡ spelled.room_behind room begins (seen_token token.now) }
{
    if begins_rule(token) {
        Some(MOST_NODES)
    } else if is_counted(begins, token) {
        if room == 0 { None } else { Some(room - 1) }
    } else {
        Some(room)
    }
}

/// The tokens, or, where a rule has too many operands, literals, names, operators and functions, those up to and with
/// the one that passes the limit. `Excess` stands behind that one, so that it is refused by its own kind where it does
/// not fit.
pub(crate) fn limited<'a>(alloc: Global, tokens: &[Token<'a>]) -> Result<Vec<Token<'a>>, AllocError>
    ensures { IfOk result (λ kept. seen kept.items ≡ spelled.limited (seen tokens.now)) }
{
    let mut kept = Vec::new(alloc);
    let mut room = MOST_NODES;
    let mut begins = false;
    for token in tokens {
        kept.push(*token)?;
        let Some(left) = room_behind(room, begins, token) else {
            kept.push(Token::Excess)?;
            return Ok(kept);
        };
        room = left;
        begins = ends_before_line(token);
    }
    Ok(kept)
}
