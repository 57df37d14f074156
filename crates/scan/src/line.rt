//! Line numbers.

ghost use Rattle.std.specs.Prelude.{◌≡◌, ◌≢◌, ◌<◌, ◌⊎◌, length, take};
ghost use Rattle.scan.specs.declared.rule_token.RuleKind.TheVariants as kinds;
ghost use Rattle.scan.specs.declared.ir.token.TokenKind.TheVariants as ir_kinds;
ghost use Rattle.scan.specs.IrTokens as ir;
ghost use Rattle.scan.specs.Lines as lines;
ghost use Rattle.scan.specs.RuleTokens.{line_at};

use crate::ir::token::TokenKind;
use crate::rule_token::RuleKind;

/// How many line feeds there are.
pub(crate) fn feeds(text: &[u8]) -> usize
    ensures { result ≡ lines.feeds text.now }
{
    text.iter().filter(|byte| **byte == b'\n').count()
}

/// Whether the last byte is a line feed.
fn ends_line(text: &[u8]) -> bool
    ensures { result ≡ lines.ends_line text.now }
{
    !text.is_empty() && text[text.len() - 1] == b'\n'
}

/// The line of a token that begins at `start`, behind so many line feeds.
pub(crate) fn token_line(kind: RuleKind, text: &[u8], start: usize, before: usize) -> usize
    requires before { before ≡ lines.feeds (take start text.now) }
    requires within { ((kind ≢ kinds.End) × (start < length text.now)) ⊎ ((kind ≡ kinds.End) × (start ≡ length text.now)) }
    ensures { result ≡ line_at kind text.now start }
{
    match kind {
        RuleKind::End if ends_line(text) => before,
        _ => before + 1,
    }
}

/// The same for a token of a module.
pub(crate) fn ir_token_line(kind: TokenKind, text: &[u8], start: usize, before: usize) -> usize
    requires before { before ≡ lines.feeds (take start text.now) }
    requires within { ((kind ≢ ir_kinds.End) × (start < length text.now)) ⊎ ((kind ≡ ir_kinds.End) × (start ≡ length text.now)) }
    ensures { result ≡ ir.line_at kind text.now start }
{
    match kind {
        TokenKind::End if ends_line(text) => before,
        _ => before + 1,
    }
}
