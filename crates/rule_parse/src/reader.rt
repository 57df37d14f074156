//! The rules of a text as written.

ghost use Rattle.std.specs.Prelude.{IfOk, IfErr};
ghost use Rattle.rule_parse.specs.Text.{IsWritten, IsTextFault};
ghost use Rattle.refusal.specs.Refusals.{IfRefused, Gives};
ghost use Rattle.rule_parse.specs.RuleReaders as parsing;
ghost use Rattle.rule_tokens.specs.Limits.{rule_limits};
ghost use Rattle.rule_tokens.specs.SeenTokens.{seen};

use crate::excess::limited;
use crate::raw::RawRule;
use crate::rule::rules;
use crate::version::version;
use rule_tokens::{RuleError, Token, tokens_of};
use std::alloc::Global;

/// The rules of a file's tokens, or the first fault; `last` is the text's last line.
fn all_rules(alloc: Global, last: usize, tokens: &[Token<'_>]) -> Result<Vec<RawRule>, RuleError>
    ensures { Gives (λ x. x.items) result (parsing.all_rules rule_limits last (seen tokens.now)) }
{
    let mut rest = tokens;
    let version = version(alloc, &mut rest)?;
    rules(alloc, version, last, rest)
}

/// The rules of a text as they are written, in order, or its first fault. It takes as many steps as the text has bytes.
pub fn parse_rules(alloc: Global, bytes: &[u8]) -> Result<Vec<RawRule>, RuleError>
    ensures ok { IfOk result (λ raws. IsWritten bytes.now raws.items) }
    ensures refused { IfErr result (λ e. IfRefused e (IsTextFault bytes.now)) }
{
    let text = tokens_of(alloc, bytes)?;
    let tokens = limited(alloc, text.tokens.as_slice())?;
    all_rules(alloc, text.last_line, tokens.as_slice())
}
