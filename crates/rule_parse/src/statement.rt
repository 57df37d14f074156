//! One statement from the tokens of its line.

ghost use Rattle.refusal.specs.Refusals.{Gives};
ghost use Rattle.rule_parse.specs.RuleReaders as parsing;
ghost use Rattle.rule_tokens.specs.SeenTokens.{seen};
ghost use Rattle.rule_tokens.specs.Limits.{rule_limits};

use crate::half::Half;
use crate::op::op;
use crate::raw::RawStatement;
use rule_terms::mark;
use rule_tokens::{RuleError, Token, Version, name_within};
use std::alloc::Global;

/// Reads a statement, behind the register that it assigns.
#[tactic(auto, unfolding(crate::specs::RuleReaders::statement_at))]
pub(crate) fn statement(
    alloc: Global,
    version: Version,
    half: Half,
    line: usize,
    register: &[u8],
    tokens: &mut &[Token<'_>],
) -> Result<RawStatement, RuleError>
    ensures { Gives (λ x. (x, seen tokens.new.now)) result (parsing.statement_at rule_limits version half line register.now (seen tokens.old.now)) }
{
    let name = name_within(alloc, line, register)?;
    mark("=", line, tokens)?;
    let op = op(alloc, version, half, line, tokens)?;
    Ok(RawStatement { line, name, op })
}
