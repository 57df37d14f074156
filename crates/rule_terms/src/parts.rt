//! Parts that several members of a formula have.

ghost use Rattle.refusal.specs.Refusals.{Gives};
ghost use Rattle.rule_tokens.specs.Limits.{rule_limits};
ghost use Rattle.rule_tokens.specs.SeenTokens.{seen};
ghost use Rattle.rule_tokens.specs.Steps.{Reads};
ghost use Rattle.rule_terms.specs.FormulaReaders as reading;

use lists::Text;
use rule_tokens::{RuleError, RuleFault, RuleFaultKind, Token, name_within, unexpected};
use std::alloc::Global;

/// The most open parentheses and pending operators of one operand at a token.
pub(crate) const MOST_NESTED: u32 = 32;

/// One level of nesting more.
pub(crate) fn deeper(line: usize, nesting: u32) -> Result<u32, RuleFault>
    ensures { Reads (λ x. x) result (reading.deeper line nesting) }
{
    if nesting == 0 {
        let kind = RuleFaultKind::TooMany;
        Err(RuleFault { line, kind })
    } else {
        Ok(nesting - 1)
    }
}

/// A register.
pub(crate) fn register(
    alloc: Global,
    line: usize,
    tokens: &mut &[Token<'_>],
) -> Result<Text, RuleError>
    ensures { Gives (λ x. (x, seen tokens.new.now)) result (reading.register_at rule_limits line (seen tokens.old.now)) }
{
    match *tokens {
        [Token::Register(name), rest @ ..] => {
            *tokens = rest;
            name_within(alloc, line, name)
        }
        _ => Err(unexpected(line, *tokens).into()),
    }
}
