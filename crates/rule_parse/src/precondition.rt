//! Preconditions from the tokens of a text.

ghost use Rattle.refusal.specs.Refusals.{Gives};
ghost use Rattle.rule_tokens.specs.SeenTokens.{seen};
ghost use Rattle.rule_parse.specs.RuleReaders as parsing;
ghost use Rattle.rule_tokens.specs.Limits.{rule_limits};

use crate::raw::RawPrecondition;
use ops::keywords::is;
use rule_terms::formula;
use rule_tokens::{RuleError, Token};
use std::alloc::Global;

/// Reads `Pre:` and its formula, if that is next.
#[tactic(auto, unfolding(crate::specs::RuleReaders::precondition_at))]
pub(crate) fn precondition(
    alloc: Global,
    tokens: &mut &[Token<'_>],
) -> Result<Option<RawPrecondition>, RuleError>
    ensures { Gives (λ x. (x, seen tokens.new.now)) result (parsing.precondition_at rule_limits (seen tokens.old.now)) }
{
    match *tokens {
        [Token::Line(line), Token::Head(head), rest @ ..] if is(head, "Pre:") => {
            *tokens = rest;
            let formula = formula(alloc, *line, tokens)?;
            Ok(Some(RawPrecondition {
                line: *line,
                formula,
            }))
        }
        _ => Ok(None),
    }
}
