//! The ends of lines.

ghost use Rattle.rule_tokens.specs.PartReaders as reading;
ghost use Rattle.rule_tokens.specs.SeenTokens.{seen};
ghost use Rattle.rule_tokens.specs.Steps.{Reads};

use crate::fault::RuleFault;
use crate::token::Token;
use crate::token_fault::unexpected;

/// Checks that no token is left on the line, where what was read before is no operand.
pub fn line_end(line: usize, tokens: &[Token<'_>]) -> Result<(), RuleFault>
    ensures { Reads (λ _. seen tokens.now) result (reading.line_end line (seen tokens.now)) }
{
    match tokens {
        [] | [Token::Line(_), ..] => Ok(()),
        _ => Err(unexpected(line, tokens)),
    }
}
