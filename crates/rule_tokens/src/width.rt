//! Types as written.

ghost use Rattle.std.specs.Prelude.{◌≡◌};
ghost use Rattle.refusal.specs.Refusals.{Gives};
ghost use Rattle.rule_tokens.specs.PartReaders as reading;
ghost use Rattle.rule_tokens.specs.SeenTokens.{seen};

use crate::fault::RuleError;
use crate::number::written_type;
use crate::token::Token;
use crate::token_fault::{misplaced_word, unexpected};
use ops::Width;
use std::alloc::Global;

/// Reads a type.
#[tactic(auto, unfolding(crate::specs::PartReaders::type_at))]
pub fn integer_type(
    alloc: Global,
    line: usize,
    tokens: &mut &[Token<'_>],
) -> Result<Width, RuleError>
    ensures { Gives (λ x. (x, seen tokens.new.now)) result (reading.type_at line (seen tokens.old.now)) }
{
    match *tokens {
        [Token::Word(word), rest @ ..] => match written_type(word) {
            Some(width) => {
                *tokens = rest;
                Ok(width)
            }
            None => Err(misplaced_word(alloc, line, word)),
        },
        _ => Err(unexpected(line, *tokens).into()),
    }
}

/// Reads a type where one is next.
#[tactic(auto, unfolding(crate::specs::PartReaders::maybe_type))]
pub fn maybe_type(tokens: &mut &[Token<'_>]) -> Option<Width>
    ensures { (result, seen tokens.new.now) ≡ reading.maybe_type (seen tokens.old.now) }
{
    let [Token::Word(word), rest @ ..] = *tokens else {
        return None;
    };
    let width = written_type(word)?;
    *tokens = rest;
    Some(width)
}
