//! Parsing single tokens.

ghost use Rattle.std.specs.Prelude.{◌≡◌, OnErr};
ghost use Rattle.ir_tokens.specs.SeenTokens.{seen};
ghost use Rattle.refusal.specs.Refusals.{Gives};
ghost use Rattle.ir_instructions.specs.InstructionReaders as parsing;
ghost use Rattle.ir_instructions.specs.Readers as readers;

use crate::place::{fault, misplaced};
use ir_tokens::{IrError, IrFault, IrFaultKind, Placed, RawIdentifier, Token, identifier};
use ops::keywords::is;
use std::alloc::Global;

/// Whether this mark is next.
pub fn is_mark(wanted: u8, tokens: &[Placed<'_>]) -> bool
    ensures { result ≡ parsing.is_mark wanted (seen tokens.now) }
{
    match tokens {
        [Placed { token, .. }, ..] => matches!(*token, Token::Mark(mark) if mark == wanted),
        [] => false,
    }
}

/// Whether this word is next.
pub(crate) fn is_keyword(wanted: &str, tokens: &[Placed<'_>]) -> bool
    ensures { result ≡ parsing.is_keyword wanted.now (seen tokens.now) }
{
    match tokens {
        [Placed { token, .. }, ..] => match *token {
            Token::Word(word) => is(word, wanted),
            _ => false,
        },
        [] => false,
    }
}

/// Parses this mark.
#[tactic(auto, unfolding(crate::specs::TokenReaders::mark_at))]
pub fn mark(wanted: u8, tokens: &mut &[Placed<'_>]) -> Result<(), IrFault>
    ensures read { parsing.mark_at wanted (seen tokens.old.now) ≡ readers.given result (seen tokens.new.now) }
    ensures unmoved { OnErr result (tokens.new.now ≡ tokens.old.now) }
{
    match *tokens {
        [Placed { line, token }, rest @ ..] => match *token {
            Token::Mark(mark) => {
                if mark == wanted {
                    *tokens = rest;
                    Ok(())
                } else {
                    Err(fault(*line, IrFaultKind::Syntax))
                }
            }
            _ => Err(misplaced(*tokens)),
        },
        [] => Err(misplaced(*tokens)),
    }
}

/// Parses this word.
#[tactic(auto, unfolding(crate::specs::TokenReaders::keyword_at))]
pub(crate) fn keyword(wanted: &str, tokens: &mut &[Placed<'_>]) -> Result<(), IrFault>
    ensures { parsing.keyword_at wanted.now (seen tokens.old.now) ≡ readers.given result (seen tokens.new.now) }
{
    match *tokens {
        [Placed { line, token }, rest @ ..] => match *token {
            Token::Word(word) => {
                if is(word, wanted) {
                    *tokens = rest;
                    Ok(())
                } else {
                    Err(fault(*line, IrFaultKind::Syntax))
                }
            }
            _ => Err(misplaced(*tokens)),
        },
        [] => Err(misplaced(*tokens)),
    }
}

/// Parses a register.
#[tactic(auto, unfolding(crate::specs::TokenReaders::register_at))]
pub(crate) fn register(alloc: Global, tokens: &mut &[Placed<'_>]) -> Result<RawIdentifier, IrError>
    ensures { Gives (λ x. (x, seen tokens.new.now)) result (parsing.register_at (seen tokens.old.now)) }
{
    match *tokens {
        [Placed { line, token }, rest @ ..] => match *token {
            Token::Register(written) => {
                *tokens = rest;
                Ok(RawIdentifier {
                    line: *line,
                    identifier: identifier(alloc, written)?,
                })
            }
            _ => Err(misplaced(*tokens).into()),
        },
        [] => Err(misplaced(*tokens).into()),
    }
}

/// Parses the target of a terminator: `label` and a register.
#[tactic(auto, unfolding(crate::specs::TokenReaders::target_at))]
pub(crate) fn target(alloc: Global, tokens: &mut &[Placed<'_>]) -> Result<RawIdentifier, IrError>
    ensures { Gives (λ x. (x, seen tokens.new.now)) result (parsing.target_at (seen tokens.old.now)) }
{
    keyword("label", tokens)?;
    register(alloc, tokens)
}
