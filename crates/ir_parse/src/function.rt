//! Parsing functions. (LLVM Language Reference, "Functions".)

ghost use Rattle.ir_tokens.specs.SeenTokens.{seen};
ghost use Rattle.refusal.specs.Refusals.{Gives};
ghost use Rattle.ir_parse.specs.ModuleReaders as parsing;

use crate::block::blocks;
use crate::parameter::parameters;
use ir_instructions::{attachments, integer_type, items, last_items, left_out, mark, misplaced};
use ir_tokens::{Identifier, IrError, Placed, RawBlock, RawFunction, Token, identifier};
use lists::{List, Text};
use std::alloc::Global;

/// Parses the name of a function, with its line; a number in its place is not supported.
#[tactic(auto, unfolding(crate::specs::ModuleReaders::function_name_at))]
fn function_name(alloc: Global, tokens: &mut &[Placed<'_>]) -> Result<(usize, Text), IrError>
    ensures { Gives (λ x. (x, seen tokens.new.now)) result (parsing.function_name_at (seen tokens.old.now)) }
{
    match *tokens {
        [Placed { line, token }, rest @ ..] => match *token {
            Token::Function(written) => match identifier(alloc, written)? {
                Identifier::Named(name) => {
                    *tokens = rest;
                    Ok((*line, name))
                }
                Identifier::Numbered(_) => Err(left_out(alloc, *line, b"@")),
            },
            _ => Err(misplaced(*tokens).into()),
        },
        [] => Err(misplaced(*tokens).into()),
    }
}

/// Parses the attachments before the body of a function, and the body in its braces.
#[tactic(auto, unfolding(crate::specs::ModuleReaders::body_at))]
fn body(alloc: Global, tokens: &mut &[Placed<'_>]) -> Result<List<RawBlock>, IrError>
    ensures { Gives (λ x. (x, seen tokens.new.now)) result (parsing.body_at (seen tokens.old.now)) }
{
    attachments(tokens)?;
    mark(b'{', tokens)?;
    let blocks = blocks(alloc, tokens)?;
    mark(b'}', tokens)?;
    Ok(blocks)
}

/// Parses a function behind the word `define`.
#[tactic(auto, unfolding(crate::specs::ModuleReaders::function_at))]
pub(crate) fn function(alloc: Global, tokens: &mut &[Placed<'_>]) -> Result<RawFunction, IrError>
    ensures { Gives (λ x. (x, seen tokens.new.now)) result (parsing.function_at (seen tokens.old.now)) }
{
    let before = items(alloc, tokens)?;
    let width = integer_type(alloc, tokens)?;
    let (line, name) = function_name(alloc, tokens)?;
    let parameters = parameters(alloc, tokens)?;
    let after = last_items(alloc, tokens)?;
    let blocks = body(alloc, tokens)?;
    Ok(RawFunction {
        line,
        name,
        before,
        width,
        parameters,
        after,
        blocks,
    })
}
