//! Parsing blocks.

ghost use Rattle.ir_tokens.specs.SeenTokens.{seen};
ghost use Rattle.refusal.specs.Refusals.{Gives};
ghost use Rattle.ir_parse.specs.ModuleReaders as parsing;

use ir_instructions::{Part, each, insts, tail, terminator};
use ir_tokens::{IrError, Placed, RawBlock, RawIdentifier, Token, identifier};
use lists::List;
use std::alloc::Global;

/// Parses a label, if there is one.
#[tactic(auto, unfolding(crate::specs::ModuleReaders::label_at))]
fn label(alloc: Global, tokens: &mut &[Placed<'_>]) -> Result<Option<RawIdentifier>, IrError>
    ensures { Gives (λ x. (x, seen tokens.new.now)) result (parsing.label_at (seen tokens.old.now)) }
{
    match *tokens {
        [Placed { line, token }, rest @ ..] => match *token {
            Token::Label(written) => {
                *tokens = rest;
                Ok(Some(RawIdentifier {
                    line: *line,
                    identifier: identifier(alloc, written)?,
                }))
            }
            _ => Ok(None),
        },
        [] => Ok(None),
    }
}

/// The production of a block, whose label may be missing; a list of blocks goes on where a label is next.
enum Block {}

impl Part for Block {
    ghost use Rattle.ir_parse.specs.ModuleReaders.{is_label, block_at};

    ghost begins = { is_label };

    ghost reader = { block_at };

    type Value = RawBlock;

    fn is_next(tokens: &[Placed<'_>]) -> bool {
        match tokens {
            [Placed { token, .. }, ..] => matches!(*token, Token::Label(_)),
            [] => false,
        }
    }

    #[tactic(auto, unfolding(crate::specs::ModuleReaders::block_at))]
    fn read(alloc: Global, tokens: &mut &[Placed<'_>]) -> Result<RawBlock, IrError> {
        let label = label(alloc, tokens)?;
        let insts = insts(alloc, tokens)?;
        let (end_line, end) = terminator(alloc, tokens)?;
        tail(tokens)?;
        Ok(RawBlock {
            label,
            insts,
            end,
            end_line,
        })
    }
}

/// Parses the blocks of a function, at least one.
#[tactic(auto, unfolding(crate::specs::ModuleReaders::blocks_at))]
pub(crate) fn blocks(alloc: Global, tokens: &mut &[Placed<'_>]) -> Result<List<RawBlock>, IrError>
    ensures { Gives (λ x. (x, seen tokens.new.now)) result (parsing.blocks_at (seen tokens.old.now)) }
{
    let mut blocks = List::new(alloc);
    blocks.push(Block::read(alloc, tokens)?)?;
    each::<Block>(alloc, blocks, tokens)
}
