//! Parsing attachments of metadata, which are dropped. (LLVM Language Reference, "Metadata".)

ghost use Rattle.std.specs.Prelude.{◌≡◌, OnErr};
ghost use Rattle.scan.specs.IrTokens as names;
ghost use Rattle.ir_tokens.specs.Numbers as numbers;
ghost use Rattle.ir_tokens.specs.SeenTokens.{seen};
ghost use Rattle.ir_instructions.specs.InstructionReaders as parsing;
ghost use Rattle.ir_instructions.specs.Readers as readers;

use crate::place::{fault, misplaced};
use crate::token::{is_mark, mark};
use ir_tokens::{IrFault, IrFaultKind, Placed, Token, is_number, is_plain_name};

/// Whether metadata is next.
pub(crate) fn is_metadata(tokens: &[Placed<'_>]) -> bool
    ensures { result ≡ parsing.is_metadata (seen tokens.now) }
{
    match tokens {
        [Placed { token, .. }, ..] => matches!(*token, Token::Metadata(_)),
        [] => false,
    }
}

/// Parses a name of metadata.
#[tactic(auto, unfolding(crate::specs::TokenReaders::metadata_at))]
fn metadata_name(tokens: &mut &[Placed<'_>]) -> Result<(), IrFault>
    ensures { parsing.metadata_at names.is_plain_name (seen tokens.old.now) ≡ readers.given result (seen tokens.new.now) }
{
    match *tokens {
        [Placed { line, token }, rest @ ..] => match *token {
            Token::Metadata(text) => {
                if is_plain_name(text) {
                    *tokens = rest;
                    Ok(())
                } else {
                    Err(fault(*line, IrFaultKind::Syntax))
                }
            }
            _ => Err(misplaced(*tokens)),
        },
        [] => Err(misplaced(*tokens)),
    }
}

/// Parses a number of metadata.
#[tactic(auto, unfolding(crate::specs::TokenReaders::metadata_at))]
fn metadata_number(tokens: &mut &[Placed<'_>]) -> Result<(), IrFault>
    ensures { parsing.metadata_at numbers.is_number (seen tokens.old.now) ≡ readers.given result (seen tokens.new.now) }
{
    match *tokens {
        [Placed { line, token }, rest @ ..] => match *token {
            Token::Metadata(text) => {
                if is_number(text) {
                    *tokens = rest;
                    Ok(())
                } else {
                    Err(fault(*line, IrFaultKind::Syntax))
                }
            }
            _ => Err(misplaced(*tokens)),
        },
        [] => Err(misplaced(*tokens)),
    }
}

/// Parses an attachment: a name and a number.
#[tactic(auto, unfolding(crate::specs::TokenReaders::attachment_at))]
fn attachment(tokens: &mut &[Placed<'_>]) -> Result<(), IrFault>
    ensures { parsing.attachment_at (seen tokens.old.now) ≡ readers.given result (seen tokens.new.now) }
{
    metadata_name(tokens)?;
    metadata_number(tokens)
}

/// Parses the attachments of a function.
#[tactic(auto, unfolding(crate::specs::TokenReaders::attachments_at))]
pub fn attachments(tokens: &mut &[Placed<'_>]) -> Result<(), IrFault>
    ensures read { parsing.attachments_at (seen tokens.old.now) ≡ readers.given result (seen tokens.new.now) }
    ensures unmoved { OnErr result (tokens.new.now ≡ tokens.old.now) }
{
    let mut rest = *tokens;
    'attachments: while is_metadata(rest) {
        attachment(&mut rest)?;
    }
    *tokens = rest;
    Ok(())
}

/// Parses an attachment of an instruction, behind a `,`.
#[tactic(auto, unfolding(crate::specs::TokenReaders::tail_attachment_at))]
fn tail_attachment(tokens: &mut &[Placed<'_>]) -> Result<(), IrFault>
    ensures { parsing.tail_attachment_at (seen tokens.old.now) ≡ readers.given result (seen tokens.new.now) }
{
    mark(b',', tokens)?;
    attachment(tokens)
}

/// Parses the attachments of an instruction.
#[tactic(auto, unfolding(crate::specs::TokenReaders::tail_at))]
pub fn tail(tokens: &mut &[Placed<'_>]) -> Result<(), IrFault>
    ensures read { parsing.tail_at (seen tokens.old.now) ≡ readers.given result (seen tokens.new.now) }
    ensures unmoved { OnErr result (tokens.new.now ≡ tokens.old.now) }
{
    let mut rest = *tokens;
    'attachments: while is_mark(b',', rest) {
        tail_attachment(&mut rest)?;
    }
    *tokens = rest;
    Ok(())
}
