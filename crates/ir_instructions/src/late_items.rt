//! Parsing the items behind a call, on the line of its `)`; they are dropped.

ghost use Rattle.std.specs.Prelude.{◌≡◌};
ghost use Rattle.ir_tokens.specs.SeenTokens.{seen};
ghost use Rattle.ir_instructions.specs.CallReaders as parsing;
ghost use Rattle.ir_instructions.specs.Readers as readers;

use crate::item::begins_item;
use crate::place::{fault, misplaced};
use crate::token::{is_mark, mark};
use ir_tokens::{IrFault, IrFaultKind, Placed, Token};

/// Whether the first token stands on this line.
fn is_on_line(line: usize, tokens: &[Placed<'_>]) -> bool
    ensures { result ≡ parsing.is_on_line line (seen tokens.now) }
{
    match tokens {
        [first, ..] => first.line == line,
        [] => false,
    }
}

/// Whether an item is next on this line.
fn begins_late_item(line: usize, tokens: &[Placed<'_>]) -> bool
    ensures { result ≡ parsing.begins_late_item line (seen tokens.now) }
{
    is_on_line(line, tokens) && begins_item(tokens)
}

/// Parses the value behind a key and its `=`.
#[tactic(auto, unfolding(crate::specs::CallReaders::late_value_at))]
fn late_value(line: usize, tokens: &mut &[Placed<'_>]) -> Result<(), IrFault>
    ensures { parsing.late_value_at line (seen tokens.old.now) ≡ readers.given result (seen tokens.new.now) }
{
    match *tokens {
        [Placed { line: at, token }, rest @ ..] => match *token {
            Token::Quoted(_) => {
                if *at == line {
                    *tokens = rest;
                    Ok(())
                } else {
                    Err(fault(*at, IrFaultKind::Syntax))
                }
            }
            _ => Err(misplaced(*tokens)),
        },
        [] => Err(misplaced(*tokens)),
    }
}

/// Parses the `=` and the value behind a quoted text, if they are on the line.
#[tactic(auto, unfolding(crate::specs::CallReaders::late_quoted_at))]
fn late_quoted(line: usize, tokens: &mut &[Placed<'_>]) -> Result<(), IrFault>
    ensures { parsing.late_quoted_at line (seen tokens.old.now) ≡ readers.given result (seen tokens.new.now) }
{
    if is_on_line(line, *tokens) && is_mark(b'=', *tokens) {
        mark(b'=', tokens)?;
        late_value(line, tokens)
    } else {
        Ok(())
    }
}

/// Parses the kept group behind a word, if there is one on the line.
#[tactic(auto, unfolding(crate::specs::CallReaders::late_group_at))]
fn late_group(line: usize, tokens: &mut &[Placed<'_>]) -> Result<(), IrFault>
    ensures { parsing.late_group_at line (seen tokens.old.now) ≡ readers.given result (seen tokens.new.now) }
{
    if let [Placed { line: at, token }, rest @ ..] = *tokens
        && let Token::KeptGroup(_) = *token
        && *at == line
    {
        *tokens = rest;
    }
    Ok(())
}

/// Parses an item that begins on the line.
#[tactic(auto, unfolding(crate::specs::CallReaders::late_item_at))]
fn late_item(line: usize, tokens: &mut &[Placed<'_>]) -> Result<(), IrFault>
    ensures { parsing.late_item_at line (seen tokens.old.now) ≡ readers.given result (seen tokens.new.now) }
{
    match *tokens {
        [Placed { token, .. }, rest @ ..] => match *token {
            Token::Word(_) => {
                *tokens = rest;
                late_group(line, tokens)
            }
            Token::Number(_) | Token::Group(_) => {
                *tokens = rest;
                Ok(())
            }
            Token::Quoted(_) => {
                *tokens = rest;
                late_quoted(line, tokens)
            }
            _ => Err(misplaced(*tokens)),
        },
        [] => Err(misplaced(*tokens)),
    }
}

/// Parses all items that begin on this line.
fn each_late_item(line: usize, tokens: &mut &[Placed<'_>]) -> Result<(), IrFault>
    ensures { parsing.each_late_item_at line (seen tokens.old.now) ≡ readers.given result (seen tokens.new.now) }
{
    'items: while begins_late_item(line, *tokens) {
        late_item(line, tokens)?;
    }
    Ok(())
}

/// Checks that there is another token; a text ends with one.
#[tactic(auto, unfolding(crate::specs::CallReaders::some_token_at))]
fn some_token(tokens: &[Placed<'_>]) -> Result<(), IrFault>
    ensures { parsing.some_token_at (seen tokens.now) ≡ readers.given result (seen tokens.now) }
{
    match tokens {
        [_, ..] => Ok(()),
        [] => Err(misplaced(tokens)),
    }
}

/// Parses all items on this line, behind which there is another token.
#[tactic(auto, unfolding(crate::specs::CallReaders::late_items_at))]
pub(crate) fn late_items(line: usize, tokens: &mut &[Placed<'_>]) -> Result<(), IrFault>
    ensures { parsing.late_items_at line (seen tokens.old.now) ≡ readers.given result (seen tokens.new.now) }
{
    each_late_item(line, tokens)?;
    some_token(*tokens)
}
