//! Parsing the entries of a module.

ghost use Rattle.std.specs.Prelude.{◌≡◌, OnErr};
ghost use Rattle.ir_tokens.specs.SeenTokens.{seen};
ghost use Rattle.refusal.specs.Refusals.{Gives};
ghost use Rattle.ir_parse.specs.ModuleReaders as parsing;

use crate::function::function;
use ir_instructions::{Expected, Part, copied, each, left_out, unexpected};
use ir_tokens::{IrError, Placed, RawEntry, RawModule, Token};
use lists::List;
use ops::keywords::is;
use std::alloc::Global;

/// The production of an entry of a module; the list of entries goes on up to the end of the text.
enum ModuleEntry {}

impl Part for ModuleEntry {
    ghost use Rattle.ir_parse.specs.ModuleReaders.{begins_entry, entry_at};

    ghost begins = { begins_entry };

    ghost reader = { entry_at };

    type Value = RawEntry;

    fn is_next(tokens: &[Placed<'_>]) -> bool {
        match tokens {
            [Placed { token, .. }, ..] => !matches!(*token, Token::End),
            [] => true,
        }
    }

    #[tactic(auto, unfolding(crate::specs::ModuleReaders::entry_at))]
    fn read(alloc: Global, tokens: &mut &[Placed<'_>]) -> Result<RawEntry, IrError> {
        match *tokens {
            [Placed { line, token }, rest @ ..] => match *token {
                Token::Kept(text) => {
                    *tokens = rest;
                    Ok(RawEntry::Kept(copied(alloc, text)?))
                }
                Token::Word(word) => {
                    if is(word, "define") {
                        *tokens = rest;
                        Ok(RawEntry::Function(function(alloc, tokens)?))
                    } else {
                        Err(left_out(alloc, *line, word))
                    }
                }
                _ => Err(unexpected(alloc, Expected::Entry, *tokens)),
            },
            [] => Err(unexpected(alloc, Expected::Entry, *tokens)),
        }
    }
}

/// Parses an entry at the front of the tokens, which are then those behind it. The error is the fault of the first
/// token that does not fit.
pub fn entry(alloc: Global, tokens: &mut &[Placed<'_>]) -> Result<RawEntry, IrError>
    ensures read { Gives (λ x. (x, seen tokens.new.now)) result (parsing.entry_at (seen tokens.old.now)) }
    ensures unmoved { OnErr result (tokens.new.now ≡ tokens.old.now) }
{
    let mut rest = *tokens;
    let entry = ModuleEntry::read(alloc, &mut rest)?;
    *tokens = rest;
    Ok(entry)
}

/// Parses the entries of a module.
#[tactic(auto, unfolding(crate::specs::ModuleReaders::entries_at))]
fn entries(alloc: Global, tokens: &mut &[Placed<'_>]) -> Result<List<RawEntry>, IrError>
    ensures { Gives (λ x. (x, seen tokens.new.now)) result (parsing.entries_at (seen tokens.old.now)) }
{
    each::<ModuleEntry>(alloc, List::new(alloc), tokens)
}

/// Parses the tokens of a text as a module. The error is the text's first fault.
pub(crate) fn raw_module(alloc: Global, tokens: &[Placed<'_>]) -> Result<RawModule, IrError>
    ensures { Gives (λ x. x) result (parsing.module_of (seen tokens.now)) }
{
    let mut rest = tokens;
    let entries = entries(alloc, &mut rest)?;
    Ok(RawModule { entries })
}
