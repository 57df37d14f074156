//! Parsing items of headers and of calls: attributes, linkage and the like.

ghost use Rattle.std.specs.Prelude.{◌≡◌, ◌∷◌, ◌++◌, IfOk};
ghost use Rattle.ir_tokens.specs.SeenTokens.{seen};
ghost use Rattle.refusal.specs.Refusals.{Gives};
ghost use Rattle.ir_instructions.specs.Punctuation as marks;
ghost use Rattle.ir_instructions.specs.ItemReaders as parsing;

use crate::item_word::is_item_word;
use crate::part::{Part, each};
use crate::place::{Expected, copied, left_out, misplaced, unexpected};
use crate::token::{is_mark, mark};
use ir_tokens::{IrError, Placed, Token};
use lists::{List, Text};
use std::alloc::{AllocError, Global};

/// Two parts of the text, joined.
fn joined(alloc: Global, first: &[u8], second: &[u8]) -> Result<Text, AllocError>
    ensures { IfOk result (λ text. text ≡ first.now ++ second.now) }
{
    let mut bytes = Vec::from_slice(alloc, first)?;
    bytes.extend_from_slice(second)?;
    Ok(Text::from_vec(bytes))
}

/// A key, `=` and its value, joined.
fn pair(alloc: Global, key: &[u8], value: &[u8]) -> Result<Text, AllocError>
    ensures { IfOk result (λ text. text ≡ key.now ++ marks.equals ∷ value.now) }
{
    let mut bytes = Vec::from_slice(alloc, key)?;
    bytes.push(b'=')?;
    bytes.extend_from_slice(value)?;
    Ok(Text::from_vec(bytes))
}

/// Parses the value of a key, behind the `=`; the result is the whole item.
#[tactic(auto, unfolding(crate::specs::ItemReaders::quoted_value_at))]
fn quoted_value(alloc: Global, key: &[u8], tokens: &mut &[Placed<'_>]) -> Result<Text, IrError>
    ensures { Gives (λ x. (x, seen tokens.new.now)) result (parsing.quoted_value_at key.now (seen tokens.old.now)) }
{
    match *tokens {
        [Placed { token, .. }, rest @ ..] => match *token {
            Token::Quoted(value) => {
                *tokens = rest;
                Ok(pair(alloc, key, value)?)
            }
            _ => Err(misplaced(*tokens).into()),
        },
        [] => Err(misplaced(*tokens).into()),
    }
}

/// Parses the kept group behind a word, if there is one; the result is the whole item.
#[tactic(auto, unfolding(crate::specs::ItemReaders::word_item_at))]
fn word_item(alloc: Global, word: &[u8], tokens: &mut &[Placed<'_>]) -> Result<Text, IrError>
    ensures { Gives (λ x. (x, seen tokens.new.now)) result (parsing.word_item_at word.now (seen tokens.old.now)) }
{
    match *tokens {
        [Placed { token, .. }, rest @ ..] => match *token {
            Token::KeptGroup(group) => {
                *tokens = rest;
                Ok(joined(alloc, word, group)?)
            }
            _ => Ok(copied(alloc, word)?),
        },
        [] => Ok(copied(alloc, word)?),
    }
}

/// Parses the `=` and the value behind a quoted text, if they are there; the result is the whole item.
#[tactic(auto, unfolding(crate::specs::ItemReaders::quoted_item_at))]
fn quoted_item(alloc: Global, key: &[u8], tokens: &mut &[Placed<'_>]) -> Result<Text, IrError>
    ensures { Gives (λ x. (x, seen tokens.new.now)) result (parsing.quoted_item_at key.now (seen tokens.old.now)) }
{
    if is_mark(b'=', *tokens) {
        mark(b'=', tokens)?;
        quoted_value(alloc, key, tokens)
    } else {
        Ok(copied(alloc, key)?)
    }
}

/// Whether an item is next.
pub(crate) fn begins_item(tokens: &[Placed<'_>]) -> bool
    ensures { result ≡ parsing.begins_item (seen tokens.now) }
{
    match tokens {
        [Placed { token, .. }, ..] => match *token {
            Token::Word(word) => is_item_word(word),
            Token::Number(_) | Token::Group(_) | Token::Quoted(_) => true,
            _ => false,
        },
        [] => false,
    }
}

/// Parses an item; the result is its text as it is printed.
#[tactic(auto, unfolding(crate::specs::ItemReaders::item_at))]
pub(crate) fn item(alloc: Global, tokens: &mut &[Placed<'_>]) -> Result<Text, IrError>
    ensures { Gives (λ x. (x, seen tokens.new.now)) result (parsing.item_at (seen tokens.old.now)) }
{
    match *tokens {
        [Placed { token, .. }, rest @ ..] => match *token {
            Token::Word(word) => {
                *tokens = rest;
                word_item(alloc, word, tokens)
            }
            Token::Number(text) | Token::Group(text) => {
                *tokens = rest;
                Ok(copied(alloc, text)?)
            }
            Token::Quoted(key) => {
                *tokens = rest;
                quoted_item(alloc, key, tokens)
            }
            _ => Err(unexpected(alloc, Expected::Choice, *tokens)),
        },
        [] => Err(unexpected(alloc, Expected::Choice, *tokens)),
    }
}

/// The production of an item of a header or of a call.
enum EachItem {}

impl Part for EachItem {
    ghost use Rattle.ir_instructions.specs.ItemReaders.{begins_item, item_at};

    ghost begins = { begins_item };

    ghost reader = { item_at };

    type Value = Text;

    fn is_next(tokens: &[Placed<'_>]) -> bool {
        begins_item(tokens)
    }

    fn read(alloc: Global, tokens: &mut &[Placed<'_>]) -> Result<Text, IrError> {
        item(alloc, tokens)
    }
}

/// Parses any number of items.
#[tactic(auto, unfolding(crate::specs::ItemReaders::items_at))]
pub fn items(alloc: Global, tokens: &mut &[Placed<'_>]) -> Result<List<Text>, IrError>
    ensures { Gives (λ x. (x, seen tokens.new.now)) result (parsing.items_at (seen tokens.old.now)) }
{
    each::<EachItem>(alloc, List::new(alloc), tokens)
}

/// Checks that no word is next. Behind all items a word is one that is not supported.
#[tactic(auto, unfolding(crate::specs::ItemReaders::no_word_at))]
fn no_word(alloc: Global, tokens: &[Placed<'_>]) -> Result<(), IrError>
    ensures { Gives (λ x. (x, seen tokens.now)) result (parsing.no_word_at (seen tokens.now)) }
{
    match tokens {
        [Placed { line, token }, ..] => match *token {
            Token::Word(word) => Err(left_out(alloc, *line, word)),
            _ => Ok(()),
        },
        [] => Ok(()),
    }
}

/// Parses any number of items, behind which no word may stand.
#[tactic(auto, unfolding(crate::specs::ItemReaders::last_items_at))]
pub fn last_items(alloc: Global, tokens: &mut &[Placed<'_>]) -> Result<List<Text>, IrError>
    ensures { Gives (λ x. (x, seen tokens.new.now)) result (parsing.last_items_at (seen tokens.old.now)) }
{
    let items = items(alloc, tokens)?;
    no_word(alloc, *tokens)?;
    Ok(items)
}
