//! Parsing the arguments of calls. The items in them are dropped; the value is what stands directly before the end.

ghost use Rattle.std.specs.Prelude.{◌≡◌};
ghost use Rattle.ir_tokens.specs.SeenTokens.{seen};
ghost use Rattle.refusal.specs.Refusals.{Gives, Refuses};
ghost use Rattle.ir_instructions.specs.CallReaders as parsing;
ghost use Rattle.ir_instructions.specs.Readers as readers;

use crate::item::{begins_item, item};
use crate::operand::{integer_type, number, operand};
use crate::part::{Part, each};
use crate::place::{left_out, misplaced};
use crate::token::is_mark;
use crate::word::truth_of;
use ir_tokens::{IrError, IrFaultKind, Placed, RawOperand, Token, TypedOperand};
use lists::{List, Text};
use ops::Width;
use refusal::refused;
use std::alloc::Global;

/// Whether the end of an argument is next.
fn ends_argument(tokens: &[Placed<'_>]) -> bool
    ensures { result ≡ parsing.ends_argument (seen tokens.now) }
{
    is_mark(b',', tokens) || is_mark(b')', tokens)
}

/// The production of an item inside an argument, in front of its value.
enum InnerItem {}

impl Part for InnerItem {
    ghost use Rattle.ir_instructions.specs.CallReaders.{begins_inner_item};
    ghost use Rattle.ir_instructions.specs.ItemReaders.{item_at};

    ghost begins = { begins_inner_item };

    ghost reader = { item_at };

    type Value = Text;

    fn is_next(tokens: &[Placed<'_>]) -> bool {
        match tokens {
            [_, rest @ ..] => begins_item(tokens) && !ends_argument(rest),
            [] => false,
        }
    }

    fn read(alloc: Global, tokens: &mut &[Placed<'_>]) -> Result<Text, IrError> {
        item(alloc, tokens)
    }
}

/// Parses the items in front of an argument's value.
#[tactic(auto, unfolding(crate::specs::CallReaders::inner_items_at))]
fn inner_items(alloc: Global, tokens: &mut &[Placed<'_>]) -> Result<List<Text>, IrError>
    ensures { Gives (λ x. (x, seen tokens.new.now)) result (parsing.inner_items_at (seen tokens.old.now)) }
{
    each::<InnerItem>(alloc, List::new(alloc), tokens)
}

/// Parses an argument: a type, items, and a value of the type.
#[tactic(auto, unfolding(crate::specs::CallReaders::argument_at))]
pub(crate) fn argument(alloc: Global, tokens: &mut &[Placed<'_>]) -> Result<TypedOperand, IrError>
    ensures { Gives (λ x. (x, seen tokens.new.now)) result (parsing.argument_at (seen tokens.old.now)) }
{
    let width = integer_type(alloc, tokens)?;
    inner_items(alloc, tokens)?;
    let operand = operand(alloc, width, tokens)?;
    Ok(TypedOperand { width, operand })
}

/// The fault of a word that is no truth value, where one is expected. Directly before the end of an argument only its
/// value may stand, so that the word is a syntax error there; elsewhere it is also no item, and is not supported.
fn no_truth(alloc: Global, line: usize, word: &[u8], rest: &[Placed<'_>]) -> IrError
    ensures { Refuses result (readers.fault line (parsing.no_truth_kind word.now (seen rest.now))) }
{
    if ends_argument(rest) {
        refused(line, IrFaultKind::Syntax)
    } else {
        left_out(alloc, line, word)
    }
}

/// Parses a truth value: a number, `true` or `false`.
#[tactic(auto, unfolding(crate::specs::CallReaders::truth_value_at))]
fn truth_value(
    alloc: Global,
    width: Width,
    tokens: &mut &[Placed<'_>],
) -> Result<RawOperand, IrError>
    ensures { Gives (λ x. (x, seen tokens.new.now)) result (parsing.truth_value_at width (seen tokens.old.now)) }
{
    match *tokens {
        [Placed { line, token }, rest @ ..] => match *token {
            Token::Number(digits) => {
                *tokens = rest;
                Ok(number(*line, digits, width)?)
            }
            Token::Word(word) => match truth_of(word) {
                Some(value) => {
                    *tokens = rest;
                    Ok(RawOperand { line: *line, value })
                }
                None => Err(no_truth(alloc, *line, word, rest)),
            },
            _ => Err(misplaced(*tokens).into()),
        },
        [] => Err(misplaced(*tokens).into()),
    }
}

/// Parses a truth argument: a type, items, and a truth value of the type.
#[tactic(auto, unfolding(crate::specs::CallReaders::truth_argument_at))]
pub(crate) fn truth_argument(
    alloc: Global,
    tokens: &mut &[Placed<'_>],
) -> Result<TypedOperand, IrError>
    ensures { Gives (λ x. (x, seen tokens.new.now)) result (parsing.truth_argument_at (seen tokens.old.now)) }
{
    let width = integer_type(alloc, tokens)?;
    inner_items(alloc, tokens)?;
    let operand = truth_value(alloc, width, tokens)?;
    Ok(TypedOperand { width, operand })
}
