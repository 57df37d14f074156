//! Parsing types and values.

ghost use Rattle.std.specs.Prelude.{◌≡◌, OnErr};
ghost use Rattle.ir_tokens.specs.Numbers.{constant_of};
ghost use Rattle.ir_tokens.specs.SeenTokens.{seen};
ghost use Rattle.refusal.specs.Refusals.{Gives};
ghost use Rattle.ir_instructions.specs.InstructionReaders as parsing;

use crate::place::{Expected, fault, left_out, unexpected};
use crate::word::{TypeWord, truth_of, type_of, value_of};
use ir_tokens::{
    IrError, IrFault, IrFaultKind, Placed, RawOperand, RawValue, Token, TypedOperand, constant,
    identifier,
};
use ops::Width;
use refusal::refused;
use std::alloc::Global;

/// Parses an integer type.
#[tactic(auto, unfolding(crate::specs::TokenReaders::type_at))]
pub fn integer_type(alloc: Global, tokens: &mut &[Placed<'_>]) -> Result<Width, IrError>
    ensures read { Gives (λ x. (x, seen tokens.new.now)) result (parsing.type_at (seen tokens.old.now)) }
    ensures unmoved { OnErr result (tokens.new.now ≡ tokens.old.now) }
{
    match *tokens {
        [Placed { line, token }, rest @ ..] => match *token {
            Token::Word(word) => match type_of(word) {
                TypeWord::Integer(width) => {
                    *tokens = rest;
                    Ok(width)
                }
                TypeWord::OutOfRange => Err(refused(*line, IrFaultKind::Width)),
                TypeWord::Other => Err(left_out(alloc, *line, word)),
            },
            _ => Err(unexpected(alloc, Expected::Type, *tokens)),
        },
        [] => Err(unexpected(alloc, Expected::Type, *tokens)),
    }
}

/// The operand that digits spell at a width, or the fault that their number is out of range.
pub(crate) fn number(line: usize, digits: &[u8], width: Width) -> Result<RawOperand, IrFault>
    ensures { result ≡ parsing.number_value line (constant_of digits.now width) }
{
    match constant(digits, width) {
        Some(number) => Ok(RawOperand {
            line,
            value: RawValue::Number(number),
        }),
        None => Err(fault(line, IrFaultKind::ConstRange)),
    }
}

/// Parses a value at this width.
#[tactic(auto, unfolding(crate::specs::TokenReaders::operand_at))]
pub(crate) fn operand(
    alloc: Global,
    width: Width,
    tokens: &mut &[Placed<'_>],
) -> Result<RawOperand, IrError>
    ensures { Gives (λ x. (x, seen tokens.new.now)) result (parsing.operand_at width (seen tokens.old.now)) }
{
    match *tokens {
        [Placed { line, token }, rest @ ..] => match *token {
            Token::Register(written) => {
                *tokens = rest;
                let value = RawValue::Register(identifier(alloc, written)?);
                Ok(RawOperand { line: *line, value })
            }
            Token::Number(digits) => {
                *tokens = rest;
                Ok(number(*line, digits, width)?)
            }
            Token::Word(word) => match value_of(word) {
                Some(value) => {
                    *tokens = rest;
                    Ok(RawOperand { line: *line, value })
                }
                None => Err(left_out(alloc, *line, word)),
            },
            _ => Err(unexpected(alloc, Expected::Choice, *tokens)),
        },
        [] => Err(unexpected(alloc, Expected::Choice, *tokens)),
    }
}

/// Parses the value of a case: a number, `true` or `false`.
#[tactic(auto, unfolding(crate::specs::TokenReaders::case_value_at))]
pub(crate) fn case_value(
    alloc: Global,
    width: Width,
    tokens: &mut &[Placed<'_>],
) -> Result<RawOperand, IrError>
    ensures { Gives (λ x. (x, seen tokens.new.now)) result (parsing.case_value_at width (seen tokens.old.now)) }
{
    match *tokens {
        [Placed { line, token }, rest @ ..] => match *token {
            Token::Number(digits) => {
                *tokens = rest;
                Ok(number(*line, digits, width)?)
            }
            Token::Word(word) => match truth_of(word) {
                Some(value) => {
                    *tokens = rest;
                    Ok(RawOperand { line: *line, value })
                }
                None => Err(left_out(alloc, *line, word)),
            },
            _ => Err(unexpected(alloc, Expected::Choice, *tokens)),
        },
        [] => Err(unexpected(alloc, Expected::Choice, *tokens)),
    }
}

/// Parses a type and a value of it.
#[tactic(auto, unfolding(crate::specs::TokenReaders::typed_at))]
pub(crate) fn typed(alloc: Global, tokens: &mut &[Placed<'_>]) -> Result<TypedOperand, IrError>
    ensures { Gives (λ x. (x, seen tokens.new.now)) result (parsing.typed_at (seen tokens.old.now)) }
{
    let width = integer_type(alloc, tokens)?;
    let operand = operand(alloc, width, tokens)?;
    Ok(TypedOperand { width, operand })
}
