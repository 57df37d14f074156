//! Parsing calls of integer intrinsics. (LLVM Language Reference, "'call' Instruction".)

ghost use Rattle.std.specs.Prelude.{◌≡◌};
ghost use Rattle.ir_tokens.specs.SeenTokens.{seen};
ghost use Rattle.refusal.specs.Refusals.{Gives};
ghost use Rattle.ir_instructions.specs.CallReaders as parsing;
ghost use Rattle.ir_instructions.specs.Readers as readers;

use crate::argument::{argument, truth_argument};
use crate::intrinsic::{Intrinsic, intrinsic_of};
use crate::item::items;
use crate::late_items::late_items;
use crate::operand::integer_type;
use crate::place::{Expected, fault, left_out, misplaced, unexpected};
use crate::token::mark;
use ir_tokens::{
    Identifier, IrError, IrFault, IrFaultKind, Placed, RawArguments, RawCall, RawOp, Token,
    TypedOperand, identifier,
};
use ops::keywords::is;
use ops::{Opcode, Unary, Width};
use std::alloc::Global;

/// Parses the truth value behind an operand, if the intrinsic takes one.
#[tactic(auto, unfolding(crate::specs::CallReaders::truth_at, crate::specs::CallReaders::further_truth_at))]
fn truth(
    alloc: Global,
    op: Unary,
    tokens: &mut &[Placed<'_>],
) -> Result<Option<TypedOperand>, IrError>
    ensures { Gives (λ x. (x, seen tokens.new.now)) result (parsing.truth_at op (seen tokens.old.now)) }
{
    if !op.has_truth() {
        return Ok(None);
    }
    mark(b',', tokens)?;
    Ok(Some(truth_argument(alloc, tokens)?))
}

#[tactic(auto, unfolding(crate::specs::CallReaders::two_arguments_at))]
fn two_arguments(
    alloc: Global,
    op: Opcode,
    tokens: &mut &[Placed<'_>],
) -> Result<RawArguments, IrError>
    ensures { Gives (λ x. (x, seen tokens.new.now)) result (parsing.two_arguments_at op (seen tokens.old.now)) }
{
    let left = argument(alloc, tokens)?;
    mark(b',', tokens)?;
    let right = argument(alloc, tokens)?;
    Ok(RawArguments::Binary(op, left, right))
}

#[tactic(auto, unfolding(crate::specs::CallReaders::one_argument_at))]
fn one_argument(
    alloc: Global,
    op: Unary,
    tokens: &mut &[Placed<'_>],
) -> Result<RawArguments, IrError>
    ensures { Gives (λ x. (x, seen tokens.new.now)) result (parsing.one_argument_at op (seen tokens.old.now)) }
{
    let operand = argument(alloc, tokens)?;
    let truth = truth(alloc, op, tokens)?;
    Ok(RawArguments::Unary(op, operand, truth))
}

/// Parses the arguments of an intrinsic.
fn arguments(
    alloc: Global,
    intrinsic: Intrinsic,
    tokens: &mut &[Placed<'_>],
) -> Result<RawArguments, IrError>
    ensures { Gives (λ x. (x, seen tokens.new.now)) result (parsing.arguments_at intrinsic (seen tokens.old.now)) }
{
    match intrinsic {
        Intrinsic::Binary(op) => two_arguments(alloc, op, tokens),
        Intrinsic::Unary(op) => one_argument(alloc, op, tokens),
    }
}

/// The intrinsic that the callee is, and the width in its name.
fn named(callee: &Identifier) -> Option<(Intrinsic, Width)>
    ensures { result ≡ parsing.callee_named callee.now }
{
    match callee {
        Identifier::Named(name) => intrinsic_of(name.as_slice()),
        Identifier::Numbered(_) => None,
    }
}

/// Parses the callee of the `call` on this line: an intrinsic, and the width in its name. Every other callee is not
/// supported.
#[tactic(auto, unfolding(crate::specs::CallReaders::callee_at))]
fn callee(
    alloc: Global,
    line: usize,
    tokens: &mut &[Placed<'_>],
) -> Result<(Intrinsic, Width), IrError>
    ensures { Gives (λ x. (x, seen tokens.new.now)) result (parsing.callee_at line (seen tokens.old.now)) }
{
    match *tokens {
        [Placed { token, .. }, rest @ ..] => match *token {
            Token::Function(written) => match named(&identifier(alloc, written)?) {
                Some(named) => {
                    *tokens = rest;
                    Ok(named)
                }
                None => Err(left_out(alloc, line, b"call")),
            },
            _ => Err(misplaced(*tokens).into()),
        },
        [] => Err(misplaced(*tokens).into()),
    }
}

/// Parses the `)` of a call, for its line.
#[tactic(auto, unfolding(crate::specs::CallReaders::close_at))]
fn close(tokens: &mut &[Placed<'_>]) -> Result<usize, IrFault>
    ensures { parsing.close_at (seen tokens.old.now) ≡ readers.given result (seen tokens.new.now) }
{
    match *tokens {
        [Placed { line, token }, rest @ ..] => match *token {
            Token::Mark(mark) => {
                if mark == b')' {
                    *tokens = rest;
                    Ok(*line)
                } else {
                    Err(fault(*line, IrFaultKind::Syntax))
                }
            }
            _ => Err(misplaced(*tokens)),
        },
        [] => Err(misplaced(*tokens)),
    }
}

/// Parses a call, behind the word `call` on this line.
#[tactic(auto, unfolding(crate::specs::CallReaders::call_at))]
pub(crate) fn call(alloc: Global, line: usize, tokens: &mut &[Placed<'_>]) -> Result<RawOp, IrError>
    ensures { Gives (λ x. (x, seen tokens.new.now)) result (parsing.call_at line (seen tokens.old.now)) }
{
    items(alloc, tokens)?;
    let width = integer_type(alloc, tokens)?;
    let (intrinsic, named) = callee(alloc, line, tokens)?;
    mark(b'(', tokens)?;
    let arguments = arguments(alloc, intrinsic, tokens)?;
    let close = close(tokens)?;
    late_items(close, tokens)?;
    Ok(RawOp::Call(RawCall {
        line,
        width,
        named,
        arguments,
    }))
}

/// Parses the word `call` behind `tail` or `notail`, for its line.
#[tactic(auto, unfolding(crate::specs::CallReaders::call_word_at))]
fn call_word(alloc: Global, tokens: &mut &[Placed<'_>]) -> Result<usize, IrError>
    ensures { Gives (λ x. (x, seen tokens.new.now)) result (parsing.call_word_at (seen tokens.old.now)) }
{
    match *tokens {
        [Placed { line, token }, rest @ ..] => match *token {
            Token::Word(word) => {
                if is(word, "call") {
                    *tokens = rest;
                    Ok(*line)
                } else {
                    Err(left_out(alloc, *line, word))
                }
            }
            _ => Err(unexpected(alloc, Expected::Choice, *tokens)),
        },
        [] => Err(unexpected(alloc, Expected::Choice, *tokens)),
    }
}

/// Parses a call, behind `tail` or `notail`.
#[tactic(auto, unfolding(crate::specs::CallReaders::marked_call_at))]
pub(crate) fn marked_call(alloc: Global, tokens: &mut &[Placed<'_>]) -> Result<RawOp, IrError>
    ensures { Gives (λ x. (x, seen tokens.new.now)) result (parsing.marked_call_at (seen tokens.old.now)) }
{
    let line = call_word(alloc, tokens)?;
    call(alloc, line, tokens)
}
