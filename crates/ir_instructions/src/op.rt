//! Parsing instructions. (LLVM Language Reference, "Instruction Reference".)

ghost use Rattle.std.specs.Prelude.{◌≡◌, OnErr};
ghost use Rattle.ir_tokens.specs.SeenTokens.{seen};
ghost use Rattle.refusal.specs.Refusals.{Gives};
ghost use Rattle.ir_instructions.specs.InstructionReaders as parsing;
ghost use Rattle.ir_instructions.specs.Readers as readers;

use crate::attachment::{is_metadata, tail};
use crate::call::{call, marked_call};
use crate::operand::{integer_type, operand, typed};
use crate::part::{Part, each};
use crate::place::{Expected, fault, left_out, misplaced, unexpected};
use crate::token::{keyword, mark, register};
use crate::word::{Operation, operation_of};
use ir_tokens::{IrError, IrFault, IrFaultKind, Placed, RawIncoming, RawInst, RawOp, Token};
use lists::List;
use ops::keywords::{flag_of, has_flag, predicate_of, with_flag};
use ops::{Cast, Flags, Opcode, Pred, Width};
use std::alloc::Global;

/// Whether a flag that the instruction takes is next.
fn is_flag(taken: Flags, tokens: &[Placed<'_>]) -> bool
    ensures { result ≡ parsing.is_flag taken (seen tokens.now) }
{
    match tokens {
        [Placed { token, .. }, ..] => match *token {
            Token::Word(word) => flag_of(taken, word).is_some(),
            _ => false,
        },
        [] => false,
    }
}

/// Parses a flag that is not among those before, and adds it to them.
#[tactic(auto, unfolding(crate::specs::InstructionReaders::flag_at))]
fn flag(taken: Flags, before: Flags, tokens: &mut &[Placed<'_>]) -> Result<Flags, IrFault>
    ensures { parsing.flag_at taken before (seen tokens.old.now) ≡ readers.given result (seen tokens.new.now) }
{
    match *tokens {
        [Placed { line, token }, rest @ ..] => match *token {
            Token::Word(word) => match flag_of(taken, word) {
                Some(flag) => {
                    if has_flag(before, flag) {
                        Err(fault(*line, IrFaultKind::Syntax))
                    } else {
                        *tokens = rest;
                        Ok(with_flag(before, flag))
                    }
                }
                None => Err(fault(*line, IrFaultKind::Syntax)),
            },
            _ => Err(misplaced(*tokens)),
        },
        [] => Err(misplaced(*tokens)),
    }
}

/// Parses the flags of an instruction: those that it takes, in any order, each at most once.
#[tactic(auto, unfolding(crate::specs::InstructionReaders::flags_at))]
fn flags(taken: Flags, tokens: &mut &[Placed<'_>]) -> Result<Flags, IrFault>
    ensures { parsing.flags_at taken (seen tokens.old.now) ≡ readers.given result (seen tokens.new.now) }
{
    let mut flags = Flags::NONE;
    'flags: while is_flag(taken, *tokens) {
        flags = flag(taken, flags, tokens)?;
    }
    Ok(flags)
}

/// Parses a binary operation, behind its opcode.
#[tactic(auto, unfolding(crate::specs::InstructionReaders::binary_at))]
fn binary(alloc: Global, opcode: Opcode, tokens: &mut &[Placed<'_>]) -> Result<RawOp, IrError>
    ensures { Gives (λ x. (x, seen tokens.new.now)) result (parsing.binary_at opcode (seen tokens.old.now)) }
{
    let flags = flags(opcode.flags(), tokens)?;
    let width = integer_type(alloc, tokens)?;
    let left = operand(alloc, width, tokens)?;
    mark(b',', tokens)?;
    let right = operand(alloc, width, tokens)?;
    Ok(RawOp::Binary(opcode, flags, width, left, right))
}

/// Parses a predicate.
#[tactic(auto, unfolding(crate::specs::InstructionReaders::pred_at))]
fn predicate(alloc: Global, tokens: &mut &[Placed<'_>]) -> Result<Pred, IrError>
    ensures { Gives (λ x. (x, seen tokens.new.now)) result (parsing.pred_at (seen tokens.old.now)) }
{
    match *tokens {
        [Placed { line, token }, rest @ ..] => match *token {
            Token::Word(word) => match predicate_of(word) {
                Some(pred) => {
                    *tokens = rest;
                    Ok(pred)
                }
                None => Err(left_out(alloc, *line, word)),
            },
            _ => Err(unexpected(alloc, Expected::Choice, *tokens)),
        },
        [] => Err(unexpected(alloc, Expected::Choice, *tokens)),
    }
}

/// Parses a comparison, behind `icmp`.
#[tactic(auto, unfolding(crate::specs::InstructionReaders::compare_at))]
fn comparison(alloc: Global, tokens: &mut &[Placed<'_>]) -> Result<RawOp, IrError>
    ensures { Gives (λ x. (x, seen tokens.new.now)) result (parsing.compare_at (seen tokens.old.now)) }
{
    let flags = flags(Flags::SAMESIGN, tokens)?;
    let pred = predicate(alloc, tokens)?;
    let width = integer_type(alloc, tokens)?;
    let left = operand(alloc, width, tokens)?;
    mark(b',', tokens)?;
    let right = operand(alloc, width, tokens)?;
    Ok(RawOp::Compare(pred, flags.samesign, width, left, right))
}

/// Parses a `select`, behind that word.
#[tactic(auto, unfolding(crate::specs::InstructionReaders::select_at))]
fn selection(alloc: Global, tokens: &mut &[Placed<'_>]) -> Result<RawOp, IrError>
    ensures { Gives (λ x. (x, seen tokens.new.now)) result (parsing.select_at (seen tokens.old.now)) }
{
    let condition = typed(alloc, tokens)?;
    mark(b',', tokens)?;
    let if_true = typed(alloc, tokens)?;
    mark(b',', tokens)?;
    let if_false = typed(alloc, tokens)?;
    Ok(RawOp::Select(condition, if_true, if_false))
}

/// Parses a cast, behind its opcode.
#[tactic(auto, unfolding(crate::specs::InstructionReaders::convert_at))]
fn conversion(alloc: Global, cast: Cast, tokens: &mut &[Placed<'_>]) -> Result<RawOp, IrError>
    ensures { Gives (λ x. (x, seen tokens.new.now)) result (parsing.convert_at cast (seen tokens.old.now)) }
{
    let flags = flags(cast.flags(), tokens)?;
    let from = typed(alloc, tokens)?;
    keyword("to", tokens)?;
    let to = integer_type(alloc, tokens)?;
    Ok(RawOp::Convert(cast, flags, from.width, from.operand, to))
}

/// Parses a `freeze`, behind that word.
#[tactic(auto, unfolding(crate::specs::InstructionReaders::freeze_at))]
fn freezing(alloc: Global, tokens: &mut &[Placed<'_>]) -> Result<RawOp, IrError>
    ensures { Gives (λ x. (x, seen tokens.new.now)) result (parsing.freeze_at (seen tokens.old.now)) }
{
    let typed = typed(alloc, tokens)?;
    Ok(RawOp::Freeze(typed.width, typed.operand))
}

/// Parses an incoming value of a `phi` with its block.
#[tactic(auto, unfolding(crate::specs::InstructionReaders::incoming_at))]
fn incoming(alloc: Global, width: Width, tokens: &mut &[Placed<'_>]) -> Result<RawIncoming, IrError>
    ensures { Gives (λ x. (x, seen tokens.new.now)) result (parsing.incoming_at width (seen tokens.old.now)) }
{
    mark(b'[', tokens)?;
    let value = operand(alloc, width, tokens)?;
    mark(b',', tokens)?;
    let block = register(alloc, tokens)?;
    mark(b']', tokens)?;
    Ok(RawIncoming { value, block })
}

/// Whether a further incoming value is next: a `,` that no attachment follows.
fn begins_incoming(tokens: &[Placed<'_>]) -> bool
    ensures { result ≡ parsing.begins_incoming (seen tokens.now) }
{
    match tokens {
        [Placed { token, .. }, rest @ ..] => match *token {
            Token::Mark(mark) => mark == b',' && !is_metadata(rest),
            _ => false,
        },
        [] => false,
    }
}

/// Parses a further incoming value, behind a `,`.
#[tactic(auto, unfolding(crate::specs::InstructionReaders::further_incoming_at))]
fn further_incoming(
    alloc: Global,
    width: Width,
    tokens: &mut &[Placed<'_>],
) -> Result<RawIncoming, IrError>
    ensures { Gives (λ x. (x, seen tokens.new.now)) result (parsing.further_incoming_at width (seen tokens.old.now)) }
{
    mark(b',', tokens)?;
    incoming(alloc, width, tokens)
}

/// Parses any number of further incoming values, and appends them to those in front.
fn incomings(
    alloc: Global,
    width: Width,
    front: List<RawIncoming>,
    tokens: &mut &[Placed<'_>],
) -> Result<List<RawIncoming>, IrError>
    ensures { Gives (λ x. (x, seen tokens.new.now)) result (parsing.incomings_at width front (seen tokens.old.now)) }
{
    let mut incomings = front;
    'incomings: while begins_incoming(*tokens) {
        incomings.push(further_incoming(alloc, width, tokens)?)?;
    }
    Ok(incomings)
}

/// Parses a `phi`, behind that word.
#[tactic(auto, unfolding(crate::specs::InstructionReaders::phi_at))]
fn phi(alloc: Global, tokens: &mut &[Placed<'_>]) -> Result<RawOp, IrError>
    ensures { Gives (λ x. (x, seen tokens.new.now)) result (parsing.phi_at (seen tokens.old.now)) }
{
    let width = integer_type(alloc, tokens)?;
    let mut front = List::new(alloc);
    front.push(incoming(alloc, width, tokens)?)?;
    let incomings = incomings(alloc, width, front, tokens)?;
    Ok(RawOp::Phi(width, incomings))
}

/// Parses an operation behind its first word, which is on this line.
fn behind_opcode(
    alloc: Global,
    line: usize,
    operation: Operation,
    tokens: &mut &[Placed<'_>],
) -> Result<RawOp, IrError>
    ensures { Gives (λ x. (x, seen tokens.new.now)) result (parsing.operation_at line operation (seen tokens.old.now)) }
{
    match operation {
        Operation::Binary(opcode) => binary(alloc, opcode, tokens),
        Operation::Compare => comparison(alloc, tokens),
        Operation::Select => selection(alloc, tokens),
        Operation::Convert(cast) => conversion(alloc, cast, tokens),
        Operation::Freeze => freezing(alloc, tokens),
        Operation::Phi => phi(alloc, tokens),
        Operation::Call => call(alloc, line, tokens),
        Operation::Tail | Operation::NoTail => marked_call(alloc, tokens),
    }
}

/// Parses an operation: what an instruction computes.
#[tactic(auto, unfolding(crate::specs::InstructionReaders::op_at))]
fn op(alloc: Global, tokens: &mut &[Placed<'_>]) -> Result<RawOp, IrError>
    ensures { Gives (λ x. (x, seen tokens.new.now)) result (parsing.op_at (seen tokens.old.now)) }
{
    match *tokens {
        [Placed { line, token }, rest @ ..] => match *token {
            Token::Word(word) => match operation_of(word) {
                Some(operation) => {
                    *tokens = rest;
                    behind_opcode(alloc, *line, operation, tokens)
                }
                None => Err(left_out(alloc, *line, word)),
            },
            _ => Err(unexpected(alloc, Expected::Choice, *tokens)),
        },
        [] => Err(unexpected(alloc, Expected::Choice, *tokens)),
    }
}

/// The production of an instruction of a block.
enum Instruction {}

impl Part for Instruction {
    ghost use Rattle.ir_instructions.specs.InstructionReaders.{is_register, inst_at};

    ghost begins = { is_register };

    ghost reader = { inst_at };

    type Value = RawInst;

    fn is_next(tokens: &[Placed<'_>]) -> bool {
        match tokens {
            [Placed { token, .. }, ..] => matches!(*token, Token::Register(_)),
            [] => false,
        }
    }

    #[tactic(auto, unfolding(crate::specs::InstructionReaders::inst_at))]
    fn read(alloc: Global, tokens: &mut &[Placed<'_>]) -> Result<RawInst, IrError> {
        let result = register(alloc, tokens)?;
        mark(b'=', tokens)?;
        let op = op(alloc, tokens)?;
        tail(tokens)?;
        Ok(RawInst { result, op })
    }
}

/// Parses any number of instructions.
#[tactic(auto, unfolding(crate::specs::InstructionReaders::insts_at))]
pub fn insts(alloc: Global, tokens: &mut &[Placed<'_>]) -> Result<List<RawInst>, IrError>
    ensures read { Gives (λ x. (x, seen tokens.new.now)) result (parsing.insts_at (seen tokens.old.now)) }
    ensures unmoved { OnErr result (tokens.new.now ≡ tokens.old.now) }
{
    each::<Instruction>(alloc, List::new(alloc), tokens)
}
