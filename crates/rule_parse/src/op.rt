//! What a statement computes, from the tokens of its line.

ghost use Rattle.std.specs.Prelude.{◌≡◌, drop, IfSome, IfNone};
ghost use Rattle.ops.specs.Flags.{no_flags};
ghost use Rattle.refusal.specs.Refusals.{Gives};
ghost use Rattle.rule_parse.specs.RuleReaders as parsing;
ghost use Rattle.rule_tokens.specs.SeenTokens.{seen};
ghost use Rattle.rule_tokens.specs.Steps.{Reads};
ghost use Rattle.rule_tokens.specs.Limits.{rule_limits};

use crate::half::Half;
use crate::operand::{operand, result_type, typed};
use crate::raw::{RawOp, RawOperand};
use crate::word::{Operation, is_truth_flag, operation_of};
use ops::keywords::{Flag, flag_of, has_flag, predicate_of, with_flag};
use ops::{Cast, Flags, Opcode, Pred, Unary};
use rule_terms::mark;
use rule_tokens::{
    RuleError, RuleFault, RuleFaultKind, Token, Version, line_end, misplaced, misplaced_word,
    unexpected,
};
use std::alloc::Global;

/// Takes the flag that is next, if it is one of those that the instruction takes.
fn flag(taken: Flags, tokens: &mut &[Token<'_>]) -> Option<Flag>
    ensures flag { result ≡ parsing.next_flag taken (seen tokens.old.now) }
    ensures goes { IfSome result (λ _. seen tokens.new.now ≡ drop 1 (seen tokens.old.now)) }
    ensures stays { IfNone result (seen tokens.new.now ≡ seen tokens.old.now) }
{
    let [Token::Word(word), rest @ ..] = *tokens else {
        return None;
    };
    let flag = flag_of(taken, word)?;
    *tokens = rest;
    Some(flag)
}

/// Reads flags, of those that the instruction takes, in any order, each at most once.
fn flags(taken: Flags, line: usize, tokens: &mut &[Token<'_>]) -> Result<Flags, RuleFault>
    ensures { Reads (λ x. (x, seen tokens.new.now)) result (parsing.flags_at taken line no_flags (seen tokens.old.now)) }
{
    let mut flags = Flags::NONE;
    while let Some(flag) = flag(taken, tokens) {
        if has_flag(flags, flag) {
            let kind = RuleFaultKind::Syntax;
            return Err(RuleFault { line, kind });
        }
        flags = with_flag(flags, flag);
    }
    Ok(flags)
}

/// Reads two operands, with one type before them, and the end of the line.
#[tactic(auto, unfolding(crate::specs::RuleReaders::pair_at))]
fn pair(
    alloc: Global,
    half: Half,
    line: usize,
    tokens: &mut &[Token<'_>],
) -> Result<(RawOperand, RawOperand), RuleError>
    ensures { Gives (λ x. (x, seen tokens.new.now)) result (parsing.pair_at rule_limits half line (seen tokens.old.now)) }
{
    let left = operand(alloc, half, line, tokens)?;
    mark(",", line, tokens)?;
    let right = typed(alloc, half, line, None, tokens)?;
    line_end(line, *tokens)?;
    Ok((left, right))
}

/// A binary operation, behind its opcode.
#[tactic(auto, unfolding(crate::specs::RuleReaders::binary_at))]
fn binary(
    alloc: Global,
    half: Half,
    line: usize,
    opcode: Opcode,
    tokens: &mut &[Token<'_>],
) -> Result<RawOp, RuleError>
    ensures { Gives (λ x. (x, seen tokens.new.now)) result (parsing.binary_at rule_limits half line opcode (seen tokens.old.now)) }
{
    let flags = flags(opcode.flags(), line, tokens)?;
    let (left, right) = pair(alloc, half, line, tokens)?;
    Ok(RawOp::Binary(opcode, flags, left, right))
}

/// Reads a predicate.
#[tactic(auto, unfolding(crate::specs::RuleReaders::pred_at))]
fn predicate(alloc: Global, line: usize, tokens: &mut &[Token<'_>]) -> Result<Pred, RuleError>
    ensures { Gives (λ x. (x, seen tokens.new.now)) result (parsing.pred_at line (seen tokens.old.now)) }
{
    match *tokens {
        [Token::Word(word), rest @ ..] => match predicate_of(word) {
            Some(pred) => {
                *tokens = rest;
                Ok(pred)
            }
            None => Err(misplaced_word(alloc, line, word)),
        },
        _ => Err(unexpected(line, *tokens).into()),
    }
}

/// A comparison, behind `icmp`.
#[tactic(auto, unfolding(crate::specs::RuleReaders::compare_at))]
fn comparison(
    alloc: Global,
    half: Half,
    line: usize,
    tokens: &mut &[Token<'_>],
) -> Result<RawOp, RuleError>
    ensures { Gives (λ x. (x, seen tokens.new.now)) result (parsing.compare_at rule_limits half line (seen tokens.old.now)) }
{
    let flags = flags(Flags::SAMESIGN, line, tokens)?;
    let pred = predicate(alloc, line, tokens)?;
    let (left, right) = pair(alloc, half, line, tokens)?;
    Ok(RawOp::Compare(pred, flags.samesign, left, right))
}

/// Whether the flag is next by which the truth value of the intrinsic is true.
fn is_truth_next(op: Unary, tokens: &[Token<'_>]) -> bool
    ensures { result ≡ parsing.is_truth_next op (seen tokens.now) }
{
    match tokens {
        [Token::Word(word), ..] => is_truth_flag(op, word),
        _ => false,
    }
}

/// Reads the truth value of an intrinsic: true where its flag is next, which may not be repeated.
#[tactic(auto, unfolding(crate::specs::RuleReaders::truth_at))]
fn truth(op: Unary, line: usize, tokens: &mut &[Token<'_>]) -> Result<bool, RuleFault>
    ensures { Reads (λ x. (x, seen tokens.new.now)) result (parsing.truth_at op line (seen tokens.old.now)) }
{
    let [_, rest @ ..] = *tokens else {
        return Ok(false);
    };
    if !is_truth_next(op, *tokens) {
        return Ok(false);
    }
    if is_truth_next(op, rest) {
        let kind = RuleFaultKind::Syntax;
        return Err(RuleFault { line, kind });
    }
    *tokens = rest;
    Ok(true)
}

/// An intrinsic on one operand, behind its opcode.
#[tactic(auto, unfolding(crate::specs::RuleReaders::unary_at))]
fn intrinsic(
    alloc: Global,
    half: Half,
    line: usize,
    op: Unary,
    tokens: &mut &[Token<'_>],
) -> Result<RawOp, RuleError>
    ensures { Gives (λ x. (x, seen tokens.new.now)) result (parsing.unary_at rule_limits half line op (seen tokens.old.now)) }
{
    let truth = truth(op, line, tokens)?;
    let operand = operand(alloc, half, line, tokens)?;
    line_end(line, *tokens)?;
    Ok(RawOp::Unary(op, truth, operand))
}

/// The operands of a `select`, behind its opcode.
#[tactic(auto, unfolding(crate::specs::RuleReaders::select_at))]
fn selection(
    alloc: Global,
    half: Half,
    line: usize,
    tokens: &mut &[Token<'_>],
) -> Result<RawOp, RuleError>
    ensures { Gives (λ x. (x, seen tokens.new.now)) result (parsing.select_at rule_limits half line (seen tokens.old.now)) }
{
    let condition = operand(alloc, half, line, tokens)?;
    mark(",", line, tokens)?;
    let if_true = operand(alloc, half, line, tokens)?;
    mark(",", line, tokens)?;
    let if_false = operand(alloc, half, line, tokens)?;
    line_end(line, *tokens)?;
    Ok(RawOp::Select(condition, if_true, if_false))
}

/// A cast, behind its opcode.
#[tactic(auto, unfolding(crate::specs::RuleReaders::convert_at))]
fn conversion(
    alloc: Global,
    half: Half,
    line: usize,
    cast: Cast,
    tokens: &mut &[Token<'_>],
) -> Result<RawOp, RuleError>
    ensures { Gives (λ x. (x, seen tokens.new.now)) result (parsing.convert_at rule_limits half line cast (seen tokens.old.now)) }
{
    let flags = flags(cast.flags(), line, tokens)?;
    let from = operand(alloc, half, line, tokens)?;
    let to = result_type(alloc, line, tokens)?;
    Ok(RawOp::Convert(cast, flags, from, to))
}

/// A freeze, behind its opcode.
#[tactic(auto, unfolding(crate::specs::RuleReaders::freeze_at))]
fn freeze(
    alloc: Global,
    half: Half,
    line: usize,
    tokens: &mut &[Token<'_>],
) -> Result<RawOp, RuleError>
    ensures { Gives (λ x. (x, seen tokens.new.now)) result (parsing.freeze_at rule_limits half line (seen tokens.old.now)) }
{
    let operand = operand(alloc, half, line, tokens)?;
    line_end(line, *tokens)?;
    Ok(RawOp::Freeze(operand))
}

/// A copy.
#[tactic(auto, unfolding(crate::specs::RuleReaders::copy_at))]
fn copy(alloc: Global, line: usize, tokens: &mut &[Token<'_>]) -> Result<RawOp, RuleError>
    ensures { Gives (λ x. (x, seen tokens.new.now)) result (parsing.copy_at rule_limits line (seen tokens.old.now)) }
{
    let operand = operand(alloc, Half::Target, line, tokens)?;
    line_end(line, *tokens)?;
    Ok(RawOp::Copy(operand))
}

/// Reads the operation, behind its opcode.
fn behind_opcode(
    alloc: Global,
    half: Half,
    line: usize,
    operation: Operation,
    tokens: &mut &[Token<'_>],
) -> Result<RawOp, RuleError>
    ensures { Gives (λ x. (x, seen tokens.new.now)) result (parsing.operation_at rule_limits half line operation (seen tokens.old.now)) }
{
    match operation {
        Operation::Binary(opcode) => binary(alloc, half, line, opcode, tokens),
        Operation::Compare => comparison(alloc, half, line, tokens),
        Operation::Unary(op) => intrinsic(alloc, half, line, op, tokens),
        Operation::Select => selection(alloc, half, line, tokens),
        Operation::Convert(cast) => conversion(alloc, half, line, cast, tokens),
        Operation::Freeze => freeze(alloc, half, line, tokens),
    }
}

/// Reads what has no opcode: in a target a copy, in a source a fault.
fn other(
    alloc: Global,
    half: Half,
    line: usize,
    tokens: &mut &[Token<'_>],
) -> Result<RawOp, RuleError>
    ensures { Gives (λ x. (x, seen tokens.new.now)) result (parsing.other_at rule_limits half line (seen tokens.old.now)) }
{
    match half {
        Half::Source => Err(misplaced(alloc, line, *tokens)),
        Half::Target => copy(alloc, line, tokens),
    }
}

/// The operation of the version whose opcode is next.
fn next_operation(version: Version, tokens: &[Token<'_>]) -> Option<Operation>
    ensures { result ≡ parsing.next_operation version (seen tokens.now) }
{
    match tokens {
        [Token::Word(word), ..] => operation_of(version, false, word),
        [Token::Opcode(word), ..] => operation_of(version, true, word),
        _ => None,
    }
}

/// Reads what a statement computes, behind its `=`, and the end of the line.
#[tactic(auto, unfolding(crate::specs::RuleReaders::op_at))]
pub(crate) fn op(
    alloc: Global,
    version: Version,
    half: Half,
    line: usize,
    tokens: &mut &[Token<'_>],
) -> Result<RawOp, RuleError>
    ensures { Gives (λ x. (x, seen tokens.new.now)) result (parsing.op_at rule_limits version half line (seen tokens.old.now)) }
{
    let [_, rest @ ..] = *tokens else {
        return other(alloc, half, line, tokens);
    };
    match next_operation(version, *tokens) {
        Some(operation) => {
            *tokens = rest;
            behind_opcode(alloc, half, line, operation, tokens)
        }
        None => other(alloc, half, line, tokens),
    }
}
