//! Parsing terminators. (LLVM Language Reference, "Terminator Instructions".)

ghost use Rattle.std.specs.Prelude.{◌≡◌, OnErr};
ghost use Rattle.ir_tokens.specs.SeenTokens.{seen};
ghost use Rattle.refusal.specs.Refusals.{Gives};
ghost use Rattle.ir_instructions.specs.InstructionReaders as parsing;

use crate::operand::{case_value, integer_type, typed};
use crate::part::{Part, each};
use crate::place::{Expected, left_out, unexpected};
use crate::token::{is_keyword, is_mark, mark, target};
use crate::word::{Ending, ending_of};
use ir_tokens::{IrError, Placed, RawCase, RawTerminator, Token};
use lists::List;
use std::alloc::Global;

/// Parses a return, behind `ret`.
#[tactic(auto, unfolding(crate::specs::InstructionReaders::return_at))]
fn returning(alloc: Global, tokens: &mut &[Placed<'_>]) -> Result<RawTerminator, IrError>
    ensures { Gives (λ x. (x, seen tokens.new.now)) result (parsing.return_at (seen tokens.old.now)) }
{
    let typed = typed(alloc, tokens)?;
    Ok(RawTerminator::Return(typed.width, typed.operand))
}

/// Parses a branch on a condition, behind `br`.
#[tactic(auto, unfolding(crate::specs::InstructionReaders::conditional_at))]
fn conditional(alloc: Global, tokens: &mut &[Placed<'_>]) -> Result<RawTerminator, IrError>
    ensures { Gives (λ x. (x, seen tokens.new.now)) result (parsing.conditional_at (seen tokens.old.now)) }
{
    let typed = typed(alloc, tokens)?;
    mark(b',', tokens)?;
    let if_true = target(alloc, tokens)?;
    mark(b',', tokens)?;
    let if_false = target(alloc, tokens)?;
    Ok(RawTerminator::Branch(typed.width, typed.operand, if_true, if_false))
}

/// Parses a branch, behind `br`.
#[tactic(auto, unfolding(crate::specs::InstructionReaders::branch_at, crate::specs::InstructionReaders::jump_at))]
fn branch(alloc: Global, tokens: &mut &[Placed<'_>]) -> Result<RawTerminator, IrError>
    ensures { Gives (λ x. (x, seen tokens.new.now)) result (parsing.branch_at (seen tokens.old.now)) }
{
    if is_keyword("label", *tokens) {
        let target = target(alloc, tokens)?;
        Ok(RawTerminator::Jump(target))
    } else {
        conditional(alloc, tokens)
    }
}

/// The production of a case of a switch.
enum Case {}

impl Part for Case {
    ghost use Rattle.ir_instructions.specs.InstructionReaders.{begins_case, case_at};

    ghost begins = { begins_case };

    ghost reader = { case_at };

    type Value = RawCase;

    fn is_next(tokens: &[Placed<'_>]) -> bool {
        !is_mark(b']', tokens)
    }

    #[tactic(auto, unfolding(crate::specs::InstructionReaders::case_at))]
    fn read(alloc: Global, tokens: &mut &[Placed<'_>]) -> Result<RawCase, IrError> {
        let width = integer_type(alloc, tokens)?;
        let value = case_value(alloc, width, tokens)?;
        mark(b',', tokens)?;
        let target = target(alloc, tokens)?;
        Ok(RawCase {
            width,
            value,
            target,
        })
    }
}

/// Parses the cases of a switch, in their brackets.
#[tactic(auto, unfolding(crate::specs::InstructionReaders::cases_at))]
fn cases(alloc: Global, tokens: &mut &[Placed<'_>]) -> Result<List<RawCase>, IrError>
    ensures { Gives (λ x. (x, seen tokens.new.now)) result (parsing.cases_at (seen tokens.old.now)) }
{
    mark(b'[', tokens)?;
    let cases = each::<Case>(alloc, List::new(alloc), tokens)?;
    mark(b']', tokens)?;
    Ok(cases)
}

/// Parses a switch, behind that word.
#[tactic(auto, unfolding(crate::specs::InstructionReaders::switch_at))]
fn switch(alloc: Global, tokens: &mut &[Placed<'_>]) -> Result<RawTerminator, IrError>
    ensures { Gives (λ x. (x, seen tokens.new.now)) result (parsing.switch_at (seen tokens.old.now)) }
{
    let typed = typed(alloc, tokens)?;
    mark(b',', tokens)?;
    let default = target(alloc, tokens)?;
    let cases = cases(alloc, tokens)?;
    Ok(RawTerminator::Switch(typed.width, typed.operand, default, cases))
}

/// Parses a terminator, behind its first word.
fn behind_word(
    alloc: Global,
    ending: Ending,
    tokens: &mut &[Placed<'_>],
) -> Result<RawTerminator, IrError>
    ensures { Gives (λ x. (x, seen tokens.new.now)) result (parsing.ending_at ending (seen tokens.old.now)) }
{
    match ending {
        Ending::Return => returning(alloc, tokens),
        Ending::Unreachable => Ok(RawTerminator::Unreachable),
        Ending::Branch => branch(alloc, tokens),
        Ending::Switch => switch(alloc, tokens),
    }
}

/// Parses a terminator, with the line of its first word.
#[tactic(auto, unfolding(crate::specs::InstructionReaders::terminator_at))]
pub fn terminator(
    alloc: Global,
    tokens: &mut &[Placed<'_>],
) -> Result<(usize, RawTerminator), IrError>
    ensures read { Gives (λ x. (x, seen tokens.new.now)) result (parsing.terminator_at (seen tokens.old.now)) }
    ensures unmoved { OnErr result (tokens.new.now ≡ tokens.old.now) }
{
    match *tokens {
        [Placed { line, token }, rest @ ..] => match *token {
            Token::Word(word) => match ending_of(word) {
                Some(ending) => {
                    let mut rest = rest;
                    let end = behind_word(alloc, ending, &mut rest)?;
                    *tokens = rest;
                    Ok((*line, end))
                }
                None => Err(left_out(alloc, *line, word)),
            },
            _ => Err(unexpected(alloc, Expected::Instruction, *tokens)),
        },
        [] => Err(unexpected(alloc, Expected::Instruction, *tokens)),
    }
}
