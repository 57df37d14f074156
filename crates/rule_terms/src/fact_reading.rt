//! Facts on the bits of registers, behind their words.

ghost use Rattle.refusal.specs.Refusals.{Gives};
ghost use Rattle.rule_tokens.specs.Limits.{rule_limits};
ghost use Rattle.rule_tokens.specs.SeenTokens.{seen};
ghost use Rattle.rule_terms.specs.FormulaReaders as reading;

use crate::parts::{MOST_NESTED, deeper, register};
use crate::place::TermPlace;
use crate::raw::RawFormula;
use crate::reading::term;
use crate::start::mark;
use lists::List;
use rule_tokens::{BitFact, RuleError, Token};
use std::alloc::Global;

/// A register and a term in parentheses, behind `MaskedValueIsZero`.
#[tactic(auto, unfolding(crate::specs::FormulaReaders::masked_at))]
fn masked(
    alloc: Global,
    nesting: u32,
    line: usize,
    nodes: &mut List<RawFormula>,
    tokens: &mut &[Token<'_>],
) -> Result<(), RuleError>
    ensures { Gives (λ _. (nodes.new, seen tokens.new.now)) result (reading.masked_at rule_limits nesting line nodes.old (seen tokens.old.now)) }
{
    mark("(", line, tokens)?;
    let inside = deeper(line, nesting)?;
    let register = register(alloc, line, tokens)?;
    mark(",", line, tokens)?;
    let term = term(alloc, TermPlace::Constant, inside, line, tokens)?;
    mark(")", line, tokens)?;
    nodes.push(RawFormula::MaskedValueIsZero(register, term))?;
    Ok(())
}

/// A register in parentheses, behind `isKnownNonZero`.
#[tactic(auto, unfolding(crate::specs::FormulaReaders::non_zero_at))]
fn non_zero(
    alloc: Global,
    line: usize,
    nodes: &mut List<RawFormula>,
    tokens: &mut &[Token<'_>],
) -> Result<(), RuleError>
    ensures { Gives (λ _. (nodes.new, seen tokens.new.now)) result (reading.non_zero_at rule_limits line nodes.old (seen tokens.old.now)) }
{
    mark("(", line, tokens)?;
    let register = register(alloc, line, tokens)?;
    mark(")", line, tokens)?;
    nodes.push(RawFormula::IsKnownNonZero(register))?;
    Ok(())
}

/// What stands behind the word of a fact.
pub(crate) fn fact(
    alloc: Global,
    fact: BitFact,
    line: usize,
    nodes: &mut List<RawFormula>,
    tokens: &mut &[Token<'_>],
) -> Result<(), RuleError>
    ensures { Gives (λ _. (nodes.new, seen tokens.new.now)) result (reading.fact_at rule_limits fact line nodes.old (seen tokens.old.now)) }
{
    match fact {
        BitFact::MaskedValueIsZero => masked(alloc, MOST_NESTED, line, nodes, tokens),
        BitFact::IsKnownNonZero => non_zero(alloc, line, nodes, tokens),
    }
}
