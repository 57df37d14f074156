//! Formulas from the tokens of a line, by recursive descent.
//!
//! A comparison binds tighter than `!`, `!` tighter than `&&`, and `&&` tighter than `||`. Chains of `&&` and `||` are
//! loops, so the depth of recursion is that of nesting.

ghost use Rattle.std.specs.Prelude.{◌≡◌, drop, length};
ghost use Rattle.std.specs.List.{list_any};
ghost use Rattle.refusal.specs.Refusals.{Gives};
ghost use Rattle.rule_tokens.specs.SeenTokens.{seen};
ghost use Rattle.rule_tokens.specs.Steps.{Reads};
ghost use Rattle.rule_terms.specs.FormulaReaders as reading;
ghost use Rattle.rule_terms.specs.Grammar.{last_place};
ghost use Rattle.rule_tokens.specs.Limits.{rule_limits};

use crate::fact_reading::fact;
use crate::formula_word::{Opening, Predicate, comparison_of, opening_of, predicate_node};
use crate::parts::{MOST_NESTED, deeper, register};
use crate::place::TermPlace;
use crate::raw::RawFormula;
use crate::reading::term;
use crate::start::mark;
use crate::take::takes;
use lists::List;
use ops::Pred;
use ops::keywords::is;
use rule_tokens::{RuleError, RuleFault, RuleFaultKind, Token, line_end, unexpected};
use std::alloc::Global;

/// The place of the last node, saturated to `u32`.
fn last_place(nodes: &List<RawFormula>) -> u32
    ensures { result ≡ last_place (length nodes.now) }
{
    match u32::try_from(nodes.len().saturating_sub(1)) {
        Ok(place) => place,
        Err(_) => u32::MAX,
    }
}

/// Reads a comparison.
#[tactic(auto, unfolding(crate::specs::FormulaReaders::comparison_at))]
fn comparison(line: usize, tokens: &mut &[Token<'_>]) -> Result<Pred, RuleFault>
    ensures { Reads (λ x. (x, seen tokens.new.now)) result (reading.comparison_at line (seen tokens.old.now)) }
{
    match *tokens {
        [Token::Mark(mark), rest @ ..] => match comparison_of(mark) {
            Some(pred) => {
                *tokens = rest;
                Ok(pred)
            }
            None => {
                let kind = RuleFaultKind::Syntax;
                Err(RuleFault { line, kind })
            }
        },
        _ => Err(unexpected(line, *tokens)),
    }
}

/// Reads two terms with a comparison between them.
#[tactic(auto, unfolding(crate::specs::FormulaReaders::compares_at))]
fn compares(
    alloc: Global,
    nesting: u32,
    line: usize,
    nodes: &mut List<RawFormula>,
    tokens: &mut &[Token<'_>],
) -> Result<(), RuleError>
    ensures { Gives (λ _. (nodes.new, seen tokens.new.now)) result (reading.compares_at rule_limits nesting line nodes.old (seen tokens.old.now)) }
{
    let left = term(alloc, TermPlace::Constant, nesting, line, tokens)?;
    let pred = comparison(line, tokens)?;
    let right = term(alloc, TermPlace::Constant, nesting, line, tokens)?;
    nodes.push(RawFormula::Compare(pred, left, right))?;
    Ok(())
}

/// Reads a term in parentheses, behind its predicate.
#[tactic(auto, unfolding(crate::specs::FormulaReaders::tests_at))]
fn tests(
    alloc: Global,
    predicate: Predicate,
    nesting: u32,
    line: usize,
    nodes: &mut List<RawFormula>,
    tokens: &mut &[Token<'_>],
) -> Result<(), RuleError>
    ensures { Gives (λ _. (nodes.new, seen tokens.new.now)) result (reading.tests_at rule_limits predicate nesting line nodes.old (seen tokens.old.now)) }
{
    mark("(", line, tokens)?;
    let inside = deeper(line, nesting)?;
    let term = term(alloc, TermPlace::Constant, inside, line, tokens)?;
    mark(")", line, tokens)?;
    nodes.push(predicate_node(predicate, term))?;
    Ok(())
}

/// Reads a register in parentheses, behind `hasOneUse`.
#[tactic(auto, unfolding(crate::specs::FormulaReaders::one_use_at))]
fn one_use(
    alloc: Global,
    line: usize,
    nodes: &mut List<RawFormula>,
    tokens: &mut &[Token<'_>],
) -> Result<(), RuleError>
    ensures { Gives (λ _. (nodes.new, seen tokens.new.now)) result (reading.one_use_at rule_limits line nodes.old (seen tokens.old.now)) }
{
    mark("(", line, tokens)?;
    let register = register(alloc, line, tokens)?;
    mark(")", line, tokens)?;
    nodes.push(RawFormula::HasOneUse(register))?;
    Ok(())
}

/// Takes the first token.
fn skip(tokens: &mut &[Token<'_>])
    ensures { seen tokens.new.now ≡ drop 1 (seen tokens.old.now) }
{
    if let [_, rest @ ..] = *tokens {
        *tokens = rest;
    }
}

/// Reads a member of a formula, with `nesting` levels of nesting left.
#[cycle(formula)]
fn member(
    alloc: Global,
    nesting: u32,
    line: usize,
    nodes: &mut List<RawFormula>,
    tokens: &mut &[Token<'_>],
) -> Result<(), RuleError>
    ensures { Gives (λ _. (nodes.new, seen tokens.new.now)) result (reading.member_at rule_limits nesting line nodes.old (seen tokens.old.now)) }
{
    match opening_of(*tokens) {
        Opening::Turns => {
            let inside = deeper(line, nesting)?;
            skip(tokens);
            member(alloc, inside, line, nodes, tokens)?;
            let turned = last_place(nodes);
            nodes.push(RawFormula::Not(turned))?;
            Ok(())
        }
        Opening::Encloses => {
            let inside = deeper(line, nesting)?;
            skip(tokens);
            alternatives(alloc, inside, line, nodes, tokens)?;
            mark(")", line, tokens)?;
            Ok(())
        }
        Opening::Tests(predicate) => {
            skip(tokens);
            tests(alloc, predicate, nesting, line, nodes, tokens)
        }
        Opening::Compares => compares(alloc, nesting, line, nodes, tokens),
    }
}

/// Reads members joined by `&&`.
#[cycle(formula)]
fn members(
    alloc: Global,
    nesting: u32,
    line: usize,
    nodes: &mut List<RawFormula>,
    tokens: &mut &[Token<'_>],
) -> Result<(), RuleError>
    ensures { Gives (λ _. (nodes.new, seen tokens.new.now)) result (reading.members_of (reading.member_at rule_limits nesting line) nodes.old (seen tokens.old.now)) }
{
    member(alloc, nesting, line, nodes, tokens)?;
    more_members(alloc, nesting, line, nodes, tokens)
}

/// Reads the members of a `&&` behind the first one.
#[cycle(formula)]
fn more_members(
    alloc: Global,
    nesting: u32,
    line: usize,
    nodes: &mut List<RawFormula>,
    tokens: &mut &[Token<'_>],
) -> Result<(), RuleError>
    ensures { Gives (λ _. (nodes.new, seen tokens.new.now)) result (reading.more_members (reading.member_at rule_limits nesting line) nodes.old (seen tokens.old.now)) }
{
    while takes("&&", tokens) {
        let left = last_place(nodes);
        member(alloc, nesting, line, nodes, tokens)?;
        let right = last_place(nodes);
        nodes.push(RawFormula::And(left, right))?;
    }
    Ok(())
}

/// Reads conjunctions joined by `||`.
#[cycle(formula)]
fn alternatives(
    alloc: Global,
    nesting: u32,
    line: usize,
    nodes: &mut List<RawFormula>,
    tokens: &mut &[Token<'_>],
) -> Result<(), RuleError>
    ensures { Gives (λ _. (nodes.new, seen tokens.new.now)) result (reading.alternatives_of (reading.member_at rule_limits nesting line) nodes.old (seen tokens.old.now)) }
{
    members(alloc, nesting, line, nodes, tokens)?;
    more_alternatives(alloc, nesting, line, nodes, tokens)
}

/// Reads the conjunctions of a `||` behind the first one.
#[cycle(formula)]
fn more_alternatives(
    alloc: Global,
    nesting: u32,
    line: usize,
    nodes: &mut List<RawFormula>,
    tokens: &mut &[Token<'_>],
) -> Result<(), RuleError>
    ensures { Gives (λ _. (nodes.new, seen tokens.new.now)) result (reading.more_alternatives (reading.member_at rule_limits nesting line) nodes.old (seen tokens.old.now)) }
{
    while takes("||", tokens) {
        let left = last_place(nodes);
        members(alloc, nesting, line, nodes, tokens)?;
        let right = last_place(nodes);
        nodes.push(RawFormula::Or(left, right))?;
    }
    Ok(())
}

/// Reads a member of the outermost `&&`, where `hasOneUse` may stand.
#[tactic(auto, unfolding(crate::specs::FormulaReaders::outer_member_at))]
fn outer_member(
    alloc: Global,
    line: usize,
    nodes: &mut List<RawFormula>,
    tokens: &mut &[Token<'_>],
) -> Result<(), RuleError>
    ensures { Gives (λ _. (nodes.new, seen tokens.new.now)) result (reading.outer_member_at rule_limits line nodes.old (seen tokens.old.now)) }
{
    match *tokens {
        [Token::Word(word), rest @ ..] if is(word, "hasOneUse") => {
            *tokens = rest;
            one_use(alloc, line, nodes, tokens)
        }
        [Token::Fact(found), rest @ ..] => {
            let found = *found;
            *tokens = rest;
            fact(alloc, found, line, nodes, tokens)
        }
        _ => member(alloc, MOST_NESTED, line, nodes, tokens),
    }
}

/// Reads the members of the outermost `&&` behind the first one.
fn more_outer_members(
    alloc: Global,
    line: usize,
    nodes: &mut List<RawFormula>,
    tokens: &mut &[Token<'_>],
) -> Result<(), RuleError>
    ensures { Gives (λ _. (nodes.new, seen tokens.new.now)) result (reading.more_members (reading.outer_member_at rule_limits line) nodes.old (seen tokens.old.now)) }
{
    while takes("&&", tokens) {
        let left = last_place(nodes);
        outer_member(alloc, line, nodes, tokens)?;
        let right = last_place(nodes);
        nodes.push(RawFormula::And(left, right))?;
    }
    Ok(())
}

/// Whether a node is among them that may stand as a member of the outermost `&&` alone.
fn has_outer(nodes: &[RawFormula]) -> bool
    ensures { result ≡ list_any reading.is_outer nodes.now }
{
    nodes.iter().any(|node| is_outer(node))
}

/// Whether a node may stand as a member of the outermost `&&` alone.
fn is_outer(node: &RawFormula) -> bool
    ensures { result ≡ reading.is_outer node.now }
{
    match node {
        RawFormula::HasOneUse(_)
        | RawFormula::MaskedValueIsZero(_, _)
        | RawFormula::IsKnownNonZero(_) => true,
        _ => false,
    }
}

/// Reads the formula of a precondition, behind `Pre:`, and the end of its line. The answer is its nodes, each behind
/// its operands.
///
/// # Errors
///
/// Refused: the fault of the first token that does not fit. NoMemory: there was no memory.
#[tactic(auto, unfolding(crate::specs::FormulaReaders::formula_at))]
pub fn formula(
    alloc: Global,
    line: usize,
    tokens: &mut &[Token<'_>],
) -> Result<List<RawFormula>, RuleError>
    ensures { Gives (λ x. (x, seen tokens.new.now)) result (reading.formula_at rule_limits line (seen tokens.old.now)) }
{
    let mut nodes = List::new(alloc);
    outer_member(alloc, line, &mut nodes, tokens)?;
    more_outer_members(alloc, line, &mut nodes, tokens)?;
    if !has_outer(nodes.as_slice()) {
        more_alternatives(alloc, MOST_NESTED, line, &mut nodes, tokens)?;
    }
    line_end(line, *tokens)?;
    Ok(nodes)
}
