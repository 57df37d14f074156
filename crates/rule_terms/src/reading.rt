//! Terms from the tokens of a line, by recursive descent over precedence levels. Operators of one level are read in a
//! loop, so the depth of recursion is bounded by nesting and the number of levels.

ghost use Rattle.std.specs.Prelude.{◌≡◌, length, Some, None, IfSome, IfNone, OnOk};
ghost use Rattle.refusal.specs.Refusals.{Gives};
ghost use Rattle.rule_tokens.specs.SeenTokens.{seen};
ghost use Rattle.rule_terms.specs.Grammar.{last_place};
ghost use Rattle.rule_terms.specs.TermReaders as parsing;
ghost use Rattle.rule_tokens.specs.Limits.{rule_limits};

use crate::place::TermPlace;
use crate::raw::{RawNode, RawTerm};
use crate::start::{Start, begin, mark, measured};
use crate::word::{level_of, operator_of};
use ops::Opcode;
use refusal::refused;
use rule_core::Function;
use rule_tokens::{RuleError, RuleFaultKind, Token};
use std::alloc::{AllocError, Global};

/// The level of the loosest operators, so of a whole term.
const LOOSEST: u32 = 6;

/// Where a term stands in a text, and with what memory it is read.
#[derive(Clone, Copy)]
struct Site {
    alloc: Global,
    place: TermPlace,
    line: usize,
}

/// The place of the last node, saturated to `u32`.
fn last_place(nodes: &RawTerm) -> u32
    ensures { result ≡ last_place (length nodes.now) }
{
    match u32::try_from(nodes.len().saturating_sub(1)) {
        Ok(place) => place,
        Err(_) => u32::MAX,
    }
}

/// Adds a unary operator or a function of the last node.
fn push_unary(function: Function, nodes: &mut RawTerm) -> Result<(), AllocError>
    ensures { OnOk result (nodes.new ≡ parsing.add_unary function nodes.old) }
{
    let operand = last_place(nodes);
    nodes.push(RawNode::Unary(function, operand))?;
    Ok(())
}

/// Takes the operator that is next, if it is of the level.
#[tactic(auto, unfolding(crate::specs::TermReaders::operator_at))]
fn operator(level: u32, tokens: &mut &[Token<'_>]) -> Option<Opcode>
    ensures some { IfSome result (λ op. parsing.operator_at level (seen tokens.old.now) ≡ Some (op, seen tokens.new.now)) }
    ensures none { IfNone result (parsing.operator_at level (seen tokens.old.now) ≡ None) }
    ensures stays { IfNone result (seen tokens.new.now ≡ seen tokens.old.now) }
{
    let [Token::Mark(mark), rest @ ..] = *tokens else {
        return None;
    };
    let opcode = operator_of(mark)?;
    if level_of(opcode) == level {
        *tokens = rest;
        Some(opcode)
    } else {
        None
    }
}

/// Reads what is behind an operand: operators of the levels up to this one with their right operands.
#[cycle(terms)]
fn behind(
    site: &Site,
    nesting: u32,
    level: u32,
    nodes: &mut RawTerm,
    tokens: &mut &[Token<'_>],
) -> Result<(), RuleError>
    ensures { Gives (λ _. (nodes.new, seen tokens.new.now)) result (parsing.behind_at (parsing.primary_at rule_limits site.now.place site.now.line nesting) level nodes.old (seen tokens.old.now)) }
{
    if level == 0 {
        return Ok(());
    }
    behind(site, nesting, level - 1, nodes, tokens)?;
    while let Some(opcode) = operator(level, tokens) {
        let left = last_place(nodes);
        operand(site, nesting, level - 1, nodes, tokens)?;
        let right = last_place(nodes);
        nodes.push(RawNode::Binary(opcode, left, right))?;
    }
    Ok(())
}

/// Reads an operand with binary operators of the levels up to this one.
#[cycle(terms)]
fn operand(
    site: &Site,
    nesting: u32,
    level: u32,
    nodes: &mut RawTerm,
    tokens: &mut &[Token<'_>],
) -> Result<(), RuleError>
    ensures { Gives (λ _. (nodes.new, seen tokens.new.now)) result (parsing.operand_at (parsing.primary_at rule_limits site.now.place site.now.line nesting) level nodes.old (seen tokens.old.now)) }
{
    primary(site, nesting, nodes, tokens)?;
    behind(site, nesting, level, nodes, tokens)
}

/// Reads a term, behind its `(`, and the `)` behind it.
#[cycle(terms)]
fn inside(
    site: &Site,
    nesting: u32,
    nodes: &mut RawTerm,
    tokens: &mut &[Token<'_>],
) -> Result<(), RuleError>
    ensures { Gives (λ _. (nodes.new, seen tokens.new.now)) result (parsing.inside_at site.now.line (parsing.primary_at rule_limits site.now.place site.now.line nesting) nodes.old (seen tokens.old.now)) }
{
    operand(site, nesting, LOOSEST, nodes, tokens)?;
    mark(")", site.line, tokens)?;
    Ok(())
}

/// Adds the node of an operand of one token, where no level of nesting is left for another.
fn shallow(line: usize, start: Start, nodes: &mut RawTerm) -> Result<(), RuleError>
    ensures { Gives (λ _. nodes.new) result (parsing.shallow_in line nodes.old start) }
{
    match start {
        Start::Leaf(node) => {
            nodes.push(node)?;
            Ok(())
        }
        Start::Prefix(_) | Start::Parenthesis | Start::Call(_) | Start::Width => {
            Err(refused(line, RuleFaultKind::TooMany))
        }
    }
}

/// Reads what is behind the beginning of an operand, with `nesting` levels of nesting left in it.
#[cycle(terms)]
fn begun(
    site: &Site,
    nesting: u32,
    start: Start,
    nodes: &mut RawTerm,
    tokens: &mut &[Token<'_>],
) -> Result<(), RuleError>
    ensures { Gives (λ _. (nodes.new, seen tokens.new.now)) result (parsing.begun_at rule_limits site.now.line (parsing.primary_at rule_limits site.now.place site.now.line nesting) nodes.old start (seen tokens.old.now)) }
{
    match start {
        Start::Leaf(node) => nodes.push(node)?,
        Start::Prefix(function) => {
            primary(site, nesting, nodes, tokens)?;
            push_unary(function, nodes)?;
        }
        Start::Parenthesis => inside(site, nesting, nodes, tokens)?,
        Start::Call(function) => {
            inside(site, nesting, nodes, tokens)?;
            push_unary(function, nodes)?;
        }
        Start::Width => {
            let name = measured(site.alloc, site.line, tokens)?;
            nodes.push(RawNode::Width(name))?;
        }
    }
    Ok(())
}

/// Reads an operand of level 0, without binary operators outside parentheses, with `nesting` levels of nesting left.
#[cycle(terms)]
fn primary(
    site: &Site,
    nesting: u32,
    nodes: &mut RawTerm,
    tokens: &mut &[Token<'_>],
) -> Result<(), RuleError>
    ensures { Gives (λ _. (nodes.new, seen tokens.new.now)) result (parsing.primary_at rule_limits site.now.place site.now.line nesting nodes.old (seen tokens.old.now)) }
{
    let start = begin(site.alloc, site.place, site.line, tokens)?;
    if nesting == 0 {
        return shallow(site.line, start, nodes);
    }
    begun(site, nesting - 1, start, nodes, tokens)
}

/// Reads a term. At most `nesting` parentheses and unary operators are open at a token; one more is `TooMany`. It takes
/// as many steps as the term has tokens.
#[tactic(auto, unfolding(crate::specs::TermReaders::term_at))]
pub fn term(
    alloc: Global,
    place: TermPlace,
    nesting: u32,
    line: usize,
    tokens: &mut &[Token<'_>],
) -> Result<RawTerm, RuleError>
    ensures { Gives (λ x. (x, seen tokens.new.now)) result (parsing.term_at rule_limits place nesting line (seen tokens.old.now)) }
{
    let site = Site { alloc, place, line };
    let mut nodes = RawTerm::new(alloc);
    operand(&site, nesting, LOOSEST, &mut nodes, tokens)?;
    Ok(nodes)
}
