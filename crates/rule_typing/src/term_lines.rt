//! The lines of terms: an operator or a function is of one class with its operands, both sides of a comparison are of
//! one class, a node is of one class with all that has its name, and a mask with the register that has none of its
//! bits.

ghost use Rattle.std.specs.Prelude.{◌≡◌, Some};
ghost use Rattle.rule_typing.specs.Splits.{node_class, node_pairs, term_pairs, term_naming, formula_pairs, formula_naming, IsPairIn, LineOf, TermsLine, FormulasLine, Splits};

use crate::lines::split_classes;
use crate::names::{split_by_name, term_naming};
use rule_core::{Formula, Name, Node, Rule, Term};

/// Two different classes that one of these nodes asks to have one width, or `None`.
pub(crate) fn split_by_terms(rule: &Rule, terms: &[Term]) -> Option<(u32, u32)>
    ensures { Splits (TermsLine rule.now terms.now) result }
{
    for term in terms {
        if let Some(pair) = split_by_term(rule, terms, *term) {
            return Some(pair);
        }
    }
    None
}

/// The same for one of them.
fn split_by_term(rule: &Rule, terms: &[Term], term: Term) -> Option<(u32, u32)>
    ensures { Splits (LineOf rule.now (term_pairs terms.now) term_naming term) result }
{
    match split_by_node(terms, term.class, term.node) {
        Some(pair) => Some(pair),
        None => split_by_name(rule, term_naming(term)),
    }
}

/// The same for an operator or a function of that class and its operands.
fn split_by_node(terms: &[Term], class: u32, node: Node) -> Option<(u32, u32)>
    ensures { Splits (IsPairIn (node_pairs terms.now class node)) result }
{
    match node {
        Node::Unary(_, operand) => split_classes(Some(class), node_class(terms, operand)),
        Node::Binary(_, left, right) => {
            match split_classes(Some(class), node_class(terms, left)) {
                Some(pair) => Some(pair),
                None => split_classes(Some(class), node_class(terms, right)),
            }
        }
        Node::Literal(_) | Node::Constant(_) => None,
        Node::Register(_) | Node::Choice(_) | Node::Width(_, _) => None,
    }
}

/// The same for the nodes of a formula of these terms.
pub(crate) fn split_by_formulas(
    rule: &Rule,
    terms: &[Term],
    formulas: &[Formula],
) -> Option<(u32, u32)>
    ensures { Splits (FormulasLine rule.now terms.now formulas.now) result }
{
    for formula in formulas {
        if let Some(pair) = split_by_formula(rule, terms, *formula) {
            return Some(pair);
        }
    }
    None
}

/// The same for one of them.
fn split_by_formula(rule: &Rule, terms: &[Term], formula: Formula) -> Option<(u32, u32)>
    ensures { Splits (LineOf rule.now (formula_pairs terms.now) (formula_naming terms.now) formula) result }
{
    match split_by_comparison(terms, formula) {
        Some(pair) => Some(pair),
        None => split_by_name(rule, formula_naming(terms, formula)),
    }
}

/// The same for the sides of a comparison.
fn split_by_comparison(terms: &[Term], formula: Formula) -> Option<(u32, u32)>
    ensures { Splits (IsPairIn (formula_pairs terms.now formula)) result }
{
    match formula {
        Formula::Compare(_, left, right) => {
            split_classes(node_class(terms, left), node_class(terms, right))
        }
        Formula::IsPowerOfTwo(_) | Formula::IsSignBit(_) | Formula::HasOneUse(_) => None,
        Formula::MaskedValueIsZero(_, _) | Formula::IsKnownNonZero(_) => None,
        Formula::Not(_) | Formula::And(_, _) | Formula::Or(_, _) => None,
    }
}

/// The register that has no bit of a mask, with the mask's class.
fn formula_naming(terms: &[Term], formula: Formula) -> Option<(Name, u32)>
    ensures { result ≡ formula_naming terms.now formula }
{
    match formula {
        Formula::MaskedValueIsZero(register, mask) => match node_class(terms, mask) {
            Some(class) => Some((Name::Register(register), class)),
            None => None,
        },
        _ => None,
    }
}

/// The class of the node at a place.
pub(crate) fn node_class(terms: &[Term], place: u32) -> Option<u32>
    ensures { result ≡ node_class terms.now place }
{
    if (place as usize) < terms.len() {
        Some(terms[place as usize].class)
    } else {
        None
    }
}
