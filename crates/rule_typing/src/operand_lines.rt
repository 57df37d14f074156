//! Operands: each has the width of the term that it is, and of each position with its name.

ghost use Rattle.std.specs.Prelude.{◌≡◌, Some};
ghost use Rattle.rule_typing.specs.Splits.{term_class, operand_pairs, operand_naming, LineOf, OperandsLine, Splits};

use crate::lines::split_classes;
use crate::names::{operand_naming, split_by_name};
use crate::term_lines::node_class;
use rule_core::{Argument, Operand, Rule};

/// Two different classes that one of these operands asks to have one width, or `None`.
pub(crate) fn split_by_operands(rule: &Rule, operands: &[Operand]) -> Option<(u32, u32)>
    ensures { Splits (OperandsLine rule.now operands.now) result }
{
    for operand in operands {
        if let Some(pair) = split_by_operand(rule, *operand) {
            return Some(pair);
        }
    }
    None
}

/// The same for one operand.
fn split_by_operand(rule: &Rule, operand: Operand) -> Option<(u32, u32)>
    ensures { Splits (LineOf rule.now (operand_pairs rule.now) operand_naming operand) result }
{
    let term = term_class(rule, operand.value);
    match split_classes(Some(operand.class), term) {
        Some(pair) => Some(pair),
        None => split_by_name(rule, operand_naming(operand)),
    }
}

/// The class of the term that an operand is, if it is one.
fn term_class(rule: &Rule, value: Argument) -> Option<u32>
    ensures { result ≡ term_class rule.now value }
{
    match value {
        Argument::Term(place) => node_class(rule.terms.as_slice(), place),
        Argument::Register(_) | Argument::Literal(_) | Argument::Truth(_) => None,
        Argument::Constant(_) | Argument::Undef(_) => None,
    }
}
