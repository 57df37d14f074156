//! The choices of statements (`undef`s and freezes), as lists.

ghost use Rattle.std.specs.Prelude.{◌≡◌, ◌++◌, ◌≤◌};
ghost use Rattle.rule_core.specs.Choices.{if_any};
ghost use Rattle.rule_core.specs.Positions.{undef_in, choices_of};

use crate::rule::{Argument, Choice, Op, Operand, Statement};
use std::marker::Model;

/// The choices of a statement, in the order of the text; there are at most three.
#[derive(Drop)]
pub struct Choices {
    held: [Choice; 3],
    count: usize,
    ghost few: { count ≤ 3 },
}

impl Model for Choices {
    ghost use Rattle.std.specs.Prelude.{List, take};
    ghost use Rattle.rule_core.specs.declared.rule.Choice.{Choice};

    ghost Value = { List Choice };

    ghost view = { λ c. take c.count c.held };
}

/// Fills the array behind the last choice.
const NO_CHOICE: Choice = Choice { place: 0, class: 0 };

impl Choices {
    /// The choices of the statement, in the order of the text.
    pub fn of(statement: &Statement) -> Choices
        ensures { result ≡ choices_of statement.now }
    {
        match statement.op {
            Op::Binary(_, _, left, right) | Op::Compare(_, _, left, right) => {
                Choices::listed(undef(left), undef(right), None)
            }
            Op::Select(condition, yes, no) => {
                Choices::listed(undef(condition), undef(yes), undef(no))
            }
            Op::Unary(_, _, operand) | Op::Convert(_, _, operand, _) | Op::Copy(operand) => {
                Choices::listed(undef(operand), None, None)
            }
            Op::Freeze(operand, place) => {
                let class = statement.class;
                Choices::listed(undef(operand), Some(Choice { place, class }), None)
            }
        }
    }

    /// The list of them.
    pub fn as_slice(&self) -> &[Choice]
        ensures { result.now ≡ self.now }
    {
        &self.held[..self.count]
    }

    /// The list of the ones that are `Some`.
    fn listed(first: Option<Choice>, second: Option<Choice>, third: Option<Choice>) -> Choices
        ensures { result ≡ if_any first ++ if_any second ++ if_any third }
    {
        match (first, second, third) {
            (Some(a), Some(b), Some(c)) => Choices {
                held: [a, b, c],
                count: 3,
            },
            (Some(a), Some(b), None) | (Some(a), None, Some(b)) | (None, Some(a), Some(b)) =>
                Choices {
                    held: [a, b, NO_CHOICE],
                    count: 2,
                },
            (Some(a), None, None) | (None, Some(a), None) | (None, None, Some(a)) => Choices {
                held: [a, NO_CHOICE, NO_CHOICE],
                count: 1,
            },
            (None, None, None) => Choices {
                held: [NO_CHOICE, NO_CHOICE, NO_CHOICE],
                count: 0,
            },
        }
    }
}

/// The choice that an operand is, if it is an `undef`.
fn undef(operand: Operand) -> Option<Choice>
    ensures { if_any result ≡ undef_in operand.class operand.value }
{
    let class = operand.class;
    match operand.value {
        Argument::Undef(place) => Some(Choice { place, class }),
        _ => None,
    }
}
