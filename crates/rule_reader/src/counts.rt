//! Counts of the choices and of the nodes of terms before a place in a half, from which they get their numbers.

ghost use Rattle.std.specs.Prelude.{◌≡◌};
ghost use Rattle.rule_reader.specs.Meaning.{past, past_all, counted_of, in_half};
ghost use Rattle.rule_reader.specs.KnownRules.{half_of, AreFew};
ghost use Rattle.rule_reader.specs.WellFormed.{IsWellFormed};

use crate::place::Half;
use rule_parse::{RawArgument, RawOp, RawRule, RawStatement};

/// How many choices (`undef`s and freezes) and nodes of terms come before a place in a half.
#[derive(Clone, Copy, PartialEq, Eq)]
pub(crate) struct Counts {
    pub(crate) choices: u32,
    pub(crate) nodes: u32,
}

impl Counts {
    /// At the beginning of a half nothing is counted.
    pub(crate) const NONE: Counts = Counts {
        choices: 0,
        nodes: 0,
    };

    /// The counts behind an operand, from those before it.
    pub(crate) fn past(self, argument: &RawArgument) -> Counts
        requires { AreFew (past self argument.now) }
        ensures { result ≡ past self argument.now }
    {
        match argument {
            RawArgument::Undef => Counts {
                choices: self.choices + 1,
                nodes: self.nodes,
            },
            RawArgument::Term(term) => Counts {
                choices: self.choices,
                nodes: self.nodes + term.len() as u32,
            },
            RawArgument::Register(_)
            | RawArgument::Literal(_)
            | RawArgument::Truth(_)
            | RawArgument::Constant(_) => self,
        }
    }

    /// The counts behind a statement, from those before it.
    pub(crate) fn past_op(self, op: &RawOp) -> Counts
        requires { AreFew (past_all self (counted_of op.now)) }
        ensures { result ≡ past_all self (counted_of op.now) }
    {
        match op {
            RawOp::Binary(_, _, left, right) | RawOp::Compare(_, _, left, right) => {
                self.past(&left.value).past(&right.value)
            }
            RawOp::Select(condition, if_true, if_false) => self
                .past(&condition.value)
                .past(&if_true.value)
                .past(&if_false.value),
            RawOp::Unary(_, _, operand) | RawOp::Convert(_, _, operand, _) | RawOp::Copy(operand) =>
                self.past(&operand.value),
            RawOp::Freeze(operand) => self.past(&operand.value).past(&RawArgument::Undef),
        }
    }
}

/// The counts of a whole half.
fn in_half(statements: &[RawStatement]) -> Counts
    requires { AreFew (in_half statements.now) }
    ensures { result ≡ in_half statements.now }
{
    let mut counts = Counts::NONE;
    for statement in statements {
        counts = counts.past_op(&statement.op);
    }
    counts
}

/// How many choices there are in a half of a rule.
pub(crate) fn choices_in(rule: &RawRule, half: Half) -> u32
    requires { IsWellFormed rule.now }
    ensures { result ≡ (in_half (half_of half rule.now)).choices }
{
    in_half(half.of(rule)).choices
}
