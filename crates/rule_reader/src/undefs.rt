//! The checks of `undef`s and freezes. Each answers the first line at which it fails.

ghost use Rattle.std.specs.Prelude.{◌≡◌, ◌↔◌, ◌<◌, Some, Contains, length, slice_get, IsTrue};
ghost use Rattle.rule_parse.specs.declared.raw.RawStatement.{RawStatement as written_statement};
ghost use Rattle.rule_parse.specs.declared.raw.RawArgument.TheVariants.{Undef as undef};
ghost use Rattle.rule_parse.specs.Contents.{arguments_of, expressions_of};
ghost use Rattle.rule_reader.specs.WellFormed.{AreInLineOrder, IsWellFormed};
ghost use Rattle.rule_reader.specs.FaultKinds.{StandsAt, LeavesOpen, ReadsUndefAlone, HasUndefInside, UndefInsideAt, WitnessCountAt, witness_line};
ghost use Rattle.rule_reader.specs.Faults.{IsFirst};

use crate::counts::choices_in;
use crate::place::Half;
use rule_parse::{RawArgument, RawOp, RawOperand, RawRule, RawStatement};

/// Whether the operand is `undef`.
fn is_undef(operand: &RawOperand) -> bool
    ensures { IsTrue result ↔ (operand.now.value ≡ undef) }
{
    matches!(&operand.value, RawArgument::Undef)
}

/// Whether a statement reads an `undef`.
fn reads_undef(op: &RawOp) -> bool
    ensures { IsTrue result ↔ Contains (arguments_of op.now) undef }
{
    match op {
        RawOp::Binary(_, _, left, right) | RawOp::Compare(_, _, left, right) => {
            is_undef(left) || is_undef(right)
        }
        RawOp::Select(condition, if_true, if_false) => {
            is_undef(condition) || is_undef(if_true) || is_undef(if_false)
        }
        RawOp::Unary(_, _, operand)
        | RawOp::Convert(_, _, operand, _)
        | RawOp::Freeze(operand)
        | RawOp::Copy(operand) => { is_undef(operand) }
    }
}

/// Whether the operation reads an `undef`, or is a freeze.
fn leaves_open(op: &RawOp) -> bool
    ensures { IsTrue result ↔ LeavesOpen op.now }
{
    match op {
        RawOp::Freeze(_) => true,
        _ => reads_undef(op),
    }
}

/// Whether the operation is a copy or a freeze of `undef`.
fn reads_undef_alone(op: &RawOp) -> bool
    ensures { IsTrue result ↔ ReadsUndefAlone op.now }
{
    match op {
        RawOp::Freeze(operand) | RawOp::Copy(operand) => is_undef(operand),
        _ => false,
    }
}

/// Whether a statement makes a choice and is not the last one, or freezes an `undef`.
fn is_inside(source: &[RawStatement], place: usize) -> bool
    requires { place < length source.now }
    ensures { (s : written_statement) → slice_get source.now place ≡ Some s → (IsTrue result ↔ HasUndefInside source.now place s) }
{
    let op = &source[place].op;
    (place + 1 < source.len() && leaves_open(op)) || reads_undef_alone(op)
}

/// The first line of the source with a statement other than the last that makes a choice, or one that freezes an
/// `undef`.
fn undef_in_source(source: &[RawStatement]) -> Option<usize>
    requires { AreInLineOrder source.now }
    ensures { IsFirst (StandsAt source.now (HasUndefInside source.now)) result }
{
    for (place, statement) in source.iter().enumerate() {
        if is_inside(source, place) {
            return Some(statement.line);
        }
    }
    None
}

/// The first line of the target at which an `undef` is copied or frozen.
fn undef_alone(target: &[RawStatement]) -> Option<usize>
    requires { AreInLineOrder target.now }
    ensures { IsFirst (StandsAt target.now (λ k s. ReadsUndefAlone s.op)) result }
{
    for statement in target {
        if reads_undef_alone(&statement.op) {
            return Some(statement.line);
        }
    }
    None
}

/// The first line on which the source makes a choice outside the root's statement, or an `undef` is frozen, or, in the
/// target, copied.
pub(crate) fn undef_inside(rule: &RawRule) -> Option<usize>
    requires { IsWellFormed rule.now }
    ensures { IsFirst (UndefInsideAt rule.now) result }
{
    match undef_in_source(rule.source.as_slice()) {
        Some(line) => Some(line),
        None => undef_alone(rule.target.as_slice()),
    }
}

/// How many expressions `Wit:` has, and the line at which a wrong number is told: that of `Wit:`, or of the rule's name
/// where there is none.
fn witness_size(rule: &RawRule) -> (usize, usize)
    ensures count { result.0 ≡ length (expressions_of rule.now) }
    ensures line { result.1 ≡ witness_line rule.now }
{
    match &rule.witness {
        Some(written) => (written.expressions.len(), written.line),
        None => (0, rule.line),
    }
}

/// That line, where the expressions are not as many as the source's choices.
pub(crate) fn witness_count(rule: &RawRule) -> Option<usize>
    requires { IsWellFormed rule.now }
    ensures { IsFirst (WitnessCountAt rule.now) result }
{
    let (expressions, line) = witness_size(rule);
    if expressions == choices_in(rule, Half::Source) as usize {
        None
    } else {
        Some(line)
    }
}
