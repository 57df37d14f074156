//! Operations of rules compared with those of functions.

ghost use Rattle.std.specs.Prelude.{◌≡◌, ◌↔◌, IsTrue, slice_get};
ghost use Rattle.rule_core.specs.Positions.{operands_of};
ghost use Rattle.bindings.specs.Statements.{IsSameOperation, promises_of_statement, promises_of_inst};

use crate::promises::Promises;
use ir_core::Op;
use ops::Flags;
use rule_core::{Op as RuleOp, Operand as RuleOperand};

/// How many operands an operation of a rule has at most.
pub const MOST_OPERANDS: usize = 3;

/// One of the operands of an operation, from left to right.
pub fn operand_of(op: RuleOp, index: usize) -> Option<RuleOperand>
    ensures { result ≡ slice_get (operands_of op) index }
{
    match op {
        RuleOp::Binary(_, _, a, b) | RuleOp::Compare(_, _, a, b) => one_of(&[a, b], index),
        RuleOp::Select(c, a, b) => one_of(&[c, a, b], index),
        RuleOp::Unary(_, _, a)
        | RuleOp::Convert(_, _, a, _)
        | RuleOp::Freeze(a, _)
        | RuleOp::Copy(a) => one_of(&[a], index),
    }
}

/// One of these, if there are so many.
fn one_of(operands: &[RuleOperand], index: usize) -> Option<RuleOperand>
    ensures { result ≡ slice_get operands.now index }
{
    operands.get(index).copied()
}

/// Whether both are the same operation: of the same opcode, predicate, intrinsic or cast, or both a select or a freeze.
pub(crate) fn is_same_operation(statement: RuleOp, inst: &Op) -> bool
    ensures { IsTrue result ↔ IsSameOperation statement inst.now }
{
    match (statement, inst) {
        (RuleOp::Binary(opcode, _, _, _), Op::Binary(other, _, _, _)) => opcode == *other,
        (RuleOp::Compare(pred, _, _, _), Op::Compare(other, _, _, _, _)) => pred == *other,
        (RuleOp::Unary(op, _, _), Op::Unary(other, _, _)) => op == *other,
        (RuleOp::Select(_, _, _), Op::Select(_, _, _)) => true,
        (RuleOp::Convert(cast, _, _, _), Op::Convert(other, _, _, _)) => cast == *other,
        (RuleOp::Freeze(_, _), Op::Freeze(_)) => true,
        _ => false,
    }
}

/// What a statement promises: its flags, or the truth value of its intrinsic.
pub(crate) fn promises_of_statement(op: RuleOp) -> Promises
    ensures { result ≡ promises_of_statement op }
{
    match op {
        RuleOp::Binary(_, flags, _, _) => Promises::of_flags(flags),
        RuleOp::Compare(_, samesign, _, _) => Promises::of_flags(Flags::of_icmp(samesign)),
        RuleOp::Unary(_, truth, _) => Promises::of_truth(truth),
        RuleOp::Convert(_, flags, _, _) => Promises::of_flags(flags),
        RuleOp::Select(_, _, _) | RuleOp::Freeze(_, _) | RuleOp::Copy(_) => Promises::NONE,
    }
}

/// What an instruction promises: its flags, or the truth value of its intrinsic.
pub(crate) fn promises_of_inst(op: &Op) -> Promises
    ensures { result ≡ promises_of_inst op.now }
{
    match op {
        Op::Binary(_, flags, _, _) => Promises::of_flags(*flags),
        Op::Compare(_, samesign, _, _, _) => Promises::of_flags(Flags::of_icmp(*samesign)),
        Op::Unary(_, truth, _) => Promises::of_truth(*truth),
        Op::Convert(_, flags, _, _) => Promises::of_flags(*flags),
        Op::Select(_, _, _) | Op::Freeze(_) | Op::Phi(_) => Promises::NONE,
    }
}
