//! The widths of the inputs and constants that statements read.
ghost use Rattle.std.specs.Prelude.{◌≡◌, option_map, IfOk};
ghost use Rattle.std.specs.List.{find};
ghost use Rattle.rule_core.specs.Positions.{operands_of};
ghost use Rattle.blast_setting.specs.Inputs.{names, named_width, named_widths};
ghost use Rattle.blast_setting.specs.Names.{IsNamed, AreNamed};

use ops::Width;
use rule_core::{Argument, Op, Operand, Register, Statement};
use std::alloc::{AllocError, Global};

/// What an operand may read that has a part in a setting.
#[derive(Clone, Copy)]
pub enum Kind {
    /// An input of the rule.
    Input,
    /// An abstract constant.
    Constant,
}

/// The widths of the first `count` inputs, or constants.
pub(crate) fn named_widths(
    alloc: Global,
    typing: &[Width],
    statements: &[Statement],
    kind: Kind,
    count: usize,
) -> Result<Vec<Width>, AllocError>
    requires { AreNamed typing.now statements.now kind count }
    ensures { IfOk result (λ widths. widths.items ≡ named_widths typing.now statements.now kind count) }
{
    let mut widths = Vec::new(alloc);
    for k in 0..count {
        widths.push(named_width(typing, statements, kind, k))?;
    }
    Ok(widths)
}

/// The width of the first operand that reads the k-th of the kind.
fn named_width(typing: &[Width], statements: &[Statement], kind: Kind, k: usize) -> Width
    requires { IsNamed typing.now statements.now kind k }
    ensures { result ≡ named_width typing.now statements.now kind k }
{
    for statement in statements {
        if let Some(class) = class_naming(statement.op, kind, k) {
            return typing[class as usize];
        }
    }
    unreachable!()
}

/// The class of the operation's first operand that reads it, if one does.
fn class_naming(op: Op, kind: Kind, k: usize) -> Option<u32>
    ensures { result ≡ option_map (λ o. o.class) (find (λ o. names kind k o.value) (operands_of op)) }
{
    match op {
        Op::Binary(_, _, left, right) | Op::Compare(_, _, left, right) => {
            class_among(&[left, right], kind, k)
        }
        Op::Select(condition, yes, no) => class_among(&[condition, yes, no], kind, k),
        Op::Unary(_, _, operand)
        | Op::Convert(_, _, operand, _)
        | Op::Freeze(operand, _)
        | Op::Copy(operand) => class_among(&[operand], kind, k),
    }
}

/// The class of the first of these operands that reads it, if one does.
fn class_among(operands: &[Operand], kind: Kind, k: usize) -> Option<u32>
    ensures { result ≡ option_map (λ o. o.class) (find (λ o. names kind k o.value) operands.now) }
{
    operands
        .iter()
        .find(|operand| names(kind, k, operand.value))
        .map(|operand| operand.class)
}

/// Whether the argument is the k-th of its kind.
fn names(kind: Kind, k: usize, value: Argument) -> bool
    ensures { result ≡ names kind k value }
{
    match (kind, value) {
        (Kind::Input, Argument::Register(Register::Input(i)))
        | (Kind::Constant, Argument::Constant(i)) => i as usize == k,
        _ => false,
    }
}
