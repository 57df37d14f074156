//! The inputs and the constants of a source.

ghost use Rattle.std.specs.Prelude.{IfOk, OnOk};
ghost use Rattle.rule_parse.specs.Contents.{arguments_of};
ghost use Rattle.rule_reader.specs.Meaning.{AreNames};
ghost use Rattle.rule_reader.specs.Inputs.{AddsNew, AddsNames, AddsUses};

use crate::registers::{is_among, is_assigned};
use lists::{List, Text};
use rule_parse::{RawArgument, RawOp, RawStatement};
use std::alloc::{AllocError, Global};

/// The names that a source gives, each once, in the order of their first uses.
#[derive(Drop)]
pub(crate) struct Names {
    /// The registers that no statement of the source assigns.
    pub(crate) inputs: List<Text>,
    /// The abstract constants.
    pub(crate) constants: List<Text>,
}

/// The inputs and the constants of a source.
pub(crate) fn names_of(alloc: Global, source: &[RawStatement]) -> Result<Names, AllocError>
    ensures { IfOk result (AreNames source.now) }
{
    let mut names = Names {
        inputs: List::new(alloc),
        constants: List::new(alloc),
    };
    for statement in source {
        add_names(alloc, &mut names, source, &statement.op)?;
    }
    Ok(names)
}

/// Appends the names that a statement of the source gives, where they are new.
fn add_names(
    alloc: Global,
    names: &mut Names,
    source: &[RawStatement],
    op: &RawOp,
) -> Result<(), AllocError>
    ensures { OnOk result (AddsUses source.now names.old (arguments_of op.now) names.new) }
{
    match op {
        RawOp::Binary(_, _, left, right) | RawOp::Compare(_, _, left, right) => {
            add_name(alloc, names, source, &left.value)?;
            add_name(alloc, names, source, &right.value)?;
        }
        RawOp::Select(condition, if_true, if_false) => {
            add_name(alloc, names, source, &condition.value)?;
            add_name(alloc, names, source, &if_true.value)?;
            add_name(alloc, names, source, &if_false.value)?;
        }
        RawOp::Unary(_, _, operand)
        | RawOp::Convert(_, _, operand, _)
        | RawOp::Freeze(operand)
        | RawOp::Copy(operand) => {
            add_name(alloc, names, source, &operand.value)?;
        }
    }
    Ok(())
}

/// Appends the name that an operand of the source gives, where it is new.
fn add_name(
    alloc: Global,
    names: &mut Names,
    source: &[RawStatement],
    read: &RawArgument,
) -> Result<(), AllocError>
    ensures { OnOk result (AddsNames source.now names.old read.now names.new) }
{
    match read {
        RawArgument::Register(name) if !is_assigned(source, source.len(), name.as_slice()) => {
            add_new(alloc, &mut names.inputs, name.as_slice())
        }
        RawArgument::Constant(name) => add_new(alloc, &mut names.constants, name.as_slice()),
        _ => Ok(()),
    }
}

/// Appends a name, where it is new.
fn add_new(alloc: Global, names: &mut List<Text>, name: &[u8]) -> Result<(), AllocError>
    ensures { OnOk result (AddsNew names.old name.now names.new) }
{
    if !is_among(names.as_slice(), name) {
        names.push(Text::from_vec(Vec::from_slice(alloc, name)?))?;
    }
    Ok(())
}
