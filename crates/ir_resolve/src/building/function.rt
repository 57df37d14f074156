//! Building functions.

ghost use Rattle.std.specs.Prelude.{IfOk};
ghost use Rattle.std.specs.List.{AllZip, AllByRecursion};
ghost use Rattle.ir_resolve.specs.Means.{ParameterMeans, BlockIsOf, MeansBy};
ghost use Rattle.ir_resolve.specs.Views.{known_by, CallsIn};
ghost use Rattle.ir_resolve.specs.KnownNames.{IsReadyBlock};

use crate::building::instruction::insts;
use crate::building::terminator::terminator;
use crate::building::text::{name_given, text, texts};
use crate::names::Names;
use ir_core::{Block, Function, Parameter};
use ir_tokens::{RawBlock, RawFunction, RawParameter};
use lists::List;
use std::alloc::{AllocError, Global};

/// Builds the parameters.
fn parameters(alloc: Global, written: &[RawParameter]) -> Result<List<Parameter>, AllocError>
    ensures { IfOk result (AllZip ParameterMeans written.now) }
{
    let mut parameters = List::new(alloc);
    for written in written {
        parameters.push(Parameter {
            width: written.width,
            items: texts(alloc, written.items.as_slice())?,
            name: name_given(alloc, written.name.as_ref())?,
        })?;
    }
    Ok(parameters)
}

/// Builds the blocks.
fn blocks(alloc: Global, names: &Names<'_>, written: &[RawBlock]) -> Result<List<Block>, AllocError>
    requires { AllByRecursion (IsReadyBlock (known_by names.now)) written.now }
    ensures { IfOk result (AllZip (BlockIsOf (CallsIn (known_by names.now))) written.now) }
{
    let mut blocks = List::from_vec(Vec::with_capacity(alloc, written.len())?);
    for written in written {
        blocks.push(Block {
            name: name_given(alloc, written.label.as_ref())?,
            insts: insts(alloc, names, written.insts.as_slice())?,
            end: terminator(alloc, names, &written.end)?,
        })?;
    }
    Ok(blocks)
}

/// Builds the function that the syntax tree means.
pub(crate) fn build(
    alloc: Global,
    names: &Names<'_>,
    raw: &RawFunction,
) -> Result<Function, AllocError>
    requires { AllByRecursion (IsReadyBlock (known_by names.now)) raw.now.blocks }
    ensures { IfOk result (MeansBy (CallsIn (known_by names.now)) raw.now) }
{
    Ok(Function {
        name: text(alloc, &raw.name)?,
        before: texts(alloc, raw.before.as_slice())?,
        width: raw.width,
        parameters: parameters(alloc, raw.parameters.as_slice())?,
        after: texts(alloc, raw.after.as_slice())?,
        blocks: blocks(alloc, names, raw.blocks.as_slice())?,
    })
}
