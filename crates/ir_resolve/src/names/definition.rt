//! The definitions of a function as written: its parameters, blocks and results.

ghost use Rattle.std.specs.Prelude.{◌≡◌, ◌↔◌, ◌^◌, ◌≤◌, ◌++◌, map, IfOk, OnOk, IfSome, IsNone};
ghost use Rattle.ir_resolve.specs.FaultKinds.{result_width as width_of_result};
ghost use Rattle.ir_resolve.specs.Views.{seen_definition};
ghost use Rattle.ir_resolve.specs.Definitions.{parameters_defined, results_defined, blocks_defined, definitions_of};

use ir_core::Register;
use ir_tokens::{RawBlock, RawFunction, RawIdentifier, RawInst, RawOp, RawParameter};
use ops::Width;
use std::alloc::{AllocError, Global};

/// What a name or a number refers to.
#[derive(Clone, Copy)]
pub(crate) enum Entity {
    /// A register, of this many bits.
    Register(Register, u32),
    /// A block, by its index.
    Block(u32),
}

/// The definition of a parameter, a block or a result, with the identifier that is written there.
#[derive(Clone, Copy)]
pub(crate) struct Definition<'a> {
    pub(crate) written: Option<&'a RawIdentifier>,
    pub(crate) entity: Entity,
}

/// An index as a `u32`, if it fits.
fn place(index: usize) -> Option<u32>
    ensures some { IfSome result (λ place. place ≡ index) }
    ensures none { IsNone result ↔ 2 ^ 32 ≤ index }
{
    u32::try_from(index).ok()
}

/// The width of an instruction's result.
pub(crate) fn result_width(op: &RawOp) -> Width
    ensures { result ≡ width_of_result op.now }
{
    match op {
        RawOp::Binary(_, _, width, _, _) => *width,
        RawOp::Compare(_, _, _, _, _) => Width::ONE,
        RawOp::Call(call) => call.width,
        RawOp::Select(_, first, _) => first.width,
        RawOp::Convert(_, _, _, _, to) => *to,
        RawOp::Freeze(width, _) => *width,
        RawOp::Phi(width, _) => *width,
    }
}

/// Adds the definitions of the parameters.
fn add_parameters<'a>(
    definitions: &mut Vec<Definition<'a>>,
    parameters: &'a [RawParameter],
) -> Result<(), AllocError>
    ensures { OnOk result (map seen_definition definitions.new.items
        ≡ map seen_definition definitions.old.items ++ parameters_defined parameters.now) }
{
    for (index, parameter) in parameters.iter().enumerate() {
        let place = place(index).ok_or(AllocError)?;
        definitions.push(Definition {
            written: parameter.name.as_ref(),
            entity: Entity::Register(Register::Parameter(place), parameter.width.bits()),
        })?;
    }
    Ok(())
}

/// Adds the definitions of a block's results.
fn add_results<'a>(
    definitions: &mut Vec<Definition<'a>>,
    block: u32,
    insts: &'a [RawInst],
) -> Result<(), AllocError>
    ensures { OnOk result (map seen_definition definitions.new.items
        ≡ map seen_definition definitions.old.items ++ results_defined block insts.now) }
{
    for (index, inst) in insts.iter().enumerate() {
        let place = place(index).ok_or(AllocError)?;
        let width = result_width(&inst.op);
        definitions.push(Definition {
            written: Some(&inst.result),
            entity: Entity::Register(Register::Result(block, place), width.bits()),
        })?;
    }
    Ok(())
}

/// Adds the definitions of the blocks, each with those of its results behind it.
fn add_blocks<'a>(
    definitions: &mut Vec<Definition<'a>>,
    blocks: &'a [RawBlock],
) -> Result<(), AllocError>
    ensures { OnOk result (map seen_definition definitions.new.items
        ≡ map seen_definition definitions.old.items ++ blocks_defined blocks.now) }
{
    for (index, block) in blocks.iter().enumerate() {
        let number = place(index).ok_or(AllocError)?;
        definitions.push(Definition {
            written: block.label.as_ref(),
            entity: Entity::Block(number),
        })?;
        add_results(definitions, number, block.insts.as_slice())?;
    }
    Ok(())
}

/// For how many definitions memory is reserved at first. Most functions have no more.
const USUAL_ROOM: usize = 64;

/// All definitions of a function, in text order. With 2^32 or more of one kind it answers that there is no memory.
pub(crate) fn definitions(
    alloc: Global,
    raw: &RawFunction,
) -> Result<Vec<Definition<'_>>, AllocError>
    ensures { IfOk result (λ definitions.
        map seen_definition definitions.items ≡ definitions_of raw.now) }
{
    let mut definitions = Vec::with_capacity(alloc, USUAL_ROOM)?;
    add_parameters(&mut definitions, raw.parameters.as_slice())?;
    add_blocks(&mut definitions, raw.blocks.as_slice())?;
    Ok(definitions)
}
