//! Printing blocks.

ghost use Rattle.std.specs.Prelude.{◌≡◌, ◌++◌, codes, OnOk};
ghost use Rattle.std.specs.List.{flat_map, enumerate_from};
ghost use Rattle.ir_text.specs.PrintedText.{first_head_text, head_text, inst_text, end_text, block_text};

use crate::identifier::Identifier;
use crate::identifiers::Identifiers;
use crate::instruction::push_inst;
use crate::name::push_label;
use crate::terminator::push_end;
use ir_core::{Block, Inst, Terminator};
use lists::Text;
use std::alloc::AllocError;

/// Appends the head of the first block: its label, if it has a name.
#[tactic(auto, unfolding(ir_text::specs::PrintedText::first_head_text))]
fn push_first_head(out: &mut Vec<u8>, name: &Option<Text>) -> Result<(), AllocError>
    ensures { OnOk result (out.new.items ≡ out.old.items ++ first_head_text name.now) }
{
    match name {
        Some(name) => push_label(out, Some(Identifier::Named(name.as_slice()))),
        None => Ok(()),
    }
}

/// Appends the head of the block at an index: an empty line, if it is not the first, and its label.
#[tactic(auto, unfolding(ir_text::specs::PrintedText::head_text))]
fn push_head(
    out: &mut Vec<u8>,
    called: &Identifiers<'_>,
    place: usize,
    name: &Option<Text>,
) -> Result<(), AllocError>
    ensures { OnOk result (out.new.items
        ≡ out.old.items ++ head_text called.now.function.now place name.now) }
{
    if place == 0 {
        return push_first_head(out, name);
    }
    out.push(b'\n')?;
    push_label(out, called.block(place))
}

/// Appends the lines of a block's instructions.
fn push_insts(
    out: &mut Vec<u8>,
    called: &Identifiers<'_>,
    block: usize,
    insts: &[Inst],
) -> Result<(), AllocError>
    ensures { OnOk result (out.new.items ≡ out.old.items
        ++ flat_map (inst_text called.now.function.now block) (enumerate_from 0 insts.now)) }
{
    for (place, inst) in insts.iter().enumerate() {
        push_inst(out, called, block, place, inst)?;
    }
    Ok(())
}

/// Appends the line of a terminator.
fn push_end_line(
    out: &mut Vec<u8>,
    called: &Identifiers<'_>,
    end: &Terminator,
) -> Result<(), AllocError>
    ensures { OnOk result (out.new.items ≡ out.old.items
        ++ (codes "  " ++ end_text called.now.function.now end.now ++ codes "\n")) }
{
    out.extend_from_slice(b"  ")?;
    push_end(out, called, end)?;
    out.extend_from_slice(b"\n")
}

/// Appends the lines of the block at an index.
#[tactic(auto, unfolding(ir_text::specs::PrintedText::block_text))]
fn push_block(
    out: &mut Vec<u8>,
    called: &Identifiers<'_>,
    place: usize,
    block: &Block,
) -> Result<(), AllocError>
    ensures { OnOk result (out.new.items
        ≡ out.old.items ++ block_text called.now.function.now (place, block.now)) }
{
    push_head(out, called, place, &block.name)?;
    push_insts(out, called, place, block.insts.as_slice())?;
    push_end_line(out, called, &block.end)
}

/// Appends the lines of all blocks.
pub(crate) fn push_blocks(
    out: &mut Vec<u8>,
    called: &Identifiers<'_>,
    blocks: &[Block],
) -> Result<(), AllocError>
    ensures { OnOk result (out.new.items ≡ out.old.items
        ++ flat_map (block_text called.now.function.now) (enumerate_from 0 blocks.now)) }
{
    for (place, block) in blocks.iter().enumerate() {
        push_block(out, called, place, block)?;
    }
    Ok(())
}
