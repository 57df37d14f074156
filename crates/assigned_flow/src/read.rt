//! The reads of a function, without their widths.

ghost use Rattle.std.specs.Prelude.{◌≡◌, ◌<◌, ◌^◌, length, ℕ, All, option_map, slice_get};
ghost use Rattle.ir_core.specs.Reads.{end_of, reads_at, reads_at_end, reads_of};
ghost use Rattle.assigned_flow.specs.Located.{located, here};

use ir_core::{Function, Op, Operand, Terminator};

/// An operand, and where it is read: at a place of a block, where the instructions before that place have run.
#[derive(Clone, Copy)]
pub(crate) struct Read {
    pub(crate) operand: Operand,
    pub(crate) block: u32,
    pub(crate) place: u32,
}

/// How many instructions a block has: 0 where the function hasn't the block.
pub(crate) fn end_of(f: &Function, block: u32) -> u32
    requires { All (λ b. length b.insts < 2 ^ 32) f.now.blocks }
    ensures { result ≡ end_of f.now block }
{
    match f.blocks.as_slice().get(block as usize) {
        Some(block) => block.insts.len() as u32,
        None => 0,
    }
}

/// The read of one operand of the instruction or the terminator at a place of a block; the terminator's place is the
/// number of instructions.
pub(crate) fn read_at(f: &Function, block: u32, place: u32, operand: u32) -> Option<Read>
    requires { All (λ b. length b.insts < 2 ^ 32) f.now.blocks }
    ensures { result ≡ option_map located (slice_get (reads_at f.now block place) operand) }
{
    let written_in = f.blocks.as_slice().get(block as usize)?;
    match written_in.insts.as_slice().get(place as usize) {
        Some(inst) => read_by(f, block, place, &inst.op, operand),
        None if place as usize == written_in.insts.len() => {
            read_by_end(block, place, &written_in.end, operand)
        }
        None => None,
    }
}

/// The read of this operand of an instruction at a place of a block.
fn read_by(f: &Function, block: u32, place: u32, op: &Op, operand: u32) -> Option<Read>
    requires { All (λ b. length b.insts < 2 ^ 32) f.now.blocks }
    ensures { (width : ℕ) → result ≡ option_map located (slice_get (reads_of f.now block place width op.now) operand) }
{
    match op {
        Op::Binary(_, _, x, y) | Op::Compare(_, _, _, x, y) => {
            read_here(block, place, &[*x, *y], operand)
        }
        Op::Select(condition, x, y) => read_here(block, place, &[*condition, *x, *y], operand),
        Op::Unary(_, _, x) | Op::Convert(_, _, _, x) | Op::Freeze(x) => read_here(
            block,
            place,
            &[*x],
            operand,
        ),
        Op::Phi(entries) => {
            let (value, from) = *entries.as_slice().get(operand as usize)?;
            Some(Read {
                operand: value,
                block: from,
                place: end_of(f, from),
            })
        }
    }
}

/// The read of this operand of the terminator at a place of a block.
fn read_by_end(block: u32, place: u32, end: &Terminator, operand: u32) -> Option<Read>
    ensures { (f : Function) → result ≡ option_map located (slice_get (reads_at_end f block place end.now) operand) }
{
    match end {
        Terminator::Return(x) | Terminator::Branch(x, _, _) | Terminator::Switch(x, _, _, _) => {
            read_here(block, place, &[*x], operand)
        }
        Terminator::Jump(_) | Terminator::Unreachable => None,
    }
}

/// The operand at this index, as a read at the place where it stands.
fn read_here(block: u32, place: u32, operands: &[Operand], index: u32) -> Option<Read>
    ensures { result ≡ option_map (here block place) (slice_get operands.now index) }
{
    let operand = *operands.get(index as usize)?;
    Some(Read {
        operand,
        block,
        place,
    })
}
