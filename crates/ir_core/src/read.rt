//! The reads of a function: each operand with its width, and with the place where it is read. A place in a block is the
//! index of an instruction, or, for the terminator, the number of instructions.

ghost use Rattle.std.specs.Prelude.{◌≡◌, ℕ, ◌<◌, ◌^◌, length, All, slice_get};
ghost use Rattle.ir_core.specs.Reads.{read, end_of, reads_at, reads_at_end, reads_of};
ghost use Rattle.ir_core.specs.declared.function.Function.{Function};

use crate::function::Function;
use crate::instruction::Op;
use crate::operand::Operand;
use crate::terminator::Terminator;
use ops::Width;

/// A read of an operand: at which width, and where. At place k of a block the instructions before the k-th have run; at
/// the terminator's place, which is their number, all have.
#[derive(Clone, Copy)]
pub struct Read {
    pub operand: Operand,
    pub width: Width,
    pub block: u32,
    pub place: u32,
}

/// How many instructions a block has, which is the place of its terminator: 0 where the function hasn't the block.
pub fn end_of(f: &Function, block: u32) -> u32
    requires { All (λ b. length b.insts < 2 ^ 32) f.now.blocks }
    ensures { result ≡ end_of f.now block }
{
    match f.blocks.as_slice().get(block as usize) {
        Some(block) => block.insts.len() as u32,
        None => 0,
    }
}

/// How many operands the instruction or the terminator at a place of a block has. The terminator's place is the number
/// of instructions.
pub fn read_count(f: &Function, block: u32, place: u32) -> usize
    ensures { result ≡ length (reads_at f.now block place) }
{
    let Some(written_in) = f.blocks.as_slice().get(block as usize) else {
        return 0;
    };
    match written_in.insts.as_slice().get(place as usize) {
        Some(inst) => count_by(&inst.op),
        None if place as usize == written_in.insts.len() => count_by_end(&written_in.end),
        None => 0,
    }
}

/// How many operands an instruction has.
fn count_by(op: &Op) -> usize
    ensures { (f : Function) (b k width : ℕ) → result ≡ length (reads_of f b k width op.now) }
{
    match op {
        Op::Binary(_, _, _, _) | Op::Compare(_, _, _, _, _) => 2,
        Op::Select(_, _, _) => 3,
        Op::Unary(_, _, _) | Op::Convert(_, _, _, _) | Op::Freeze(_) => 1,
        Op::Phi(entries) => entries.len(),
    }
}

/// How many operands a terminator has.
fn count_by_end(end: &Terminator) -> usize
    ensures { (f : Function) (b k : ℕ) → result ≡ length (reads_at_end f b k end.now) }
{
    match end {
        Terminator::Return(_) | Terminator::Branch(_, _, _) | Terminator::Switch(_, _, _, _) => 1,
        Terminator::Jump(_) | Terminator::Unreachable => 0,
    }
}

/// The read of one operand of the instruction or the terminator at a place of a block, in constant time. The
/// terminator's place is the number of instructions. An operand of a phi is read at the end of the block that its entry
/// names.
pub fn read_at(f: &Function, block: u32, place: u32, operand: usize) -> Option<Read>
    requires { All (λ b. length b.insts < 2 ^ 32) f.now.blocks }
    ensures { result ≡ slice_get (reads_at f.now block place) operand }
{
    let written_in = f.blocks.as_slice().get(block as usize)?;
    match written_in.insts.as_slice().get(place as usize) {
        Some(inst) => read_by(f, block, place, inst.width, &inst.op, operand),
        None if place as usize == written_in.insts.len() => {
            read_by_end(f.width, block, place, &written_in.end, operand)
        }
        None => None,
    }
}

/// The read of this operand of an instruction of this width at a place of a block.
fn read_by(
    f: &Function,
    block: u32,
    place: u32,
    width: Width,
    op: &Op,
    operand: usize,
) -> Option<Read>
    requires { All (λ b. length b.insts < 2 ^ 32) f.now.blocks }
    ensures { result ≡ slice_get (reads_of f.now block place width op.now) operand }
{
    match op {
        Op::Binary(_, _, x, y) => {
            one_of(
                &[here(block, place, width, *x), here(block, place, width, *y)],
                operand,
            )
        }
        Op::Compare(_, _, compared, x, y) => {
            let compared = *compared;
            one_of(
                &[
                    here(block, place, compared, *x),
                    here(block, place, compared, *y),
                ],
                operand,
            )
        }
        Op::Select(condition, x, y) => {
            let condition = here(block, place, Width::ONE, *condition);
            let arms = [here(block, place, width, *x), here(block, place, width, *y)];
            one_of(&[condition, arms[0], arms[1]], operand)
        }
        Op::Convert(_, _, from, x) => one_of(&[here(block, place, *from, *x)], operand),
        Op::Unary(_, _, x) | Op::Freeze(x) => one_of(&[here(block, place, width, *x)], operand),
        Op::Phi(entries) => {
            let (value, from) = *entries.as_slice().get(operand)?;
            Some(here(from, end_of(f, from), width, value))
        }
    }
}

/// The read of this operand of the terminator at a place of a block, in a function that returns this width.
fn read_by_end(
    returned: Width,
    block: u32,
    place: u32,
    end: &Terminator,
    operand: usize,
) -> Option<Read>
    ensures { (f : Function) → f.width ≡ returned → result ≡ slice_get (reads_at_end f block place end.now) operand }
{
    match end {
        Terminator::Return(x) => one_of(&[here(block, place, returned, *x)], operand),
        Terminator::Branch(x, _, _) => one_of(&[here(block, place, Width::ONE, *x)], operand),
        Terminator::Switch(x, width, _, _) => one_of(&[here(block, place, *width, *x)], operand),
        Terminator::Jump(_) | Terminator::Unreachable => None,
    }
}

/// An operand, read at a place of a block.
fn here(block: u32, place: u32, width: Width, operand: Operand) -> Read
    ensures { result ≡ read block place width operand }
{
    Read {
        operand,
        width,
        block,
        place,
    }
}

/// The read at this index of the list, if it has one.
fn one_of(reads: &[Read], index: usize) -> Option<Read>
    ensures { result ≡ slice_get reads.now index }
{
    reads.get(index).copied()
}
