//! The operands of a function as written, by place.

ghost use Rattle.std.specs.Prelude.{◌≡◌, ℕ, [], ◌∷◌, option_map, slice_get};
ghost use Rattle.std.specs.Option.{option_copied};
ghost use Rattle.ir_resolve.specs.TypedReads.{typed, read_by, read_by_call, read_at_end};
ghost use Rattle.ir_reader.specs.Operands.{written_by, written_at};

use ir_tokens::{RawArguments, RawBlock, RawFunction, RawOp, RawOperand, RawTerminator};

/// The operand at this index of the instruction or the terminator at a place of a block; the terminator's place is the
/// number of instructions.
pub(crate) fn operand(raw: &RawFunction, block: u32, place: u32, index: u32) -> Option<&RawOperand>
    ensures { option_copied result ≡ option_map (λ t. t.operand) (slice_get (written_at raw.now block place) index) }
{
    operand_in(raw.blocks.as_slice().get(block as usize)?, place, index)
}

/// The same for a place of this block.
fn operand_in(block: &RawBlock, place: u32, index: u32) -> Option<&RawOperand>
    ensures { option_copied result ≡ option_map (λ t. t.operand)
        (slice_get (written_by place block.now (slice_get block.now.insts place)) index) }
{
    match block.insts.as_slice().get(place as usize) {
        Some(inst) => operand_of(&inst.op, index),
        None if place as usize == block.insts.len() => operand_of_end(&block.end, index),
        None => None,
    }
}

/// The operand of an instruction at this index.
fn operand_of(op: &RawOp, index: u32) -> Option<&RawOperand>
    ensures { option_copied result ≡ option_map (λ t. t.operand) (slice_get (read_by op.now) index) }
{
    match op {
        RawOp::Binary(_, _, _, left, right) | RawOp::Compare(_, _, _, left, right) => either(
            left, right, index,
        ),
        RawOp::Call(call) => operand_of_call(&call.arguments, index),
        RawOp::Select(condition, first, second) => match index {
            0 => Some(&condition.operand),
            1 => Some(&first.operand),
            2 => Some(&second.operand),
            _ => None,
        },
        RawOp::Convert(_, _, _, operand, _) | RawOp::Freeze(_, operand) => only(operand, index),
        RawOp::Phi(_, incoming) => Some(&incoming.as_slice().get(index as usize)?.value),
    }
}

/// The operand of a call at this index.
fn operand_of_call(arguments: &RawArguments, index: u32) -> Option<&RawOperand>
    ensures { option_copied result ≡ option_map (λ t. t.operand) (slice_get (read_by_call arguments.now) index) }
{
    match arguments {
        RawArguments::Binary(_, left, right) => either(&left.operand, &right.operand, index),
        RawArguments::Unary(_, operand, _) => only(&operand.operand, index),
    }
}

/// The operand of a terminator at this index.
fn operand_of_end(end: &RawTerminator, index: u32) -> Option<&RawOperand>
    ensures { option_copied result ≡ option_map (λ t. t.operand) (slice_get (read_at_end end.now) index) }
{
    match end {
        RawTerminator::Return(_, operand)
        | RawTerminator::Branch(_, operand, _, _)
        | RawTerminator::Switch(_, operand, _, _) => only(operand, index),
        RawTerminator::Unreachable | RawTerminator::Jump(_) => None,
    }
}

/// The one of two operands at this index.
fn either<'a>(left: &'a RawOperand, right: &'a RawOperand, index: u32) -> Option<&'a RawOperand>
    ensures { (width other : ℕ) → option_copied result ≡ option_map (λ t. t.operand)
        (slice_get (typed width left.now ∷ typed other right.now ∷ []) index) }
{
    match index {
        0 => Some(left),
        1 => Some(right),
        _ => None,
    }
}

/// The single operand, if the index is 0.
fn only(operand: &RawOperand, index: u32) -> Option<&RawOperand>
    ensures { (width : ℕ) → option_copied result ≡ option_map (λ t. t.operand) (slice_get (typed width operand.now ∷ []) index) }
{
    if index == 0 { Some(operand) } else { None }
}
