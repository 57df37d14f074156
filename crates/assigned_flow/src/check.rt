//! The check that registers are assigned where they are read.

ghost use Rattle.std.specs.Prelude.{◌≡◌, ◌<◌, ◌+◌, ◌^◌, ◌↔◌, ℕ, length, All, IfOk, IfErr, OnOk, IfSome, IfNone, IsTrue};
ghost use Rattle.ir_core.specs.Assigned.{IsAssigned, IsFirstUnassigned, ReadsAreAssigned};
ghost use Rattle.ir_core.specs.Blocks.{Names};
ghost use Rattle.ir_core.specs.Reads.{reads_at};
ghost use Rattle.assigned_flow.specs.CheckedReads.{AssignedBefore};
ghost use Rattle.assigned_flow.specs.FewEntries.{HasFewEntries};
ghost use Rattle.assigned_flow.specs.Successors.{successors_of};
ghost use Rattle.assigned_flow.specs.Errors.{IfUnassigned};

use crate::assigned::Assigned;
use crate::error::FlowError;
use crate::read::{Read, end_of, read_at};
use ir_core::{Function, Operand, Register};
use std::alloc::Global;

/// Whether a register is assigned at a place of a block.
fn is_assigned(
    f: &Function,
    assigned: &Assigned,
    register: Register,
    block: u32,
    place: u32,
) -> bool
    requires insts { All (λ b. length b.insts < 2 ^ 32) f.now.blocks }
    requires graph { assigned.now ≡ successors_of f.now }
    ensures { IsTrue result ↔ IsAssigned f.now register block place }
{
    match register {
        Register::Parameter(parameter) => (parameter as usize) < f.parameters.len(),
        Register::Result(earlier, earlier_place) => {
            earlier_place < end_of(f, earlier)
                && assigned.has_passed(earlier, earlier_place, block, place)
        }
    }
}

/// The register of a read, where it isn't assigned there.
fn unassigned(f: &Function, assigned: &Assigned, read: Read) -> Option<Register>
    requires insts { All (λ b. length b.insts < 2 ^ 32) f.now.blocks }
    requires graph { assigned.now ≡ successors_of f.now }
    ensures found { IfSome result (λ register. (read.operand ≡ Operand.Register register)
        × ¬ IsAssigned f.now register read.block read.place) }
    ensures none { IfNone result ((register : Register) → read.operand ≡ Operand.Register register
        → IsAssigned f.now register read.block read.place) }
{
    match read.operand {
        Operand::Register(register)
            if !is_assigned(f, assigned, register, read.block, read.place) => { Some(register) }
        _ => None,
    }
}

/// Checks the operands of the instruction or the terminator at a place, where all operands before that place passed.
fn check_place(f: &Function, assigned: &Assigned, block: u32, place: u32) -> Result<(), FlowError>
    requires insts { All (λ b. length b.insts < 2 ^ 32) f.now.blocks }
    requires operands { length (reads_at f.now block place) < 2 ^ 32 }
    requires graph { assigned.now ≡ successors_of f.now }
    requires before { AssignedBefore f.now block place 0 }
    ensures ok { OnOk result (AssignedBefore f.now block (place + 1) 0) }
    ensures unassigned { IfErr result (λ e. IfUnassigned e (IsFirstUnassigned f.now)) }
{
    let mut operand = 0;
    while let Some(read) = read_at(f, block, place, operand) {
        if let Some(register) = unassigned(f, assigned, read) {
            return Err(FlowError::Unassigned {
                register,
                block,
                place,
                operand,
            });
        }
        operand += 1;
    }
    Ok(())
}

/// Checks the operands of a block, where all operands of the blocks before it passed.
fn check_block(f: &Function, assigned: &Assigned, block: u32) -> Result<(), FlowError>
    requires insts { All (λ b. length b.insts < 2 ^ 32) f.now.blocks }
    requires operands { (k : ℕ) → length (reads_at f.now block k) < 2 ^ 32 }
    requires graph { assigned.now ≡ successors_of f.now }
    requires before { AssignedBefore f.now block 0 0 }
    ensures ok { OnOk result (AssignedBefore f.now (block + 1) 0 0) }
    ensures unassigned { IfErr result (λ e. IfUnassigned e (IsFirstUnassigned f.now)) }
{
    let end = end_of(f, block);
    for place in 0..end {
        check_place(f, assigned, block, place)?;
    }
    check_place(f, assigned, block, end)
}

/// Checks that each register is assigned wherever it is read, that is, on every path there. A register that the
/// function hasn't is assigned nowhere. In a block that isn't reached, each one that the function has is assigned.
///
/// Each read is checked once, in constant time. So the time is linear in the function, beside that of
/// [`dominator_tree::dominators`], which states its worst case.
pub fn check_assigned(alloc: Global, f: &Function) -> Result<Assigned, FlowError>
    // There is a first block, and each block that a terminator names is one of the function.
    requires some_block { 0 < length f.now.blocks }
    requires targets { (b c : ℕ) → Names f.now b c → c < length f.now.blocks }

    // Blocks, the instructions of each, and the entries of each phi are counted in 32 bits.
    requires blocks { length f.now.blocks < 2 ^ 32 }
    requires insts { All (λ b. length b.insts < 2 ^ 32) f.now.blocks }
    requires entries { All (λ b. All (λ i. HasFewEntries i.op) b.insts) f.now.blocks }
    ensures ok { OnOk result (ReadsAreAssigned f.now) }
    ensures graph { IfOk result (λ assigned. assigned ≡ successors_of f.now) }
    ensures unassigned { IfErr result (λ e. IfUnassigned e (IsFirstUnassigned f.now)) }
{
    let assigned = Assigned::new(alloc, f)?;
    for block in 0..f.blocks.len() as u32 {
        check_block(f, &assigned, block)?;
    }
    Ok(assigned)
}
