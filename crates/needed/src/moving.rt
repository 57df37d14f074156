//! Renames registers, as instructions move to smaller indices where others before them are removed.

ghost use Rattle.std.specs.Prelude.{◌≡◌, ◌+◌, ◌<◌, ◌≤◌, length, All, map, slice_index_or};
ghost use Rattle.needed.specs.KeptFunction as clean;
ghost use Rattle.needed.specs.KeptTables.{marks_of, HasPlace, HavePlaces};
ghost use Rattle.needed.specs.Operands.{operands_of, operands_at_end};

use crate::kept::Kept;
use ir_core::{Inst, Op, Operand, Register, Terminator};
use lists::List;
use std::mem;

/// The register, at the index that its instruction has after the removal.
fn moved_register(kept: &Kept, register: Register) -> Register
    requires { HasPlace kept.now (Operand.Register register) }
    ensures { result ≡ clean.moved_register (marks_of kept.now) register }
{
    match register {
        Register::Parameter(parameter) => Register::Parameter(parameter),
        Register::Result(block, place) => {
            let first = kept.firsts[block as usize];
            let before = kept.counts[first + place as usize] - kept.counts[first];
            Register::Result(block, before as u32)
        }
    }
}

/// An operand with its register renamed.
fn moved_operand(kept: &Kept, operand: Operand) -> Operand
    requires { HasPlace kept.now operand }
    ensures { result ≡ clean.moved_operand (marks_of kept.now) operand }
{
    match operand {
        Operand::Register(register) => Operand::Register(moved_register(kept, register)),
        other => other,
    }
}

/// The entries of a phi with the registers of their operands renamed. It takes no memory.
fn moved_entries(kept: &Kept, entries: List<(Operand, u32)>) -> List<(Operand, u32)>
    requires { HavePlaces kept.now (map (λ e. e.0) entries) }
    ensures { result ≡ map (λ e. (clean.moved_operand (marks_of kept.now) e.0, e.1)) entries }
{
    let mut entries = entries.into_vec();
    for entry in entries.iter_mut() {
        entry.0 = moved_operand(kept, entry.0);
    }
    List::from_vec(entries)
}

/// An operation with the registers of its operands renamed.
fn moved_op(kept: &Kept, op: Op) -> Op
    requires { HavePlaces kept.now (operands_of op) }
    ensures { result ≡ clean.moved_op (marks_of kept.now) op }
{
    match op {
        Op::Binary(opcode, flags, x, y) => {
            let x = moved_operand(kept, x);
            Op::Binary(opcode, flags, x, moved_operand(kept, y))
        }
        Op::Compare(pred, samesign, width, x, y) => {
            let x = moved_operand(kept, x);
            Op::Compare(pred, samesign, width, x, moved_operand(kept, y))
        }
        Op::Unary(op, truth, x) => Op::Unary(op, truth, moved_operand(kept, x)),
        Op::Select(condition, x, y) => {
            let condition = moved_operand(kept, condition);
            let x = moved_operand(kept, x);
            Op::Select(condition, x, moved_operand(kept, y))
        }
        Op::Convert(cast, flags, from, x) => Op::Convert(cast, flags, from, moved_operand(kept, x)),
        Op::Freeze(x) => Op::Freeze(moved_operand(kept, x)),
        Op::Phi(entries) => Op::Phi(moved_entries(kept, entries)),
    }
}

/// The terminator with the register of its operand renamed.
pub(crate) fn moved_end(kept: &Kept, end: Terminator) -> Terminator
    requires { HavePlaces kept.now (operands_at_end end) }
    ensures { result ≡ clean.moved_end (marks_of kept.now) end }
{
    match end {
        Terminator::Return(x) => Terminator::Return(moved_operand(kept, x)),
        Terminator::Branch(x, to, other) => Terminator::Branch(moved_operand(kept, x), to, other),
        Terminator::Switch(x, width, other, cases) => {
            Terminator::Switch(moved_operand(kept, x), width, other, cases)
        }
        Terminator::Jump(to) => Terminator::Jump(to),
        Terminator::Unreachable => Terminator::Unreachable,
    }
}

/// Renames the registers of an instruction's operands.
fn move_operands(kept: &Kept, inst: &mut Inst)
    requires { HavePlaces kept.now (operands_of inst.old.op) }
    ensures { inst.new ≡ clean.moved_inst (marks_of kept.now) inst.old }
{
    let op = mem::replace(&mut inst.op, Op::Freeze(Operand::Poison));
    inst.op = moved_op(kept, op);
}

/// Those of a block's instructions that are kept, with the registers of their operands renamed. It takes no memory.
pub(crate) fn kept_insts(kept: &Kept, block: usize, insts: List<Inst>) -> List<Inst>
    requires block { block < length kept.now.firsts.items }
    requires numbers { slice_index_or kept.now.firsts.items block 0 + length insts
        ≤ length kept.now.marks.items }
    requires operands { All (λ i. HavePlaces kept.now (operands_of i.op)) insts }
    ensures { result ≡ clean.kept_insts (marks_of kept.now) block 0 insts }
{
    let first = kept.firsts[block];
    let mut insts = insts.into_vec();
    let mut count = 0;
    for place in 0..insts.len() {
        if kept.marks[first + place] {
            move_operands(kept, &mut insts[place]);
            insts.swap(count, place);
            count += 1;
        }
    }
    insts.truncate(count);
    List::from_vec(insts)
}
