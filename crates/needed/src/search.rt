//! Which instructions are live: a search by a worklist, which begins with what the terminators read and follows
//! operands from uses to definitions.

ghost use Rattle.std.specs.Prelude.{◌≡◌, [], ◌∷◌, ℕ, length, All, IfOk, OnOk, map};
ghost use Rattle.ir_core.specs.Checks.{IsKnown};
ghost use Rattle.ir_core.specs.Reads.{Read, IsRead};
ghost use Rattle.needed.specs.Cleaned.{KeepsNeeded};
ghost use Rattle.needed.specs.NeededMarks.{Marked, IsSearched};
ghost use Rattle.needed.specs.InstNumbers.{AreNumbers, IsNumbered, marks_by};
ghost use Rattle.needed.specs.Operands.{operands_of, operands_at_end};

use crate::numbers::Numbers;
use ir_core::{Function, Op, Operand, Register, Terminator};
use std::alloc::{AllocError, Global};

/// The state of the search.
#[derive(Drop)]
pub(crate) struct Search {
    /// For each instruction by its number, whether it is known to be live.
    marks: Vec<bool>,
    /// The worklist: the marked instructions, by block and place, whose operands are still to be marked.
    work: Vec<(u32, u32)>,
}

impl Search {
    /// Marks the instruction that defines the register, and puts it on the worklist, unless it is marked already.
    fn mark_register(&mut self, numbers: &Numbers, register: Register) -> Result<(), AllocError>
        requires { IsNumbered numbers.now.firsts.items (length self.old.marks.items) (Operand.Register register) }
        ensures { OnOk result (
            Marked numbers.now.firsts.items (Operand.Register register ∷ []) self.old self.new) }
    {
        if let Register::Result(block, place) = register {
            let number = numbers.firsts[block as usize] + place as usize;
            if !self.marks[number] {
                self.work.push((block, place))?;
                self.marks[number] = true;
            }
        }
        Ok(())
    }

    /// Marks the instruction that defines an operand.
    fn mark(&mut self, numbers: &Numbers, operand: Operand) -> Result<(), AllocError>
        requires { IsNumbered numbers.now.firsts.items (length self.old.marks.items) operand }
        ensures { OnOk result (Marked numbers.now.firsts.items (operand ∷ []) self.old self.new) }
    {
        match operand {
            Operand::Register(register) => self.mark_register(numbers, register),
            _ => Ok(()),
        }
    }

    /// Marks the instructions that define these operands.
    fn mark_all(&mut self, numbers: &Numbers, operands: &[Operand]) -> Result<(), AllocError>
        requires { All (IsNumbered numbers.now.firsts.items (length self.old.marks.items)) operands.now }
        ensures { OnOk result (Marked numbers.now.firsts.items operands.now self.old self.new) }
    {
        for operand in operands {
            self.mark(numbers, *operand)?;
        }
        Ok(())
    }

    /// Marks the instructions that define the operands of these entries.
    fn mark_entries(
        &mut self,
        numbers: &Numbers,
        entries: &[(Operand, u32)],
    ) -> Result<(), AllocError>
        requires { All (IsNumbered numbers.now.firsts.items (length self.old.marks.items)) (map (λ e. e.0) entries.now) }
        ensures { OnOk result (
            Marked numbers.now.firsts.items (map (λ e. e.0) entries.now) self.old self.new) }
    {
        for entry in entries {
            self.mark(numbers, entry.0)?;
        }
        Ok(())
    }

    /// Marks the instructions that define an instruction's operands.
    fn mark_op(&mut self, numbers: &Numbers, op: &Op) -> Result<(), AllocError>
        requires { All (IsNumbered numbers.now.firsts.items (length self.old.marks.items)) (operands_of op.now) }
        ensures { OnOk result (
            Marked numbers.now.firsts.items (operands_of op.now) self.old self.new) }
    {
        match op {
            Op::Binary(_, _, x, y) | Op::Compare(_, _, _, x, y) => self.mark_all(
                numbers,
                &[*x, *y],
            ),
            Op::Select(condition, x, y) => self.mark_all(numbers, &[*condition, *x, *y]),
            Op::Unary(_, _, x) | Op::Convert(_, _, _, x) | Op::Freeze(x) => {
                self.mark_all(numbers, &[*x])
            }
            Op::Phi(entries) => self.mark_entries(numbers, entries.as_slice()),
        }
    }

    /// Marks the instruction that defines a terminator's operand.
    fn mark_end(&mut self, numbers: &Numbers, end: &Terminator) -> Result<(), AllocError>
        requires { All (IsNumbered numbers.now.firsts.items (length self.old.marks.items)) (operands_at_end end.now) }
        ensures { OnOk result (
            Marked numbers.now.firsts.items (operands_at_end end.now) self.old self.new) }
    {
        match end {
            Terminator::Return(x) | Terminator::Branch(x, _, _) | Terminator::Switch(x, _, _, _) =>
                self.mark_all(numbers, &[*x]),
            Terminator::Jump(_) | Terminator::Unreachable => self.mark_all(numbers, &[]),
        }
    }

    /// The start of the search: the instructions that define the terminators' operands are marked.
    fn from_ends(alloc: Global, f: &Function, numbers: &Numbers) -> Result<Search, AllocError>
        requires numbers { AreNumbers f.now.blocks numbers.now.firsts.items numbers.now.count }
        requires registers { (b k i : ℕ) (r : Read) →
            IsRead f.now b k i r → IsKnown f.now r.operand }
        ensures { IfOk result (
            IsSearched f.now numbers.now.firsts.items numbers.now.count (length f.now.blocks)) }
    {
        let mut search = Search {
            marks: vec![in alloc; false; numbers.count]?,
            work: Vec::new(alloc),
        };
        for block in f.blocks.as_slice() {
            search.mark_end(numbers, &block.end)?;
        }
        Ok(search)
    }

    /// Takes instructions from the worklist and marks those that define their operands, until the worklist is empty.
    fn follow(&mut self, f: &Function, numbers: &Numbers) -> Result<(), AllocError>
        requires numbers { AreNumbers f.now.blocks numbers.now.firsts.items numbers.now.count }
        requires registers { (b k i : ℕ) (r : Read) →
            IsRead f.now b k i r → IsKnown f.now r.operand }
        requires searched { IsSearched f.now numbers.now.firsts.items numbers.now.count (length f.now.blocks) self.old }
        ensures searched { OnOk result (
            IsSearched f.now numbers.now.firsts.items numbers.now.count (length f.now.blocks) self.new) }
        ensures done { OnOk result (self.new.work.items ≡ []) }
    {
        while let Some((block, place)) = self.work.pop() {
            let block = &f.blocks.as_slice()[block as usize];
            let inst = &block.insts.as_slice()[place as usize];
            self.mark_op(numbers, &inst.op)?;
        }
        Ok(())
    }
}

/// For each instruction by its number, whether its result is needed (live).
pub(crate) fn needed(
    alloc: Global,
    f: &Function,
    numbers: &Numbers,
) -> Result<Vec<bool>, AllocError>
    requires numbers { AreNumbers f.now.blocks numbers.now.firsts.items numbers.now.count }
    requires registers { (b k i : ℕ) (r : Read) → IsRead f.now b k i r → IsKnown f.now r.operand }
    ensures count { IfOk result (λ marks. length marks.items ≡ numbers.now.count) }
    ensures exact { IfOk result (λ marks.
        KeepsNeeded f.now (marks_by numbers.now.firsts.items marks.items)) }
{
    let mut search = Search::from_ends(alloc, f, numbers)?;
    search.follow(f, numbers)?;
    Ok(search.marks)
}
