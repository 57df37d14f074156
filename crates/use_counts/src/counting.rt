//! Counts of uses, in one pass over a function.

ghost use Rattle.std.specs.Prelude.{◌≡◌, ◌+◌, ◌<◌, ◌^◌, ℕ, [], length, map, replicate, slice_set, slice_index_or, All, IfOk, OnOk};
ghost use Rattle.ir_core.specs.Assigned.{IsBefore};
ghost use Rattle.ir_core.specs.Checks.{IsKnown};
ghost use Rattle.ir_core.specs.Reads.{Read, IsRead};
ghost use Rattle.ir_core.specs.declared.operand.Register.{Register as Named};
ghost use Rattle.use_counts.specs.Counting.{AreCountsAmong, IsCounted, one_more};
ghost use Rattle.use_counts.specs.Tables.{AreCounts, HasNumber};

use crate::uses::Uses;
use ir_core::{Block, Function, Operand, Register, end_of, read_at, read_count};
use lists::List;
use std::alloc::{AllocError, Global};

/// How often each register of a function is used, in one pass over its operands. The only error is want of memory. A
/// count that no `usize` holds ends with that error too; no function that fits in memory has one.
pub fn count_uses(alloc: Global, f: &Function) -> Result<Uses, AllocError>
    // Blocks, and the instructions of each, are counted in 32 bits.
    requires blocks { length f.now.blocks < 2 ^ 32 }
    requires insts { All (λ b. length b.insts < 2 ^ 32) f.now.blocks }
    requires registers { (b k i : ℕ) (r : Read) → IsRead f.now b k i r → IsKnown f.now r.operand }
    ensures { IfOk result (AreCounts f.now) }
{
    let mut uses = Uses::none(alloc, f)?;
    for block in 0..f.blocks.len() as u32 {
        uses.count_block(f, block)?;
    }
    Ok(uses)
}

impl Uses {
    /// A table with a zero for each register of the function.
    fn none(alloc: Global, f: &Function) -> Result<Uses, AllocError>
        ensures { IfOk result (AreCountsAmong f.now (λ b k i. IsBefore b k i 0 0 0)) }
    {
        let parameters = zeros(alloc, f.parameters.len())?;
        let results = rows_of_zeros(alloc, f.blocks.as_slice())?;
        Ok(Uses {
            parameters,
            results,
        })
    }

    /// Counts the operands of a block.
    fn count_block(&mut self, f: &Function, block: u32) -> Result<(), AllocError>
        requires insts { All (λ b. length b.insts < 2 ^ 32) f.now.blocks }
        requires registers { (b k i : ℕ) (r : Read) → IsRead f.now b k i r → IsKnown f.now r.operand }
        requires before { AreCountsAmong f.now (λ b k i. IsBefore b k i block 0 0) self.old }
        ensures { OnOk result (AreCountsAmong f.now (λ b k i. IsBefore b k i (block + 1) 0 0) self.new) }
    {
        let end = end_of(f, block);
        for place in 0..end {
            self.count_place(f, block, place)?;
        }
        self.count_place(f, block, end)?;
        Ok(())
    }

    /// Counts the operands of the instruction or the terminator at a place.
    fn count_place(&mut self, f: &Function, block: u32, place: u32) -> Result<(), AllocError>
        requires insts { All (λ b. length b.insts < 2 ^ 32) f.now.blocks }
        requires registers { (b k i : ℕ) (r : Read) → IsRead f.now b k i r → IsKnown f.now r.operand }
        requires before { AreCountsAmong f.now (λ b k i. IsBefore b k i block place 0) self.old }
        ensures { OnOk result (AreCountsAmong f.now (λ b k i. IsBefore b k i block (place + 1) 0) self.new) }
    {
        for index in 0..read_count(f, block, place) {
            if let Some(read) = read_at(f, block, place, index) {
                self.count(read.operand)?;
            }
        }
        Ok(())
    }

    /// Counts an operand.
    fn count(&mut self, operand: Operand) -> Result<(), AllocError>
        requires { (register : Named) → operand ≡ Operand.Register register → HasNumber self.old register }
        ensures { OnOk result (IsCounted operand self.old self.new) }
    {
        let Operand::Register(register) = operand else {
            return Ok(());
        };
        match register {
            Register::Parameter(parameter) => count_in(&mut self.parameters, parameter),
            Register::Result(block, place) => count_at(&mut self.results, block, place),
        }
    }
}

/// Counts a use of the result of an instruction.
fn count_at(rows: &mut Vec<List<usize>>, block: u32, place: u32) -> Result<(), AllocError>
    requires block { block < length rows.old.items }
    requires place { place < length (slice_index_or rows.old.items block []) }
    ensures { OnOk result (rows.new.items ≡ slice_set rows.old.items block (one_more (slice_index_or rows.old.items block []) place)) }
{
    count_in(&mut rows[block as usize], place)
}

/// Counts a use in a row of the table.
fn count_in(row: &mut List<usize>, place: u32) -> Result<(), AllocError>
    requires { place < length row.old }
    ensures { OnOk result (row.new ≡ one_more row.old place) }
{
    let more = next(row.as_slice()[place as usize])?;
    *row.get_mut(place as usize) = more;
    Ok(())
}

/// The next number, if a `usize` holds it.
fn next(number: usize) -> Result<usize, AllocError>
    ensures { IfOk result (λ next. next ≡ number + 1) }
{
    number.checked_add(1).ok_or(AllocError)
}

/// A row of zeros for each of these blocks, with one for each of its instructions.
fn rows_of_zeros(alloc: Global, blocks: &[Block]) -> Result<Vec<List<usize>>, AllocError>
    ensures { IfOk result (λ rows. rows.items ≡ map (λ b. replicate (length b.insts) 0) blocks.now) }
{
    let mut rows = Vec::new(alloc);
    for block in blocks {
        rows.push(zeros(alloc, block.insts.len())?)?;
    }
    Ok(rows)
}

/// So many zeros.
fn zeros(alloc: Global, count: usize) -> Result<List<usize>, AllocError>
    ensures { IfOk result (λ row. row ≡ replicate count 0) }
{
    Ok(List::from_vec(vec![in alloc; 0; count]?))
}
