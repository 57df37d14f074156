//! The function that a draft stands for.

ghost use Rattle.std.specs.Prelude.{◌≡◌, ◌<◌, ◌^◌, ℕ, [], All, IfOk, OnOk, Some, length, slice_get, slice_index_or};
ghost use Rattle.substitution.specs.Substitution.{substituted_inst};
ghost use Rattle.draft.specs.Drafts.{block_of, blocks_of, insts_of, function_of, standing, standing_in};
ghost use Rattle.draft.specs.Placing.{AreOrdered, IsOrdering, at_places};
ghost use Rattle.draft.specs.Whole.{IsSettled};

use crate::draft::Draft;
use ir_core::{Block, Function, Inst, Op, Operand, Register};
use lists::List;
use places::Order;
use readers::{Substitute, substitute_end, substitute_inst};
use std::alloc::{AllocError, Global};
use std::mem;

/// For each instruction of the arena, by block and number, its position in the function.
#[derive(Drop)]
struct Places {
    rows: Vec<List<u32>>,
}

impl Substitute for Places {
    ghost to = { λ p. at_places p.rows.items };

    fn stands_for(&self, register: Register) -> Operand {
        let Register::Result(block, number) = register else {
            return Operand::Register(register);
        };
        Operand::Register(Register::Result(block, self.place(block, number)))
    }
}

impl Places {
    /// The position of an instruction, and 0 for one that the table doesn't have.
    fn place(&self, block: u32, number: u32) -> u32
        ensures { result ≡ slice_index_or (slice_index_or self.now.rows.items block []) number 0 }
    {
        match self.rows.get(block as usize) {
            Some(row) => row.as_slice().get(number as usize).copied().unwrap_or(0),
            None => 0,
        }
    }
}

/// The function that a draft stands for. It is linear in the size of the arena.
pub fn function_of(alloc: Global, draft: Draft) -> Result<Function, AllocError>
    requires { IsSettled draft }
    ensures { IfOk result (λ f. f ≡ function_of draft) }
{
    let mut draft = draft;
    let placed = place_insts(alloc, &mut draft);
    let arena = arena_of(draft);
    placed?;
    Ok(arena)
}

/// The arena of a draft, without its tables.
fn arena_of(draft: Draft) -> Function
    ensures { result ≡ draft.arena }
{
    draft.arena
}

/// Turns the arena into the function: leaves the instructions that stand, in order, and renames results from numbers to
/// positions.
fn place_insts(alloc: Global, draft: &mut Draft) -> Result<(), AllocError>
    requires { IsSettled draft.old }
    ensures { OnOk result (draft.new.arena ≡ function_of draft.old) }
{
    let numbers = standing_numbers(alloc, &draft.orders, &draft.stand)?;
    let places = places_of(alloc, &draft.arena, &numbers)?;
    place_blocks(alloc, &places, &numbers, &mut draft.arena.blocks)
}

/// Of each block the numbers of the instructions that stand, in order.
fn standing_numbers(
    alloc: Global,
    orders: &[Order],
    stand: &[List<bool>],
) -> Result<Vec<List<u32>>, AllocError>
    requires same { length stand.now ≡ length orders.now }
    requires ordered { (b : ℕ) → b < length orders.now → IsOrdering (length (slice_index_or stand.now b [])) (slice_index_or orders.now b []) }
    ensures { IfOk result (λ rows. rows.items ≡ standing stand.now orders.now) }
{
    let mut rows = Vec::new(alloc);
    for block in 0..orders.len() {
        rows.push(standing_in(alloc, &orders[block], stand[block].as_slice())?)?;
    }
    Ok(rows)
}

/// The same of one block.
fn standing_in(alloc: Global, order: &Order, stand: &[bool]) -> Result<List<u32>, AllocError>
    requires { IsOrdering (length stand.now) order.now }
    ensures { IfOk result (λ row. row ≡ standing_in stand.now order.now) }
{
    let mut numbers = List::new(alloc);
    let mut at = order.first();
    while let Some(number) = at {
        if stand[number as usize] {
            numbers.push(number)?;
        }
        at = order.next(number);
    }
    Ok(numbers)
}

/// For each instruction of the arena its position among those that stand in its block.
fn places_of(alloc: Global, arena: &Function, numbers: &[List<u32>]) -> Result<Places, AllocError>
    requires blocks { length numbers.now ≡ length arena.now.blocks }
    requires insts { All (λ b. length b.insts < 2 ^ 32) arena.now.blocks }
    requires ordered { AreOrdered arena.now.blocks numbers.now }
    requires few { (b : ℕ) → length (slice_index_or numbers.now b []) < 2 ^ 32 }
    ensures { IfOk result (λ places. (b k n : ℕ) → slice_get (slice_index_or numbers.now b []) k ≡ Some n
        → slice_index_or (slice_index_or places.rows.items b []) n 0 ≡ k) }
{
    let mut rows = Vec::new(alloc);
    for block in 0..numbers.len() {
        let count = arena.blocks.as_slice()[block].insts.len();
        rows.push(places_in(alloc, numbers[block].as_slice(), count)?)?;
    }
    Ok(Places { rows })
}

/// The same of one block, of which the arena has so many instructions.
fn places_in(alloc: Global, numbers: &[u32], count: usize) -> Result<List<u32>, AllocError>
    requires count { count < 2 ^ 32 }
    requires ordered { IsOrdering count numbers.now }
    requires few { length numbers.now < 2 ^ 32 }
    ensures { IfOk result (λ row. (k n : ℕ) → slice_get numbers.now k ≡ Some n → slice_index_or row n 0 ≡ k) }
{
    let mut places = vec![in alloc; 0; count]?;
    for (place, number) in numbers.iter().enumerate() {
        places[*number as usize] = place as u32;
    }
    Ok(List::from_vec(places))
}

/// Leaves in blocks the instructions with these numbers, in order, and renames results from numbers to positions.
fn place_blocks(
    alloc: Global,
    places: &Places,
    numbers: &[List<u32>],
    blocks: &mut List<Block>,
) -> Result<(), AllocError>
    requires blocks { length numbers.now ≡ length blocks.old }
    requires ordered { AreOrdered blocks.old numbers.now }
    ensures { OnOk result (blocks.new ≡ blocks_of (at_places places.now.rows.items) numbers.now blocks.old) }
{
    for index in 0..blocks.len() {
        let block = blocks.get_mut(index);
        place_block(alloc, places, numbers[index].as_slice(), block)?;
    }
    Ok(())
}

/// The same of one block.
fn place_block(
    alloc: Global,
    places: &Places,
    numbers: &[u32],
    block: &mut Block,
) -> Result<(), AllocError>
    requires { IsOrdering (length block.old.insts) numbers.now }
    ensures { OnOk result (block.new ≡ block_of (at_places places.now.rows.items) numbers.now block.old) }
{
    let insts = mem::replace(&mut block.insts, List::new(alloc));
    block.insts = placed_insts(alloc, places, numbers, insts)?;
    substitute_end(places, &mut block.end);
    Ok(())
}

/// The instructions with these numbers, where results are renamed from numbers to positions.
fn placed_insts(
    alloc: Global,
    places: &Places,
    numbers: &[u32],
    insts: List<Inst>,
) -> Result<List<Inst>, AllocError>
    requires { IsOrdering (length insts) numbers.now }
    ensures { IfOk result (λ placed. placed ≡ insts_of (at_places places.now.rows.items) insts numbers.now) }
{
    let mut insts = insts.into_vec();
    let mut placed = List::new(alloc);
    for number in numbers {
        placed.push(placed_inst(places, &mut insts[*number as usize]))?;
    }
    Ok(placed)
}

/// Moves an instruction out, and renames results in it from numbers to positions. What is left in its stead reads no
/// register.
fn placed_inst(places: &Places, inst: &mut Inst) -> Inst
    ensures { result ≡ substituted_inst (at_places places.now.rows.items) inst.old }
{
    let mut placed = Inst {
        name: mem::replace(&mut inst.name, None),
        width: inst.width,
        op: mem::replace(&mut inst.op, Op::Freeze(Operand::Poison)),
    };
    substitute_inst(places, &mut placed);
    placed
}
