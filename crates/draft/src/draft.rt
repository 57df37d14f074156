//! Drafts: functions that are rewritten in place.

ghost use Rattle.std.specs.Prelude.{◌≡◌, ◌<◌, ◌≤◌, ◌^◌, ◌↔◌, ℕ, length, map, replicate, true, false, All, IsFalse, IsTrue, IfOk, Some, slice_get};
ghost use Rattle.std.specs.List.{range_with_len};
ghost use Rattle.ir_core.specs.Blocks.{HasInst};
ghost use Rattle.ir_core.specs.Checks.{MeetsChecks, IsPhi};
ghost use Rattle.ir_core.specs.Reads.{end_of};
ghost use Rattle.ir_core.specs.declared.instruction.Inst.{Inst as Instruction};
ghost use Rattle.assigned_flow.specs.Successors.{successors_of};
ghost use Rattle.bindings.specs.Facts.{AreFactsOf};
ghost use Rattle.draft.specs.Drafts.{Stands, function_of, orders_of};
ghost use Rattle.places.specs.Orders.{none};
ghost use Rattle.readers.specs.Readers.{AreReadersOf};
ghost use Rattle.draft.specs.Whole.{HasNoCycles, IsWhole, IsSettled};

use assigned_flow::Assigned;
use bindings::FunctionFacts;
use ir_core::{Block, Function, Op, Register};
use lists::List;
use places::{Order, Place};
use readers::Readers;
use std::alloc::{AllocError, Global};

/// A function that is rewritten in place. Its instructions are in an arena, where each keeps its number, the index in
/// its block there, while others are inserted before it or removed.
#[derive(Drop)]
pub struct Draft {
    /// The arena: the instructions of each block by number, and its terminator. Operands name a result by the number of
    /// its instruction. A removed instruction stays, but reads no register.
    pub arena: Function,
    /// Which blocks are reached from the entry, and each register's count of uses.
    pub facts: FunctionFacts,
    /// The order of each block: the numbers of its instructions, of removed ones too.
    pub orders: Vec<Order>,
    /// Which instructions of the arena are in the function: those that weren't removed.
    pub stand: Vec<List<bool>>,
    /// The use list of each register: all places that read it, and perhaps some that ceased to.
    pub readers: Readers,
    /// The worklist of dead code elimination: registers that a removed instruction read, and results of inserted ones.
    pub dead_candidates: Vec<Register>,
    /// Whether def-use chains may have cycles. Where it is false there is no phi, and each block is reached.
    pub has_cycles: bool,
}

impl Draft {
    /// The draft of a function. It is linear in the function's size.
    pub fn of(alloc: Global, f: Function) -> Result<Draft, AllocError>
        requires checks { MeetsChecks f }
        requires blocks { length f.blocks < 2 ^ 32 }
        requires insts { All (λ b. length b.insts ≤ none) f.blocks }
        ensures settled { IfOk result IsSettled }
        ensures arena { IfOk result (λ draft. draft.arena ≡ f) }
        ensures function { IfOk result (λ draft. function_of draft ≡ f) }
        ensures stand { IfOk result (λ draft. (b n : ℕ) → HasInst f b n → Stands draft b n) }
    {
        let tables = Tables::of(alloc, &f)?;
        Ok(Draft {
            arena: f,
            facts: tables.facts,
            orders: tables.orders,
            stand: tables.stand,
            readers: tables.readers,
            dead_candidates: Vec::new(alloc),
            has_cycles: tables.has_cycles,
        })
    }

    /// The arena: the instructions of each block by number.
    pub fn arena(&self) -> &Function
        ensures { result.now ≡ self.now.arena }
    {
        &self.arena
    }

    /// Which blocks are reached from the entry, and each register's count of uses.
    pub fn facts(&self) -> &FunctionFacts
        requires { IsWhole self.now }
        ensures { AreFactsOf self.now.arena result.now }
    {
        &self.facts
    }

    /// How many blocks there are.
    pub fn blocks(&self) -> u32
        requires { IsWhole self.now }
        ensures { result ≡ length self.now.arena.blocks }
    {
        self.arena.blocks.len() as u32
    }

    /// How many instructions the arena has of a block, removed ones among them.
    pub fn count_in(&self, block: u32) -> u32
        requires whole { IsWhole self.now }
        requires block { block < length self.now.arena.blocks }
        ensures { result ≡ end_of self.now.arena block }
    {
        self.arena.blocks.as_slice()[block as usize].insts.len() as u32
    }

    /// Whether an instruction of the arena is in the function: it wasn't removed.
    pub fn stands(&self, place: Place) -> bool
        requires whole { IsWhole self.now }
        requires inst { HasInst self.now.arena place.block place.number }
        ensures { IsTrue result ↔ Stands self.now place.block place.number }
    {
        self.stand[place.block as usize].as_slice()[place.number as usize]
    }
}

/// What the draft of a function keeps beside the arena.
#[derive(Drop)]
struct Tables {
    facts: FunctionFacts,
    orders: Vec<Order>,
    stand: Vec<List<bool>>,
    readers: Readers,
    has_cycles: bool,
}

impl Tables {
    /// The tables of a function from which nothing was removed.
    fn of(alloc: Global, f: &Function) -> Result<Tables, AllocError>
        requires checks { MeetsChecks f.now }
        requires blocks { length f.now.blocks < 2 ^ 32 }
        requires insts { All (λ b. length b.insts ≤ none) f.now.blocks }
        ensures facts { IfOk result (λ tables. AreFactsOf f.now tables.facts) }
        ensures orders { IfOk result (λ tables. tables.orders.items ≡ map (λ b. range_with_len 0 (length b.insts)) f.now.blocks) }
        ensures stand { IfOk result (λ tables. tables.stand.items ≡ map (λ b. replicate (length b.insts) true) f.now.blocks) }
        ensures readers { IfOk result (λ tables. AreReadersOf f.now tables.readers) }
        ensures cycles { IfOk result (λ tables. IsFalse tables.has_cycles ↔ HasNoCycles f.now) }
    {
        let orders = orders_of(alloc, f)?;
        let stand = all_of(alloc, f)?;
        let readers = Readers::of(alloc, f)?;
        let facts = FunctionFacts::of(alloc, f)?;
        let has_cycles = has_cycles(f, &facts.flow);
        Ok(Tables {
            facts,
            orders,
            stand,
            readers,
            has_cycles,
        })
    }
}

/// Of each block the numbers of its instructions, in order.
fn orders_of(alloc: Global, f: &Function) -> Result<Vec<Order>, AllocError>
    requires { All (λ b. length b.insts ≤ none) f.now.blocks }
    ensures { IfOk result (λ rows. rows.items ≡ map (λ b. range_with_len 0 (length b.insts)) f.now.blocks) }
{
    let mut rows = Vec::new(alloc);
    for block in f.blocks.as_slice() {
        rows.push(Order::new(alloc, block.insts.len() as u32)?)?;
    }
    Ok(rows)
}

/// A flag for each instruction, which says that it is in the function.
fn all_of(alloc: Global, f: &Function) -> Result<Vec<List<bool>>, AllocError>
    ensures { IfOk result (λ rows. rows.items ≡ map (λ b. replicate (length b.insts) true) f.now.blocks) }
{
    let mut rows = Vec::new(alloc);
    for block in f.blocks.as_slice() {
        rows.push(List::from_vec(vec![in alloc; true; block.insts.len()]?))?;
    }
    Ok(rows)
}

/// Whether a function has a phi, or a block that isn't reached.
fn has_cycles(f: &Function, flow: &Assigned) -> bool
    requires blocks { length f.now.blocks < 2 ^ 32 }
    requires flow { flow.now ≡ successors_of f.now }
    ensures { IsFalse result ↔ HasNoCycles f.now }
{
    for block in 0..f.blocks.len() as u32 {
        if !flow.reached(block) || has_phi(&f.blocks.as_slice()[block as usize]) {
            return true;
        }
    }
    false
}

/// Whether a block has a phi.
fn has_phi(block: &Block) -> bool
    ensures { IsFalse result ↔ ((k : ℕ) (inst : Instruction) → slice_get block.now.insts k ≡ Some inst → ¬ IsPhi inst.op) }
{
    for inst in block.insts.as_slice() {
        if matches!(inst.op, Op::Phi(_)) {
            return true;
        }
    }
    false
}
