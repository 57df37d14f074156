//! Rules applied to drafts.

ghost use Rattle.std.specs.Prelude.{◌≡◌, ◌+◌, ◌≤◌, ◌++◌, ◌↔◌, length, map, Contains, IfOk, OnOk};
ghost use Rattle.std.specs.List.{filter_map, range_with_len};
ghost use Rattle.ir_core.specs.Blocks.{HasInst, IsBlock};
ghost use Rattle.ir_core.specs.Checks.{IsInst, IsKnown};
ghost use Rattle.ir_core.specs.Reads.{end_of};
ghost use Rattle.ir_core.specs.declared.function.Block.{Block};
ghost use Rattle.ir_core.specs.declared.instruction.Inst.{Inst as Instruction};
ghost use Rattle.rule_core.specs.Checks.{IsRule};
ghost use Rattle.rewriter.specs.Put as target;
ghost use Rattle.rewriter.specs.Ready.{IsBound};
ghost use Rattle.readers.specs.Changes.{changed_at, replaced, with_inst_removed, without};
ghost use Rattle.readers.specs.Counts.{operands_at, register_of};
ghost use Rattle.draft.specs.Drafts.{HasRoomFor, Stands, numbers_of, orders_of};
ghost use Rattle.draft.specs.KeptOrders.{KeepsOrders};
ghost use Rattle.places.specs.Orders.{none};
ghost use Rattle.readers.specs.Readers.{IsPlaceIn, IsReader};
ghost use Rattle.draft_steps.specs.Rewriting.{IsPutFor, MayPut, MayRead, numbered, rows_with, with_put};
ghost use Rattle.draft.specs.Whole.{IsWhole};
ghost use Rattle.places.specs.declared.place.Place.{Place as Spot};

use crate::inserting::put_before;
use crate::removing::remove_inst;
use crate::replacing::{Swap, replace};
use bindings::Binding;
use draft::Draft;
use ir_core::{Inst, Operand, Register};
use lists::{List, Text};
use places::Place;
use rewriter::rewrite_of;
use rule_core::Rule;
use std::alloc::{AllocError, Global};
use substitution::Rewrite;

/// What a rewrite did to a draft.
#[derive(Drop)]
pub(crate) struct Rewritten {
    /// The places of the inserted instructions, which are the target's.
    pub(crate) put: Vec<Place>,
    /// The places at which the root's register was replaced.
    pub(crate) replaced: Vec<Place>,
    /// The operand that replaced it: the result of the target.
    pub(crate) result: Operand,
}

/// Applies a rule where it matches with this binding to numbers of the arena: the target's instructions get the next
/// numbers and are inserted before the root, all uses of the root's register are replaced by the target's result, and
/// the root is removed.
pub(crate) fn rewrite_draft(
    alloc: Global,
    draft: &mut Draft,
    binding: &Binding,
    rule: &Rule,
) -> Result<Rewritten, AllocError>
    requires whole { IsWhole draft.old }
    requires rule { IsRule rule.now }
    requires bound { IsBound rule.now binding.now }
    requires root { Stands draft.old binding.now.block binding.now.place }
    requires readable { (root : Instruction) → IsInst draft.old.arena binding.now.block binding.now.place root
        → MayPut draft.old.arena binding.now.block (target.rewrite_of rule.now (numbered draft.old.arena binding.now) root.name).put }
    requires result { (root : Instruction) → IsInst draft.old.arena binding.now.block binding.now.place root
        → let w = target.rewrite_of rule.now (numbered draft.old.arena binding.now) root.name in MayRead draft.old.arena binding.now.block (length w.put) w.result }
    requires room { HasRoomFor 1 draft.old }
    ensures whole { OnOk result (IsWhole draft.new) }
    ensures orders { OnOk result (KeepsOrders (orders_of draft.old) (orders_of draft.new)) }
    ensures rewritten { IfOk result (λ rewritten. (root : Instruction) → IsInst draft.old.arena binding.now.block binding.now.place root
        → IsPutFor draft.old draft.new (target.rewrite_of rule.now (numbered draft.old.arena binding.now) root.name) binding.now.place rewritten) }
{
    let root = Place {
        block: binding.block,
        number: binding.place,
    };
    let name = name_at(alloc, draft, root)?;
    let numbered = at_number(alloc, binding, draft.count_in(root.block))?;
    let rewrite = rewrite_of(alloc, rule, &numbered, name)?;
    put_for(alloc, draft, root, rewrite)
}

/// Inserts the instructions of a rewrite before its root, replaces all uses of the root's register, and removes the
/// root.
fn put_for(
    alloc: Global,
    draft: &mut Draft,
    root: Place,
    rewrite: Rewrite,
) -> Result<Rewritten, AllocError>
    requires whole { IsWhole draft.old }
    requires root { Stands draft.old root.block root.number }
    requires block { rewrite.block ≡ root.block }
    requires readable { MayPut draft.old.arena root.block rewrite.put }
    requires result { MayRead draft.old.arena root.block (length rewrite.put) rewrite.result }
    requires room { (block : Block) → IsBlock draft.old.arena root.block block → length block.insts + length rewrite.put ≤ none }
    ensures whole { OnOk result (IsWhole draft.new) }
    ensures orders { OnOk result (KeepsOrders (orders_of draft.old) (orders_of draft.new)) }
    ensures put { IfOk result (IsPutFor draft.old draft.new rewrite root.number) }
{
    let operand = rewrite.result;
    let Rewrite { put, result, .. } = rewrite;
    let places = put_all(alloc, draft, root, put.into_vec())?;
    let replaced = replace_root(alloc, draft, root, operand)?;
    Ok(Rewritten {
        put: places,
        replaced,
        result,
    })
}

/// Replaces all uses of an instruction's register by an operand, removes the instruction, and returns the places of the
/// uses.
fn replace_root(
    alloc: Global,
    draft: &mut Draft,
    root: Place,
    operand: Operand,
) -> Result<Vec<Place>, AllocError>
    requires whole { IsWhole draft.old }
    requires root { HasInst draft.old.arena root.block root.number }
    requires operand { IsKnown draft.old.arena operand }
    ensures whole { OnOk result (IsWhole draft.new) }
    ensures arena { OnOk result (draft.new.arena
        ≡ with_inst_removed (replaced draft.old.arena (Register.Result root.block root.number) operand) root.block root.number) }
    ensures orders { OnOk result (orders_of draft.new ≡ orders_of draft.old) }
    ensures numbers { OnOk result (numbers_of draft.new ≡ changed_at root.block (without root.number) (numbers_of draft.old)) }
    ensures fell { OnOk result (draft.new.dead_candidates.items ≡ draft.old.dead_candidates.items
        ++ filter_map register_of (operands_at (replaced draft.old.arena (Register.Result root.block root.number) operand) root)) }
    ensures places { IfOk result (λ places. (p : Spot) → Contains places.items p
        ↔ (IsPlaceIn draft.old.arena p × IsReader draft.old.arena (Register.Result root.block root.number) p)) }
{
    let swap = Swap {
        from: Register::Result(root.block, root.number),
        to: operand,
    };
    let replaced = replace(alloc, draft, &swap)?;
    remove_inst(draft, root)?;
    Ok(replaced)
}

/// A copy of the name of an instruction.
fn name_at(alloc: Global, draft: &Draft, at: Place) -> Result<Option<Text>, AllocError>
    requires { HasInst draft.now.arena at.block at.number }
    ensures { IfOk result (λ name. (inst : Instruction) → IsInst draft.now.arena at.block at.number inst → name ≡ inst.name) }
{
    let block = &draft.arena.blocks.as_slice()[at.block as usize];
    match &block.insts.as_slice()[at.number as usize].name {
        Some(text) => Ok(Some(List::from_vec(Vec::from_slice(alloc, text.as_slice())?))),
        None => Ok(None),
    }
}

/// Inserts instructions before another, in order, and returns their places.
fn put_all(
    alloc: Global,
    draft: &mut Draft,
    at: Place,
    insts: Vec<Inst>,
) -> Result<Vec<Place>, AllocError>
    requires whole { IsWhole draft.old }
    requires at { Stands draft.old at.block at.number }
    requires room { (block : Block) → IsBlock draft.old.arena at.block block → length block.insts + length insts.items ≤ none }
    requires readable { MayPut draft.old.arena at.block insts.items }
    ensures whole { OnOk result (IsWhole draft.new) }
    ensures put { IfOk result (λ put. put.items ≡ map (λ number. record { block = at.block; number = number })
        (range_with_len (end_of draft.old.arena at.block) (length insts.items))) }
    ensures fell { OnOk result (draft.new.dead_candidates.items ≡ draft.old.dead_candidates.items ++ map (λ number. Register.Result at.block number)
        (range_with_len (end_of draft.old.arena at.block) (length insts.items))) }
    ensures orders { OnOk result (KeepsOrders (orders_of draft.old) (orders_of draft.new)) }
    ensures arena { OnOk result (draft.new.arena ≡ with_put draft.old.arena at.block insts.items) }
    ensures numbers { OnOk result (numbers_of draft.new ≡ rows_with (numbers_of draft.old) at.block at.number
        (range_with_len (end_of draft.old.arena at.block) (length insts.items))) }
{
    let mut put = Vec::new(alloc);
    for inst in insts {
        put.push(put_before(alloc, draft, at, inst)?)?;
    }
    Ok(put)
}

/// The same binding with this number for its root, so that inserted instructions are numbered from there on.
fn at_number(alloc: Global, binding: &Binding, number: u32) -> Result<Binding, AllocError>
    ensures { IfOk result (λ numbered. numbered ≡ record binding.now { place = number }) }
{
    Ok(Binding {
        block: binding.block,
        place: number,
        statements: List::from_vec(Vec::from_slice(alloc, binding.statements.as_slice())?),
        inputs: List::from_vec(Vec::from_slice(alloc, binding.inputs.as_slice())?),
        constants: List::from_vec(Vec::from_slice(alloc, binding.constants.as_slice())?),
        typing: List::from_vec(Vec::from_slice(alloc, binding.typing.as_slice())?),
    })
}
