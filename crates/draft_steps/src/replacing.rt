//! All uses of a register replaced by an operand.

ghost use Rattle.std.specs.Prelude.{◌≡◌, ◌↔◌, ◌⊎◌, ◌<◌, length, slice_get, Some, Contains, OnOk, IfOk};
ghost use Rattle.ir_core.specs.declared.function.Block.{Block as Written};
ghost use Rattle.ir_core.specs.Checks.{IsKnown};
ghost use Rattle.substitution.specs.Substitution.{substituted_end, substituted_inst};
ghost use Rattle.readers.specs.Changes.{changed_at, end_changed, inst_changed, instead, replaced, replaced_at};
ghost use Rattle.draft.specs.Drafts.{numbers_of, orders_of};
ghost use Rattle.places.specs.Orders.{none};
ghost use Rattle.readers.specs.Readers.{IsPlaceIn, IsReader};
ghost use Rattle.draft.specs.Whole.{IsWhole};
ghost use Rattle.places.specs.declared.place.Place.{Place as Spot};

use draft::Draft;
use ir_core::{Block, Operand, Register};
use lists::List;
use places::{END, Place};
use readers::{Substitute, count_reads, forget_reads, substitute_end, substitute_inst};
use std::alloc::{AllocError, Global};

/// A register, and the operand that replaces it.
#[derive(Clone, Copy)]
pub(crate) struct Swap {
    /// The register.
    pub(crate) from: Register,
    /// The operand.
    pub(crate) to: Operand,
}

impl Substitute for Swap {
    ghost to = { λ s. instead s.from s.to };

    fn stands_for(&self, register: Register) -> Operand {
        if register == self.from {
            self.to
        } else {
            Operand::Register(register)
        }
    }
}

/// Replaces all uses of a register by an operand, and returns their places.
pub(crate) fn replace(
    alloc: Global,
    draft: &mut Draft,
    swap: &Swap,
) -> Result<Vec<Place>, AllocError>
    requires whole { IsWhole draft.old }
    requires from { IsKnown draft.old.arena (Operand.Register swap.now.from) }
    requires to { IsKnown draft.old.arena swap.now.to }
    ensures whole { OnOk result (IsWhole draft.new) }
    ensures arena { OnOk result (draft.new.arena ≡ replaced draft.old.arena swap.now.from swap.now.to) }
    ensures numbers { OnOk result (numbers_of draft.new ≡ numbers_of draft.old) }
    ensures orders { OnOk result (orders_of draft.new ≡ orders_of draft.old) }
    ensures dead_candidates { OnOk result (draft.new.dead_candidates.items ≡ draft.old.dead_candidates.items) }
    ensures places { IfOk result (λ places. (p : Spot) → Contains places.items p
        ↔ (IsPlaceIn draft.old.arena p × IsReader draft.old.arena swap.now.from p)) }
{
    draft.trim_readers(alloc, swap.from);
    let places = Vec::from_slice(alloc, draft.readers_of(swap.from))?;
    for place in &places {
        replace_at(draft, *place, swap)?;
    }
    Ok(places)
}

/// Replaces the uses at one place, keeping counts of uses and use lists.
fn replace_at(draft: &mut Draft, place: Place, swap: &Swap) -> Result<(), AllocError>
    requires whole { IsWhole draft.old }
    requires place { IsPlaceIn draft.old.arena place }
    requires to { IsKnown draft.old.arena swap.now.to }
    ensures whole { OnOk result (IsWhole draft.new) }
    ensures arena { OnOk result (draft.new.arena ≡ replaced_at draft.old.arena place swap.now.from swap.now.to) }
    ensures numbers { OnOk result (numbers_of draft.new ≡ numbers_of draft.old) }
    ensures orders { OnOk result (orders_of draft.new ≡ orders_of draft.old) }
    ensures dead_candidates { OnOk result (draft.new.dead_candidates.items ≡ draft.old.dead_candidates.items) }
{
    forget_reads(&draft.arena, &mut draft.facts.uses, place);
    swap_at(&mut draft.arena.blocks, place, swap);
    count_reads(&draft.arena, &mut draft.facts.uses, place)?;
    match swap.to {
        Operand::Register(read) => draft.readers.list(read, place),
        _ => Ok(()),
    }
}

/// Writes the operand wherever the register is read at a place.
fn swap_at(blocks: &mut List<Block>, place: Place, swap: &Swap)
    requires block { place.block < length blocks.old }
    requires inst { (block : Written) → slice_get blocks.old place.block ≡ Some block → (place.number < length block.insts) ⊎ (place.number ≡ none) }
    ensures end { place.number ≡ none → blocks.new ≡ changed_at place.block (end_changed (substituted_end (instead swap.now.from swap.now.to))) blocks.old }
    ensures inst { ¬ (place.number ≡ none) → blocks.new
        ≡ changed_at place.block (inst_changed place.number (substituted_inst (instead swap.now.from swap.now.to))) blocks.old }
{
    let block = blocks.get_mut(place.block as usize);
    if place.number == END {
        substitute_end(swap, &mut block.end);
    } else {
        substitute_inst(swap, block.insts.get_mut(place.number as usize));
    }
}
