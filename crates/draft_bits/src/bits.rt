//! What is known of the results of drafts.

ghost use Rattle.std.specs.Prelude.{◌≡◌, ◌<◌, ℕ, [], length, IfOk};
ghost use Rattle.ir_core.specs.Checks.{MeetsChecks};
ghost use Rattle.draft.specs.Drafts.{arena_of};
ghost use Rattle.draft.specs.Whole.{IsWhole};
ghost use Rattle.draft_bits.specs.DraftBits.{AreBitsOf, AreFactsIn, HasFewBits, facts_at};

use bindings::reads_of_a_block_stand_before;
use draft::Draft;
use known_bits::{Facts, facts_before};
use lists::List;
use places::Worklist;
use std::alloc::{AllocError, Global};

/// What is known of the results of each reached block of a draft, by the numbers of its arena. Of removed instructions
/// it is what was known of them.
#[derive(Drop)]
pub struct DraftBits {
    /// For each block what is known of its results. Where bits aren't asked for, there is none.
    pub blocks: Vec<Facts>,
    /// Nothing, for a block that has none.
    pub none: Facts,
    /// A worklist on which nothing waits, so that an update uses the memory of the one before.
    pub waiting: Option<Worklist>,
}

impl DraftBits {
    /// Nothing of any block.
    pub fn none(alloc: Global) -> DraftBits
        ensures none { result.blocks.items ≡ [] }
        ensures results { (b : ℕ) → (facts_at result b).results ≡ [] }
        ensures few { HasFewBits result }
    {
        DraftBits {
            blocks: Vec::new(alloc),
            none: nothing(alloc, 0),
            waiting: None,
        }
    }

    /// What is known of a draft as it is made of a function: each instruction is gone through once.
    pub fn of(alloc: Global, draft: &Draft) -> Result<DraftBits, AllocError>
        requires whole { IsWhole draft.now }
        requires checks { MeetsChecks (arena_of draft.now) }
        ensures bits { IfOk result (AreBitsOf draft.now) }
        ensures few { IfOk result HasFewBits }
    {
        reads_of_a_block_stand_before();
        let mut blocks = Vec::new(alloc);
        for block in 0..draft.blocks() {
            let facts = facts_of(alloc, draft, block)?;
            blocks.push(facts)?;
        }
        Ok(DraftBits {
            blocks,
            none: nothing(alloc, 0),
            waiting: None,
        })
    }

    /// What is known of the results of a block.
    pub fn at(&self, block: u32) -> &Facts
        ensures { result.now ≡ facts_at self.now block }
    {
        match self.blocks.as_slice().get(block as usize) {
            Some(facts) => facts,
            None => &self.none,
        }
    }
}

/// What is known of the results of a block, and of one that isn't reached nothing.
fn facts_of(alloc: Global, draft: &Draft, block: u32) -> Result<Facts, AllocError>
    requires whole { IsWhole draft.now }
    requires checks { MeetsChecks (arena_of draft.now) }
    requires block { block < length (arena_of draft.now).blocks }
    ensures { IfOk result (AreFactsIn (arena_of draft.now) block) }
{
    if !draft.facts.flow.reached(block) {
        return Ok(nothing(alloc, block));
    }
    let facts = facts_before(alloc, &draft.arena, block, draft.count_in(block))?;
    Ok(facts)
}

/// Nothing of a block.
fn nothing(alloc: Global, block: u32) -> Facts
    ensures { result ≡ record { block = block; results = [] } }
{
    Facts {
        block,
        results: List::new(alloc),
    }
}
