//! Which blocks are reached once branches and switches on numbers are jumps.

ghost use Rattle.std.specs.Prelude.{◌≡◌, ◌<◌, ℕ, [], ◌∷◌, length, map, All, IfOk, OnOk};
ghost use Rattle.ir_core.specs.Blocks.{targets_of, Names};
ghost use Rattle.fold_branch.specs.Choices.{decided, decided_end};
ghost use Rattle.fold_branch.specs.Folded.{AreReached};
ghost use Rattle.fold_branch.specs.Walks.{ComesTo, IsWalked};

use crate::choice::choice;
use ir_core::{Function, Terminator};
use ops::Word;
use std::alloc::{AllocError, Global};

/// How far a walk from the first block has come.
#[derive(Drop)]
pub(crate) struct Walk {
    /// For each block, whether the walk has come to it.
    reached: Vec<bool>,
    /// The blocks to which the walk has come and which it has not left yet.
    work: Vec<u32>,
}

impl Walk {
    /// Comes to a block.
    fn come_to(&mut self, block: u32) -> Result<(), AllocError>
        requires { block < length self.old.reached.items }
        ensures { OnOk result (ComesTo (block ∷ []) self.old self.new) }
    {
        if !self.reached[block as usize] {
            self.work.push(block)?;
            self.reached[block as usize] = true;
        }
        Ok(())
    }

    /// Comes to each of these blocks.
    fn come_to_each(&mut self, blocks: &[u32]) -> Result<(), AllocError>
        requires { All (λ b. b < length self.old.reached.items) blocks.now }
        ensures { OnOk result (ComesTo blocks.now self.old self.new) }
    {
        for block in blocks {
            self.come_to(*block)?;
        }
        Ok(())
    }

    /// Comes to the blocks of these cases.
    fn come_to_cases(&mut self, cases: &[(Word, u32)]) -> Result<(), AllocError>
        requires { All (λ b. b < length self.old.reached.items) (map (λ c. c.1) cases.now) }
        ensures { OnOk result (ComesTo (map (λ c. c.1) cases.now) self.old self.new) }
    {
        for case in cases {
            self.come_to(case.1)?;
        }
        Ok(())
    }

    /// Comes to the blocks that a terminator names.
    fn come_to_all(&mut self, end: &Terminator) -> Result<(), AllocError>
        requires { All (λ b. b < length self.old.reached.items) (targets_of end.now) }
        ensures { OnOk result (ComesTo (targets_of end.now) self.old self.new) }
    {
        match end {
            Terminator::Return(_) | Terminator::Unreachable => self.come_to_each(&[]),
            Terminator::Jump(to) => self.come_to_each(&[*to]),
            Terminator::Branch(_, to, other) => self.come_to_each(&[*to, *other]),
            Terminator::Switch(_, _, other, cases) => {
                self.come_to(*other)?;
                self.come_to_cases(cases.as_slice())
            }
        }
    }

    /// Comes to the blocks to which a block with this terminator leads.
    fn leave(&mut self, end: &Terminator) -> Result<(), AllocError>
        requires { All (λ b. b < length self.old.reached.items) (targets_of (decided_end end.now)) }
        ensures { OnOk result (ComesTo (targets_of (decided_end end.now)) self.old self.new) }
    {
        match choice(end) {
            Some(to) => self.come_to(to),
            None => self.come_to_all(end),
        }
    }

    /// The start of the walk, at the first block.
    fn at_entry(alloc: Global, f: &Function) -> Result<Walk, AllocError>
        requires { 0 < length f.now.blocks }
        ensures { IfOk result (λ walk. IsWalked f.now walk) }
    {
        let mut walk = Walk {
            reached: vec![in alloc; false; f.blocks.len()]?,
            work: Vec::new(alloc),
        };
        walk.come_to(0)?;
        Ok(walk)
    }

    /// The rest of the walk, until no work is left.
    fn follow(&mut self, f: &Function) -> Result<(), AllocError>
        requires targets { (b c : ℕ) → Names f.now b c → c < length f.now.blocks }
        requires walked { IsWalked f.now self.old }
        ensures walked { OnOk result (IsWalked f.now self.new) }
        ensures done { OnOk result (self.new.work.items ≡ []) }
    {
        while let Some(block) = self.work.pop() {
            let block = &f.blocks.as_slice()[block as usize];
            self.leave(&block.end)?;
        }
        Ok(())
    }
}

/// For each block of a function, whether it is reached once branches and switches on numbers are jumps.
pub(crate) fn reached_blocks(alloc: Global, f: &Function) -> Result<Vec<bool>, AllocError>
    requires some_block { 0 < length f.now.blocks }
    requires targets { (b c : ℕ) → Names f.now b c → c < length f.now.blocks }
    ensures { IfOk result (λ reached. AreReached (decided f.now) reached.items) }
{
    let mut walk = Walk::at_entry(alloc, f)?;
    walk.follow(f)?;
    Ok(walk.reached)
}
