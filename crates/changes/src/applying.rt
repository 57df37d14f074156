//! Rules applied to functions, with the instructions that were removed, inserted and changed.

ghost use Rattle.std.specs.Prelude.{◌≡◌, ◌+◌, ◌-◌, ◌<◌, ◌≤◌, ◌^◌, ◌↔◌, ℕ, Bool, length, true, false, All, Some, IfOk, OnOk, OnErr};
ghost use Rattle.ir_core.specs.Blocks.{HasInst, IsBlock};
ghost use Rattle.ir_core.specs.Checks.{IsInst, MeetsChecks};
ghost use Rattle.ir_core.specs.declared.function.Block.{Block};
ghost use Rattle.ir_core.specs.declared.function.Function.{Function};
ghost use Rattle.ir_core.specs.declared.instruction.Inst.{Inst};
ghost use Rattle.ir_core.specs.declared.operand.Operand.TheVariants as operands;
ghost use Rattle.ir_core.specs.declared.operand.Register.TheVariants as registers;
ghost use Rattle.ir_meaning.specs.HistoryLaws.{NumbersFit};
ghost use Rattle.rule_core.specs.Checks.{IsRule};
ghost use Rattle.bindings.specs.Match.{IsMatch};
ghost use Rattle.substitution.specs.Rewritten.{rewritten_function};
ghost use Rattle.substitution.specs.declared.rewrite.Rewrite.{Rewrite};
ghost use Rattle.rewriter.specs.Applied.{IsRewritten};
ghost use Rattle.rewriter.specs.Put.{is_copy};
ghost use Rattle.use_counts.specs.Tables.{AreCounts};
ghost use Rattle.changes.specs.Calls.{AreChangesOfRule, rewritten_moves, root_is_copy};
ghost use Rattle.changes.specs.Changed.{AreChanges};
ghost use Rattle.changes.specs.Listing.{IsPutFor, Listed, ListedTo, ReadsRoot};
ghost use Rattle.changes.specs.Places.{AreAscending};

use crate::changed::Changes;
use crate::listing::{one, run};
use bindings::Binding;
use ir_core::{Function, Register, copy_function, end_of};
use lists::List;
use places::Place;
use readers::reads;
use rewriter::apply;
use rule_core::{Op, Rule};
use std::alloc::{AllocError, Global};
use use_counts::{Uses, count_uses};

/// So many instructions that replace one, the root.
#[derive(Clone, Copy)]
struct Put {
    /// The root's block.
    block: u32,
    /// The root's position there.
    place: u32,
    count: u32,
}

/// Applies a rule to a function where it matches with this binding, as `apply` does, brings its counts of uses up to
/// date, and returns what changed.
///
/// Where the target's root is a copy, the root is removed, all instructions of the target are inserted, and what read
/// the root changes. Else the root stays as the last of these instructions, which is changed; the others are inserted.
///
/// It takes its memory before it changes anything, so function and counts stay as they were where that is refused. It
/// takes as many steps as the function is long and, for each constant term that the target reads, as the rule has
/// nodes.
pub fn apply_at(
    alloc: Global,
    f: &mut Function,
    binding: &Binding,
    rule: &Rule,
    uses: &mut Uses,
) -> Result<Changes, AllocError>
    requires rule { IsRule rule.now }
    requires checks { MeetsChecks f.old }
    // It matches inside the root's block, or across blocks.
    requires matches { (across : Bool) × IsMatch across f.old binding.now.block binding.now.place rule.now binding.now }

    // Numbers are of their widths.
    requires numbers { NumbersFit f.old }

    // Blocks, and the instructions of each, are counted in 32 bits, and a rule inserts 32 instructions at most.
    requires blocks { length f.old.blocks < 2 ^ 32 }
    requires insts { All (λ b. length b.insts < 2 ^ 32) f.old.blocks }
    requires places { (block : Block) → IsBlock f.old binding.now.block block
        → length block.insts < 2 ^ 32 - 32 }
    requires uses { AreCounts f.old uses.old }
    ensures ok { OnOk result (IsRewritten f.old binding.now rule.now f.new) }
    ensures uses { OnOk result (AreCounts f.new uses.new) }
    ensures lists { IfOk result (AreChangesOfRule f.old binding.now rule.now f.new) }
    ensures err_function { OnErr result (f.new ≡ f.old) }
    ensures err_uses { OnErr result (uses.new ≡ uses.old) }
{
    let mut new = copy_function(alloc, f)?;
    apply(alloc, &mut new, binding, rule)?;
    let counts = count_uses(alloc, &new)?;
    let changes = changes_of(alloc, f, binding, rule, &new)?;
    *f = new;
    *uses = counts;
    Ok(changes)
}

/// What changed where a rule was applied.
fn changes_of(
    alloc: Global,
    f: &Function,
    binding: &Binding,
    rule: &Rule,
    new: &Function,
) -> Result<Changes, AllocError>
    requires rule { IsRule rule.now }
    requires insts { All (λ b. length b.insts < 2 ^ 32) f.now.blocks }
    requires blocks { length f.now.blocks < 2 ^ 32 }
    requires places { All (λ b. length b.insts < 2 ^ 32) new.now.blocks }
    requires rewritten { IsRewritten f.now binding.now rule.now new.now }
    ensures { IfOk result (AreChangesOfRule f.now binding.now rule.now new.now) }
{
    let put = put_at(f, binding, rule, new);
    if root_is_copied(rule) {
        return changes_without(alloc, f, put);
    }
    changes_with(alloc, put)
}

/// How many instructions a rule inserted in the place of its root.
fn put_at(f: &Function, binding: &Binding, rule: &Rule, new: &Function) -> Put
    requires places { All (λ b. length b.insts < 2 ^ 32) new.now.blocks }
    requires insts { All (λ b. length b.insts < 2 ^ 32) f.now.blocks }
    requires rewritten { IsRewritten f.now binding.now rule.now new.now }
    ensures block { result.block ≡ binding.now.block }
    ensures place { result.place ≡ binding.now.place }
    ensures count { (w : Rewrite) → w.block ≡ binding.now.block → w.place ≡ binding.now.place → new.now ≡ rewritten_function w f.now
        → length w.put ≡ result.count }
    ensures room { (block : Block) → IsBlock f.now result.block block → length block.insts + result.count ≤ 2 ^ 32 }
{
    Put {
        block: binding.block,
        place: binding.place,
        count: end_of(new, binding.block) - (end_of(f, binding.block) - 1),
    }
}

/// Whether the root of a rule's target is a copy.
fn root_is_copied(rule: &Rule) -> bool
    requires { IsRule rule.now }
    ensures { result ≡ root_is_copy rule.now }
{
    let target = rule.target.as_slice();
    copies(target[target.len() - 1].op)
}

/// Whether an operation is a copy.
fn copies(op: Op) -> bool
    ensures { result ≡ is_copy op }
{
    match op {
        Op::Copy(_) => true,
        _ => false,
    }
}

/// What changed where the root became the last of the inserted instructions.
fn changes_with(alloc: Global, put: Put) -> Result<Changes, AllocError>
    requires some { 0 < put.count }
    requires room { put.place + put.count ≤ 2 ^ 32 }
    ensures { IfOk result (λ changes. (f : Function) (w : Rewrite) (root : Inst) → IsPutFor w put → IsInst f w.block w.place root
        → w.result ≡ operands.Register (registers.Result w.block (w.place + length w.put - 1))
        → AreChanges f (rewritten_function w f) (rewritten_moves w false) (λ b k. (b ≡ w.block) × (k ≡ w.place)) changes) }
{
    let went = List::new(alloc);
    let came = run(alloc, put.block, put.place, put.count - 1)?;
    let changed = one(alloc, put.block, put.place + (put.count - 1))?;
    Ok(Changes {
        went,
        came,
        changed,
    })
}

/// What changed where the root was removed, and the operand that the target copies is read in its place.
fn changes_without(alloc: Global, f: &Function, put: Put) -> Result<Changes, AllocError>
    requires few { length f.now.blocks < 2 ^ 32 }
    requires insts { All (λ b. length b.insts < 2 ^ 32) f.now.blocks }
    requires room { (block : Block) → IsBlock f.now put.block block → length block.insts + put.count ≤ 2 ^ 32 }
    requires root { HasInst f.now put.block put.place }
    ensures { IfOk result (λ changes. (w : Rewrite) (root : Inst) → IsPutFor w put → IsInst f.now w.block w.place root
        → AreChanges f.now (rewritten_function w f.now) (rewritten_moves w true) (λ b k. (b ≡ w.block) × (k ≡ w.place)) changes) }
{
    let went = one(alloc, put.block, put.place)?;
    let came = run(alloc, put.block, put.place, put.count)?;
    let changed = readers_of(alloc, f, put)?;
    Ok(Changes {
        went,
        came,
        changed,
    })
}

/// The new places of the instructions that read the root.
fn readers_of(alloc: Global, f: &Function, put: Put) -> Result<List<(u32, u32)>, AllocError>
    requires few { length f.now.blocks < 2 ^ 32 }
    requires insts { All (λ b. length b.insts < 2 ^ 32) f.now.blocks }
    requires room { (block : Block) → IsBlock f.now put.block block → length block.insts + put.count ≤ 2 ^ 32 }
    ensures { IfOk result (λ places. (w : Rewrite) → IsPutFor w put → AreAscending (Listed f.now (ReadsRoot f.now w)) places) }
{
    let mut places = List::new(alloc);
    for block in 0..f.blocks.len() as u32 {
        push_readers(f, put, block, &mut places)?;
    }
    Ok(places)
}

/// Appends the new places of a block's instructions that read the root to those of the blocks before it.
fn push_readers(
    f: &Function,
    put: Put,
    block: u32,
    places: &mut List<(u32, u32)>,
) -> Result<(), AllocError>
    requires insts { All (λ b. length b.insts < 2 ^ 32) f.now.blocks }
    requires room { (block : Block) → IsBlock f.now put.block block → length block.insts + put.count ≤ 2 ^ 32 }
    ensures { OnOk result ((w : Rewrite) → IsPutFor w put → AreAscending (ListedTo f.now (ReadsRoot f.now w) block 0) places.old
        → AreAscending (ListedTo f.now (ReadsRoot f.now w) (block + 1) 0) places.new) }
{
    for place in 0..end_of(f, block) {
        if let Some(moved) = reader_at(f, put, block, place) {
            places.push((block, moved))?;
        }
    }
    Ok(())
}

/// The new place of an instruction, if it read the root and is another one.
fn reader_at(f: &Function, put: Put, block: u32, place: u32) -> Option<u32>
    requires insts { All (λ b. length b.insts < 2 ^ 32) f.now.blocks }
    requires there { HasInst f.now block place }
    requires room { block ≡ put.block → place + put.count ≤ 2 ^ 32 }
    ensures { (w : Rewrite) (l : ℕ) → IsPutFor w put → (result ≡ Some l) ↔ ReadsRoot f.now w block place l }
{
    let root = Register::Result(put.block, put.place);
    let number = place;
    if !reads(f, Place { block, number }, root) {
        return None;
    }
    place_then(put, block, place)
}

/// The new place of an instruction, if it is another than the root.
fn place_then(put: Put, block: u32, place: u32) -> Option<u32>
    requires { block ≡ put.block → place + put.count ≤ 2 ^ 32 }
    ensures { (w : Rewrite) → IsPutFor w put → result ≡ rewritten_moves w true block place }
{
    if block != put.block {
        return Some(place);
    }
    if place < put.place {
        return Some(place);
    }
    if place == put.place {
        return None;
    }
    Some(place - 1 + put.count)
}
