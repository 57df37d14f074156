//! The check of phis.

ghost use Rattle.std.specs.Prelude.{◌≡◌, ◌≢◌, ◌↔◌, ℕ, nat_eq, length, All, IsSome, None, Some, IfOk, OnOk, IsTrue};
ghost use Rattle.indexmap.specs.IndexMap.{get};
ghost use Rattle.indexmap.specs.IndexSet.{contains};
ghost use Rattle.ir_core.specs.declared.operand.Operand.{Operand as operand_read};
ghost use Rattle.ir_core.specs.Checks.{IsPhi};
ghost use Rattle.ir_resolve.specs.FirstLines.{IsFirst};
ghost use Rattle.ir_resolve.specs.Means.{Means};
ghost use Rattle.ir_reader.specs.FlowFaults.{BadPhiAt};
ghost use Rattle.ir_reader.specs.Predecessors.{ArePredecessors, EntriesFitIn, OpFitsIn, BadPhiIn};

use indexmap::{IndexMap, IndexSet};
use ir_core::{Function, Inst, Op, Operand};
use ir_resolve::lesser;
use ir_tokens::{RawFunction, RawInst};
use ops::Word;
use std::alloc::{AllocError, Global};

/// Whether two numbers are the same one of the same width.
fn is_same_number(one: Word, other: Word) -> bool
    ensures { IsTrue result ↔ (one ≡ other) }
{
    one.width().bits() == other.width().bits() && one.number() == other.number()
}

/// Whether two operands are the same one.
fn is_same(one: &Operand, other: &Operand) -> bool
    ensures { IsTrue result ↔ (one.now ≡ other.now) }
{
    match one {
        Operand::Register(one) => matches!(other, Operand::Register(other) if one == other),
        Operand::Number(one) => match other {
            Operand::Number(other) => is_same_number(*one, *other),
            _ => false,
        },
        Operand::Undef => matches!(other, Operand::Undef),
        Operand::Poison => matches!(other, Operand::Poison),
    }
}

/// Whether the block has no operand yet or this one; the operand is entered for it.
fn keeps(
    operands: &mut IndexMap<u32, Operand>,
    block: u32,
    operand: Operand,
) -> Result<bool, AllocError>
    ensures keeps { IfOk result (λ keeps. IsTrue keeps ↔ ((other : operand_read) → get nat_eq operands.old block ≡ Some other → other ≡ operand)) }
    ensures has { OnOk result (get nat_eq operands.new block ≡ Some operand) }
    ensures others { OnOk result ((c : ℕ) → c ≢ block → get nat_eq operands.new c ≡ get nat_eq operands.old c) }
{
    match operands.insert(block, operand)? {
        Some(other) => Ok(is_same(&other, &operand)),
        None => Ok(true),
    }
}

/// Whether each block has an operand. It stops at the first block without one, so that it makes at most one look-up
/// more than there are operands.
fn have_all(operands: &IndexMap<u32, Operand>, blocks: &[u32]) -> bool
    ensures { IsTrue result ↔ All (λ c. IsSome (get nat_eq operands.now c)) blocks.now }
{
    blocks.iter().all(|block| operands.contains_key(block))
}

/// Whether entries have one operand for each of these predecessors and none for another block. `operands`, which is
/// empty, is filled with the operands by block.
fn fit_with(
    operands: &mut IndexMap<u32, Operand>,
    predecessors: &IndexSet<u32>,
    entries: &[(Operand, u32)],
) -> Result<bool, AllocError>
    requires { (c : ℕ) → get nat_eq operands.old c ≡ None }
    ensures { IfOk result (λ fit. IsTrue fit ↔ EntriesFitIn predecessors.now entries.now) }
{
    for (operand, block) in entries {
        if !predecessors.contains(block) {
            return Ok(false);
        }
        if !keeps(operands, *block, *operand)? {
            return Ok(false);
        }
    }
    Ok(have_all(operands, predecessors.as_slice()))
}

/// Whether a phi has one operand for each of these predecessors and none for another block.
fn entries_fit(
    alloc: Global,
    predecessors: &IndexSet<u32>,
    entries: &[(Operand, u32)],
) -> Result<bool, AllocError>
    ensures { IfOk result (λ fit. IsTrue fit ↔ EntriesFitIn predecessors.now entries.now) }
{
    let mut operands = IndexMap::new(alloc);
    fit_with(&mut operands, predecessors, entries)
}

/// Whether an instruction is no phi, or one that fits these predecessors and has only phis before it, as `only_phis`
/// says.
fn op_fits(
    alloc: Global,
    predecessors: &IndexSet<u32>,
    only_phis: bool,
    op: &Op,
) -> Result<bool, AllocError>
    ensures { IfOk result (λ fits. IsTrue fits ↔ OpFitsIn predecessors.now (IsTrue only_phis) op.now) }
{
    match op {
        Op::Phi(entries) => Ok(only_phis && entries_fit(alloc, predecessors, entries.as_slice())?),
        Op::Binary(_, _, _, _)
        | Op::Compare(_, _, _, _, _)
        | Op::Unary(_, _, _)
        | Op::Select(_, _, _)
        | Op::Convert(_, _, _, _)
        | Op::Freeze(_) => Ok(true),
    }
}

fn is_phi(op: &Op) -> bool
    ensures { IsTrue result ↔ IsPhi op.now }
{
    match op {
        Op::Phi(_) => true,
        Op::Binary(_, _, _, _)
        | Op::Compare(_, _, _, _, _)
        | Op::Unary(_, _, _)
        | Op::Select(_, _, _)
        | Op::Convert(_, _, _, _)
        | Op::Freeze(_) => false,
    }
}

/// The line of the first phi among a block's instructions that does not fit.
fn bad_phi_in(
    alloc: Global,
    predecessors: &IndexSet<u32>,
    written: &[RawInst],
    insts: &[Inst],
) -> Result<Option<usize>, AllocError>
    requires { length written.now ≡ length insts.now }
    ensures { IfOk result (IsFirst (λ line. (k : ℕ) × BadPhiIn predecessors.now written.now insts.now k line)) }
{
    let mut found = None;
    let mut only_phis = true;
    for place in 0..insts.len() {
        let op = &insts[place].op;
        let fits = op_fits(alloc, predecessors, only_phis, op)?;
        found = lesser(found, (!fits).then_some(written[place].result.line));
        only_phis &= is_phi(op);
    }
    Ok(found)
}

/// The line of the first phi that does not fit.
pub(crate) fn bad_phi(
    alloc: Global,
    predecessors: &[IndexSet<u32>],
    raw: &RawFunction,
    f: &Function,
) -> Result<Option<usize>, AllocError>
    requires means { Means raw.now f.now }
    requires predecessors { ArePredecessors f.now predecessors.now }
    ensures { IfOk result (IsFirst (BadPhiAt raw.now f.now)) }
{
    let written = raw.blocks.as_slice();
    let blocks = f.blocks.as_slice();
    let mut found = None;
    for place in 0..blocks.len() {
        let here = bad_phi_in(
            alloc,
            &predecessors[place],
            written[place].insts.as_slice(),
            blocks[place].insts.as_slice(),
        )?;
        found = lesser(found, here);
    }
    Ok(found)
}
