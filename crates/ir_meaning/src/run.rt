//! Runs of functions.

ghost use Rattle.std.specs.Prelude.{IfOk, None};
ghost use Rattle.ir_core.specs.Checks.{IsFormed, MeetsChecks};
ghost use Rattle.ir_core.specs.Refines.{AreArguments};
ghost use Rattle.ir_core.specs.Run.{HasOutcome, HasZeroOutcome, OnlyZero, RunsFrom};
ghost use Rattle.ir_meaning.specs.Table.{IsTable, held_of};

use crate::block::pass;
use crate::noundef::breaks_noundef;
use crate::table::Table;
use crate::terminator::Step;
use ir_core::{Function, Outcome};
use lists::List;
use ops::Value;
use std::alloc::{AllocError, Global};

/// The outcome of the function at these arguments after at most `blocks` blocks entered, where each number that is left
/// open is 0: what a literal `undef` gives, and what `freeze` gives in place of poison (LangRef, "Undefined Values",
/// "freeze").
///
/// Memory is taken at the start, for a value of each parameter and instruction, and where a block has more phis than
/// those entered before. An instruction takes constant time, but a phi searches its entries in order for the block that
/// control comes from, and a `switch` its cases for the number.
///
/// The only error is want of memory.
pub fn run_zero(
    alloc: Global,
    f: &Function,
    args: &List<Value>,
    blocks: u32,
) -> Result<Outcome, AllocError>
    requires checks { MeetsChecks f.now }
    requires arguments { AreArguments f.now.parameters args.now }
    ensures zero { IfOk result (HasZeroOutcome f.now args.now blocks) }
    ensures outcome { IfOk result (HasOutcome f.now args.now blocks) }
{
    if breaks_noundef(f.parameters.as_slice(), args.as_slice()) {
        return Ok(Outcome::Undefined);
    }
    let mut table = Table::new(alloc, f, args.as_slice())?;
    run(alloc, f, &mut table, blocks)
}

/// Runs the function from its first block on, with what the table holds in its registers.
fn run(alloc: Global, f: &Function, table: &mut Table, blocks: u32) -> Result<Outcome, AllocError>
    requires formed { IsFormed f.now }
    requires table { IsTable f.now table.old.firsts.items table.old.values.items }
    ensures { IfOk result (RunsFrom OnlyZero f.now blocks None 0 (held_of f.now table.old.values.items)) }
{
    let mut taken = Vec::new(alloc);
    let mut from = None;
    let mut block = 0;
    for _ in 0..blocks {
        match pass(f, table, &mut taken, from, block)? {
            Step::Undefined => return Ok(Outcome::Undefined),
            Step::Return(value) => return Ok(Outcome::Return(value)),
            Step::Goes(to) => {
                from = Some(block);
                block = to;
            }
        }
    }
    Ok(Outcome::Running(block))
}
