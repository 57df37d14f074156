//! What `optimise` writes for the text of a module by the rules of a file.

ghost use Rattle.std.specs.Prelude.{◌≤◌, ◌<◌, ◌^◌, ℕ, List, length, All, IfOk, OnOk, IfErr};
ghost use Rattle.command_line.specs.Limits.{most_conflicts, most_steps};
ghost use Rattle.ir_reader.specs.Text.{most_bytes};
ghost use Rattle.ir_reader.specs.Faults.{IsFault, IsModuleText};
ghost use Rattle.refusal.specs.Refusals.{IfRefused};
ghost use Rattle.strategy.specs.Ready.{AreReady};
ghost use Rattle.asked_verdicts.specs.Stored.{IsUnrefutedIn};
ghost use Rattle.run_text.specs.Runs.{IsReadAs};
ghost use Rattle.alive_top.specs.Optimised.{IsReady, Prints};

use crate::report::print_optimised;
use command_line::OptimiseOptions;
use ir_core::Module;
use ir_printer::print_module;
use ir_reader::{IrError, read_module};
use rule_reader::Rule;
use std::alloc::{AllocError, Global};
use strategy::{Options, StoredLogs};
use verdict_core::Table;

/// What `optimise` writes, and the verdicts behind it.
#[derive(Drop)]
pub struct Optimised {
    /// The text of the module.
    pub out: Vec<u8>,
    /// The texts of the verdicts in order, and then for each function how often it was rewritten, and whether it ran
    /// out of steps.
    pub report: Vec<u8>,
    /// The verdicts in the order in which they were first asked for.
    pub table: Table,
}

/// What is written for the text of a module: what the plain strategy gives for it by rules that were read, and the
/// report. What is written, however long, reads as that module again.
///
/// `Refused` tells the text's first fault. Beside [`read_module`]'s and [`strategy::optimise`]'s it takes as many steps
/// as the texts that are written have bytes.
pub fn optimise(
    alloc: Global,
    bytes: &[u8],
    rules: &[Rule],
    options: OptimiseOptions,
) -> Result<Optimised, IrError>
    requires ready { AreReady rules.now }
    requires few { length rules.now < 2 ^ 32 }
    requires conflicts { options.conflicts ≤ most_conflicts }
    requires steps { options.steps ≤ most_steps }
    ensures ok { IfOk result (λ o. Prints rules.now options bytes.now o.out.items o.report.items o.table) }
    ensures limit { OnOk result (length bytes.now ≤ most_bytes) }
    ensures refused { IfErr result (λ e. IfRefused e (IsFault bytes.now)) }
{
    let source = read_source(alloc, bytes)?;
    let logs = StoredLogs::new(alloc);
    let optimised = optimise_module(alloc, &source, rules, logs, options)?;
    Ok(optimised)
}

/// Reads a module that is to be rewritten. `Refused` tells the text's first fault.
pub(crate) fn read_source(alloc: Global, bytes: &[u8]) -> Result<Module, IrError>
    ensures read { IfOk result (IsReadAs bytes.now) }
    ensures ready { IfOk result IsReady }
    ensures refused { IfErr result (λ e. IfRefused e (IsFault bytes.now)) }
{
    ir_round_trip::module_texts_have_forms();
    optimised_forms::module_texts_are_countable();
    let source = read_module(alloc, bytes)?;
    Ok(source)
}

/// What is written for a module that was read, whatever the logs are; no log that is stored refutes the clauses of a
/// `Budget` on its pair. The only error is want of memory.
pub(crate) fn optimise_module(
    alloc: Global,
    source: &Module,
    rules: &[Rule],
    logs: StoredLogs,
    options: OptimiseOptions,
) -> Result<Optimised, AllocError>
    requires source { IsReady source.now }
    requires ready { AreReady rules.now }
    requires few { length rules.now < 2 ^ 32 }
    requires conflicts { options.conflicts ≤ most_conflicts }
    requires steps { options.steps ≤ most_steps }
    ensures prints { IfOk result (λ o. (bytes : List ℕ) → IsModuleText bytes source.now
        → Prints rules.now options bytes o.out.items o.report.items o.table) }
    ensures unrefuted { IfOk result (λ o. All (IsUnrefutedIn logs) o.table) }
{
    // the strategy keeps the forms of a printed text
    optimised_forms::formed_modules_numbers_fit();
    optimised_forms::optimised_modules_have_forms();
    let done = strategy::optimise(
        alloc,
        source,
        rules,
        logs,
        &Options {
            conflicts: options.conflicts,
            steps: options.steps,
            fold: options.fold,
            across: options.across,
        },
    )?;
    let out = print_module(alloc, &done.module)?;
    let report = print_optimised(alloc, rules, &done)?;
    Ok(Optimised {
        out,
        report,
        table: done.table,
    })
}
