//! The work of `optimise` with a file of proofs, before anything is written.

ghost use Rattle.std.specs.Prelude.{◌≤◌, ◌<◌, ◌^◌, length, map, Some, IfOk};
ghost use Rattle.command_line.specs.Limits.{most_conflicts, most_steps};
ghost use Rattle.outside.specs.Files.{FilesFollow};
ghost use Rattle.rule_reader.specs.Checks.{AreDistinct};
ghost use Rattle.run_text.specs.Runs.{IsReadAs};
ghost use Rattle.stored_logs.specs.Stored.{AreStored};
ghost use Rattle.strategy.specs.Ready.{AreReady};
ghost use Rattle.alive_top.specs.Answers.{Fits, MisfitsRules, TextOf, FileOf, TaskOf};
ghost use Rattle.alive_top.specs.File.{Source, Logs};
ghost use Rattle.alive_top.specs.Optimised.{IsReady};
ghost use Rattle.alive_top.specs.Task.{Optimise};

use crate::hindrance::Hindrance;
use crate::optimised::{optimise_module, read_source};
use crate::status::Status;
use crate::work::{Work, read, read_rule_file};
use command_line::OptimiseOptions;
use ir_core::Module;
use ir_reader::IrError;
use lists::List;
use outside::Files;
use rule_reader::Rule;
use std::alloc::Global;
use stored_logs::{LogError, read_stored};
use strategy::StoredLogs;

/// The module of a text.
fn module_of<'a>(alloc: Global, bytes: &[u8]) -> Result<Module, Hindrance<'a>>
    ensures text { TextOf Source bytes.now (IsReadAs bytes.now) Fits result }
    ensures ready { IfOk result IsReady }
{
    match read_source(alloc, bytes) {
        Ok(source) => Ok(source),
        Err(IrError::Refused(fault)) => Err(Hindrance::Module(fault)),
        Err(IrError::NoMemory) => Err(Hindrance::Memory),
    }
}

/// Reads a module.
fn read_module_file<'a, F: Files>(
    alloc: Global,
    files: &mut F,
    name: &'a str,
) -> Result<Module, Hindrance<'a>>
    ensures answer { FileOf (F.state files.old) (F.state files.new) (record { name = name.now; kind = Source }) IsReadAs (λ _. Fits) result }
    ensures ready { IfOk result IsReady }
    ensures follow { FilesFollow (F.state files.old) (F.state files.new) }
{
    let bytes = read(alloc, files, name, ir_reader::MOST_BYTES + 1)?;
    module_of(alloc, bytes.as_slice())
}

/// The logs of the proofs in a text, each for its rule and typing.
fn logs_of<'a>(alloc: Global, bytes: &[u8], rules: &[Rule]) -> Result<StoredLogs, Hindrance<'a>>
    requires ready { AreReady rules.now }
    requires few { length rules.now < 2 ^ 32 }
    requires names { AreDistinct (map (λ rule. rule.name) rules.now) }
    ensures { TextOf Logs bytes.now (AreStored rules.now bytes.now) (MisfitsRules rules.now bytes.now) result }
{
    match read_stored(alloc, rules, bytes) {
        Ok(stored) => Ok(stored),
        Err(LogError::Refused(fault)) => Err(Hindrance::Logs(fault)),
        Err(LogError::NoMemory) => Err(Hindrance::Memory),
    }
}

/// Reads proofs, and stores their logs.
fn read_logs_file<'a, F: Files>(
    alloc: Global,
    files: &mut F,
    name: &'a str,
    rules: &[Rule],
) -> Result<StoredLogs, Hindrance<'a>>
    requires ready { AreReady rules.now }
    requires few { length rules.now < 2 ^ 32 }
    requires names { AreDistinct (map (λ rule. rule.name) rules.now) }
    ensures answer { FileOf (F.state files.old) (F.state files.new) (record { name = name.now; kind = Logs })
        (AreStored rules.now) (MisfitsRules rules.now) result }
    ensures follow { FilesFollow (F.state files.old) (F.state files.new) }
{
    let bytes = read(alloc, files, name, stored_logs::MOST_BYTES + 1)?;
    logs_of(alloc, bytes.as_slice(), rules)
}

/// The work of `optimise` with a file of proofs.
pub(crate) fn optimise_by_logs<'a, F: Files>(
    alloc: Global,
    files: &mut F,
    rules: &'a str,
    source: &'a str,
    logs: &'a str,
    options: OptimiseOptions,
) -> Result<Work, Hindrance<'a>>
    requires conflicts { options.conflicts ≤ most_conflicts }
    requires steps { options.steps ≤ most_steps }
    ensures answer { TaskOf (F.state files.old) (F.state files.new) (Optimise rules.now source.now (Some logs.now) options) result }
    ensures follow { FilesFollow (F.state files.old) (F.state files.new) }
{
    let list = read_rule_file(alloc, files, rules)?;
    let module = read_module_file(alloc, files, source)?;
    let stored = read_logs_file(alloc, files, logs, list.as_slice())?;
    let optimised = optimise_module(alloc, &module, list.as_slice(), stored, options)?;
    Ok(Work {
        text: optimised.out,
        report: Some(optimised.report),
        table: optimised.table,
        proofs: List::new(alloc),
        status: Status::Done,
    })
}
