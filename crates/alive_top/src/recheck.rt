//! The work of `recheck`, before anything is written.

ghost use Rattle.std.specs.Prelude.{◌≤◌, ◌<◌, ◌^◌, length, map};
ghost use Rattle.command_line.specs.Limits.{most_conflicts};
ghost use Rattle.outside.specs.Files.{FilesFollow};
ghost use Rattle.rule_reader.specs.Checks.{AreDistinct};
ghost use Rattle.strategy.specs.Ready.{AreReady};
ghost use Rattle.stored_logs.specs.Rechecked.{IsRechecked};
ghost use Rattle.alive_top.specs.Answers.{MisfitsRules, TextOf, FileOf, TaskOf};
ghost use Rattle.alive_top.specs.File.{Logs};
ghost use Rattle.alive_top.specs.Task.{Recheck};

use crate::hindrance::Hindrance;
use crate::work::{Work, read, read_rule_file, status_of};
use command_line::RecheckOptions;
use lists::List;
use outside::Files;
use rule_reader::Rule;
use std::alloc::Global;
use stored_logs::{LogError, Rechecked};

/// The verdicts on the pairs of the proofs in a text.
fn rechecked<'a>(
    alloc: Global,
    proofs: &[u8],
    rules: &[Rule],
    options: RecheckOptions,
) -> Result<Rechecked, Hindrance<'a>>
    requires ready { AreReady rules.now }
    requires few { length rules.now < 2 ^ 32 }
    requires names { AreDistinct (map (λ rule. rule.name) rules.now) }
    requires conflicts { options.conflicts ≤ most_conflicts }
    ensures { TextOf Logs proofs.now (IsRechecked rules.now proofs.now options.conflicts) (MisfitsRules rules.now proofs.now) result }
{
    match stored_logs::recheck(alloc, rules, proofs, options.conflicts) {
        Ok(rechecked) => Ok(rechecked),
        Err(LogError::Refused(fault)) => Err(Hindrance::Logs(fault)),
        Err(LogError::NoMemory) => Err(Hindrance::Memory),
    }
}

/// Reads a file of proofs, and gives the verdicts on their pairs.
fn read_and_recheck<'a, F: Files>(
    alloc: Global,
    files: &mut F,
    name: &'a str,
    rules: &[Rule],
    options: RecheckOptions,
) -> Result<Rechecked, Hindrance<'a>>
    requires ready { AreReady rules.now }
    requires few { length rules.now < 2 ^ 32 }
    requires names { AreDistinct (map (λ rule. rule.name) rules.now) }
    requires conflicts { options.conflicts ≤ most_conflicts }
    ensures answer { FileOf (F.state files.old) (F.state files.new) (record { name = name.now; kind = Logs })
        (λ text. IsRechecked rules.now text options.conflicts) (λ text. MisfitsRules rules.now text) result }
    ensures follow { FilesFollow (F.state files.old) (F.state files.new) }
{
    let bytes = read(alloc, files, name, stored_logs::MOST_BYTES + 1)?;
    rechecked(alloc, bytes.as_slice(), rules, options)
}

/// The work of `recheck`.
pub(crate) fn recheck<'a, F: Files>(
    alloc: Global,
    files: &mut F,
    rules: &'a str,
    logs: &'a str,
    options: RecheckOptions,
) -> Result<Work, Hindrance<'a>>
    requires conflicts { options.conflicts ≤ most_conflicts }
    ensures answer { TaskOf (F.state files.old) (F.state files.new) (Recheck rules.now logs.now options) result }
    ensures follow { FilesFollow (F.state files.old) (F.state files.new) }
{
    let list = read_rule_file(alloc, files, rules)?;
    let rechecked = read_and_recheck(alloc, files, logs, list.as_slice(), options)?;
    Ok(Work {
        text: rechecked.text,
        report: None,
        table: rechecked.table,
        proofs: List::new(alloc),
        status: status_of(rechecked.all_admitted),
    })
}
