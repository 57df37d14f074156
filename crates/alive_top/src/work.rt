//! The work of each command, before anything is written.

ghost use Rattle.std.specs.Prelude.{◌≡◌, ◌≤◌, ◌<◌, ◌+◌, ◌^◌, length, map, take, None, IfSome, IfOk, if◌then◌else◌};
ghost use Rattle.rule_reader.specs.Checks.{AreDistinct};
ghost use Rattle.command_line.specs.Limits.{most_conflicts, most_steps, IsWithinLimits};
ghost use Rattle.run_text.specs.Runs.{IsRun};
ghost use Rattle.outside.specs.Files.{FilesFollow};
ghost use Rattle.strategy.specs.Ready.{AreReady};
ghost use Rattle.alive_top.specs.Answers.{ReadOf, Fits, MisfitsRun, TextOf, FileOf, TaskOf, seen_work};
ghost use Rattle.alive_top.specs.File.{Rules, Source};
ghost use Rattle.load_text.specs.RuleText.{IsRuleText};
ghost use Rattle.alive_top.specs.Task.{Verify, Optimise, Run, task_of};
ghost use Rattle.alive_top.specs.Work.{IsVerifyWork, IsVerdictWork, IsProofWork, IsPrinted, IsLoadWork};

use crate::by_logs::optimise_by_logs;
use crate::hindrance::Hindrance;
use crate::optimised::Optimised;
use crate::recheck::recheck;
use crate::status::Status;
use command_line::{Command, OptimiseOptions, RunOptions, VerifyOptions};
use ir_reader::IrError;
use lists::List;
use outside::{Files, ReadError};
use rule_reader::{Rule, RuleError, read_rules};
use run_text::{RunError, RunFault};
use std::alloc::{AllocError, Global};
use stored_logs::Refutations;
use verdict_core::Table;

/// What a command writes: a text for the output, and a report, if the command has one. With them the verdicts, the
/// proofs, and the status once both are written.
#[derive(Drop)]
pub(crate) struct Work {
    pub(crate) text: Vec<u8>,
    pub(crate) report: Option<Vec<u8>>,
    pub(crate) table: Table,
    pub(crate) proofs: Refutations,
    pub(crate) status: Status,
}

/// The bytes of a file, or its first `most`.
pub(crate) fn read<'a, F: Files>(
    alloc: Global,
    files: &mut F,
    name: &'a str,
    most: usize,
) -> Result<Vec<u8>, Hindrance<'a>>
    ensures answer { ReadOf (F.state files.old) (F.state files.new) name.now
        (λ read. IfSome ((F.state files.old).told name.now) (λ told. read.items ≡ take most told)) result }
    ensures follow { FilesFollow (F.state files.old) (F.state files.new) }
{
    match files.read(alloc, name, most) {
        Ok(bytes) => Ok(bytes),
        Err(ReadError::Failed) => Err(Hindrance::Read(name)),
        Err(ReadError::NoMemory) => Err(Hindrance::Memory),
    }
}

/// The rules of a text.
pub(crate) fn rules_of<'a>(alloc: Global, bytes: &[u8]) -> Result<Vec<Rule>, Hindrance<'a>>
    ensures text { TextOf Rules bytes.now (λ rules. IsRuleText bytes.now rules.items) Fits result }
    ensures ready { IfOk result (λ rules. AreReady rules.items) }
    ensures few { IfOk result (λ rules. length rules.items < 2 ^ 32) }
    ensures names { IfOk result (λ rules. AreDistinct (map (λ rule. rule.name) rules.items)) }
{
    load_text::rule_texts_are_small();
    match read_rules(alloc, bytes) {
        Ok(rules) => Ok(rules),
        Err(RuleError::Refused(fault)) => Err(Hindrance::Rules(fault)),
        Err(RuleError::NoMemory) => Err(Hindrance::Memory),
    }
}

/// What is written for the text of a module, optimised by these rules.
fn optimised<'a>(
    alloc: Global,
    source: &[u8],
    rules: &[Rule],
    options: OptimiseOptions,
) -> Result<Optimised, Hindrance<'a>>
    requires ready { AreReady rules.now }
    requires few { length rules.now < 2 ^ 32 }
    requires conflicts { options.conflicts ≤ most_conflicts }
    requires steps { options.steps ≤ most_steps }
    ensures { TextOf Source source.now (λ o. IsPrinted rules.now options source.now o.out.items o.report.items o.table) Fits result }
{
    match crate::optimised::optimise(alloc, source, rules, options) {
        Ok(optimised) => Ok(optimised),
        Err(IrError::Refused(fault)) => Err(Hindrance::Module(fault)),
        Err(IrError::NoMemory) => Err(Hindrance::Memory),
    }
}

/// Reads a rule file.
pub(crate) fn read_rule_file<'a, F: Files>(
    alloc: Global,
    files: &mut F,
    name: &'a str,
) -> Result<Vec<Rule>, Hindrance<'a>>
    ensures answer { FileOf (F.state files.old) (F.state files.new) (record { name = name.now; kind = Rules })
        (λ text rules. IsRuleText text rules.items) (λ _. Fits) result }
    ensures ready { IfOk result (λ rules. AreReady rules.items) }
    ensures few { IfOk result (λ rules. length rules.items < 2 ^ 32) }
    ensures names { IfOk result (λ rules. AreDistinct (map (λ rule. rule.name) rules.items)) }
    ensures follow { FilesFollow (F.state files.old) (F.state files.new) }
{
    let bytes = read(alloc, files, name, rule_reader::MOST_BYTES + 1)?;
    rules_of(alloc, bytes.as_slice())
}

/// Reads a module, and gives what is written for it, optimised by these rules.
fn read_and_optimise<'a, F: Files>(
    alloc: Global,
    files: &mut F,
    name: &'a str,
    rules: &[Rule],
    options: OptimiseOptions,
) -> Result<Optimised, Hindrance<'a>>
    requires ready { AreReady rules.now }
    requires few { length rules.now < 2 ^ 32 }
    requires conflicts { options.conflicts ≤ most_conflicts }
    requires steps { options.steps ≤ most_steps }
    ensures answer { FileOf (F.state files.old) (F.state files.new) (record { name = name.now; kind = Source })
        (λ text o. IsPrinted rules.now options text o.out.items o.report.items o.table) (λ _. Fits) result }
    ensures follow { FilesFollow (F.state files.old) (F.state files.new) }
{
    let bytes = read(alloc, files, name, ir_reader::MOST_BYTES + 1)?;
    optimised(alloc, bytes.as_slice(), rules, options)
}

/// The verdicts on a list of rules, as work.
fn verified(alloc: Global, rules: &[Rule], options: &VerifyOptions) -> Result<Work, AllocError>
    requires ready { AreReady rules.now }
    requires few { length rules.now < 2 ^ 32 }
    requires conflicts { options.now.conflicts ≤ most_conflicts }
    ensures { IfOk result (λ work. IsVerdictWork rules.now options.now (seen_work work)) }
{
    let verified = verdict::verify(alloc, rules, &options.widths, options.conflicts)?;
    Ok(Work {
        text: verified.text,
        report: None,
        table: verified.table,
        proofs: List::new(alloc),
        status: status_of(verified.all_admitted),
    })
}

/// The proofs of a list of rules, as work.
fn proved(alloc: Global, rules: &[Rule], options: &VerifyOptions) -> Result<Work, AllocError>
    requires ready { AreReady rules.now }
    requires few { length rules.now < 2 ^ 32 }
    requires conflicts { options.now.conflicts ≤ most_conflicts }
    ensures { IfOk result (λ work. IsProofWork rules.now options.now (seen_work work)) }
{
    let proved = stored_logs::prove_rules(alloc, rules, &options.widths, options.conflicts)?;
    Ok(Work {
        text: proved.text,
        report: None,
        table: proved.table,
        proofs: proved.refutations,
        status: status_of(proved.all_admitted),
    })
}

/// The work of `verify` on a list of rules.
fn verified_or_proved(
    alloc: Global,
    rules: &[Rule],
    options: &VerifyOptions,
) -> Result<Work, AllocError>
    requires ready { AreReady rules.now }
    requires few { length rules.now < 2 ^ 32 }
    requires conflicts { options.now.conflicts ≤ most_conflicts }
    ensures { IfOk result (λ work. IsVerifyWork rules.now options.now (seen_work work)) }
{
    if options.logs {
        proved(alloc, rules, options)
    } else {
        verified(alloc, rules, options)
    }
}

/// The status of a command that decides rules, once its text is written.
pub(crate) fn status_of(all_admitted: bool) -> Status
    ensures { result ≡ (if all_admitted then Status.Done else Status.NotAll) }
{
    if all_admitted {
        Status::Done
    } else {
        Status::NotAll
    }
}

/// The work of `verify`.
fn verify<'a, F: Files>(
    alloc: Global,
    files: &mut F,
    rules: &'a str,
    options: &VerifyOptions,
) -> Result<Work, Hindrance<'a>>
    requires conflicts { options.now.conflicts ≤ most_conflicts }
    ensures answer { TaskOf (F.state files.old) (F.state files.new) (Verify rules.now options.now) result }
    ensures follow { FilesFollow (F.state files.old) (F.state files.new) }
{
    let list = read_rule_file(alloc, files, rules)?;
    let work = verified_or_proved(alloc, list.as_slice(), options)?;
    Ok(work)
}

/// The work of `optimise`.
fn optimise<'a, F: Files>(
    alloc: Global,
    files: &mut F,
    rules: &'a str,
    source: &'a str,
    options: OptimiseOptions,
) -> Result<Work, Hindrance<'a>>
    requires conflicts { options.conflicts ≤ most_conflicts }
    requires steps { options.steps ≤ most_steps }
    ensures answer { TaskOf (F.state files.old) (F.state files.new) (Optimise rules.now source.now None options) result }
    ensures follow { FilesFollow (F.state files.old) (F.state files.new) }
{
    let list = read_rule_file(alloc, files, rules)?;
    let optimised = read_and_optimise(alloc, files, source, list.as_slice(), options)?;
    Ok(Work {
        text: optimised.out,
        report: Some(optimised.report),
        table: optimised.table,
        proofs: List::new(alloc),
        status: Status::Done,
    })
}

/// What is written for a run of a function of a module's text.
fn run_of<'a>(
    alloc: Global,
    source: &[u8],
    name: &str,
    arguments: &[&str],
    blocks: u32,
) -> Result<Vec<u8>, Hindrance<'a>>
    ensures { TextOf Source source.now (λ text. IsRun source.now name.now (map (λ a. a.now) arguments.now) blocks text.items)
        (MisfitsRun source.now name.now (map (λ a. a.now) arguments.now)) result }
{
    match run_text::run(alloc, source, name.as_bytes(), arguments, blocks) {
        Ok(text) => Ok(text),
        Err(RunError::Refused(RunFault::Module(fault))) => Err(Hindrance::Module(fault)),
        Err(RunError::Refused(RunFault::Argument)) => Err(Hindrance::Argument),
        Err(RunError::NoMemory) => Err(Hindrance::Memory),
    }
}

/// Reads a module, and gives what is written for a run of one of its functions.
fn read_and_run<'a, F: Files>(
    alloc: Global,
    files: &mut F,
    source: &'a str,
    name: &str,
    arguments: &[&str],
    blocks: u32,
) -> Result<Vec<u8>, Hindrance<'a>>
    ensures answer { FileOf (F.state files.old) (F.state files.new) (record { name = source.now; kind = Source })
        (λ text line. IsRun text name.now (map (λ a. a.now) arguments.now) blocks line.items)
        (λ text. MisfitsRun text name.now (map (λ a. a.now) arguments.now)) result }
    ensures follow { FilesFollow (F.state files.old) (F.state files.new) }
{
    let bytes = read(alloc, files, source, ir_reader::MOST_BYTES + 1)?;
    run_of(alloc, bytes.as_slice(), name, arguments, blocks)
}

/// The work of `run`.
fn run<'a, F: Files>(
    alloc: Global,
    files: &mut F,
    source: &'a str,
    name: &str,
    arguments: &[&str],
    options: RunOptions,
) -> Result<Work, Hindrance<'a>>
    ensures answer { TaskOf (F.state files.old) (F.state files.new)
        (Run source.now name.now (map (λ a. a.now) arguments.now) options) result }
    ensures follow { FilesFollow (F.state files.old) (F.state files.new) }
{
    let text = read_and_run(alloc, files, source, name, arguments, options.blocks)?;
    Ok(Work {
        text,
        report: None,
        table: List::new(alloc),
        proofs: List::new(alloc),
        status: Status::Done,
    })
}

/// The work of `load`, which reads no files.
fn load(alloc: Global, number: u32) -> Result<Work, AllocError>
    ensures { IfOk result (λ work. IsLoadWork number (seen_work work)) }
{
    let loaded = crate::loading::load(alloc, number)?;
    Ok(Work {
        text: loaded.text,
        report: None,
        table: loaded.table,
        proofs: List::new(alloc),
        status: Status::Done,
    })
}

/// The work of a command, before anything is written.
pub(crate) fn perform<'a, F: Files>(
    alloc: Global,
    command: Command<'a>,
    files: &mut F,
) -> Result<Work, Hindrance<'a>>
    requires { IsWithinLimits command }
    ensures answer { TaskOf (F.state files.old) (F.state files.new) (task_of command.entry) result }
    ensures follow { FilesFollow (F.state files.old) (F.state files.new) }
{
    match command {
        Command::Verify { rules, options } => verify(alloc, files, rules, &options),
        Command::Optimise {
            rules,
            module,
            logs: None,
            options,
        } => optimise(alloc, files, rules, module, options),
        Command::Optimise {
            rules,
            module,
            logs: Some(logs),
            options,
        } => optimise_by_logs(alloc, files, rules, module, logs, options),
        Command::Run {
            module,
            name,
            arguments,
            options,
        } => run(alloc, files, module, name, arguments.as_slice(), options),
        Command::Load { number } => Ok(load(alloc, number)?),
        Command::Recheck {
            rules,
            logs,
            options,
        } => recheck(alloc, files, rules, logs, options),
    }
}
