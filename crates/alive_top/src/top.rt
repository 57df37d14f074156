//! The whole program as one call.

ghost use Rattle.std.specs.Prelude.{◌≡◌, ◌⊎◌, map, option_map, string_bytes, [], MatchResult};
ghost use Rattle.command_line.specs.Limits.{IsWithinLimits};
ghost use Rattle.outside.specs.Faults.{Rose, raised};
ghost use Rattle.outside.specs.Files.{FilesFollow};
ghost use Rattle.outside.specs.Sink.{SinkFollows};
ghost use Rattle.alive_top.specs.Answers.{seen_work};
ghost use Rattle.alive_top.specs.Done.{HasDone};
ghost use Rattle.alive_top.specs.Ends.{EndsWith, Ends, IsNoCommand};
ghost use Rattle.alive_top.specs.LogFaults.{HasBadLogs};
ghost use Rattle.alive_top.specs.NoRun.{NamesNoRun};
ghost use Rattle.alive_top.specs.Puts.{Says, SaysMemory, RefusedAs, WrittenAs};
ghost use Rattle.alive_top.specs.Statuses.{IsDone, IsWorked, IsNoTask, IsNoRun, IsLogRefusal, IsDoneOrNoMemory};
ghost use Rattle.alive_top.specs.Task.{Task, Asks, task_of};
ghost use Rattle.alive_top.specs.Texts.{OfSomeTexts, OfToldTexts, TakesEach, HasBadFile};
ghost use Rattle.alive_top.specs.Written.{Took};

use crate::hindrance::Hindrance;
use crate::status::{Ended, Status};
use crate::work::{Work, perform};
use command_line::{Command, CommandError, read_command};
use error_lines::{logs_line, module_line, read_fault_line, rules_line};
use lists::List;
use outside::{Files, Sink};
use std::alloc::{AllocError, Global};

/// Puts a line. Where that fails, a prefix of it may be there.
fn put_line<E: Sink>(line: &[u8], err: &mut E)
    ensures took { Took (E.state err.old) (E.state err.new) line.now }
    ensures follows { SinkFollows (E.state err.old) (E.state err.new) }
{
    let _ = err.put(line);
}

/// Puts a line that had to be built, and gives the status; or the line on memory, where there was none to build it.
fn put_made<E: Sink>(line: Result<Vec<u8>, AllocError>, status: Status, err: &mut E) -> Status
    ensures answer { MatchResult line
        (λ made. Says (E.state err.old) (E.state err.new) status made.items result)
        (λ _. SaysMemory (E.state err.old) (E.state err.new) result) }
    ensures follows { SinkFollows (E.state err.old) (E.state err.new) }
{
    match line {
        Ok(line) => {
            put_line(line.as_slice(), err);
            status
        }
        Err(AllocError) => {
            put_line(b"want of memory\n", err);
            Status::NoMemory
        }
    }
}

/// Puts a refusal's line, and gives its status, even if the put fails.
fn refuse<E: Sink>(alloc: Global, refusal: Hindrance<'_>, err: &mut E) -> Status
    ensures answer { RefusedAs refusal.entry (E.state err.old) (E.state err.new) result }
    ensures follows { SinkFollows (E.state err.old) (E.state err.new) }
{
    match refusal {
        Hindrance::Rules(fault) => put_made(rules_line(alloc, &fault), Status::RuleRefused, err),
        Hindrance::Module(fault) => {
            put_made(module_line(alloc, &fault), Status::ModuleRefused, err)
        }
        Hindrance::Argument => {
            put_line(b"argument refused\n", err);
            Status::Argument
        }
        Hindrance::Logs(fault) => put_made(logs_line(alloc, &fault), Status::LogRefused, err),
        Hindrance::Read(name) => put_made(read_fault_line(alloc, name), Status::ReadFault, err),
        Hindrance::Memory => {
            put_line(b"want of memory\n", err);
            Status::NoMemory
        }
    }
}

/// Writes the text, and then the report, if there is one: each by one put, even an empty one.
fn write<O: Sink, E: Sink>(work: &Work, out: &mut O, err: &mut E) -> Status
    ensures answer { WrittenAs (seen_work work.now) (O.state out.old) (O.state out.new) (E.state err.old) (E.state err.new) result }
    ensures out_follows { SinkFollows (O.state out.old) (O.state out.new) }
    ensures err_follows { SinkFollows (E.state err.old) (E.state err.new) }
{
    if out.put(work.text.as_slice()).is_err() {
        return Status::WriteFault;
    }
    if let Some(report) = &work.report {
        if err.put(report.as_slice()).is_err() {
            return Status::WriteFault;
        }
    }
    work.status
}

/// An end without verdicts and proofs.
fn ended(alloc: Global, status: Status) -> Ended
    ensures status { result.status ≡ status }
    ensures none { result.table ≡ [] }
    ensures no_proofs { result.proofs ≡ [] }
{
    Ended {
        status,
        table: List::new(alloc),
        proofs: List::new(alloc),
    }
}

/// Runs a command.
fn run<F: Files, O: Sink, E: Sink>(
    alloc: Global,
    command: Command<'_>,
    files: &mut F,
    out: &mut O,
    err: &mut E,
) -> Ended
    requires { IsWithinLimits command }
    ensures ends { EndsWith (task_of command.entry) (F.state files.old) (F.state files.new)
        (O.state out.old) (O.state out.new) (E.state err.old) (E.state err.new) result result.status }
    ensures untouched { ¬ IsWorked result.status → out.new ≡ out.old }
    ensures files_follow { FilesFollow (F.state files.old) (F.state files.new) }
    ensures out_follows { SinkFollows (O.state out.old) (O.state out.new) }
    ensures err_follows { SinkFollows (E.state err.old) (E.state err.new) }
{
    match perform(alloc, command, files) {
        Ok(work) => {
            let status = write(&work, out, err);
            Ended {
                status,
                table: work.table,
                proofs: work.proofs,
            }
        }
        Err(refusal) => ended(alloc, refuse(alloc, refusal, err)),
    }
}

/// Runs the command that the words name, or says why they are none.
fn run_words<F: Files, O: Sink, E: Sink>(
    alloc: Global,
    words: &[String],
    files: &mut F,
    out: &mut O,
    err: &mut E,
) -> Ended
    ensures ends { Ends (map string_bytes words.now) (F.state files.old) (F.state files.new)
        (O.state out.old) (O.state out.new) (E.state err.old) (E.state err.new) result }
    ensures untouched { ¬ IsWorked result.status → out.new ≡ out.old }
    ensures files_follow { FilesFollow (F.state files.old) (F.state files.new) }
    ensures out_follows { SinkFollows (O.state out.old) (O.state out.new) }
    ensures err_follows { SinkFollows (E.state err.old) (E.state err.new) }
{
    match read_command(alloc, words) {
        Ok(command) => run(alloc, command, files, out, err),
        Err(CommandError::Usage(text)) => {
            put_line(text.as_slice(), err);
            ended(alloc, Status::Usage)
        }
        Err(CommandError::NoMemory) => {
            put_line(b"want of memory\n", err);
            ended(alloc, Status::NoMemory)
        }
    }
}

/// Runs the command that the words name; the first word is the program's own name.
///
/// `verify RULES [--widths LIST] [--conflicts N] [--logs]` decides each rule of a file at each of its typings over the
/// list of widths, and writes the verdicts to `out`. A verdict is `admitted` only where the rule is valid there, and a
/// counterexample is one. With `--logs` it writes the proofs of the rules that are admitted in place of the verdicts.
///
/// `recheck RULES LOGS [--conflicts N]` reads such proofs, and decides what they are of: by its log where that refutes
/// the counterexamples, and else by a search.
///
/// `optimise RULES MODULE [--conflicts N] [--steps N] [--logs LOGS]` reads both files and writes to `out` the module,
/// each function rewritten by the rules where they match and are admitted, and without dead code; and to `err` the
/// verdicts that it asked for, and how often each function was rewritten. What it writes refines what it read. With
/// `--logs LOGS` it reads proofs too, and tries the log that is stored for a verdict before it searches.
///
/// `run [--blocks N] MODULE NAME [ARG..]` runs a function of a module and writes what it returned, that its behaviour
/// is undefined, or which block it would enter next once it has entered as many as it may.
///
/// `load NUMBER` generates a module from the number, rewrites it by the built-in rules, and writes how large it was and
/// is, and how often functions were rewritten. It reads no file.
///
/// A rule file of more than 1 MiB, a module of more than 16 MiB and proofs of more than 64 MiB are refused. The status
/// says how it ended.
pub fn alive<F: Files, O: Sink, E: Sink>(
    alloc: Global,
    words: &Vec<String>,
    files: &mut F,
    out: &mut O,
    err: &mut E,
) -> Ended
    // When the call ends with which status; the first cause decides, by the task that the words ask for: what was asked
    // for, what was read and written, and which counts of faults rose.
    ensures ends { Ends (map string_bytes words.now.items) (F.state files.old) (F.state files.new)
        (O.state out.old) (O.state out.new) (E.state err.old) (E.state err.new) result }

    // With status 0 or 1 the task was done on texts of its files, and all verdicts that the call gives are honest.
    // `verify` wrote one for each rule and typing, or the proofs of those that are admitted, and `recheck` one for each
    // proof: 0 says that all are admitted. `optimise` wrote the module that the plain strategy gives by them, which
    // refines the one read, and a report: given proofs, it left no pair undecided that its proof decides. `run` wrote
    // an outcome of its function, and `load` five lines on a module of its number.
    ensures done { (task : Task) → Asks (map string_bytes words.now.items) task → IsDone result.status
        → OfSomeTexts (F.state files.old) task (λ texts. HasDone task texts
        (O.state out.old) (O.state out.new) (E.state err.old) (E.state err.new) result) }

    // Status 2 comes only where `clap` does not take the words or the list of widths is malformed; and there nothing
    // else comes, but want of memory.
    ensures usage { (result.status ≡ Status.Usage → IsNoCommand (map string_bytes words.now.items))
        × (IsNoCommand (map string_bytes words.now.items) → IsNoTask result.status) }

    // Where a file's bytes are known and aren't what it is read for, the work is not done.
    ensures refused { (task : Task) → Asks (map string_bytes words.now.items) task
        → HasBadFile (F.state files.old) task → ¬ IsWorked result.status }

    // Status 8 comes only where a run's module has no function of the name or the arguments do not fit it, and status 9
    // only where proofs have a fault, given the rules; and where that is so of the known bytes, nothing else comes but
    // a read fault or want of memory.
    ensures argument { (task : Task) → Asks (map string_bytes words.now.items) task
        → (result.status ≡ Status.Argument → OfSomeTexts (F.state files.old) task (NamesNoRun task))
        × (OfToldTexts (F.state files.old) task (NamesNoRun task) → IsNoRun result.status) }
    ensures logs { (task : Task) → Asks (map string_bytes words.now.items) task
        → (result.status ≡ Status.LogRefused → OfSomeTexts (F.state files.old) task (HasBadLogs task))
        × (OfToldTexts (F.state files.old) task (HasBadLogs task) → IsLogRefusal result.status) }

    // A read fault comes only where the files' count of faults rose, and a write fault only where a sink's did.
    ensures read_fault { result.status ≡ Status.ReadFault
        → Rose (F.state files.old).faults (F.state files.new).faults }
    ensures write_fault { result.status ≡ Status.WriteFault
        → Rose (O.state out.old).faults (O.state out.new).faults
        ⊎ Rose (E.state err.old).faults (E.state err.new).faults }

    // Where the words are a command, all bytes are known and are what their files are read for, a run's function is
    // there and its arguments fit, proofs are without a fault, and no read or put fails, the whole work is done, or
    // memory is wanting.
    ensures complete { ¬ IsNoCommand (map string_bytes words.now.items)
        → ((task : Task) → Asks (map string_bytes words.now.items) task
        → OfToldTexts (F.state files.old) task
        (λ texts. TakesEach task texts × ¬ NamesNoRun task texts × ¬ HasBadLogs task texts))
        → ¬ Rose (F.state files.old).faults (F.state files.new).faults
        → ¬ Rose (O.state out.old).faults (O.state out.new).faults
        → ¬ Rose (E.state err.old).faults (E.state err.new).faults
        → IsDoneOrNoMemory result.status }

    // Where the work was done, the output got it by one put, and where it was not, the output is as it was. What is
    // known of the files stays, and no count of faults falls.
    ensures one_put { IsWorked result.status → (O.state out.new).puts ≡ option_map raised (O.state out.old).puts }
    ensures untouched { ¬ IsWorked result.status → out.new ≡ out.old }
    ensures files_follow { FilesFollow (F.state files.old) (F.state files.new) }
    ensures out_follows { SinkFollows (O.state out.old) (O.state out.new) }
    ensures err_follows { SinkFollows (E.state err.old) (E.state err.new) }
{
    // words ask for one task, and a text that is taken is not refused
    command_line::words_say_one_command();
    rule_reader::every_text_has_one_list_or_one_fault();
    ir_reader::every_text_has_one_module_or_one_fault();
    run_text::every_run_has_its_function_and_arguments();
    stored_logs::texts_have_proofs_or_a_fault();
    run_words(alloc, words.as_slice(), files, out, err)
}
