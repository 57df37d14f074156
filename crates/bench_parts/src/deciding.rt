//! Decides rules and measures the steps: the circuit of each rule, its clauses, the search, and the check of its log.
//! It prints a line for each.
//!
//! The words are `RULES CONFLICTS`: a file of rules whose types are written, and the most clauses that a search may
//! learn. `untimed` behind them leaves out all but the answers; `--dimacs FOLDER` writes the clause set of each rule to
//! `FOLDER/PLACE.cnf`, PLACE being the rule's place in the file, from 0.

ghost use Rattle.std.specs.Prelude.{◌≤◌, IfOk, All};
ghost use Rattle.rule_core.specs.Checks.{IsRule};
ghost use Rattle.rule_core.specs.Typing.{IsTyping};
ghost use Rattle.rule_typing.specs.Classes.{IsClassified};
ghost use Rattle.cdcl_log.specs.Found.{most_conflicts};

mod command;
mod dimacs;
mod measure;

use crate::failure::Failure;
use command::{Command, Line};
use dimacs::SetFile;
use lists::List;
use measure::{Measurement, measure};
use outside::{DiskFiles, Files, ReadError};
use rule_core::{Rule, Typing};
use rule_reader::{MOST_BYTES, read_rules};
use rule_typing::{Typings, typings};

/// The rules of the file of this name.
fn rules_of(rt: HostRuntime, name: &str) -> Result<Vec<Rule>, Failure>
    ensures rules { IfOk result (λ rules. All IsRule rules.items) }
    ensures classes { IfOk result (λ rules. All IsClassified rules.items) }
{
    let mut files = DiskFiles::new(rt);
    match files.read(rt.alloc(), name, MOST_BYTES + 1) {
        Ok(bytes) => Ok(read_rules(rt.alloc(), bytes.as_slice())?),
        Err(ReadError::Failed) => Err(Failure::Unreadable),
        Err(ReadError::NoMemory) => Err(Failure::NoMemory),
    }
}

/// The typings of a rule in which each type is written: one at most.
fn typings_of(rt: &HostRuntime, rule: &Rule) -> Result<List<Typing>, Failure>
    requires { IsClassified rule.now }
    ensures { IfOk result (λ all. All (IsTyping rule.now) all) }
{
    match typings(rt.alloc(), rule, &List::new(rt.alloc()), 1)? {
        Typings::All(all) => Ok(all),
        Typings::TooMany => Ok(List::new(rt.alloc())),
    }
}

/// Prints the line of a rule.
fn tell(
    rt: &HostRuntime,
    rule: &Rule,
    line: Line,
    measurement: Measurement,
) -> Result<(), Failure> {
    let name = String::from_utf8_lossy(rt.alloc(), rule.name.as_slice())?;
    match line {
        Line::Measured => println!(rt; "{name}: {measurement}"),
        Line::Verdict => println!(rt; "{name}: {}", measurement.word()),
    }
    .map_err(|_| Failure::Output)
}

/// Decides the rule at a place of its file, at its typing, and prints the line.
fn decide_rule(
    rt: &HostRuntime,
    rule: &Rule,
    place: usize,
    command: Command<'_>,
) -> Result<(), Failure>
    requires rule { IsRule rule.now }
    requires classes { IsClassified rule.now }
    requires limit { command.conflicts ≤ most_conflicts }
{
    let file = command.folder.map(|folder| SetFile { folder, place });
    for typing in typings_of(rt, rule)?.as_slice() {
        let measurement = measure(rt, rule, typing, command.conflicts, file)?;
        tell(rt, rule, command.line, measurement)?;
    }
    Ok(())
}

/// Decides the rules of the command's file.
fn decide_rules(rt: HostRuntime, command: Command<'_>) -> Result<(), Failure>
    requires { command.conflicts ≤ most_conflicts }
{
    let mut place = 0usize;
    for rule in rules_of(rt, command.rules)?.as_slice() {
        decide_rule(&rt, rule, place, command)?;
        place = place.saturating_add(1);
    }
    Ok(())
}

/// Decides the rules of the file that the words name.
pub(crate) fn decide(rt: HostRuntime, words: &[String]) -> Result<(), Failure> {
    decide_rules(rt, Command::of_words(words).ok_or(Failure::Usage)?)
}

/// Decides the rules of `rules.alive`, and tells the verdicts alone.
pub(crate) fn decide_few(rt: HostRuntime) -> Result<(), Failure> {
    let command = Command {
        rules: "rules.alive",
        conflicts: 1000,
        line: Line::Verdict,
        folder: None,
    };
    decide_rules(rt, command)
}
