//! Proofs of a list of rules.

ghost use Rattle.std.specs.Prelude.{◌≤◌, ◌<◌, ◌^◌, [], ◌∷◌, All, length, IfOk, OnOk};
ghost use Rattle.clauses.specs.ClauseSet.{IsRefutation};
ghost use Rattle.rule_core.specs.Checks.{IsRule};
ghost use Rattle.rule_core.specs.Typing.{IsTyping};
ghost use Rattle.verdict.specs.Findings.{IsReadRule};
ghost use Rattle.verdict.specs.Honest.{StandsForRule};
ghost use Rattle.verdict.specs.Found.{most_conflicts};
ghost use Rattle.stored_logs.specs.Additions.{AddsProof, AddsProved, AddsProvedRule};
ghost use Rattle.stored_logs.specs.Proved.{IsProved};

use crate::refutation::{Refutation, Refutations};
use crate::words::{copied, is_admitted, numbers_of};
use clauses::{Cnf, Log};
use lists::List;
use ops::Width;
use proof_text::{Proof, push_proof};
use rule_core::{Rule, Typing};
use rule_typing::{Typings, typings};
use std::alloc::{AllocError, Global};
use trimmed_logs::trimmed;
use verdict::{MOST_TYPINGS, prove};
use verdict_core::{Row, Table};

/// What is found about a list of rules, with the refutations of those that are admitted.
#[derive(Drop)]
pub struct Proved {
    /// A row for each rule in order and each of its typings in order. A rule that has more than `MOST_TYPINGS` has
    /// none.
    pub table: Table,
    /// A refutation for each row whose verdict is `Admitted`, in order.
    pub refutations: Refutations,
    /// The text of the proofs of these rows, in order.
    pub text: Vec<u8>,
    /// Whether each verdict is `Admitted`, and no rule has more than `MOST_TYPINGS` typings.
    pub all_admitted: bool,
}

/// Decides rules as `verdict::verify` does, and writes in place of the verdicts the proofs of those that are admitted.
/// The only error is want of memory.
pub fn prove_rules(
    alloc: Global,
    rules: &[Rule],
    widths: &List<Width>,
    conflicts: u32,
) -> Result<Proved, AllocError>
    requires rules { All IsReadRule rules.now }
    requires few { length rules.now < 2 ^ 32 }
    requires conflicts { conflicts ≤ most_conflicts }
    ensures { IfOk result (IsProved rules.now widths.now conflicts) }
{
    let mut proved = Proved {
        table: List::new(alloc),
        refutations: List::new(alloc),
        text: Vec::new(alloc),
        all_admitted: true,
    };
    for (place, rule) in rules.iter().enumerate() {
        push_rule(alloc, &mut proved, place as u32, rule, widths, conflicts)?;
    }
    Ok(proved)
}

/// Appends what is found about the rule at this place.
fn push_rule(
    alloc: Global,
    proved: &mut Proved,
    place: u32,
    rule: &Rule,
    widths: &List<Width>,
    conflicts: u32,
) -> Result<(), AllocError>
    requires rule { IsReadRule rule.now }
    requires conflicts { conflicts ≤ most_conflicts }
    ensures { OnOk result (AddsProvedRule widths.now conflicts place rule.now proved.old proved.new) }
{
    match typings(alloc, rule, widths, MOST_TYPINGS)? {
        Typings::All(typings) => push_rows(alloc, proved, place, rule, typings, conflicts),
        Typings::TooMany => {
            proved.all_admitted = false;
            Ok(())
        }
    }
}

/// Appends a row for each of some typings of the rule.
fn push_rows(
    alloc: Global,
    proved: &mut Proved,
    place: u32,
    rule: &Rule,
    typings: List<Typing>,
    conflicts: u32,
) -> Result<(), AllocError>
    requires rule { IsRule rule.now }
    requires typings { All (IsTyping rule.now) typings }
    requires conflicts { conflicts ≤ most_conflicts }
    ensures { OnOk result (AddsProved conflicts place rule.now typings proved.old proved.new) }
{
    for typing in typings.into_vec() {
        push_row(alloc, proved, place, rule, typing, conflicts)?;
    }
    Ok(())
}

/// Appends a row for a typing of the rule.
fn push_row(
    alloc: Global,
    proved: &mut Proved,
    place: u32,
    rule: &Rule,
    typing: Typing,
    conflicts: u32,
) -> Result<(), AllocError>
    requires rule { IsRule rule.now }
    requires typing { IsTyping rule.now typing }
    requires conflicts { conflicts ≤ most_conflicts }
    ensures { OnOk result (AddsProved conflicts place rule.now (typing ∷ []) proved.old proved.new) }
{
    let (verdict, set, log) = prove(alloc, rule, &typing, conflicts)?;
    if is_admitted(&verdict) {
        push_refutation(alloc, proved, rule, &typing, set, log)?;
    } else {
        proved.all_admitted = false;
    }
    proved.table.push(Row {
        rule: place,
        typing,
        verdict,
    })?;
    Ok(())
}

/// Appends a refutation for the rule at a typing, trimmed to the steps and hints that it needs, and the text of the
/// proof.
fn push_refutation(
    alloc: Global,
    proved: &mut Proved,
    rule: &Rule,
    typing: &Typing,
    set: Cnf,
    log: Log,
) -> Result<(), AllocError>
    requires stands { StandsForRule rule.now typing.now set }
    requires refutes { IsRefutation set log }
    ensures { OnOk result (AddsProof rule.now typing.now proved.old proved.new) }
{
    let name = copied(alloc, rule.name.as_slice())?;
    let widths = numbers_of(alloc, typing)?;
    let log = trimmed(alloc, &set, log)?;
    let proof = Proof { name, widths, log };
    push_proof(&mut proved.text, &proof)?;
    proved.refutations.push(Refutation {
        set,
        log: proof.log,
    })
}
