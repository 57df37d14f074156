//! Verdicts on a list of rules.

ghost use Rattle.std.specs.Prelude.{◌≡◌, ◌↔◌, ◌≤◌, ◌<◌, ◌^◌, [], ◌∷◌, All, length, IsTrue, IfOk, OnOk};
ghost use Rattle.rule_core.specs.Checks.{IsRule};
ghost use Rattle.rule_core.specs.Typing.{IsTyping};
ghost use Rattle.verdict.specs.Additions.{AddsRows, AddsRule};
ghost use Rattle.verdict.specs.Findings.{IsReadRule};
ghost use Rattle.cdcl_log.specs.Found.{most_conflicts};
ghost use Rattle.verdict.specs.Verified.{IsVerified};

use crate::decide;
use lists::List;
use ops::Width;
use rule_core::{Rule, Typing};
use rule_typing::{Typings, typings};
use std::alloc::{AllocError, Global};
use verdict_core::{Row, Table, Verdict, push_too_many, push_verdict};

/// The most typings of a rule that are decided. Of a rule that has more, none is.
pub const MOST_TYPINGS: u32 = 4096;

/// What is found about a list of rules.
#[derive(Drop)]
pub struct Verified {
    /// A row for each rule in order and each of its typings in order. A rule that has more than `MOST_TYPINGS` has
    /// none.
    pub table: Table,
    /// The texts of the verdicts in order. Of a rule that has more than `MOST_TYPINGS` typings it says that.
    pub text: Vec<u8>,
    /// Whether each verdict is `Admitted`, and no rule has more than `MOST_TYPINGS` typings.
    pub all_admitted: bool,
}

/// Decides each rule, in order, at each of its typings over a list of widths, in lexicographic order, and prints the
/// verdicts. A search may learn `conflicts` clauses. The only error is want of memory.
pub fn verify(
    alloc: Global,
    rules: &[Rule],
    widths: &List<Width>,
    conflicts: u32,
) -> Result<Verified, AllocError>
    requires rules { All IsReadRule rules.now }
    requires few { length rules.now < 2 ^ 32 }
    requires conflicts { conflicts ≤ most_conflicts }
    ensures verified { IfOk result (IsVerified rules.now widths.now conflicts) }
{
    let mut verified = Verified {
        table: List::new(alloc),
        text: Vec::new(alloc),
        all_admitted: true,
    };
    for (place, rule) in rules.iter().enumerate() {
        push_rule(alloc, &mut verified, place as u32, rule, widths, conflicts)?;
    }
    Ok(verified)
}

/// Appends what is found about the rule at this place.
fn push_rule(
    alloc: Global,
    verified: &mut Verified,
    place: u32,
    rule: &Rule,
    widths: &List<Width>,
    conflicts: u32,
) -> Result<(), AllocError>
    requires rule { IsReadRule rule.now }
    requires conflicts { conflicts ≤ most_conflicts }
    ensures { OnOk result (AddsRule widths.now conflicts place rule.now verified.old verified.new) }
{
    match typings(alloc, rule, widths, MOST_TYPINGS)? {
        Typings::All(typings) => push_rows(alloc, verified, place, rule, typings, conflicts),
        Typings::TooMany => {
            verified.all_admitted = false;
            push_too_many(&mut verified.text, rule)
        }
    }
}

/// Appends a row for each of some typings of the rule.
fn push_rows(
    alloc: Global,
    verified: &mut Verified,
    place: u32,
    rule: &Rule,
    typings: List<Typing>,
    conflicts: u32,
) -> Result<(), AllocError>
    requires rule { IsRule rule.now }
    requires typings { All (IsTyping rule.now) typings }
    requires conflicts { conflicts ≤ most_conflicts }
    ensures { OnOk result (AddsRows conflicts place rule.now typings verified.old verified.new) }
{
    for typing in typings.into_vec() {
        push_row(alloc, verified, place, rule, typing, conflicts)?;
    }
    Ok(())
}

/// Appends a row for a typing of the rule.
fn push_row(
    alloc: Global,
    verified: &mut Verified,
    place: u32,
    rule: &Rule,
    typing: Typing,
    conflicts: u32,
) -> Result<(), AllocError>
    requires rule { IsRule rule.now }
    requires typing { IsTyping rule.now typing }
    requires conflicts { conflicts ≤ most_conflicts }
    ensures { OnOk result (AddsRows conflicts place rule.now (typing ∷ []) verified.old verified.new) }
{
    let verdict = decide(alloc, rule, &typing, conflicts)?;
    push_verdict(&mut verified.text, rule, &typing, &verdict)?;
    verified.all_admitted &= is_admitted(&verdict);
    verified.table.push(Row {
        rule: place,
        typing,
        verdict,
    })?;
    Ok(())
}

/// Whether the verdict is `Admitted`.
fn is_admitted(verdict: &Verdict) -> bool
    ensures { IsTrue result ↔ (verdict.now ≡ Verdict.Admitted) }
{
    matches!(verdict, Verdict::Admitted)
}
