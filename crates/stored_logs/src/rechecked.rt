//! Proofs that are checked again.

ghost use Rattle.std.specs.Prelude.{◌≤◌, ◌<◌, ◌^◌, map, All, length, IfOk, IfErr, OnOk};
ghost use Rattle.refusal.specs.Refusals.{IfRefused};
ghost use Rattle.rule_core.specs.Checks.{AreDistinct};
ghost use Rattle.proof_reader.specs.Faults.{IsFault};
ghost use Rattle.proof_reader.specs.Reading.{IsTypedIn};
ghost use Rattle.verdict.specs.Findings.{IsReadRule};
ghost use Rattle.verdict.specs.Found.{most_conflicts};
ghost use Rattle.stored_logs.specs.Additions.{AddsVerdict};
ghost use Rattle.stored_logs.specs.Rechecked.{IsRechecked};

use crate::words::is_admitted;
use lists::List;
use proof_reader::{LogError, RuleProof, read_logs};
use rule_core::Rule;
use std::alloc::{AllocError, Global};
use verdict::readmit;
use verdict_core::{Row, Table, push_verdict};

/// What comes of the proofs in a text.
#[derive(Drop)]
pub struct Rechecked {
    /// A row for each proof, in order.
    pub table: Table,
    /// The texts of the verdicts, in order.
    pub text: Vec<u8>,
    /// Whether each verdict is `Admitted`.
    pub all_admitted: bool,
}

/// Decides the rules that the proofs in a text are of, at their widths: a log that proves its rule admits it, and else
/// a search decides, which may learn `conflicts` clauses.
pub fn recheck(
    alloc: Global,
    rules: &[Rule],
    bytes: &[u8],
    conflicts: u32,
) -> Result<Rechecked, LogError>
    requires rules { All IsReadRule rules.now }
    requires names { AreDistinct (map (λ rule. rule.name) rules.now) }
    requires few { length rules.now < 2 ^ 32 }
    requires conflicts { conflicts ≤ most_conflicts }
    ensures ok { IfOk result (IsRechecked rules.now bytes.now conflicts) }
    ensures refused { IfErr result (λ e. IfRefused e (IsFault rules.now bytes.now)) }
{
    let proofs = read_logs(alloc, rules, bytes)?;
    let mut rechecked = Rechecked {
        table: List::new(alloc),
        text: Vec::new(alloc),
        all_admitted: true,
    };
    for proof in proofs {
        push_verdict_on(alloc, &mut rechecked, rules, proof, conflicts)?;
    }
    Ok(rechecked)
}

/// Appends the verdict on the pair that a proof is of.
fn push_verdict_on(
    alloc: Global,
    rechecked: &mut Rechecked,
    rules: &[Rule],
    proof: RuleProof,
    conflicts: u32,
) -> Result<(), AllocError>
    requires rules { All IsReadRule rules.now }
    requires proof { IsTypedIn rules.now proof }
    requires conflicts { conflicts ≤ most_conflicts }
    ensures { OnOk result (AddsVerdict rules.now conflicts proof rechecked.old rechecked.new) }
{
    let rule = &rules[proof.rule as usize];
    let verdict = readmit(alloc, rule, &proof.typing, &proof.log, conflicts)?;
    push_verdict(&mut rechecked.text, rule, &proof.typing, &verdict)?;
    rechecked.all_admitted &= is_admitted(&verdict);
    rechecked.table.push(Row {
        rule: proof.rule,
        typing: proof.typing,
        verdict,
    })
}
