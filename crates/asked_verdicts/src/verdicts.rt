//! Verdicts, each decided when it is first asked for.

ghost use Rattle.std.specs.Prelude.{◌≡◌, ◌≢◌, ◌<◌, ◌≤◌, ◌++◌, ◌∷◌, [], Some, slice_get, take, MatchBool, IfOk, IfSome, OnErr, OnOk, length};
ghost use Rattle.std.specs.Option.{option_copied};
ghost use Rattle.rule_core.specs.Checks.{IsRule};
ghost use Rattle.rule_core.specs.Typing.{IsTyping};
ghost use Rattle.verdict.specs.Honest.{IsHonest};
ghost use Rattle.cdcl_log.specs.Found.{most_conflicts};
ghost use Rattle.verdict.specs.Proved.{IsUnrefutedBy};
ghost use Rattle.verdict.specs.Table.{IsHonestRow};
ghost use Rattle.strategy_core.specs.Asked.{IsAdmitted, IsTurnedDown, pair_in, pair_of};
ghost use Rattle.asked_verdicts.specs.Asks.{AreVerdicts, Asks, IsUnasked};
ghost use Rattle.asked_verdicts.specs.Stored.{log_of};

use crate::stored::StoredLogs;
use crate::typings::widths_of;
use bindings::Match;
use clauses::Log;
use indexmap::IndexSet;
use lists::List;
use rule_core::{Rule, Typing};
use std::alloc::{AllocError, Global};
use verdict::{decide, readmit};
use verdict_core::{Row, Table, Verdict};

/// The verdicts that were asked for, each pair of a rule and a typing once, in the order in which they were first asked
/// for.
#[derive(Drop)]
pub struct Verdicts {
    pub table: Table,
    /// The pairs of the rows, in their order, hashed: finding a pair's row takes as long however many there are.
    pub pairs: IndexSet<(u32, Vec<u32>)>,
    /// The logs that are tried before a search.
    pub logs: StoredLogs,
}

impl Verdicts {
    /// No verdicts yet, and logs to try before searches. It takes no memory.
    pub fn new(alloc: Global, logs: StoredLogs) -> Self
        ensures table { result.table ≡ [] }
        ensures pairs { result.pairs.keys ≡ [] }
        ensures logs { result.logs ≡ logs }
    {
        Verdicts {
            table: List::new(alloc),
            pairs: IndexSet::new(alloc),
            logs,
        }
    }

    /// Whether the verdict that a match asks for is `Admitted`. It is decided now if it has not been asked for. Where
    /// memory is refused the verdicts are as they were.
    pub fn admits(
        &mut self,
        alloc: Global,
        rules: &[Rule],
        asking: &Match,
        conflicts: u32,
    ) -> Result<bool, AllocError>
        requires place { asking.now.rule < length rules.now }
        requires rule { (rule : Rule) → slice_get rules.now asking.now.rule ≡ Some rule → IsRule rule × IsTyping rule asking.now.binding.typing }
        requires conflicts { conflicts ≤ most_conflicts }
        requires verdicts { AreVerdicts rules.now conflicts self.old }
        ensures asks { OnOk result (Asks rules.now conflicts (pair_of asking.now ∷ []) self.old self.new) }
        ensures answer { IfOk result (λ admitted. MatchBool admitted (IsAdmitted self.new.table asking.now) (IsTurnedDown self.new.table asking.now)) }
        ensures refused { OnErr result (IsUnasked self.old self.new) }
    {
        let (place, is_new) = self
            .pairs
            .insert_full((asking.rule, widths_of(alloc, &asking.binding.typing)?))?;
        if is_new {
            self.decide_last(alloc, rules, asking, conflicts)?;
        }
        Ok(is_admitted_at(self.table.as_slice(), place))
    }

    /// Decides the pair that was inserted last, which the match asks for. Where memory is refused the pair is removed
    /// again.
    fn decide_last(
        &mut self,
        alloc: Global,
        rules: &[Rule],
        asking: &Match,
        conflicts: u32,
    ) -> Result<(), AllocError>
        requires place { asking.now.rule < length rules.now }
        requires rule { (rule : Rule) → slice_get rules.now asking.now.rule ≡ Some rule → IsRule rule × IsTyping rule asking.now.binding.typing }
        requires conflicts { conflicts ≤ most_conflicts }
        ensures row { OnOk result ((row : Row) × (self.new.table ≡ self.old.table ++ row ∷ []) × (pair_in row ≡ pair_of asking.now)
            × IsHonestRow rules.now conflicts row × IfSome (log_of self.old.logs (pair_of asking.now)) (λ log. IsUnrefutedBy log row.verdict)) }
        ensures pairs { OnOk result (self.new.pairs.keys ≡ self.old.pairs.keys) }
        ensures table { OnErr result (self.new.table ≡ self.old.table) }
        ensures taken_out { OnErr result (self.new.pairs.keys ≡ take (length self.old.table) self.old.pairs.keys) }
        ensures logs { self.new.logs ≡ self.old.logs }
    {
        match push_decided(alloc, rules, &self.logs, &mut self.table, asking, conflicts) {
            Ok(()) => Ok(()),
            Err(refused) => {
                self.pairs.truncate(self.table.len());
                Err(refused)
            }
        }
    }
}

/// Appends a row with the verdict that a match asks for, which is decided now.
fn push_decided(
    alloc: Global,
    rules: &[Rule],
    logs: &StoredLogs,
    table: &mut Table,
    asking: &Match,
    conflicts: u32,
) -> Result<(), AllocError>
    requires place { asking.now.rule < length rules.now }
    requires rule { (rule : Rule) → slice_get rules.now asking.now.rule ≡ Some rule → IsRule rule × IsTyping rule asking.now.binding.typing }
    requires conflicts { conflicts ≤ most_conflicts }
    ensures pushed { OnOk result ((row : Row) × (table.new ≡ table.old ++ row ∷ []) × (pair_in row ≡ pair_of asking.now)
        × IsHonestRow rules.now conflicts row × IfSome (log_of logs.now (pair_of asking.now)) (λ log. IsUnrefutedBy log row.verdict)) }
    ensures refused { OnErr result (table.new ≡ table.old) }
{
    let row = decided_row(alloc, rules, logs, asking, conflicts)?;
    table.push(row)
}

/// A row with the verdict that a match asks for, which is decided now: by the log that is stored for its pair, if that
/// proves the rule, and else by a search.
fn decided_row(
    alloc: Global,
    rules: &[Rule],
    logs: &StoredLogs,
    asking: &Match,
    conflicts: u32,
) -> Result<Row, AllocError>
    requires place { asking.now.rule < length rules.now }
    requires rule { (rule : Rule) → slice_get rules.now asking.now.rule ≡ Some rule → IsRule rule × IsTyping rule asking.now.binding.typing }
    requires conflicts { conflicts ≤ most_conflicts }
    ensures pair { IfOk result (λ row. pair_in row ≡ pair_of asking.now) }
    ensures honest { IfOk result (IsHonestRow rules.now conflicts) }
    ensures unrefuted { IfOk result (λ row. IfSome (log_of logs.now (pair_of asking.now)) (λ log. IsUnrefutedBy log row.verdict)) }
{
    let typing = &asking.binding.typing;
    let log = logs.log_of(&(asking.rule, widths_of(alloc, typing)?));
    let verdict = verdict_on(alloc, &rules[asking.rule as usize], typing, log, conflicts)?;
    Ok(Row {
        rule: asking.rule,
        typing: List::from_vec(Vec::from_slice(alloc, typing.as_slice())?),
        verdict,
    })
}

/// The verdict on a rule at a typing: by the log, if one is given and proves the rule, and else by a search.
fn verdict_on(
    alloc: Global,
    rule: &Rule,
    typing: &Typing,
    log: Option<&Log>,
    conflicts: u32,
) -> Result<Verdict, AllocError>
    requires rule { IsRule rule.now }
    requires typing { IsTyping rule.now typing.now }
    requires conflicts { conflicts ≤ most_conflicts }
    ensures honest { IfOk result (IsHonest rule.now typing.now conflicts) }
    ensures unrefuted { IfOk result (λ verdict. IfSome (option_copied log.entry) (λ log. IsUnrefutedBy log verdict)) }
{
    match log {
        Some(log) => readmit(alloc, rule, typing, log, conflicts),
        None => decide(alloc, rule, typing, conflicts),
    }
}

/// Whether the verdict of this row is `Admitted`.
fn is_admitted_at(table: &[Row], place: usize) -> bool
    requires { place < length table.now }
    ensures { (row : Row) → slice_get table.now place ≡ Some row → MatchBool result (row.verdict ≡ Verdict.Admitted) (row.verdict ≢ Verdict.Admitted) }
{
    is_admitted(&table[place].verdict)
}

/// Whether the verdict is `Admitted`.
fn is_admitted(verdict: &Verdict) -> bool
    ensures { MatchBool result (verdict.now ≡ Verdict.Admitted) (verdict.now ≢ Verdict.Admitted) }
{
    matches!(verdict, Verdict::Admitted)
}
