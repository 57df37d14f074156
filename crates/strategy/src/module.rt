//! What the plain strategy gives for a module.

ghost use Rattle.std.specs.Prelude.{◌≡◌, ◌<◌, ◌≤◌, ◌^◌, [], ◌∷◌, ◌++◌, length, All, IfOk, OnOk};
ghost use Rattle.ir_core.specs.Checks.{ModuleMeetsChecks};
ghost use Rattle.ir_core.specs.Refines.{ModuleRefines};
ghost use Rattle.rule_core.specs.Checks.{IsRule};
ghost use Rattle.rule_typing.specs.Classes.{IsClassified};
ghost use Rattle.rule_typing.specs.Faults.{HasNoFault};
ghost use Rattle.verdict.specs.Found.{most_conflicts};
ghost use Rattle.asked_verdicts.specs.Stored.{IsUnrefutedIn};
ghost use Rattle.verdict.specs.Table.{IsHonestTable};
ghost use Rattle.strategy_core.specs.Countable.{ModuleIsCountable};
ghost use Rattle.strategy_core.specs.Decided.{MatchesAreDecided};
ghost use Rattle.strategy.specs.Asking.{MayAsk};
ghost use Rattle.strategy.specs.Entries.{EntriesAreReady, EntryIsReady, OptimisesEntries, OptimisesEntry};
ghost use Rattle.strategy_core.specs.Laws.{ModuleNumbersFit};
ghost use Rattle.bindings.specs.Ready.{AreReady};
ghost use Rattle.strategy_core.specs.PlainStrategy.{IsPlainStrategy};
ghost use Rattle.rule_matches.specs.Roots.{AreByRoot};

use crate::frontier::optimise_function;
use crate::steps::{Options, Turns};
use asked_verdicts::{StoredLogs, Verdicts};
use ir_core::{Entry, Function, Module, copy_function};
use lists::List;
use rule_core::Rule;
use rule_matches::{Rules, RulesByRoot};
use std::alloc::{AllocError, Global};
use strategy_core::{Done, every_match_left_is_decided, every_optimised_module_refines_the_old};

/// What the plain strategy gives for a module. Each function's dead code is eliminated; then it is rewritten at its
/// first admitted match and cleaned, again and again, until no such match is left or its steps are spent. Where folding
/// is asked for, a function is folded each time before it is cleaned. A verdict is
/// decided once, when it is first asked for: by the log that is stored for its pair, if that proves the rule, and else
/// by a search that may learn `conflicts` clauses. The module that it gives refines the old one, whatever the logs are.
///
/// Each search goes through the matches in order of place, and looks only where a match may have come since the search
/// before. At each instruction the rules are tried whose root is of its kind, in the order of the file. The only error
/// is want of memory.
pub fn optimise(
    alloc: Global,
    module: &Module,
    rules: &[Rule],
    logs: StoredLogs,
    options: &Options,
) -> Result<Done, AllocError>
    requires checks { ModuleMeetsChecks module.now }
    requires numbers { ModuleNumbersFit module.now }
    // The rules are as the reader gives them.
    requires rules { All IsRule rules.now }
    requires classes { All IsClassified rules.now }
    requires typed { All HasNoFault rules.now }
    requires few { length rules.now < 2 ^ 32 }
    requires conflicts { options.now.conflicts ≤ most_conflicts }

    // Blocks, and the instructions of each, are numbered in 32 bits; each step may add up to 31 instructions.
    requires countable { ModuleIsCountable options.now.steps module.now }
    ensures strategy { IfOk result (λ done. IsPlainStrategy options.now.fold options.now.across rules.now options.now.steps done.table module.now done.module done.counts done.limited) }
    ensures honest { IfOk result (λ done. IsHonestTable rules.now options.now.conflicts done.table) }

    // Where a search ended as a `Budget`, the log that is stored for its pair does not refute its clauses.
    ensures unrefuted { IfOk result (λ done. All (IsUnrefutedIn logs) done.table) }
    ensures refines { IfOk result (λ done. ModuleRefines module.now done.module) }
    ensures checks { IfOk result (λ done. ModuleMeetsChecks done.module) }
    ensures numbers { IfOk result (λ done. ModuleNumbersFit done.module) }
    ensures decided { IfOk result (λ done. MatchesAreDecided options.now.across rules.now done.table done.module done.limited) }
{
    every_optimised_module_refines_the_old();
    every_match_left_is_decided();
    let by_root = RulesByRoot::of(alloc, rules)?;
    let rules = Rules {
        all: rules,
        by_root: &by_root,
        across: options.across,
    };
    let done = plain_strategy(alloc, module, &rules, logs, *options)?;
    Ok(done)
}

/// What the plain strategy gives for a module, and the verdicts that it asked for.
fn plain_strategy(
    alloc: Global,
    module: &Module,
    rules: &Rules<'_>,
    logs: StoredLogs,
    options: Options,
) -> Result<Done, AllocError>
    requires entries { EntriesAreReady options.steps module.now.entries }
    requires ready { AreReady rules.now.all.now }
    requires by_root { AreByRoot rules.now.all.now rules.now.by_root.now }
    requires conflicts { options.conflicts ≤ most_conflicts }
    ensures strategy { IfOk result (λ done. IsPlainStrategy options.fold rules.now.across rules.now.all.now options.steps done.table module.now done.module done.counts done.limited) }
    ensures honest { IfOk result (λ done. IsHonestTable rules.now.all.now options.conflicts done.table) }
    ensures unrefuted { IfOk result (λ done. All (IsUnrefutedIn logs) done.table) }
{
    let mut verdicts = Verdicts::new(alloc, logs);
    let mut turns = Counts::new(alloc);
    let read = module.entries.as_slice();
    let entries = optimise_entries(alloc, read, rules, &mut verdicts, options, &mut turns)?;
    Ok(Done {
        module: Module { entries },
        table: verdicts.table,
        counts: turns.counts,
        limited: turns.limited,
    })
}

/// For each function in order, how often it was rewritten, and whether it ran out of steps with an admitted match left.
#[derive(Drop)]
pub(crate) struct Counts {
    pub(crate) counts: List<u32>,
    pub(crate) limited: List<bool>,
}

impl Counts {
    /// The counts of no functions.
    fn new(alloc: Global) -> Self
        ensures counts { result.counts ≡ [] }
        ensures limited { result.limited ≡ [] }
    {
        Counts {
            counts: List::new(alloc),
            limited: List::new(alloc),
        }
    }

    /// Appends the counts of one more function.
    fn push(&mut self, turns: Turns) -> Result<(), AllocError>
        ensures counts { OnOk result (self.new.counts ≡ self.old.counts ++ turns.count ∷ []) }
        ensures limited { OnOk result (self.new.limited ≡ self.old.limited ++ turns.limited ∷ []) }
    {
        self.counts.push(turns.count)?;
        self.limited.push(turns.limited)?;
        Ok(())
    }
}

/// What the strategy gives for entries, in order.
fn optimise_entries(
    alloc: Global,
    entries: &[Entry],
    rules: &Rules<'_>,
    verdicts: &mut Verdicts,
    options: Options,
    all: &mut Counts,
) -> Result<List<Entry>, AllocError>
    requires entries { EntriesAreReady options.steps entries.now }
    requires asks { MayAsk rules.now options.conflicts verdicts.old }
    ensures { IfOk result (λ made. OptimisesEntries options.fold rules.now.across rules.now.all.now options.conflicts options.steps entries.now made verdicts.old verdicts.new all.old all.new) }
{
    let mut made = List::new(alloc);
    for entry in entries {
        let optimised = optimise_entry(alloc, entry, rules, verdicts, options, all)?;
        made.push(optimised)?;
    }
    Ok(made)
}

/// What the strategy gives for an entry: a kept line stays.
fn optimise_entry(
    alloc: Global,
    entry: &Entry,
    rules: &Rules<'_>,
    verdicts: &mut Verdicts,
    options: Options,
    all: &mut Counts,
) -> Result<Entry, AllocError>
    requires entry { EntryIsReady options.steps entry.now }
    requires asks { MayAsk rules.now options.conflicts verdicts.old }
    ensures { IfOk result (λ optimised. OptimisesEntry options.fold rules.now.across rules.now.all.now options.conflicts options.steps entry.now optimised verdicts.old verdicts.new all.old all.new) }
{
    match entry {
        Entry::Kept(line) => Ok(Entry::Kept(List::from_vec(Vec::from_slice(
            alloc,
            line.as_slice(),
        )?))),
        Entry::Function(old) => {
            let optimised = optimise_copy(alloc, old, rules, verdicts, options, all)?;
            Ok(Entry::Function(optimised))
        }
    }
}

/// What the strategy gives for a function.
fn optimise_copy(
    alloc: Global,
    original: &Function,
    rules: &Rules<'_>,
    verdicts: &mut Verdicts,
    options: Options,
    all: &mut Counts,
) -> Result<Function, AllocError>
    requires entry { EntryIsReady options.steps (Entry.Function original.now) }
    requires asks { MayAsk rules.now options.conflicts verdicts.old }
    ensures { IfOk result (λ made. OptimisesEntry options.fold rules.now.across rules.now.all.now options.conflicts options.steps (Entry.Function original.now) (Entry.Function made) verdicts.old verdicts.new all.old all.new) }
{
    let f = copy_function(alloc, original)?;
    let made = optimise_function(alloc, f, rules, verdicts, options)?;
    all.push(made.1)?;
    Ok(made.0)
}
