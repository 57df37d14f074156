//! What `load` writes for a number.

ghost use Rattle.std.specs.Prelude.{◌≡◌, ◌<◌, ◌^◌, false, length, All, IsTrue, IfOk};
ghost use Rattle.ir_core.specs.Checks.{ModuleMeetsChecks};
ghost use Rattle.rule_core.specs.Checks.{IsRule};
ghost use Rattle.rule_typing.specs.Classes.{IsClassified};
ghost use Rattle.rule_typing.specs.Faults.{HasNoFault};
ghost use Rattle.strategy_core.specs.Countable.{ModuleIsCountable};
ghost use Rattle.strategy_core.specs.Laws.{ModuleNumbersFit};
ghost use Rattle.strategy_core.specs.PlainStrategy.{IsPlainStrategy};
ghost use Rattle.verdict.specs.Table.{IsHonestTable};
ghost use Rattle.command_line.specs.Limits.{default_conflicts, default_steps};
ghost use Rattle.load_text.specs.Load.{IsLoaded};
ghost use Rattle.load_text.specs.Loading.{IsDoneByBuiltIn};

use command_line::{DEFAULT_CONFLICTS, DEFAULT_STEPS};
use ir_core::Module;
use load_gen::generate;
use load_text::{FUNCTIONS, Loaded, built_in_rules, lines};
use rule_reader::Rule;
use std::alloc::{AllocError, Global};
use strategy::{Options, StoredLogs};
use strategy_core::Done;
use verdict_core::{Row, Verdict};

/// Whether each verdict is `Admitted`.
fn are_admitted(table: &[Row]) -> bool
    ensures { IsTrue result → All (λ row. row.verdict ≡ Verdict.Admitted) table.now }
{
    table
        .iter()
        .all(|row| matches!(row.verdict, Verdict::Admitted))
}

/// What the plain strategy gives for a module with the default limits, if it admits each pair that it asks for.
fn optimised_by(alloc: Global, module: &Module, rules: &[Rule]) -> Result<Done, AllocError>
    requires checks { ModuleMeetsChecks module.now }
    requires numbers { ModuleNumbersFit module.now }
    requires countable { ModuleIsCountable default_steps module.now }
    requires rules { All IsRule rules.now }
    requires classes { All IsClassified rules.now }
    requires typed { All HasNoFault rules.now }
    requires few { length rules.now < 2 ^ 32 }
    ensures strategy { IfOk result (λ done. IsPlainStrategy false false rules.now default_steps done.table module.now done.module done.counts done.limited) }
    ensures honest { IfOk result (λ done. IsHonestTable rules.now default_conflicts done.table) }
    ensures admitted { IfOk result (λ done. All (λ row. row.verdict ≡ Verdict.Admitted) done.table) }
{
    let logs = StoredLogs::new(alloc);
    let options = Options {
        conflicts: DEFAULT_CONFLICTS,
        steps: DEFAULT_STEPS,
        fold: false,
        across: false,
    };
    let done = strategy::optimise(alloc, module, rules, logs, &options)?;
    if are_admitted(done.table.as_slice()) {
        Ok(done)
    } else {
        Err(AllocError)
    }
}

/// The same by the built-in rules.
fn optimised(alloc: Global, module: &Module) -> Result<Done, AllocError>
    requires checks { ModuleMeetsChecks module.now }
    requires numbers { ModuleNumbersFit module.now }
    requires countable { ModuleIsCountable default_steps module.now }
    ensures { IfOk result (λ done. IsDoneByBuiltIn module.now done) }
{
    let rules = built_in_rules(alloc)?;
    let done = optimised_by(alloc, module, rules.as_slice())?;
    Ok(done)
}

/// Generates the module of a number, with 200 functions, rewrites it by the built-in rules as `optimise` does by
/// default, and says how many instructions it had before and has after, how often functions were rewritten, and how
/// many ran out of steps.
///
/// The only error is want of memory. A verdict other than `Admitted` would be answered so, too. But there is none: at
/// the widths that are generated, 3 to 5, no built-in rule has more than 12 bits of input, so each is decided, and all
/// are valid.
pub fn load(alloc: Global, number: u32) -> Result<Loaded, AllocError>
    ensures { IfOk result (λ loaded. IsLoaded number loaded.text.items loaded.table) }
{
    // the generated module is one that the strategy takes
    load_gen::generated_modules_meet_checks();
    load_gen::generated_numbers_fit();
    load_gen::generated_functions_have_twenty_instructions();
    let module = generate(alloc, number, FUNCTIONS)?;
    let done = optimised(alloc, &module)?;
    let text = lines(alloc, &module, &done)?;
    Ok(Loaded {
        text,
        table: done.table,
    })
}
