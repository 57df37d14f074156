//! The law of modules that are written, the contract of a function that does nothing.

ghost use Rattle.alive_top.specs.OutcomeLaws.{ModulesWrittenHaveOutcomes};

/// Each function of a module that `optimise` writes has an outcome at all arguments, after any number of blocks
/// entered.
pub fn every_module_written_has_outcomes()
    ensures { ModulesWrittenHaveOutcomes }
{
    ir_meaning::every_function_has_outcomes();
}
