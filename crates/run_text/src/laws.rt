//! The laws of modules that are read and of runs of them, each the contract of a function that does nothing.

ghost use Rattle.run_text.specs.OutcomeLaws.{ModulesReadHaveOutcomes, RunsAreNotMisnamed};

/// Each function of a module that was read has an outcome at all arguments, after any number of blocks entered.
pub fn every_module_read_has_outcomes()
    ensures { ModulesReadHaveOutcomes }
{
    ir_meaning::every_function_has_outcomes();
    ir_round_trip::module_texts_meet_checks();
}

/// Where a run of a text's module writes something, the module has the function, and the arguments fit it.
pub fn every_run_has_its_function_and_arguments()
    ensures { RunsAreNotMisnamed }
{
    ir_reader::every_text_has_one_module_or_one_fault();
}
