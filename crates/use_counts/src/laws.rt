//! The laws of use counts, as the contract of a function with an empty body.

ghost use Rattle.use_counts.specs.Laws.{CountOfOneIsOneUse, UseCountsAreOne};

/// A register has one use count, and that is 1 exactly where a single operand of the whole function names the register.
pub fn every_register_has_one_use_count()
    ensures one { UseCountsAreOne }
    ensures once { CountOfOneIsOneUse }
{}
