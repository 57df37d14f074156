//! Why a row of a table could not be tried.

use std::alloc::{AllocError, AllocFailed};

/// Memory is refused, or the row isn't of the form that its table needs.
#[derive(Clone, Copy, Debug, PartialEq, Eq)]
pub(crate) enum Unfit {
    NoMemory,
    /// A text is no module.
    NoModule,
    /// A module does not end with a function.
    NoFunction,
    /// A function has too many blocks or instructions, or a file too many rules.
    TooLarge,
    /// A text is no rule file.
    NoRules,
    /// A rule file has no rule, or has several where one is to be there.
    NoRule,
    /// There is no instruction at the place.
    NoPlace,
    /// The rule does not match there.
    NoMatch,
    /// No register has so many bits.
    NoWidth,
    /// The widths are no typing of the rule.
    NoTyping,
    /// The target has no term.
    NoTerm,
    /// The rule has no counterexample.
    NoCounterexample,
}

impl From<AllocError> for Unfit {
    fn from(_error: AllocError) -> Unfit {
        Unfit::NoMemory
    }
}

impl<T: Drop> From<AllocFailed<T>> for Unfit {
    fn from(_error: AllocFailed<T>) -> Unfit {
        Unfit::NoMemory
    }
}
