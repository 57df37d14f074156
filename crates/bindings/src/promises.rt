//! What an operation promises by its flags.

ghost use Rattle.std.specs.Prelude.{◌≡◌, ◌↔◌, IsTrue};
ghost use Rattle.bindings.specs.Promises as meaning;

use ops::Flags;

/// The flags of an operation, and the truth value of an intrinsic, which counts as one more. If one of them is violated
/// the result is poison.
#[derive(Clone, Copy, PartialEq, Eq)]
pub struct Promises {
    pub flags: Flags,
    pub truth: bool,
}

impl Promises {
    /// None at all.
    pub(crate) const NONE: Promises = Promises {
        flags: Flags::NONE,
        truth: false,
    };

    /// Those of an operation with flags.
    pub(crate) fn of_flags(flags: Flags) -> Promises
        ensures { result ≡ meaning.by_flags flags }
    {
        Promises {
            flags,
            ..Promises::NONE
        }
    }

    /// Those of an intrinsic with a truth value.
    pub(crate) fn of_truth(truth: bool) -> Promises
        ensures { result ≡ meaning.by_truth truth }
    {
        Promises {
            truth,
            ..Promises::NONE
        }
    }

    /// Whether each of them is among others too.
    pub(crate) fn are_within(self, others: Promises) -> bool
        ensures { IsTrue result ↔ meaning.AreKept self others }
    {
        self.flags.are_within(others.flags) && self.truth & others.truth == self.truth
    }
}
