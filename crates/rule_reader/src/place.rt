//! Where in a rule a name is used.

ghost use Rattle.std.specs.Prelude.{◌≡◌};
ghost use Rattle.rule_reader.specs.KnownRules.{half_of, place_in};

use rule_parse::{RawRule, RawStatement};

/// A half of a rule.
#[derive(Clone, Copy, PartialEq, Eq)]
pub(crate) enum Half {
    Source,
    Target,
}

/// Where a name is used, which decides what it may be.
#[derive(Clone, Copy, PartialEq, Eq)]
pub(crate) enum UseSite {
    /// In a statement of the source, by its place.
    Source(usize),
    /// In a statement of the target, by its place.
    Target(usize),
    /// In `Pre:` or `Wit:`, which stand before the source.
    Heading,
}

impl Half {
    /// A use in this statement of the half.
    pub(crate) fn place(self, statement: usize) -> UseSite
        ensures { result ≡ place_in self statement }
    {
        match self {
            Half::Source => UseSite::Source(statement),
            Half::Target => UseSite::Target(statement),
        }
    }

    /// The statements of the half.
    pub(crate) fn of(self, rule: &RawRule) -> &[RawStatement]
        ensures { result.now ≡ half_of self rule.now }
    {
        match self {
            Half::Source => rule.source.as_slice(),
            Half::Target => rule.target.as_slice(),
        }
    }
}
