//! Versions of the language of rules.

ghost use Rattle.std.specs.Prelude.{◌≡◌};
ghost use Rattle.rule_tokens.specs.Versions.{version_in};

use crate::number::{are_digits, magnitude};

/// The version that a rule file is written in.
#[derive(Clone, Copy, PartialEq, Eq)]
pub enum Version {
    One,
    /// The first one with `freeze`, intrinsics and facts on bits.
    Two,
}

/// The version whose number the digits spell.
#[tactic(auto, unfolding(crate::specs::Versions::version_in))]
pub fn written_version(text: &[u8]) -> Option<Version>
    ensures { result ≡ version_in text.now }
{
    if !are_digits(text) {
        return None;
    }
    match magnitude(text) {
        1 => Some(Version::One),
        2 => Some(Version::Two),
        _ => None,
    }
}
