//! The members of preconditions that speak of the bits of a register.

ghost use Rattle.std.specs.Prelude.{◌≡◌};
ghost use Rattle.rule_tokens.specs.Facts.{fact_in};

use crate::version::Version;
use ops::keywords::is;

/// What a member of a precondition says of the bits of a register.
#[derive(Clone, Copy, Debug)]
pub enum BitFact {
    /// `MaskedValueIsZero`: the register has no bit of a term.
    MaskedValueIsZero,
    /// `isKnownNonZero`: it isn't 0.
    IsKnownNonZero,
}

/// The fact that a word is in a version.
#[tactic(auto, unfolding(crate::specs::Facts::fact_in))]
pub(crate) fn fact_of(version: Version, word: &[u8]) -> Option<BitFact>
    ensures { result ≡ fact_in version word.now }
{
    match version {
        Version::One => None,
        Version::Two => {
            if is(word, "MaskedValueIsZero") {
                Some(BitFact::MaskedValueIsZero)
            } else if is(word, "isKnownNonZero") {
                Some(BitFact::IsKnownNonZero)
            } else {
                None
            }
        }
    }
}
