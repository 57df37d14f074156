//! Names as written.

ghost use Rattle.refusal.specs.Refusals.{Gives};
ghost use Rattle.rule_tokens.specs.PartReaders as reading;
ghost use Rattle.rule_tokens.specs.Limits.{rule_limits};

use crate::fault::{RuleError, RuleFaultKind};
use lists::Text;
use refusal::refused;
use std::alloc::Global;

/// The most bytes of a name.
const MOST_NAME_BYTES: usize = 200;

/// A name of at most 200 bytes.
#[tactic(auto, unfolding(crate::specs::PartReaders::name_within))]
pub fn name_within(alloc: Global, line: usize, name: &[u8]) -> Result<Text, RuleError>
    ensures { Gives (λ x. x) result (reading.name_within rule_limits line name.now) }
{
    if name.len() <= MOST_NAME_BYTES {
        Ok(Text::from_vec(Vec::from_slice(alloc, name)?))
    } else {
        Err(refused(line, RuleFaultKind::TooMany))
    }
}
