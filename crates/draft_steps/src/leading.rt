//! Chains of users that lead to a terminator.

ghost use Rattle.std.specs.Prelude.{IsTrue, IfSome};
ghost use Rattle.ir_core.specs.Checks.{IsKnown};
ghost use Rattle.needed.specs.Needed.{IsNeeded};
ghost use Rattle.draft.specs.Whole.{IsWhole};
ghost use Rattle.readers.specs.Readers.{IsPlaceIn, IsReader};

use draft::Draft;
use ir_core::{Operand, Register};
use places::{END, Place};

/// How many users are followed along a chain.
const MOST_FOLLOWED: u32 = 64;

/// At how many places from the end of a use list on it is looked for one that still reads.
const MOST_LOOKED_AT: usize = 16;

/// Whether a register is seen to be live: a chain from user to user, always to the last one of the use list, comes to a
/// terminator within so many.
pub(crate) fn leads_to_a_terminator(draft: &Draft, register: Register) -> bool
    requires whole { IsWhole draft.now }
    requires known { IsKnown draft.now.arena (Operand.Register register) }
    ensures { IsTrue result → IsNeeded draft.now.arena register }
{
    let mut here = register;
    for _reader in 0..MOST_FOLLOWED {
        let Some(place) = last_reader(draft, here) else {
            return false;
        };
        if place.number == END {
            return true;
        }
        here = Register::Result(place.block, place.number);
    }
    false
}

/// The last place of a register's use list that still reads the register, unless too many after it ceased to.
fn last_reader(draft: &Draft, register: Register) -> Option<Place>
    requires whole { IsWhole draft.now }
    requires known { IsKnown draft.now.arena (Operand.Register register) }
    ensures place { IfSome result (IsPlaceIn draft.now.arena) }
    ensures reads { IfSome result (IsReader draft.now.arena register) }
{
    let places = draft.readers_of(register);
    let end = places.len();
    let begin = end.saturating_sub(MOST_LOOKED_AT);
    for index in (begin..end).rev() {
        let place = places[index];
        if draft.reads(place, register) {
            return Some(place);
        }
    }
    None
}
