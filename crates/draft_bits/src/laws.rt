//! The law of the bits of drafts, the contract of a function that does nothing.

ghost use Rattle.draft_bits.specs.Laws.{DraftBitsAreKnownBits};

use bindings::reads_of_a_block_stand_before;

/// What a draft keeps at an instruction is what is known there in its function, by the instructions before it.
pub fn draft_bits_are_known_bits()
    ensures { DraftBitsAreKnownBits }
{
    reads_of_a_block_stand_before();
}
