//! Rewriting of drafts: steps, in each of which a rule is applied and the dead code that this leaves is removed;
//! worklists of instructions; searches along def-use chains, inside a block or across blocks; and which matches a draft
//! has.
//!
//! What changes a draft takes it by value, and gives it back changed: where memory is refused halfway, it is dropped.
//!
//! Laws say that the matches in the arena are those in the draft's function, with numbers in place of positions, and
//! that an instruction from which no chain of operands leads to a touched one has no match that it didn't have before:
//! `specs/MatchLaws`.
#![tactic(auto)]

mod dead_code;
mod inserting;
mod laws;
mod leading;
mod removing;
mod replacing;
mod rewriting;
mod stepping;
mod walk;
mod worklist;

pub use laws::{matches_of_the_arena, matches_of_the_untouched, orders_are_kept};
pub use stepping::{apply, step};
pub use worklist::DraftWorklist;
