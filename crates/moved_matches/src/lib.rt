//! Which matches stay where a function changes: those whose instructions only move, and whose operands only get other
//! names.
//!
//! The definitions are in `specs/`: `Moved` says what a match depends on, and where an instruction is in another
//! function; `Laws` that a match is in the other function where all that it depends on is. There is no code.
#![tactic(auto)]

mod laws;

pub use laws::matches_stay_where_instructions_move;
