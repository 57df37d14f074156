//! A log in few bytes. Contracts see it as the list of its steps.
//!
//! Most of a log is hints. They often name gate clauses with numbers near each other, so each is kept as its difference
//! from the one before, in as few bytes as that needs (LEB128).
#![tactic(auto)]

mod hints;
mod number;
mod packed_log;

pub use packed_log::{PackedLog, pack, unpack};
