//! Drafts: functions that are rewritten in place. Each instruction has a number, its index in an arena, which it keeps
//! while others are inserted before it or removed.
//!
//! A draft stands for a function: the instructions of each block that weren't removed, in order, where operands name a
//! result by its position in the block in place of its number. An edit, as in `draft_steps`, costs what it changes:
//! nothing behind it moves.
#![tactic(auto)]

mod draft;
mod placing;
mod reading;

pub use draft::Draft;
pub use placing::function_of;
