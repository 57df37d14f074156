//! Rules and functions that are read: where the rules match, which functions come of it and what changed, how often
//! registers are used, and which bits of operands are known.

mod applied;
mod facts;
mod folded;
mod matches;
mod reading;
mod told;
mod uses;
