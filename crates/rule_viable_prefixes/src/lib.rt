//! Viable prefixes of rule files, and the fault at the first token with which a prefix isn't viable.
//!
//! The definitions stand in `specs/`: `Fits` says which tokens begin a rule file of the grammar, `Misfits` by which
//! kind another one is told, `Passed` what is used of the limits, `Laws` what holds, and `WiderLimits` what the limits
//! change. It has laws and no code.
#![tactic(auto)]

mod laws;

pub use laws::{limits_are_told_as_too_many, refusals_are_exact};
