//! Verdicts on rules at typings, and tables of them, as plain values, and their texts.
//!
//! `Texts` in `specs/` says which text a verdict has.
#![tactic(auto)]

mod example;
mod text;
mod verdicts;
mod words;

pub use text::{push_too_many, push_verdict};
pub use verdicts::{Row, Table, Tried, Verdict};
