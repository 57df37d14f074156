//! Bit-blasting of a rule of the Alive language at a typing: a literal that is true exactly at its counterexamples,
//! written once for every `Circuit`.
//!
//! The only error of a call is want of memory. A call that is refused for that may leave inputs and gates, no more
//! gates than it may add; the older literals keep their values.
#![tactic(auto)]

mod freeze;
mod gates;
mod given;
mod halves;
mod laws;
mod operand;
mod refusal;
mod rule_bits;
mod statement;
mod target;
mod temporaries;

pub use blast_setting::{Setting, fitting_settings_are_read, read_settings_fit, setting_of};
pub use gates::most_gates;
pub use laws::{gates_are_few, rules_without_counterexample_read_are_valid};
pub use rule_bits::{RuleBits, blast_rule};
