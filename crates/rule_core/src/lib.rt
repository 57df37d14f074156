//! Rules of the Alive language as plain values, their runs, and when one is valid.
//!
//! The two halves of a rule are its source and its target. The last statement of each assigns the root; the other
//! statements of the source assign its temporaries. A choice of a half is an `undef`, or the number that a freeze gives
//! in place of poison. A place is an index, from 0. Positions (results, operands and nodes of terms) that the table of
//! types keeps at one width are of one class; a typing gives each class a width. A setting is what the halves are
//! compared at: values of the inputs, and numbers for the constants and for the target's choices.
//!
//! The definitions are in `specs/`: `Checks` says what a rule that was read meets, `Typing` which widths its classes
//! may have, `Terms` what constant terms give and when a precondition holds, `Run` what the two halves do, and `Valid`
//! when the rule is right.
#![tactic(auto)]

mod choices;
mod example;
mod laws;
mod rule;
mod run;
mod term;
mod typing;

pub use choices::Choices;
pub use example::Example;
pub use laws::{
    every_rule_has_one_outcome, formulas_hold_as_they_read, nodes_give_their_values,
    rules_without_counterexample_are_valid, valid_rules_have_no_counterexample,
};
pub use rule::{
    Argument, Choice, Formula, Function, Name, Node, Op, Operand, Register, Rule, Statement, Term,
    Typing,
};
pub use run::{run_source, run_target};
pub use term::{exponent, term_value};
pub use typing::{class_at, positions, width_at};
