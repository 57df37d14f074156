//! The type classes of rules, and their typings.
//!
//! A line of the table of types is a constraint on the classes of a rule: two have one width, or the width of one is
//! fixed, or below that of another. Lines of the first kind merge classes, until none has two different ones (is
//! split). The definitions stand in `specs/`: `Classes` says which positions are of one class and how the classes are
//! numbered, `Faults` why a rule has no typing worth a trial, and `AllTypings` which typings there are over a list of
//! widths.
#![tactic(auto)]

mod answer;
mod casts;
mod choice_lines;
mod classes;
mod enumeration;
mod fits;
mod fixed;
mod half;
mod laws;
mod lines;
mod names;
mod open_classes;
mod operand_lines;
mod operands;
mod relabelling;
mod solving;
mod term_lines;
mod widths;

pub use answer::Typings;
pub use classes::{ClassFault, MOST_CLASSES, classify};
pub use enumeration::typings;
pub use fits::{class_count, is_typing};
pub use fixed::fixed_width;
pub use laws::every_rule_has_classes;
