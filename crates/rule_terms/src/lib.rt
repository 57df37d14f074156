//! The parsers of terms and formulas of rules.
#![tactic(auto)]

mod fact_reading;
mod formula_reading;
mod formula_word;
mod laws;
mod parts;
mod place;
mod raw;
mod reading;
mod start;
mod take;
mod word;

pub use formula_reading::formula;
pub use formula_word::{Opening, Predicate, Sign, is_among};
pub use laws::{nodes_stand_behind_their_operands, terms_are_read_as_they_are_spelled};
pub use place::TermPlace;
pub use raw::{RawFormula, RawNode, RawTerm};
pub use reading::term;
pub use start::{Start, mark};
pub use take::takes;
pub use word::{Meaning, is_constant, operator_of};
