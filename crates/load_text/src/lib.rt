//! The texts of `load`: the built-in rules, and the lines on what the plain strategy gives for a module.
//!
//! The definitions stand in `specs/`: `Load` says what is written of a number, `RuleText` which texts are rule files,
//! and `Laws` how many rules these have. `Loading` serves the functions of `load` above.
#![tactic(auto)]

mod counting;
mod laws;
mod loading;

pub use laws::rule_texts_are_small;
pub use loading::{BUILT_IN, FUNCTIONS, Loaded, built_in_rules, lines};
