//! Rule files, read exactly: the rules of a text, or its first fault with kind and line.
//!
//! A text is read in two steps: `rule_parse` makes rules as written of its bytes, and here their names are resolved.
//! Each rule passes its checks in turn (`checks`, `bound`, `undefs`), and then registers, constants, choices and terms
//! are known by place (`resolve`, `terms`, `precondition`, `witness`). The definitions stand in `specs/`: `Meaning`
//! says which rule is meant, `FaultKinds` where a rule has which fault, and `Faults` which fault is the first.
#![tactic(auto)]

mod bound;
mod checks;
mod counts;
mod fault;
mod laws;
mod names;
mod place;
mod precondition;
mod reader;
mod registers;
mod repeated;
mod resolve;
mod terms;
mod undefs;
mod witness;

pub use laws::every_text_has_one_list_or_one_fault;
pub use reader::{MOST_BYTES, read_rules};
pub use rule_core::Rule;
pub use rule_parse::{
    RuleError, RuleFault, RuleFaultKind, every_text_has_one_reading_or_one_fault,
};
