//! The parser of rule files: from bytes to rules as written, or the first token that does not fit, with its line.
//!
//! The lexer is in `rule_tokens`; from its tokens `rule`, `statement`, `op` and `operand` read rules by recursive
//! descent.
#![tactic(auto)]

mod excess;
mod half;
mod laws;
mod limit;
mod op;
mod operand;
mod precondition;
mod raw;
mod reader;
mod rule;
mod statement;
mod version;
mod witness;
mod word;

pub use half::Half;
pub use laws::{
    every_text_has_one_reading_or_one_fault, rules_are_read_as_they_are_spelled,
    tokens_are_kept_up_to_the_limit, written_rules_are_small,
};
pub use raw::{RawArgument, RawOp, RawOperand, RawPrecondition, RawRule, RawStatement, RawWitness};
pub use reader::parse_rules;
pub use rule_terms::{RawFormula, RawNode, RawTerm};
pub use rule_tokens::{RuleError, RuleFault, RuleFaultKind};
pub use word::Operation;
