//! The lexer of rule files, the parsers of parts that all others are made of (names, types, ends of lines), and the
//! faults of a text.
#![tactic(auto)]

mod context;
mod end_of_line;
mod fact;
mod fault;
mod name;
mod number;
mod token;
mod token_fault;
mod tokens;
mod version;
mod width;

pub use context::{Before, Context};
pub use end_of_line::line_end;
pub use fact::BitFact;
pub use fault::{RuleError, RuleFault, RuleFaultKind};
pub use name::name_within;
pub use number::{all_digits, are_digits, literal, magnitude};
pub use token::Token;
pub use token_fault::{left_out, misplaced, misplaced_word, unexpected};
pub use tokens::{Tokens, tokens_of};
pub use version::{Version, written_version};
pub use width::{integer_type, maybe_type};
