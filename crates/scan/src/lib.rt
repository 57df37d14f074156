//! Lexing: the tokens of a text from left to right, with their lines, of rule files and of modules of LLVM IR.
#![tactic(auto)]

mod bad_byte;
mod begins;
mod bytes;
mod cursor;
mod front;
mod gap;
mod ir;
mod kept;
mod laws;
mod length;
mod line;
mod name;
mod primary;
mod rule_token;
mod run;
mod span;

pub use bad_byte::BadByte;
pub use cursor::Cursor;
pub use ir::quoted::unescaped;
pub use ir::token::{Token, TokenKind};
pub use laws::{
    every_bracket_is_closed_once, every_place_has_one_rule_token,
    every_place_of_a_module_has_one_token,
};
pub use primary::ends_primary;
pub use rule_token::{RuleKind, RuleToken};
pub use span::Span;
