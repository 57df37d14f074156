//! The parser of instructions and terminators of LLVM IR: from tokens to syntax trees, or to the first token that does
//! not fit, with its line.
//!
//! It is a recursive descent parser without backtracking: each function reads one production of the grammar and moves
//! behind it. `place` says which tokens are unsupported parts of LLVM IR and which are syntax errors, and `part`
//! repeats a production.
#![tactic(auto)]

mod argument;
mod attachment;
mod call;
mod intrinsic;
mod item;
mod item_word;
mod late_items;
mod laws;
mod op;
mod operand;
mod part;
mod place;
mod terminators;
mod token;
mod word;

pub use attachment::{attachments, tail};
pub use intrinsic::Intrinsic;
pub use item::{items, last_items};
pub use laws::parts_are_read_as_they_are_spelled;
pub use op::insts;
pub use operand::integer_type;
pub use part::{Part, each};
pub use place::{Expected, copied, left_out, misplaced, unexpected};
pub use terminators::terminator;
pub use token::{is_mark, mark};
pub use word::{Ending, Operation, TypeWord, type_of};
