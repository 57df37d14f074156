//! The values that registers of LLVM IR hold, and what single instructions do with them.
#![tactic(auto)]

mod arithmetic;
mod bitwise;
mod comparison;
mod conversion;
mod counts;
mod division;
mod extremes;
mod instruction;
mod integer;
pub mod keywords;
mod laws;
mod one_operand;
mod opcode;
mod shift;
mod value;
mod width;
mod word;

pub use comparison::{Pred, choose, compare};
pub use conversion::{Cast, convert};
pub use instruction::evaluate;
pub use integer::{minus_one, residue};
pub use laws::{
    allowing_is_reflexive, allowing_is_transitive, instructions_are_monotone,
    instructions_keep_widths, undefined_is_of_divisions,
};
pub use one_operand::unary;
pub use opcode::{Flags, Opcode, Unary};
pub use value::{Effect, Value};
pub use width::Width;
pub use word::Word;
