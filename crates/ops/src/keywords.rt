//! The keywords of instructions, which rules and modules of LLVM IR share. (LLVM Language Reference, "Instruction
//! Reference".)

mod flag;
mod instruction;
mod predicate;
mod spelling;

pub use flag::{EVERY_FLAG, Flag, flag_name, flag_of, has_flag, with_flag};
pub use instruction::{cast_name, opcode_name, unary_name};
pub use predicate::predicate_of;
pub use spelling::is;
