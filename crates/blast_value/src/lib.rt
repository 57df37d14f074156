//! Bit-blasting: one instruction of LLVM IR as a circuit, with the bits of its result, its poison bit and its undefined
//! bit, written once for every `Circuit`.
//!
//! The only error of a call is want of memory. A call that is refused for that may leave gates, no more than it may
//! add; the older literals keep their values, and it makes no input.
#![tactic(auto)]

mod arithmetic;
mod bitwise;
mod blast;
mod comparison;
mod conversion;
mod division;
mod extreme;
mod gates;
mod held;
mod instruction;
mod known;
mod one_operand;
mod shift;
mod strict;

pub use bitwise::share_bits;
pub use blast::blast_value;
pub use gates::{gates_are_few, gates_of};
pub use held::{Blasted, Held};
pub use instruction::Instruction;
pub use known::{constant, equals};
