//! Multiplication, division and overflow of words of a circuit's literals, written once for every `Circuit`.
//!
//! The only error of a call is want of memory. A call that is refused for that may leave gates, no more than it may
//! add; the older literals keep their values, and it makes no input.
#![tactic(auto)]

mod division;
mod joining;
mod overflow;
mod product;
mod row;
mod signed_division;
mod signs;

pub use division::{Divided, divide_unsigned};
pub use overflow::{overflow_add, overflow_mul, overflow_sub};
pub use product::multiply;
pub use signed_division::divide_signed;
pub use signs::{absolute, sign};
