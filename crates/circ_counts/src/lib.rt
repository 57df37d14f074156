//! Counts of the bits of words of a circuit's literals, written once for every `Circuit`.
//!
//! The only error of a call is want of memory. A call that is refused for that may leave gates, no more than it may
//! add; the older literals keep their values, and it makes no input.
#![tactic(auto)]

mod clear_run;
mod ones;
mod zeros;

pub use ones::count_ones;
pub use zeros::{leading_zeros, trailing_zeros};
