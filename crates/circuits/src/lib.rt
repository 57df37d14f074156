//! Circuits of gates, and arithmetic on words of their literals, written once for every lawful circuit.
//!
//! Sums and differences are written for all [`Gates`], over bits of which some are unknown too.
//!
//! The only error of a call is want of memory. A call of a [`Circuit`] that is refused leaves the circuit as it was. A
//! call on words that is refused may leave gates, no more than it may add; the older literals keep their values, and it
//! makes no input.
#![tactic(auto)]

mod adder;
mod arithmetic;
mod circuit;
mod compare;
mod disjunction;
mod eval;
mod extreme;
mod gates;
mod known;
mod known_bit;
mod resize;
mod shift;
mod state;
mod word;

pub use adder::{Sum, add_with_carry};
pub use arithmetic::{add, neg, sub};
pub use circuit::Circuit;
pub use compare::{equal, less_signed, less_unsigned};
pub use disjunction::{any, or};
pub use eval::EvalCircuit;
pub use extreme::{maximum, minimum};
pub use gates::Gates;
pub use known::KnownCircuit;
pub use known_bit::KnownBit;
pub use resize::{cut, extend};
pub use shift::{Direction, moved_by, shift_left, shift_right};
pub use state::State;
pub use word::{Bits, inverted, repeated, select};
