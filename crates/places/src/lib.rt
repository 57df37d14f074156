//! Places of instructions: the order of the instructions in a block, sets of places, and worklists that give the first
//! place in order first.
#![tactic(auto)]

mod heap;
mod links;
mod marks;
mod node;
mod order;
mod place;
mod room;
mod worklist;

pub use marks::Marks;
pub use order::Order;
pub use place::{END, Place};
pub use worklist::Worklist;
