//! Branch folding: a branch or a switch on a number becomes a jump, and a block to which no way leads any more is
//! emptied.
//!
//! The definitions stand in `specs/`: `Choices` says where branches and switches on numbers go, `Folded` what a
//! function is once they go there, which entries of its phis stay and which of its blocks are emptied, and `Laws` that
//! the folded function may stand in the place of the old one, meets the same checks, and stays as it is where it is
//! folded again, and where it is cleaned. `Marks` and `Walks` serve the private functions.
#![tactic(auto)]

mod choice;
mod entries;
mod folding;
mod laws;
mod plan;
mod walk;

pub use folding::fold;
pub use laws::{
    cleaning_keeps_functions_folded, every_folded_function_refines_the_old,
    every_folded_number_was_there, folding_twice_is_folding_once,
};
