//! Modules that are generated from a number: input of any size that is the same wherever it is made.
//!
//! The definitions stand in `specs/`: `Draws` says which numbers are drawn, `Generated` which module they make, and
//! `Laws` what holds of it.
#![tactic(auto)]

mod drawn;
mod draws;
mod generation;
mod laws;
mod names;
mod shape;

pub use generation::generate;
pub use laws::{
    generated_functions_have_twenty_instructions, generated_modules_meet_checks,
    generated_numbers_fit,
};
