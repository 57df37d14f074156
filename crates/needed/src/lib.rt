//! Dead code elimination, here called cleaning: of a function's instructions those alone are kept whose results are
//! needed, that is, live.
//!
//! The definitions stand in `specs/`: `Needed` says which registers are live, `KeptFunction` what is left of a function
//! where only some instructions are kept, `Cleaned` that the kept ones are the live ones, and `Laws` that what is left
//! refines what was there and meets the same checks. `Operands`, `InstNumbers`, `NeededMarks` and `KeptTables` serve
//! private functions alone.
#![tactic(auto)]

mod cleaning;
mod kept;
mod laws;
mod moving;
mod numbers;
mod search;
mod unneeded;

pub use cleaning::clean;
pub use laws::{
    every_cleaned_function_refines_the_old, every_cleaned_module_refines_the_old,
    every_cleaned_number_was_there,
};
pub use unneeded::unneeded_insts;
