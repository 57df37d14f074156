//! Rules that are read and then decided.

mod classes;
mod constants;
mod freezes;
mod intrinsics;
mod one_statement;
mod preconditions;
mod refusals;
mod runs;
mod verdicts;
mod versions;
