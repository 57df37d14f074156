//! What the plain strategy, which `strategy_core` defines, gives for a module.
//!
//! The definitions in `specs/` serve the private functions: `Asking` says when verdicts may be asked for, `Searches`
//! and `Entries` what becomes of a function and of the entries of a module, `Frontiers` what is known of a draft and
//! its worklist between steps, and `Folding` which rewrites leave nothing to fold.
#![tactic(auto)]

mod folding;
mod frontier;
mod module;
mod size;
mod steps;

pub use asked_verdicts::StoredLogs;
pub use module::optimise;
pub use steps::Options;
