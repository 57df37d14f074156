//! Faults of texts of modules, and the viable prefixes of the grammar: the lists of tokens with which some text of it
//! begins.
//!
//! The definitions stand in `specs/`: `Fits` says which tokens are a viable prefix, `Misfits` why a token does not fit
//! behind one, `Calls` which faults there are in calls of intrinsics, and `Laws` what holds. It has a law and no code.
#![tactic(auto)]

mod laws;

pub use laws::faults_are_where_texts_do_not_fit;
