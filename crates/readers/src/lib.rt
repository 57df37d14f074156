//! Use lists and counts of uses, kept exact or complete while a function changes at single places, and operands that
//! are replaced in place.
#![tactic(auto)]

mod substituting;
mod uses;

pub use substituting::{Substitute, substitute_end, substitute_inst};
pub use uses::{
    Readers, count_reads, forget_reads, is, list_reads, push_reads, readers_among, reads,
};
