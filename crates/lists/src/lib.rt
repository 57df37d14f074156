//! Lists whose contracts speak of the sequence of items alone: no clause tells their capacity, or where they lie in
//! memory.
#![tactic(auto)]

mod list;
mod short_list;

pub use list::{List, Text};
pub use short_list::ShortList;
