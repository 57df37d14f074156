//! The symbol table: what the names and numbers of a function as written refer to.

mod definition;
mod key;
mod series;
mod table;

pub(crate) use definition::{definitions, result_width};
pub(crate) use series::{keys, misnumbered};
pub(crate) use table::{Names, block, names, register};
