//! Texts of modules, and what becomes of them, worked out by hand.

mod assigned;
mod calls;
mod generated;
mod many;
mod refused;
mod runs;
mod tokens;
mod written;
