//! Tests of the whole program: how commands end with files and sinks in memory, and what they write; and with files and
//! sinks that never fail.
#![tactic(auto)]

mod sure;
#[cfg(test)]
mod tests;

pub use sure::sure_status;
