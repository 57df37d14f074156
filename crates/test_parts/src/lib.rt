//! Tests of the crates that stand on no text of rules or modules: lists, graphs, files, tokens, instructions, command
//! lines, circuits of words together with what decides them, and the texts of proofs.
#![tactic(auto)]

#[cfg(test)]
mod tests;
