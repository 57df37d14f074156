//! Tests on texts of modules and of rules: which are refused and why, what dead code elimination leaves and how it is
//! printed, how functions run, which module a number generates, how rules are decided, where they match and what they
//! rewrite.
#![tactic(auto)]

#[cfg(test)]
mod modules;
#[cfg(test)]
mod rewriting;
#[cfg(test)]
mod rules;
#[cfg(test)]
mod unfit;
