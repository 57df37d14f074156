//! The outcomes of runs.

use ops::Value;

/// What a run of a function that may enter at most so many blocks has come to.
#[derive(Clone, Copy, PartialEq, Eq)]
pub enum Outcome {
    /// It returned a value.
    Return(Value),
    /// Its behaviour is undefined.
    Undefined,
    /// It is still running, and would enter this block next.
    Running(u32),
}
