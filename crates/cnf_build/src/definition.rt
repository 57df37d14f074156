//! What the variables after the inputs stand for.
use clauses::Lit;

/// The definition of a variable that is no input, by smaller variables.
#[derive(Clone, Copy)]
pub(crate) enum Definition {
    /// The constant that is true.
    One,
    /// The conjunction of two literals.
    And(Lit, Lit),
    /// The xor of two literals.
    Xor(Lit, Lit),
    /// The choice (multiplexer): the second literal where the first is true, and else the third.
    Mux(Lit, Lit, Lit),
}
