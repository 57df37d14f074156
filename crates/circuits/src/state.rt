//! What is known of a circuit at one time.
ghost use Rattle.std.specs.Prelude.{ℕ, Bool, List as Seq};
ghost use Rattle.circuits.specs.declared.known_bit.KnownBit.{KnownBit};

/// The state of a circuit, of which its laws speak: which literals are its own, and what they stand for.
pub trait State {
    /// Names an input or a gate, or the negation of one, or a constant.
    type Literal: Copy;

    /// Which literals are the circuit's own.
    ghost has_literal: { Self → Self.Literal → Type 0 };

    /// Under which lists of inputs its literals have a value, so that none is unknown.
    ghost admits: { Self → Seq Bool → Type 0 };

    /// The value of a literal under a list of inputs.
    ghost value: { Self → Seq Bool → Self.Literal → Bool };

    /// What is known of a literal's value under a list of inputs.
    ghost known: { Self → Seq Bool → Self.Literal → KnownBit };

    /// How many inputs were made.
    ghost inputs_made: { Self → ℕ };

    /// How many gates were made.
    ghost gates_made: { Self → ℕ };
}
