//! The laws of known bits, the contract of a function that does nothing.
ghost use Rattle.known_bits.specs.Laws.{NumbersHaveKnownBits, OperandsHaveKnownBits, ResultsHaveKnownBits};

/// Whenever a run comes to a place, an operand there gives poison, or a number with the bits that are known of it at
/// that place. What an instruction gives on such operands has the bits that are known of its result, whatever flags it
/// has. Such a number has no 1 in common with `zeros` of [`Known`](crate::Known), and each 1 of `ones`.
pub fn operands_have_known_bits()
    ensures operands { OperandsHaveKnownBits }
    ensures results { ResultsHaveKnownBits }
    ensures numbers { NumbersHaveKnownBits }
{}
