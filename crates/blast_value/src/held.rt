//! Operands and effects as literals.

use circuits::Bits;

/// An operand as literals: poison where its poison bit is true, and else the number of its bits.
#[derive(Drop)]
pub struct Held<L> {
    /// The number, at a width of as many bits as there are. Where the operand is poison, they may be anything.
    pub bits: Bits<L>,
    /// The poison bit: whether the operand is poison.
    pub poison: L,
}

/// An effect as literals: undefined behaviour where its undefined bit is true, else poison where its poison bit is, and
/// else the number of its bits.
#[derive(Drop)]
pub struct Blasted<L> {
    /// The number. Where the value is poison or there is undefined behaviour, the bits may be anything.
    pub bits: Bits<L>,
    /// The poison bit: whether the value is poison. Where there is undefined behaviour, it may be anything.
    pub poison: L,
    /// The undefined bit: whether the effect is undefined behaviour.
    pub undefined: L,
}
