//! What is known of a bit, and of gates over such bits.
ghost use Rattle.std.specs.Prelude.{◌≡◌};
ghost use Rattle.circuits.specs.Kleene.{certain, known_agreed, known_and, known_mux, known_not, known_or, known_xor};

/// What is known of a bit. A gate's is found by Kleene's tables: it is known where no value of the operands that are
/// unknown changes it.
#[derive(Clone, Copy, PartialEq, Eq, Debug)]
pub enum KnownBit {
    /// It is 0.
    Zero,
    /// It is 1.
    One,
    /// It may be either.
    Unknown,
}

impl KnownBit {
    /// Of a bit that is 1 where this holds, and else 0.
    pub fn certain(holds: bool) -> KnownBit
        ensures { result ≡ certain holds }
    {
        if holds { KnownBit::One } else { KnownBit::Zero }
    }

    /// Of the opposite of the bit.
    pub fn not(self) -> KnownBit
        ensures { result ≡ known_not self }
    {
        match self {
            KnownBit::Zero => KnownBit::One,
            KnownBit::One => KnownBit::Zero,
            KnownBit::Unknown => KnownBit::Unknown,
        }
    }

    /// Of whether both bits are 1.
    pub fn and(self, other: KnownBit) -> KnownBit
        ensures { result ≡ known_and self other }
    {
        match (self, other) {
            (KnownBit::Zero, _) => KnownBit::Zero,
            (KnownBit::One, _) => other,
            (KnownBit::Unknown, KnownBit::Zero) => KnownBit::Zero,
            (KnownBit::Unknown, KnownBit::One | KnownBit::Unknown) => KnownBit::Unknown,
        }
    }

    /// Of whether either bit is 1, or both are.
    pub fn or(self, other: KnownBit) -> KnownBit
        ensures { result ≡ known_or self other }
    {
        match (self, other) {
            (KnownBit::Zero, _) => other,
            (KnownBit::One, _) => KnownBit::One,
            (KnownBit::Unknown, KnownBit::One) => KnownBit::One,
            (KnownBit::Unknown, KnownBit::Zero | KnownBit::Unknown) => KnownBit::Unknown,
        }
    }

    /// Of whether one bit is 1, and not both are.
    pub fn xor(self, other: KnownBit) -> KnownBit
        ensures { result ≡ known_xor self other }
    {
        match self {
            KnownBit::Zero => other,
            KnownBit::One => other.not(),
            KnownBit::Unknown => KnownBit::Unknown,
        }
    }

    /// Of the bit `yes` where this one is 1, and of `no` where it is 0.
    pub fn mux(self, yes: KnownBit, no: KnownBit) -> KnownBit
        ensures { result ≡ known_mux self yes no }
    {
        match self {
            KnownBit::Zero => no,
            KnownBit::One => yes,
            KnownBit::Unknown => yes.agreed(no),
        }
    }

    /// What both say, and nothing where they differ.
    pub fn agreed(self, other: KnownBit) -> KnownBit
        ensures { result ≡ known_agreed self other }
    {
        match (self, other) {
            (KnownBit::Zero, KnownBit::Zero) => KnownBit::Zero,
            (KnownBit::One, KnownBit::One) => KnownBit::One,
            (KnownBit::Zero, KnownBit::One | KnownBit::Unknown) => KnownBit::Unknown,
            (KnownBit::One, KnownBit::Zero | KnownBit::Unknown) => KnownBit::Unknown,
            (KnownBit::Unknown, _) => KnownBit::Unknown,
        }
    }
}
