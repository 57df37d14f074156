//! The instructions and intrinsics whose operands have one type, and the flags that instructions may have.

ghost use Rattle.std.specs.Prelude.{◌≡◌, ◌↔◌, IsTrue};
ghost use Rattle.ops.specs.Flags.{AreWithin, FlagsFit, common, flags_of, icmp_flags};
ghost use Rattle.ops.specs.Intrinsics.{is_intrinsic};
ghost use Rattle.ops.specs.Truths.{TruthFits, has_truth};

/// The instructions and intrinsics with two operands of one type, and a result of that type. (LLVM Language Reference,
/// "Binary Operations", "Bitwise Binary Operations" and "Standard C/C++ Library Intrinsics".)
#[derive(Clone, Copy, PartialEq, Eq, Debug)]
pub enum Opcode {
    Add,
    Sub,
    Mul,
    UDiv,
    SDiv,
    URem,
    SRem,
    Shl,
    LShr,
    AShr,
    And,
    Or,
    Xor,
    UMin,
    UMax,
    SMin,
    SMax,
}

impl Opcode {
    /// The flags that the instruction may be written with.
    pub fn flags(self) -> Flags
        ensures { result ≡ flags_of self }
    {
        match self {
            Opcode::Add | Opcode::Sub | Opcode::Mul | Opcode::Shl => Flags::WRAP,
            Opcode::UDiv | Opcode::SDiv | Opcode::LShr | Opcode::AShr => Flags::EXACT,
            Opcode::Or => Flags::DISJOINT,
            Opcode::URem
            | Opcode::SRem
            | Opcode::And
            | Opcode::Xor
            | Opcode::UMin
            | Opcode::UMax
            | Opcode::SMin
            | Opcode::SMax => Flags::NONE,
        }
    }

    /// Whether it is an intrinsic, which modules call, and no instruction with an opcode of its own.
    pub fn is_intrinsic(self) -> bool
        ensures { result ≡ is_intrinsic self }
    {
        match self {
            Opcode::UMin | Opcode::UMax | Opcode::SMin | Opcode::SMax => true,
            Opcode::Add
            | Opcode::Sub
            | Opcode::Mul
            | Opcode::UDiv
            | Opcode::SDiv
            | Opcode::URem
            | Opcode::SRem
            | Opcode::Shl
            | Opcode::LShr
            | Opcode::AShr
            | Opcode::And
            | Opcode::Or
            | Opcode::Xor => false,
        }
    }

    /// Whether the instruction may be written with these flags.
    pub fn takes(self, flags: Flags) -> bool
        ensures { IsTrue result ↔ FlagsFit self flags }
    {
        flags.are_within(self.flags())
    }
}

/// The integer intrinsics with one operand, whose result has the operand's type. (LLVM Language Reference, "Standard
/// C/C++ Library Intrinsics", "Bit Manipulation Intrinsics".)
#[derive(Clone, Copy, PartialEq, Eq, Debug)]
pub enum Unary {
    /// The absolute value. Where its truth value `is_int_min_poison` is true, the least number gives poison, and else
    /// itself.
    Abs,
    /// How many bits are 1. It has no truth value.
    CtPop,
    /// How many bits are 0 above the highest 1. At 0 that is the width, or poison where its truth value
    /// `is_zero_poison` is true.
    CtLz,
    /// How many bits are 0 below the lowest 1. At 0 that is the width, or poison where its truth value `is_zero_poison`
    /// is true.
    CtTz,
}

impl Unary {
    /// Whether the intrinsic has a truth value, an argument of type `i1`, beside its operand.
    pub fn has_truth(self) -> bool
        ensures { result ≡ has_truth self }
    {
        match self {
            Unary::Abs | Unary::CtLz | Unary::CtTz => true,
            Unary::CtPop => false,
        }
    }

    /// Whether the intrinsic may have this truth value; for one that takes none, it is false.
    pub fn takes(self, truth: bool) -> bool
        ensures { IsTrue result ↔ TruthFits self truth }
    {
        truth & self.has_truth() == truth
    }
}

/// The flags that an instruction is written with: promises, of which a broken one makes the result poison.
#[derive(Clone, Copy, PartialEq, Eq, Debug, Default)]
pub struct Flags {
    /// No unsigned wrap: the result over unsigned numbers fits the type.
    pub nuw: bool,
    /// No signed wrap: the result over signed numbers fits the type.
    pub nsw: bool,
    /// No remainder is left by a division, and no bit that is set is lost by a shift to the right.
    pub exact: bool,
    /// The number that is widened is not negative.
    pub nneg: bool,
    /// No bit is set in both operands of an `or`.
    pub disjoint: bool,
    /// The operands of a comparison are both negative, or neither is.
    pub samesign: bool,
}

impl Flags {
    /// No flag.
    pub const NONE: Flags = Flags {
        nuw: false,
        nsw: false,
        exact: false,
        nneg: false,
        disjoint: false,
        samesign: false,
    };

    /// The flags that rule out a wrap.
    pub const WRAP: Flags = Flags {
        nuw: true,
        nsw: true,
        ..Flags::NONE
    };

    /// The flag that rules out a remainder.
    pub const EXACT: Flags = Flags {
        exact: true,
        ..Flags::NONE
    };

    /// The flag that rules out a negative operand.
    pub const NNEG: Flags = Flags {
        nneg: true,
        ..Flags::NONE
    };

    /// The flag that rules out a bit that both operands have.
    pub const DISJOINT: Flags = Flags {
        disjoint: true,
        ..Flags::NONE
    };

    /// The flag that rules out operands of different signs.
    pub const SAMESIGN: Flags = Flags {
        samesign: true,
        ..Flags::NONE
    };

    /// The flags of an `icmp` that is written with `samesign`, or without.
    pub fn of_icmp(samesign: bool) -> Flags
        ensures { result ≡ icmp_flags samesign }
    {
        Flags {
            samesign,
            ..Flags::NONE
        }
    }

    /// Whether `others` has each of these flags.
    pub fn are_within(self, others: Flags) -> bool
        ensures { IsTrue result ↔ AreWithin self others }
    {
        self.common(others) == self
    }

    /// The flags that stand in both sets.
    fn common(self, others: Flags) -> Flags
        ensures { result ≡ common self others }
    {
        Flags {
            nuw: self.nuw & others.nuw,
            nsw: self.nsw & others.nsw,
            exact: self.exact & others.exact,
            nneg: self.nneg & others.nneg,
            disjoint: self.disjoint & others.disjoint,
            samesign: self.samesign & others.samesign,
        }
    }
}
