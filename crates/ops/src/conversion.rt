//! Casts between integer types. (LLVM Language Reference, "Conversion Operations".)

ghost use Rattle.std.specs.Prelude.{◌≡◌, ◌<◌, ◌^◌, ◌↔◌, IsTrue};
ghost use Rattle.ops.specs.Conversion.{CastFits, breaks_flags, conversion, converted};
ghost use Rattle.ops.specs.Flags.{CastFlagsFit, flags_of_cast};
ghost use Rattle.ops.specs.Value.{HasWidth, IsValueOf};

use crate::integer::{fits_signed, negative, residue, signed};
use crate::opcode::Flags;
use crate::value::Value;
use crate::width::Width;
use crate::word::Word;

/// The casts.
#[derive(Clone, Copy, PartialEq, Eq, Debug)]
pub enum Cast {
    /// To a smaller width: the highest bits are cut off.
    Trunc,
    /// To a larger width: zeros come in above.
    ZExt,
    /// To a larger width: copies of the highest bit come in above.
    SExt,
}

impl Cast {
    /// The flags that the cast may be written with.
    pub fn flags(self) -> Flags
        ensures { result ≡ flags_of_cast self }
    {
        match self {
            Cast::Trunc => Flags::WRAP,
            Cast::ZExt => Flags::NNEG,
            Cast::SExt => Flags::NONE,
        }
    }

    /// Whether the cast may be written with these flags.
    pub fn takes(self, flags: Flags) -> bool
        ensures { IsTrue result ↔ CastFlagsFit self flags }
    {
        flags.are_within(self.flags())
    }
}

/// What a cast of the operand, of width `from`, to the width `to` gives. Flags that the cast does not take mean
/// nothing.
#[tactic(auto, unfolding(crate::specs::Conversion::conversion))]
pub fn convert(cast: Cast, flags: Flags, from: Width, to: Width, a: Value) -> Value
    requires operand { HasWidth a from }
    requires widths { CastFits cast from to }
    ensures value { result ≡ conversion cast flags from to a }
    ensures width { IsValueOf to result }
{
    match a {
        Value::Bits(a) if !breaks_flags(cast, flags, from, to, a.number()) => {
            Value::Bits(converted(cast, from, to, a.number()))
        }
        _ => Value::Poison,
    }
}

/// Whether the number breaks a flag of the cast.
#[tactic(auto, unfolding(crate::specs::Conversion::breaks_flags))]
fn breaks_flags(cast: Cast, flags: Flags, from: Width, to: Width, number: u64) -> bool
    requires { number < 2 ^ from }
    ensures { result ≡ breaks_flags cast flags from to number }
{
    match cast {
        Cast::Trunc => {
            let wraps = flags.nuw && i128::from(number) >= to.modulus();
            let wraps_signed = flags.nsw && !fits_signed(to, signed(from, number));
            wraps || wraps_signed
        }
        Cast::ZExt => flags.nneg && negative(from, number),
        Cast::SExt => false,
    }
}

/// The cast of a number.
#[tactic(auto, unfolding(crate::specs::Conversion::converted))]
fn converted(cast: Cast, from: Width, to: Width, number: u64) -> Word
    requires number { number < 2 ^ from }
    requires widths { CastFits cast from to }
    ensures { result ≡ record { width = to; number = converted cast from to number } }
{
    match cast {
        Cast::Trunc => Word::wrapped(to, number),
        Cast::ZExt => Word::fitting(to, number),
        Cast::SExt => Word::fitting(to, residue(to, signed(from, number))),
    }
}
