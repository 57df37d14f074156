//! Casts between integer types. (LLVM Language Reference, "Conversion Operations".)
ghost use Rattle.std.specs.Prelude.{◌≡◌, ◌==◌, ◌<◌, Bool, not, ◌&&◌, List as Seq, length, IfOk};
ghost use Rattle.std.specs.List.{All};
ghost use Rattle.ops.specs.declared.value.Effect.TheVariants.{Gives};
ghost use Rattle.ops.specs.Conversion.{CastFits, breaks_flags, conversion, converted};
ghost use Rattle.circuits.specs.Circuit.{Adds};
ghost use Rattle.circuits.specs.Gates.{equality_gates};
ghost use Rattle.circuits.specs.Word.{number_of};
ghost use Rattle.blast_value.specs.Effect.{held_value, effect_of, IsOwn, IsOwnEffect};
ghost use Rattle.blast_value.specs.Families.{extended};
ghost use Rattle.blast_value.specs.Gates.{broken_gates, cast_gates};

use crate::held::{Blasted, Held};
use crate::shift::sign_where;
use circ_muldiv::sign;
use circuits::{Bits, Circuit, cut, equal, extend, or};
use ops::{Cast, Flags, Width};
use std::alloc::{AllocError, Global};

/// The effect of a cast: poison where the operand is, and where the number breaks a flag.
pub(crate) fn convert<C: Circuit>(
    alloc: Global,
    c: &mut C,
    cast: Cast,
    flags: Flags,
    width: Width,
    a: &Held<C::Literal>,
) -> Result<Blasted<C::Literal>, AllocError>
    requires width { 0 < length a.now.bits }
    requires cast { CastFits cast (length a.now.bits) width }
    requires own { IsOwn (C.has_literal c.old) a.now }
    ensures effect { IfOk result (λ made. (inputs : Seq Bool) → C.admits c.old inputs →
        effect_of (C.value c.new inputs) made
        ≡ Gives (conversion cast flags (length a.now.bits) width (held_value (C.value c.old inputs) a.now))) }
    ensures width { IfOk result (λ made. length made.bits ≡ width) }
    ensures own { IfOk result (IsOwnEffect (C.has_literal c.new)) }
    ensures adds { Adds C.State c.old c.new (cast_gates cast (length a.now.bits)) }
{
    let bits = resized(alloc, c, cast, width, &a.bits)?;
    let breaks = breaks_flags(alloc, c, cast, flags, width, &a.bits, &bits)?;
    let poison = or(alloc, c, a.poison, breaks)?;
    Ok(Blasted {
        bits,
        poison,
        undefined: c.zero(),
    })
}

/// Whether the number breaks a flag of the cast; `resized` is what the cast makes of it.
fn breaks_flags<C: Circuit>(
    alloc: Global,
    c: &mut C,
    cast: Cast,
    flags: Flags,
    width: Width,
    a: &Bits<C::Literal>,
    resized: &Bits<C::Literal>,
) -> Result<C::Literal, AllocError>
    requires width { 0 < length a.now }
    requires cast { CastFits cast (length a.now) width }
    requires width_resized { length resized.now ≡ width }
    requires own_a { All (C.has_literal c.old) a.now }
    requires own_resized { All (C.has_literal c.old) resized.now }
    requires number { (inputs : Seq Bool) → C.admits c.old inputs →
        number_of (C.value c.old inputs) resized.now
        ≡ converted cast (length a.now) width (number_of (C.value c.old inputs) a.now) }
    ensures own { IfOk result (λ breaks. C.has_literal c.new breaks) }
    ensures value { IfOk result (λ breaks. (inputs : Seq Bool) → C.admits c.old inputs →
        C.value c.new inputs breaks
        ≡ breaks_flags cast flags (length a.now) width (number_of (C.value c.old inputs) a.now)) }
    ensures adds { Adds C.State c.old c.new (broken_gates cast (length a.now)) }
{
    match cast {
        Cast::Trunc => {
            let wraps = changes(alloc, c, flags.nuw, false, resized, a)?;
            let wraps_signed = changes(alloc, c, flags.nsw, true, resized, a)?;
            or(alloc, c, wraps, wraps_signed)
        }
        Cast::ZExt => Ok(sign_where(c, flags.nneg, a)),
        Cast::SExt => Ok(c.zero()),
    }
}

/// Whether extending a truncated number, unsigned or signed, gives another number than before. Where that isn't asked,
/// since the flag isn't set, it is false.
fn changes<C: Circuit>(
    alloc: Global,
    c: &mut C,
    asked: bool,
    signed: bool,
    cut: &Bits<C::Literal>,
    before: &Bits<C::Literal>,
) -> Result<C::Literal, AllocError>
    requires some { 0 < length cut.now }
    requires narrower { length cut.now < length before.now }
    requires own_cut { All (C.has_literal c.old) cut.now }
    requires own_before { All (C.has_literal c.old) before.now }
    ensures own { IfOk result (λ changes. C.has_literal c.new changes) }
    ensures value { IfOk result (λ changes. (inputs : Seq Bool) → C.admits c.old inputs →
        C.value c.new inputs changes
        ≡ (asked && not (extended signed (length cut.now) (length before.now) (number_of (C.value c.old inputs) cut.now)
        == number_of (C.value c.old inputs) before.now))) }
    ensures adds { Adds C.State c.old c.new (equality_gates (length before.now)) }
{
    if !asked {
        return Ok(c.zero());
    }
    let top = sign_where(c, signed, cut);
    let back = extend(alloc, c, cut, before.len(), top)?;
    let same = equal(alloc, c, &back, before)?;
    Ok(c.not(same))
}

/// The cast of a number.
fn resized<C: Circuit>(
    alloc: Global,
    c: &mut C,
    cast: Cast,
    width: Width,
    a: &Bits<C::Literal>,
) -> Result<Bits<C::Literal>, AllocError>
    requires width { 0 < length a.now }
    requires cast { CastFits cast (length a.now) width }
    requires own { All (C.has_literal c.old) a.now }
    ensures own { IfOk result (All (C.has_literal c.new)) }
    ensures width { IfOk result (λ word. length word ≡ width) }
    ensures number { IfOk result (λ word. (inputs : Seq Bool) → C.admits c.old inputs →
        number_of (C.value c.new inputs) word
        ≡ converted cast (length a.now) width (number_of (C.value c.old inputs) a.now)) }
    ensures same { c.new ≡ c.old }
{
    let to = width.bits() as usize;
    match cast {
        Cast::Trunc => cut(alloc, c, a, to),
        Cast::ZExt => extend(alloc, c, a, to, c.zero()),
        Cast::SExt => extend(alloc, c, a, to, sign(a)),
    }
}
