//! `abs`, `ctpop`, `ctlz` and `cttz`. (LLVM Language Reference, "Standard C/C++ Library Intrinsics", "Bit Manipulation
//! Intrinsics".)
ghost use Rattle.std.specs.Prelude.{◌≡◌, ◌<◌, Bool, ◌&&◌, List as Seq, length, IfOk};
ghost use Rattle.std.specs.List.{All};
ghost use Rattle.ops.specs.declared.value.Effect.TheVariants.{Gives};
ghost use Rattle.ops.specs.Unary as meaning;
ghost use Rattle.circuits.specs.Circuit.{Adds};
ghost use Rattle.circuits.specs.Gates.{equality_gates};
ghost use Rattle.circuits.specs.Word.{number_of};
ghost use Rattle.blast_value.specs.Effect.{held_value, effect_of, IsOwn, IsOwnEffect};
ghost use Rattle.blast_value.specs.Gates.{intrinsic_gates, unary_gates};

use crate::division::least;
use crate::held::{Blasted, Held};
use crate::known::equals;
use circ_counts::{count_ones, leading_zeros, trailing_zeros};
use circ_muldiv::absolute;
use circuits::{Bits, Circuit, or};
use ops::{Unary, Width};
use std::alloc::{AllocError, Global};

/// The effect of an intrinsic: poison where its operand is, and, if its flag `truth` is set, at the number for which
/// the flag says so.
pub(crate) fn unary_effect<C: Circuit>(
    alloc: Global,
    c: &mut C,
    op: Unary,
    truth: bool,
    width: Width,
    a: &Held<C::Literal>,
) -> Result<Blasted<C::Literal>, AllocError>
    requires width_a { length a.now.bits ≡ width }
    requires own_a { IsOwn (C.has_literal c.old) a.now }
    ensures effect { IfOk result (λ made. (inputs : Seq Bool) → C.admits c.old inputs →
        effect_of (C.value c.new inputs) made
        ≡ Gives (meaning.unary op truth width (held_value (C.value c.old inputs) a.now))) }
    ensures width { IfOk result (λ made. length made.bits ≡ width) }
    ensures own { IfOk result (IsOwnEffect (C.has_literal c.new)) }
    ensures adds { Adds C.State c.old c.new (unary_gates op width) }
{
    let bits = at_number(alloc, c, op, &a.bits)?;
    let excluded = is_poison(alloc, c, op, truth, width, &a.bits)?;
    let poison = or(alloc, c, a.poison, excluded)?;
    Ok(Blasted {
        bits,
        poison,
        undefined: c.zero(),
    })
}

/// The word of the result at a number, whatever the flag is.
fn at_number<C: Circuit>(
    alloc: Global,
    c: &mut C,
    op: Unary,
    a: &Bits<C::Literal>,
) -> Result<Bits<C::Literal>, AllocError>
    requires width { 0 < length a.now }
    requires own { All (C.has_literal c.old) a.now }
    ensures own { IfOk result (All (C.has_literal c.new)) }
    ensures width { IfOk result (λ word. length word ≡ length a.now) }
    ensures number { IfOk result (λ word. (inputs : Seq Bool) → C.admits c.old inputs →
        number_of (C.value c.new inputs) word
        ≡ meaning.at_number op (length a.now) (number_of (C.value c.old inputs) a.now)) }
    ensures adds { Adds C.State c.old c.new (intrinsic_gates op (length a.now)) }
{
    match op {
        Unary::Abs => absolute(alloc, c, a),
        Unary::CtPop => count_ones(alloc, c, a),
        Unary::CtLz => leading_zeros(alloc, c, a),
        Unary::CtTz => trailing_zeros(alloc, c, a),
    }
}

/// Whether the flag `truth` makes the result at a number poison.
fn is_poison<C: Circuit>(
    alloc: Global,
    c: &mut C,
    op: Unary,
    truth: bool,
    width: Width,
    a: &Bits<C::Literal>,
) -> Result<C::Literal, AllocError>
    requires width_a { length a.now ≡ width }
    requires own_a { All (C.has_literal c.old) a.now }
    ensures own { IfOk result (λ made. C.has_literal c.new made) }
    ensures value { IfOk result (λ made. (inputs : Seq Bool) → C.admits c.old inputs →
        C.value c.new inputs made
        ≡ (truth && meaning.poison_where_true op width (number_of (C.value c.old inputs) a.now))) }
    ensures adds { Adds C.State c.old c.new (equality_gates (length a.now)) }
{
    if !truth {
        return Ok(c.zero());
    }
    match op {
        Unary::Abs => equals(alloc, c, a, least(width)),
        Unary::CtPop => Ok(c.zero()),
        Unary::CtLz | Unary::CtTz => equals(alloc, c, a, 0),
    }
}
