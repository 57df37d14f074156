//! `umin`, `umax`, `smin` and `smax`. (LLVM Language Reference, "Standard C/C++ Library Intrinsics".)
ghost use Rattle.std.specs.Prelude.{◌≡◌, ◌<◌, Bool, List as Seq, length, IfOk};
ghost use Rattle.std.specs.List.{All};
ghost use Rattle.ops.specs.declared.value.Effect.TheVariants.{Gives};
ghost use Rattle.ops.specs.Instruction.{on_numbers};
ghost use Rattle.circuits.specs.Circuit.{Adds};
ghost use Rattle.circuits.specs.Gates.{extreme_gates};
ghost use Rattle.circuits.specs.Word.{number_of};
ghost use Rattle.blast_value.specs.Effect.{held_value, IsOwn};
ghost use Rattle.blast_value.specs.Families.{extreme, extreme_opcode};

use crate::held::Held;
use circuits::{Bits, Circuit, maximum, minimum};
use ops::{Flags, Width};
use std::alloc::{AllocError, Global};

/// The intrinsics that give the smaller or the larger of two numbers.
#[derive(Clone, Copy)]
pub(crate) enum Extreme {
    UMin,
    UMax,
    SMin,
    SMax,
}

/// The smaller or the larger of two numbers. It has no flags.
pub(crate) fn one_of_two<C: Circuit>(
    alloc: Global,
    c: &mut C,
    op: Extreme,
    flags: Flags,
    width: Width,
    a: &Bits<C::Literal>,
    b: &Bits<C::Literal>,
) -> Result<Held<C::Literal>, AllocError>
    requires width_a { length a.now ≡ width }
    requires width_b { length b.now ≡ width }
    requires own_a { All (C.has_literal c.old) a.now }
    requires own_b { All (C.has_literal c.old) b.now }
    ensures value { IfOk result (λ made. (inputs : Seq Bool) → C.admits c.old inputs →
        Gives (held_value (C.value c.new inputs) made)
        ≡ on_numbers (extreme_opcode op) flags width
        (number_of (C.value c.old inputs) a.now) (number_of (C.value c.old inputs) b.now)) }
    ensures width { IfOk result (λ made. length made.bits ≡ width) }
    ensures own { IfOk result (IsOwn (C.has_literal c.new)) }
    ensures adds { Adds C.State c.old c.new (extreme_gates width) }
{
    let bits = chosen(alloc, c, op, a, b)?;
    Ok(Held {
        bits,
        poison: c.zero(),
    })
}

/// The word of the smaller or the larger number.
fn chosen<C: Circuit>(
    alloc: Global,
    c: &mut C,
    op: Extreme,
    a: &Bits<C::Literal>,
    b: &Bits<C::Literal>,
) -> Result<Bits<C::Literal>, AllocError>
    requires width { 0 < length a.now }
    requires same_width { length b.now ≡ length a.now }
    requires own_a { All (C.has_literal c.old) a.now }
    requires own_b { All (C.has_literal c.old) b.now }
    ensures own { IfOk result (All (C.has_literal c.new)) }
    ensures width { IfOk result (λ word. length word ≡ length a.now) }
    ensures number { IfOk result (λ word. (inputs : Seq Bool) → C.admits c.old inputs →
        number_of (C.value c.new inputs) word
        ≡ extreme op (length a.now) (number_of (C.value c.old inputs) a.now) (number_of (C.value c.old inputs) b.now)) }
    ensures adds { Adds C.State c.old c.new (extreme_gates (length a.now)) }
{
    match op {
        Extreme::UMin => minimum(alloc, c, a, b, false),
        Extreme::UMax => maximum(alloc, c, a, b, false),
        Extreme::SMin => minimum(alloc, c, a, b, true),
        Extreme::SMax => maximum(alloc, c, a, b, true),
    }
}
