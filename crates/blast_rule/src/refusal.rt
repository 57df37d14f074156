//! Whether one effect doesn't allow another.
ghost use Rattle.std.specs.Prelude.{◌≡◌, ◌+◌, ◌↔◌, IsTrue, Bool, List as Seq, length, IfOk};
ghost use Rattle.ops.specs.Value.{AllowsEffect};
ghost use Rattle.circuits.specs.Circuit.{Adds};
ghost use Rattle.blast_value.specs.Effect.{effect_of, IsOwnEffect};
ghost use Rattle.blast_rule.specs.Gates.{refusal_gates};

use blast_value::Blasted;
use circuits::{Circuit, equal, or};
use std::alloc::{AllocError, Global};

/// Whether the literal is true and the source's effect doesn't allow the target's.
pub(crate) fn refusal_where<C: Circuit>(
    alloc: Global,
    c: &mut C,
    met: C::Literal,
    source: &Blasted<C::Literal>,
    target: &Blasted<C::Literal>,
) -> Result<C::Literal, AllocError>
    requires same_width { length target.now.bits ≡ length source.now.bits }
    requires own_met { C.has_literal c.old met }
    requires own_source { IsOwnEffect (C.has_literal c.old) source.now }
    requires own_target { IsOwnEffect (C.has_literal c.old) target.now }
    ensures value { IfOk result (λ bad. (inputs : Seq Bool) → C.admits c.old inputs →
        IsTrue (C.value c.new inputs bad)
        ↔ (IsTrue (C.value c.old inputs met)
        × ¬ AllowsEffect (effect_of (C.value c.old inputs) source.now) (effect_of (C.value c.old inputs) target.now))) }
    ensures own { IfOk result (λ bad. C.has_literal c.new bad) }
    ensures adds { Adds C.State c.old c.new
        (refusal_gates (length source.now.bits) + 1) }
{
    let refused = refusal(alloc, c, source, target)?;
    c.and(alloc, met, refused)
}

/// Whether the source's effect doesn't allow the target's: the source has no undefined behaviour, and the target has,
/// or the source isn't poison and the target is poison or another number.
fn refusal<C: Circuit>(
    alloc: Global,
    c: &mut C,
    source: &Blasted<C::Literal>,
    target: &Blasted<C::Literal>,
) -> Result<C::Literal, AllocError>
    requires same_width { length target.now.bits ≡ length source.now.bits }
    requires own_source { IsOwnEffect (C.has_literal c.old) source.now }
    requires own_target { IsOwnEffect (C.has_literal c.old) target.now }
    ensures value { IfOk result (λ refused. (inputs : Seq Bool) → C.admits c.old inputs →
        IsTrue (C.value c.new inputs refused)
        ↔ ¬ AllowsEffect (effect_of (C.value c.old inputs) source.now) (effect_of (C.value c.old inputs) target.now)) }
    ensures own { IfOk result (λ refused. C.has_literal c.new refused) }
    ensures adds { Adds C.State c.old c.new
        (refusal_gates (length source.now.bits)) }
{
    let same = equal(alloc, c, &source.bits, &target.bits)?;
    let differs = or(alloc, c, target.poison, c.not(same))?;
    let other = c.and(alloc, c.not(source.poison), differs)?;
    let worse = or(alloc, c, target.undefined, other)?;
    c.and(alloc, c.not(source.undefined), worse)
}
