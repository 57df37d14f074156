//! What members of a precondition say of the bits of registers, in literals.
ghost use Rattle.std.specs.Prelude.{◌≡◌, ◌+◌, Bool, ◌||◌, ◌&&◌, List as Seq, length, map, IfOk};
ghost use Rattle.std.specs.List.{All};
ghost use Rattle.circuits.specs.Circuit.{Adds};
ghost use Rattle.circuits.specs.Gates.{any_gates};
ghost use Rattle.circuits.specs.Word.{number_of};
ghost use Rattle.rule_core.specs.Facts.{has_no_bit_of, is_not_zero, fact_holds, facts_hold};
ghost use Rattle.blast_value.specs.Effect.{held_value, IsOwn};
ghost use Rattle.blast_value.specs.Gates.{sharing_gates};
ghost use Rattle.blast_term.specs.Gates.{fact_gates, facts_gates};
ghost use Rattle.blast_term.specs.Scope.{ScopeIsOwn, seen};
ghost use Rattle.blast_term.specs.Terms.{FactIsHeld, FactsAreHeld};

use crate::scope::{Scope, at, register_held};
use blast_value::{Held, share_bits};
use circuits::{Bits, Circuit, any, or};
use rule_core::Formula;
use std::alloc::{AllocError, Global};

/// Whether `met` holds, and what the nodes say of the bits that the scope's registers hold. Where `undefined` is true
/// they need say nothing.
pub fn blast_facts<C: Circuit>(
    alloc: Global,
    c: &mut C,
    formulas: &[Formula],
    scope: Scope<C::Literal>,
    undefined: C::Literal,
    met: C::Literal,
) -> Result<C::Literal, AllocError>
    requires ready { FactsAreHeld scope formulas.now }
    requires own { ScopeIsOwn (C.has_literal c.old) scope }
    requires own_undefined { C.has_literal c.old undefined }
    requires own_met { C.has_literal c.old met }
    ensures value { IfOk result (λ kept. (inputs : Seq Bool) → C.admits c.old inputs →
        C.value c.new inputs kept
        ≡ (C.value c.old inputs met && (C.value c.old inputs undefined
        || facts_hold (seen (C.value c.old inputs) scope.entry)
        (map (number_of (C.value c.old inputs)) scope.entry.terms.now) formulas.now))) }
    ensures own { IfOk result (λ kept. C.has_literal c.new kept) }
    ensures adds { Adds C.State c.old c.new
        (facts_gates (map length scope.entry.terms.now) formulas.now) }
{
    let mut kept = met;
    for formula in formulas {
        kept = blast_fact(alloc, c, *formula, scope, undefined, kept)?;
    }
    Ok(kept)
}

/// The same of one node.
fn blast_fact<C: Circuit>(
    alloc: Global,
    c: &mut C,
    formula: Formula,
    scope: Scope<C::Literal>,
    undefined: C::Literal,
    met: C::Literal,
) -> Result<C::Literal, AllocError>
    requires ready { FactIsHeld scope formula }
    requires own { ScopeIsOwn (C.has_literal c.old) scope }
    requires own_undefined { C.has_literal c.old undefined }
    requires own_met { C.has_literal c.old met }
    ensures value { IfOk result (λ kept. (inputs : Seq Bool) → C.admits c.old inputs →
        C.value c.new inputs kept
        ≡ (C.value c.old inputs met && (C.value c.old inputs undefined
        || fact_holds (seen (C.value c.old inputs) scope.entry)
        (map (number_of (C.value c.old inputs)) scope.entry.terms.now) formula))) }
    ensures own { IfOk result (λ kept. C.has_literal c.new kept) }
    ensures adds { Adds C.State c.old c.new
        (fact_gates (map length scope.entry.terms.now) formula) }
{
    match formula {
        Formula::MaskedValueIsZero(register, mask) => {
            let value = register_held(scope, register);
            let holds = blast_masked(alloc, c, value, at(scope.terms, mask))?;
            and_unless(alloc, c, met, undefined, holds)
        }
        Formula::IsKnownNonZero(register) => {
            let holds = blast_non_zero(alloc, c, register_held(scope, register))?;
            and_unless(alloc, c, met, undefined, holds)
        }
        _ => Ok(met),
    }
}

/// Whether `met` holds, and the last literal where `excuse` does not.
fn and_unless<C: Circuit>(
    alloc: Global,
    c: &mut C,
    met: C::Literal,
    excuse: C::Literal,
    holds: C::Literal,
) -> Result<C::Literal, AllocError>
    requires own_met { C.has_literal c.old met }
    requires own_excuse { C.has_literal c.old excuse }
    requires own_holds { C.has_literal c.old holds }
    ensures value { IfOk result (λ both. (inputs : Seq Bool) → C.admits c.old inputs →
        C.value c.new inputs both
        ≡ (C.value c.old inputs met && (C.value c.old inputs excuse || C.value c.old inputs holds))) }
    ensures own { IfOk result (λ both. C.has_literal c.new both) }
    ensures adds { Adds C.State c.old c.new 2 }
{
    let excused = or(alloc, c, excuse, holds)?;
    c.and(alloc, met, excused)
}

/// Whether the value has no bit that is set in the mask.
fn blast_masked<C: Circuit>(
    alloc: Global,
    c: &mut C,
    value: &Held<C::Literal>,
    mask: &Bits<C::Literal>,
) -> Result<C::Literal, AllocError>
    requires same_width { length mask.now ≡ length value.now.bits }
    requires own { IsOwn (C.has_literal c.old) value.now }
    requires own_mask { All (C.has_literal c.old) mask.now }
    ensures value { IfOk result (λ made. (inputs : Seq Bool) → C.admits c.old inputs →
        C.value c.new inputs made
        ≡ has_no_bit_of (number_of (C.value c.old inputs) mask.now) (held_value (C.value c.old inputs) value.now)) }
    ensures own { IfOk result (λ made. C.has_literal c.new made) }
    ensures adds { Adds C.State c.old c.new (sharing_gates (length mask.now) + 1) }
{
    let share = share_bits(alloc, c, &value.bits, mask)?;
    or(alloc, c, value.poison, c.not(share))
}

/// Whether the value isn't 0.
fn blast_non_zero<C: Circuit>(
    alloc: Global,
    c: &mut C,
    value: &Held<C::Literal>,
) -> Result<C::Literal, AllocError>
    requires own { IsOwn (C.has_literal c.old) value.now }
    ensures value { IfOk result (λ made. (inputs : Seq Bool) → C.admits c.old inputs →
        C.value c.new inputs made ≡ is_not_zero (held_value (C.value c.old inputs) value.now)) }
    ensures own { IfOk result (λ made. C.has_literal c.new made) }
    ensures adds { Adds C.State c.old c.new (any_gates (length value.now.bits) + 1) }
{
    let some = any(alloc, c, value.bits.as_slice())?;
    or(alloc, c, value.poison, some)
}
