//! Comparisons and choices. (LLVM Language Reference, "Other Operations".)
ghost use Rattle.std.specs.Prelude.{◌≡◌, ◌+◌, ◌<◌, Bool, not, ◌&&◌, if◌then◌else◌, List as Seq, length, IfOk};
ghost use Rattle.std.specs.List.{All};
ghost use Rattle.ops.specs.declared.value.Effect.TheVariants.{Gives};
ghost use Rattle.ops.specs.Comparison.{comparison, holds, selection, signs_differ};
ghost use Rattle.circuits.specs.Circuit.{Adds};
ghost use Rattle.circuits.specs.Gates.{comparison_gates, select_gates};
ghost use Rattle.circuits.specs.Word.{number_of};
ghost use Rattle.blast_value.specs.Effect.{held_value, effect_of, IsOwn, IsOwnEffect};
ghost use Rattle.blast_value.specs.Families.{is_negation};
ghost use Rattle.blast_value.specs.Gates.{sign_gates};

use crate::held::{Blasted, Held};
use circ_muldiv::sign;
use circuits::{Bits, Circuit, equal, less_signed, less_unsigned, or, repeated};
use ops::Pred;
use std::alloc::{AllocError, Global};

/// The effect of `icmp`: 1 or 0, or poison where an operand is, and with `samesign` where the sign bits differ.
pub(crate) fn compare<C: Circuit>(
    alloc: Global,
    c: &mut C,
    pred: Pred,
    samesign: bool,
    a: &Held<C::Literal>,
    b: &Held<C::Literal>,
) -> Result<Blasted<C::Literal>, AllocError>
    requires width { 0 < length a.now.bits }
    requires same_width { length b.now.bits ≡ length a.now.bits }
    requires own_a { IsOwn (C.has_literal c.old) a.now }
    requires own_b { IsOwn (C.has_literal c.old) b.now }
    ensures effect { IfOk result (λ made. (inputs : Seq Bool) → C.admits c.old inputs →
        effect_of (C.value c.new inputs) made
        ≡ Gives (comparison pred samesign (length a.now.bits)
        (held_value (C.value c.old inputs) a.now) (held_value (C.value c.old inputs) b.now))) }
    ensures width { IfOk result (λ made. length made.bits ≡ 1) }
    ensures own { IfOk result (IsOwnEffect (C.has_literal c.new)) }
    ensures adds { Adds C.State c.old c.new (comparison_gates (length a.now.bits) + sign_gates) }
{
    let truth = holds(alloc, c, pred, &a.bits, &b.bits)?;
    let differ = signs_differ(alloc, c, samesign, &a.bits, &b.bits)?;
    let operands = or(alloc, c, a.poison, b.poison)?;
    let poison = or(alloc, c, operands, differ)?;
    Ok(Blasted {
        bits: repeated(alloc, truth, 1)?,
        poison,
        undefined: c.zero(),
    })
}

/// Whether the sign bits of two numbers differ. Where that isn't asked, since `samesign` isn't set, it is false.
fn signs_differ<C: Circuit>(
    alloc: Global,
    c: &mut C,
    asked: bool,
    a: &Bits<C::Literal>,
    b: &Bits<C::Literal>,
) -> Result<C::Literal, AllocError>
    requires width { 0 < length a.now }
    requires same_width { length b.now ≡ length a.now }
    requires own_a { All (C.has_literal c.old) a.now }
    requires own_b { All (C.has_literal c.old) b.now }
    ensures own { IfOk result (λ differ. C.has_literal c.new differ) }
    ensures value { IfOk result (λ differ. (inputs : Seq Bool) → C.admits c.old inputs →
        C.value c.new inputs differ
        ≡ (asked && signs_differ (length a.now)
        (number_of (C.value c.old inputs) a.now) (number_of (C.value c.old inputs) b.now))) }
    ensures adds { Adds C.State c.old c.new 1 }
{
    if !asked {
        return Ok(c.zero());
    }
    c.xor(alloc, sign(a), sign(b))
}

/// Whether a predicate is true of two numbers.
fn holds<C: Circuit>(
    alloc: Global,
    c: &mut C,
    pred: Pred,
    a: &Bits<C::Literal>,
    b: &Bits<C::Literal>,
) -> Result<C::Literal, AllocError>
    requires width { 0 < length a.now }
    requires same_width { length b.now ≡ length a.now }
    requires own_a { All (C.has_literal c.old) a.now }
    requires own_b { All (C.has_literal c.old) b.now }
    ensures own { IfOk result (λ made. C.has_literal c.new made) }
    ensures value { IfOk result (λ made. (inputs : Seq Bool) → C.admits c.old inputs →
        C.value c.new inputs made
        ≡ holds pred (length a.now) (number_of (C.value c.old inputs) a.now) (number_of (C.value c.old inputs) b.now)) }
    ensures adds { Adds C.State c.old c.new (comparison_gates (length a.now)) }
{
    let plain = without_negation(alloc, c, pred, a, b)?;
    if is_negation(pred) {
        Ok(c.not(plain))
    } else {
        Ok(plain)
    }
}

/// Whether the predicate is the negation of one that a single test decides: equal, or less.
fn is_negation(pred: Pred) -> bool
    ensures { result ≡ is_negation pred }
{
    match pred {
        Pred::Eq | Pred::Ugt | Pred::Ult | Pred::Sgt | Pred::Slt => false,
        Pred::Ne | Pred::Uge | Pred::Ule | Pred::Sge | Pred::Sle => true,
    }
}

/// Whether a predicate is true of two numbers, or, for one that is a negation, whether the predicate that it negates
/// is.
fn without_negation<C: Circuit>(
    alloc: Global,
    c: &mut C,
    pred: Pred,
    a: &Bits<C::Literal>,
    b: &Bits<C::Literal>,
) -> Result<C::Literal, AllocError>
    requires width { 0 < length a.now }
    requires same_width { length b.now ≡ length a.now }
    requires own_a { All (C.has_literal c.old) a.now }
    requires own_b { All (C.has_literal c.old) b.now }
    ensures own { IfOk result (λ made. C.has_literal c.new made) }
    ensures value { IfOk result (λ made. (inputs : Seq Bool) → C.admits c.old inputs →
        let holds = holds pred (length a.now) (number_of (C.value c.old inputs) a.now)
        (number_of (C.value c.old inputs) b.now) in
        C.value c.new inputs made ≡ (if is_negation pred then not holds else holds)) }
    ensures adds { Adds C.State c.old c.new (comparison_gates (length a.now)) }
{
    match pred {
        Pred::Eq | Pred::Ne => equal(alloc, c, a, b),
        Pred::Ult | Pred::Uge => less_unsigned(alloc, c, a, b),
        Pred::Ugt | Pred::Ule => less_unsigned(alloc, c, b, a),
        Pred::Slt | Pred::Sge => less_signed(alloc, c, a, b),
        Pred::Sgt | Pred::Sle => less_signed(alloc, c, b, a),
    }
}

/// The effect of `select`: the operand that the condition chooses, whether or not the other one is poison; poison where
/// the condition is.
pub(crate) fn choose<C: Circuit>(
    alloc: Global,
    c: &mut C,
    condition: &Held<C::Literal>,
    a: &Held<C::Literal>,
    b: &Held<C::Literal>,
) -> Result<Blasted<C::Literal>, AllocError>
    requires condition { length condition.now.bits ≡ 1 }
    requires same_width { length b.now.bits ≡ length a.now.bits }
    requires own_condition { IsOwn (C.has_literal c.old) condition.now }
    requires own_a { IsOwn (C.has_literal c.old) a.now }
    requires own_b { IsOwn (C.has_literal c.old) b.now }
    ensures effect { IfOk result (λ made. (inputs : Seq Bool) → C.admits c.old inputs →
        effect_of (C.value c.new inputs) made
        ≡ Gives (selection (held_value (C.value c.old inputs) condition.now)
        (held_value (C.value c.old inputs) a.now) (held_value (C.value c.old inputs) b.now))) }
    ensures width { IfOk result (λ made. length made.bits ≡ length a.now.bits) }
    ensures own { IfOk result (IsOwnEffect (C.has_literal c.new)) }
    ensures adds { Adds C.State c.old c.new (select_gates (length a.now.bits) + 2) }
{
    let chosen = condition.bits.as_slice()[0];
    let bits = circuits::select(alloc, c, chosen, a.bits.as_slice(), b.bits.as_slice())?;
    let operand = c.mux(alloc, chosen, a.poison, b.poison)?;
    let poison = or(alloc, c, condition.poison, operand)?;
    Ok(Blasted {
        bits,
        poison,
        undefined: c.zero(),
    })
}
