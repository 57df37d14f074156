//! Preconditions as literals.
ghost use Rattle.std.specs.Prelude.{◌≡◌, ◌≤◌, ◌↔◌, Bool, IsTrue, List as Seq, length, map, IfOk};
ghost use Rattle.std.specs.List.{All};
ghost use Rattle.circuits.specs.Circuit.{Adds};
ghost use Rattle.rule_core.specs.Terms.{compares, has_one_bit, is_sign_bit, formula_holds, last_holds, truths_of};
ghost use Rattle.blast_value.specs.Effect.{held_value, widths_of, IsOwn};
ghost use Rattle.blast_term.specs.Gates.{comparing_gates, power_test_gates, sign_test_gates, formula_gates, formulas_gates, precondition_gates};
ghost use Rattle.blast_term.specs.Terms.{FormulaIsHeld, FormulasAreHeld, PreconditionMet};

use crate::pair::blast_pair;
use crate::power::blast_exponent;
use crate::scope::at;
use blast_value::{Held, Instruction, equals};
use circuits::{Circuit, or};
use ops::{Pred, Width};
use rule_core::Formula;
use std::alloc::{AllocError, Global};

/// Whether the precondition is met by terms with these values: each of them is a number, and the last node of the
/// formula, if there is one, is true.
pub fn blast_precondition<C: Circuit>(
    alloc: Global,
    c: &mut C,
    formulas: &[Formula],
    terms: &[Held<C::Literal>],
) -> Result<C::Literal, AllocError>
    requires ready { FormulasAreHeld (widths_of terms.now) formulas.now }
    requires own { All (IsOwn (C.has_literal c.old)) terms.now }
    ensures value { IfOk result (λ met. (inputs : Seq Bool) → C.admits c.old inputs →
        IsTrue (C.value c.new inputs met)
        ↔ PreconditionMet (map (held_value (C.value c.old inputs)) terms.now) formulas.now) }
    ensures own { IfOk result (λ met. C.has_literal c.new met) }
    ensures adds { Adds C.State c.old c.new
        (precondition_gates (widths_of terms.now) formulas.now) }
{
    let truths = blast_formulas(alloc, c, formulas, terms)?;
    let mut met = last_truth(c, &truths);
    for term in terms {
        met = c.and(alloc, met, c.not(term.poison))?;
    }
    Ok(met)
}

/// Whether the last node is true. A formula without nodes is true.
fn last_truth<C: Circuit>(c: &C, truths: &[C::Literal]) -> C::Literal
    requires { All (C.has_literal c.now) truths.now }
    ensures value { (inputs : Seq Bool) → C.admits c.now inputs →
        C.value c.now inputs result ≡ last_holds (map (C.value c.now inputs) truths.now) }
    ensures own { C.has_literal c.now result }
{
    match truths.last() {
        Some(last) => *last,
        None => c.one(),
    }
}

/// Whether each node of a formula is true, in order.
fn blast_formulas<C: Circuit>(
    alloc: Global,
    c: &mut C,
    formulas: &[Formula],
    terms: &[Held<C::Literal>],
) -> Result<Vec<C::Literal>, AllocError>
    requires ready { FormulasAreHeld (widths_of terms.now) formulas.now }
    requires own { All (IsOwn (C.has_literal c.old)) terms.now }
    ensures values { IfOk result (λ truths. (inputs : Seq Bool) → C.admits c.old inputs →
        map (C.value c.new inputs) truths.items
        ≡ truths_of (map (held_value (C.value c.old inputs)) terms.now) formulas.now) }
    ensures own { IfOk result (λ truths. All (C.has_literal c.new) truths.items) }
    ensures adds { Adds C.State c.old c.new
        (formulas_gates (widths_of terms.now) formulas.now) }
{
    let mut truths = Vec::new(alloc);
    for formula in formulas {
        let truth = blast_formula(alloc, c, terms, &truths, *formula)?;
        truths.push(truth)?;
    }
    Ok(truths)
}

/// Whether a node of a formula is true, by the values of the terms and the truth of the nodes before it.
fn blast_formula<C: Circuit>(
    alloc: Global,
    c: &mut C,
    terms: &[Held<C::Literal>],
    before: &[C::Literal],
    formula: Formula,
) -> Result<C::Literal, AllocError>
    requires ready { FormulaIsHeld (widths_of terms.now) (length before.now) formula }
    requires own { All (IsOwn (C.has_literal c.old)) terms.now }
    requires own_before { All (C.has_literal c.old) before.now }
    ensures value { IfOk result (λ made. (inputs : Seq Bool) → C.admits c.old inputs →
        C.value c.new inputs made
        ≡ formula_holds (map (held_value (C.value c.old inputs)) terms.now)
        (map (C.value c.old inputs) before.now) formula) }
    ensures own { IfOk result (λ made. C.has_literal c.new made) }
    ensures adds { Adds C.State c.old c.new
        (formula_gates (widths_of terms.now) formula) }
{
    match formula {
        Formula::Compare(pred, a, b) => blast_compares(alloc, c, pred, at(terms, a), at(terms, b)),
        Formula::IsPowerOfTwo(a) => blast_has_one_bit(alloc, c, at(terms, a)),
        Formula::IsSignBit(a) => blast_is_sign_bit(alloc, c, at(terms, a)),
        Formula::HasOneUse(_) => Ok(c.one()),
        Formula::MaskedValueIsZero(_, _) => Ok(c.one()),
        Formula::IsKnownNonZero(_) => Ok(c.one()),
        Formula::Not(a) => Ok(c.not(*at(before, a))),
        Formula::And(a, b) => c.and(alloc, *at(before, a), *at(before, b)),
        Formula::Or(a, b) => or(alloc, c, *at(before, a), *at(before, b)),
    }
}

/// Whether both values are numbers and the predicate is true of them.
fn blast_compares<C: Circuit>(
    alloc: Global,
    c: &mut C,
    pred: Pred,
    left: &Held<C::Literal>,
    right: &Held<C::Literal>,
) -> Result<C::Literal, AllocError>
    requires some { 1 ≤ length left.now.bits }
    requires same_width { length right.now.bits ≡ length left.now.bits }
    requires own_left { IsOwn (C.has_literal c.old) left.now }
    requires own_right { IsOwn (C.has_literal c.old) right.now }
    ensures value { IfOk result (λ made. (inputs : Seq Bool) → C.admits c.old inputs →
        C.value c.new inputs made
        ≡ compares pred (held_value (C.value c.old inputs) left.now) (held_value (C.value c.old inputs) right.now)) }
    ensures own { IfOk result (λ made. C.has_literal c.new made) }
    ensures adds { Adds C.State c.old c.new
        (comparing_gates (length left.now.bits)) }
{
    let what = Instruction::Compare(pred, false);
    let made = blast_pair(alloc, c, what, one(), left, right)?;
    c.and(alloc, made.bits.as_slice()[0], c.not(made.poison))
}

/// The width of a truth value, one bit.
fn one() -> Width
    ensures { result ≡ 1 }
{
    match Width::new(1) {
        Some(width) => width,
        None => unreachable!(),
    }
}

/// Whether the value is a number with exactly one bit set, a power of two.
fn blast_has_one_bit<C: Circuit>(
    alloc: Global,
    c: &mut C,
    value: &Held<C::Literal>,
) -> Result<C::Literal, AllocError>
    requires least { 1 ≤ length value.now.bits }
    requires most { length value.now.bits ≤ 64 }
    requires own { IsOwn (C.has_literal c.old) value.now }
    ensures value { IfOk result (λ made. (inputs : Seq Bool) → C.admits c.old inputs →
        C.value c.new inputs made ≡ has_one_bit (held_value (C.value c.old inputs) value.now)) }
    ensures own { IfOk result (λ made. C.has_literal c.new made) }
    ensures adds { Adds C.State c.old c.new
        (power_test_gates (length value.now.bits)) }
{
    let found = blast_exponent(alloc, c, &value.bits)?;
    c.and(alloc, found.exists, c.not(value.poison))
}

/// Whether the value is the number of which the highest bit alone is set, the least signed one.
fn blast_is_sign_bit<C: Circuit>(
    alloc: Global,
    c: &mut C,
    value: &Held<C::Literal>,
) -> Result<C::Literal, AllocError>
    requires least { 1 ≤ length value.now.bits }
    requires most { length value.now.bits ≤ 64 }
    requires own { IsOwn (C.has_literal c.old) value.now }
    ensures value { IfOk result (λ made. (inputs : Seq Bool) → C.admits c.old inputs →
        C.value c.new inputs made ≡ is_sign_bit (held_value (C.value c.old inputs) value.now)) }
    ensures own { IfOk result (λ made. C.has_literal c.new made) }
    ensures adds { Adds C.State c.old c.new
        (sign_test_gates (length value.now.bits)) }
{
    let least = equals(alloc, c, &value.bits, 1 << (value.bits.len() - 1))?;
    c.and(alloc, least, c.not(value.poison))
}
