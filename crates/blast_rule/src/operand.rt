//! The values of operands.
ghost use Rattle.std.specs.Prelude.{◌≡◌, ◌≤◌, ℕ, Bool, if◌then◌else◌, List as Seq, length, slice_get, Some, IfOk};
ghost use Rattle.std.specs.List.{All, AllZip};
ghost use Rattle.rule_core.specs.Run.{Given, OperandGives};
ghost use Rattle.rule_core.specs.Readiness.{OperandIsReady};
ghost use Rattle.blast_value.specs.Effect.{held_value, IsOwn};
ghost use Rattle.blast_term.specs.Scope.{seen, ScopeIsOwn};
ghost use Rattle.blast_rule.specs.Runs.{shapes, given_shape, IsGiven, HoldsOperand};

use blast_term::{Scope, at, copied, number, of_word, register_held, residue, width_of};
use blast_value::Held;
use circuits::Circuit;
use lists::List;
use ops::Width;
use rule_core::{Argument, Operand};
use std::alloc::{AllocError, Global};

/// The values of operands, in order. It makes no gate.
pub(crate) fn operands_held<C: Circuit>(
    alloc: Global,
    c: &C,
    typing: &[Width],
    scope: Scope<C::Literal>,
    operands: &[Operand],
) -> Result<List<Held<C::Literal>>, AllocError>
    requires ready { All (λ operand. (N : ℕ) × OperandIsReady typing.now (given_shape scope) (shapes scope) N operand) operands.now }
    requires own { ScopeIsOwn (C.has_literal c.now) scope }
    ensures { IfOk result (AllZip
        (HoldsOperand (C.has_literal c.now) (C.admits c.now) (C.value c.now) typing.now scope.entry) operands.now) }
{
    let mut held = List::new(alloc);
    for operand in operands {
        held.push(operand_held(alloc, c, typing, scope, *operand)?)?;
    }
    Ok(held)
}

/// The value of an operand. It makes no gate.
pub(crate) fn operand_held<C: Circuit>(
    alloc: Global,
    c: &C,
    typing: &[Width],
    scope: Scope<C::Literal>,
    operand: Operand,
) -> Result<Held<C::Literal>, AllocError>
    requires ready { (N : ℕ) × OperandIsReady typing.now (given_shape scope) (shapes scope) N operand }
    requires own { ScopeIsOwn (C.has_literal c.now) scope }
    ensures gives { IfOk result (λ held. (inputs : Seq Bool) (given : Given) → C.admits c.now inputs →
        IsGiven (C.value c.now inputs) scope.entry given →
        OperandGives typing.now given (seen (C.value c.now inputs) scope.entry) operand
        (held_value (C.value c.now inputs) held)) }
    ensures width { IfOk result (λ held. slice_get typing.now operand.class ≡ Some (length held.bits)) }
    ensures some { IfOk result (λ held. 1 ≤ length held.bits) }
    ensures own { IfOk result (IsOwn (C.has_literal c.now)) }
{
    let width = width_of(typing, operand.class);
    match operand.value {
        Argument::Register(register) => copied(alloc, register_held(scope, register)),
        Argument::Literal(literal) => number(alloc, c, width, residue(width, literal)),
        Argument::Truth(truth) => number(alloc, c, width, digit_of(truth)),
        Argument::Constant(k) => of_word(alloc, c, at(scope.constants, k)),
        Argument::Undef(k) => of_word(alloc, c, at(scope.choices, k)),
        Argument::Term(n) => of_word(alloc, c, at(scope.terms, n)),
    }
}

/// 1 for true, and 0 for false.
fn digit_of(truth: bool) -> u64
    ensures { result ≡ (if truth then 1 else 0) }
{
    u64::from(truth)
}
