//! Registers among statements as written. Linear search is enough: a half has at most 32 statements.

ghost use Rattle.std.specs.Prelude.{◌≡◌, ◌↔◌, ◌<◌, ◌≤◌, ℕ, Contains, IfSome, IfNone, IsTrue, Some, length, slice_get};
ghost use Rattle.rule_parse.specs.declared.raw.RawArgument.TheVariants.{Register as register};
ghost use Rattle.rule_reader.specs.Meaning.{Uses, AssignsAt, IsRoot};

use lists::Text;
use rule_parse::{RawArgument, RawOp, RawOperand, RawStatement};

/// The first statement before the place that assigns the register.
pub(crate) fn assigning(statements: &[RawStatement], place: usize, name: &[u8]) -> Option<usize>
    requires { place ≤ length statements.now }
    ensures before { IfSome result (λ k. k < place) }
    ensures some { IfSome result (λ k. AssignsAt statements.now k name.now) }
    ensures none { IfNone result ((k : ℕ) → k < place → ¬ AssignsAt statements.now k name.now) }
{
    for earlier in 0..place {
        if statements[earlier].name.as_slice() == name {
            return Some(earlier);
        }
    }
    None
}

/// Whether a statement before a place assigns the register.
pub(crate) fn is_assigned(statements: &[RawStatement], place: usize, name: &[u8]) -> bool
    requires { place ≤ length statements.now }
    ensures { IsTrue result ↔ ((k : ℕ) × (k < place) × AssignsAt statements.now k name.now) }
{
    assigning(statements, place, name).is_some()
}

/// Whether the last statement assigns the register.
pub(crate) fn is_root(source: &[RawStatement], name: &[u8]) -> bool
    requires { 0 < length source.now }
    ensures { IsTrue result ↔ IsRoot source.now name.now }
{
    source[source.len() - 1].name.as_slice() == name
}

/// The place of a name among these.
pub(crate) fn place_of(names: &[Text], name: &[u8]) -> Option<usize>
    ensures some { IfSome result (λ k. slice_get names.now k ≡ Some name.now) }
    ensures none { IfNone result (¬ Contains names.now name.now) }
{
    for (place, other) in names.iter().enumerate() {
        if other.as_slice() == name {
            return Some(place);
        }
    }
    None
}

/// Whether the name is among these.
pub(crate) fn is_among(names: &[Text], name: &[u8]) -> bool
    ensures { IsTrue result ↔ Contains names.now name.now }
{
    place_of(names, name).is_some()
}

/// Whether the operand is the register.
fn is_register(operand: &RawOperand, name: &[u8]) -> bool
    ensures { IsTrue result ↔ (operand.now.value ≡ register name.now) }
{
    match &operand.value {
        RawArgument::Register(other) => other.as_slice() == name,
        RawArgument::Literal(_)
        | RawArgument::Truth(_)
        | RawArgument::Constant(_)
        | RawArgument::Undef
        | RawArgument::Term(_) => false,
    }
}

/// Whether a statement uses the register.
pub(crate) fn uses(op: &RawOp, name: &[u8]) -> bool
    ensures { IsTrue result ↔ Uses op.now name.now }
{
    match op {
        RawOp::Binary(_, _, left, right) | RawOp::Compare(_, _, left, right) => {
            is_register(left, name) || is_register(right, name)
        }
        RawOp::Select(condition, if_true, if_false) => {
            is_register(condition, name)
                || is_register(if_true, name)
                || is_register(if_false, name)
        }
        RawOp::Unary(_, _, operand)
        | RawOp::Convert(_, _, operand, _)
        | RawOp::Freeze(operand)
        | RawOp::Copy(operand) => is_register(operand, name),
    }
}
