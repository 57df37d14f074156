//! The operands for what the target of a rule reads, where its names are bound.

ghost use Rattle.std.specs.Prelude.{◌≡◌, ◌<◌, ◌≤◌, ℕ, length, slice_index};
ghost use Rattle.rule_core.specs.Checks.{IsRule, TargetMayRead};
ghost use Rattle.rule_core.specs.Terms.{constant_values, value_at};
ghost use Rattle.rewriter.specs.Put as put;
ghost use Rattle.rewriter.specs.Ready.{IsBound, OperandIsReady};

use bindings::Binding;
use ir_core::Operand;
use ops::{Width, Word, residue};
use precond::term;
use rule_core::{Argument, Operand as RuleOperand, Register, Rule};

/// The width of a class.
pub(crate) fn class_width(binding: &Binding, class: u32) -> Width
    requires { class < length binding.now.typing }
    ensures { result ≡ slice_index binding.now.typing class }
{
    binding.typing.as_slice()[class as usize]
}

/// A constant term as a literal: its number, or `poison` where it has none.
fn term_put(rule: &Rule, binding: &Binding, node: u32) -> Operand
    requires rule { IsRule rule.now }
    requires bound { IsBound rule.now binding.now }
    requires node { node < length rule.now.terms }
    ensures { result ≡ put.literal_of (value_at (constant_values binding.now.typing binding.now.constants rule.now) node) }
{
    match term(rule, node, &binding.typing, &binding.constants) {
        Some(number) => Operand::Number(number),
        None => Operand::Poison,
    }
}

/// The operand for a register that the target reads, given those for the target statements before it.
fn register_put(rule: &Rule, binding: &Binding, results: &[Operand], register: Register) -> Operand
    requires bound { IsBound rule.now binding.now }
    requires register { TargetMayRead rule.now (length results.now) (Argument.Register register) }
    ensures { (N : ℕ) → result ≡ put.argument_put rule.now binding.now results.now N (Argument.Register register) }
{
    match register {
        Register::Input(i) => binding.inputs.as_slice()[i as usize],
        Register::Source(j) => Operand::Register(binding.statements.as_slice()[j as usize]),
        Register::Target(j) => results[j as usize],
    }
}

/// The operand for an argument that the target reads at this width, given those for the target statements before it.
fn argument_put(
    rule: &Rule,
    binding: &Binding,
    results: &[Operand],
    width: Width,
    argument: Argument,
) -> Operand
    requires rule { IsRule rule.now }
    requires bound { IsBound rule.now binding.now }
    requires width { 1 ≤ width }
    requires argument { TargetMayRead rule.now (length results.now) argument }
    ensures { result ≡ put.argument_put rule.now binding.now results.now width argument }
{
    match argument {
        Argument::Register(register) => register_put(rule, binding, results, register),
        Argument::Literal(literal) => Operand::Number(Word::fitting(
            width,
            residue(width, literal),
        )),
        Argument::Truth(truth) => Operand::Number(Word::fitting(width, if truth { 1 } else { 0 })),
        Argument::Constant(k) => Operand::Number(binding.constants.as_slice()[k as usize]),
        Argument::Undef(_) => Operand::Undef,
        Argument::Term(node) => term_put(rule, binding, node),
    }
}

/// The operand for one that the target reads, given those for the target statements before it.
pub(crate) fn operand_put(
    rule: &Rule,
    binding: &Binding,
    results: &[Operand],
    operand: RuleOperand,
) -> Operand
    requires rule { IsRule rule.now }
    requires bound { IsBound rule.now binding.now }
    requires operand { OperandIsReady rule.now binding.now (length results.now) operand }
    ensures { result ≡ put.operand_put rule.now binding.now results.now operand }
{
    let width = class_width(binding, operand.class);
    argument_put(rule, binding, results, width, operand.value)
}
