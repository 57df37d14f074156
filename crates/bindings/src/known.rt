//! Whether what `Pre:` says of bits follows from what is known of them.

ghost use Rattle.std.specs.Prelude.{◌≡◌, ◌<◌, ◌≤◌, ◌↔◌, length, All, IsTrue};
ghost use Rattle.rule_core.specs.Checks.{IsRule};
ghost use Rattle.rule_core.specs.Typing.{IsTyping};
ghost use Rattle.rule_core.specs.Valid.{ConstantsFit};
ghost use Rattle.bindings.specs.Known.{FactFollows, known_by, number_of_term, operand_for};

use crate::binding::Binding;
use ir_core::Operand;
use known_bits::Facts;
use precond::term;
use rule_core::{Formula, Register as Name, Rule};

/// Whether each bit of a mask, the value of a constant term, is known to be 0 in what a register stands for.
pub(crate) fn has_no_bit_of(
    known: &Facts,
    rule: &Rule,
    binding: &Binding,
    register: Name,
    mask: u32,
) -> bool
    requires few { All (λ bits. length bits ≤ 64) known.now.results }
    requires rule { IsRule rule.now }
    requires typing { IsTyping rule.now binding.now.typing }
    requires constants { ConstantsFit rule.now binding.now.typing binding.now.constants }
    requires mask { mask < length rule.now.terms }
    ensures { IsTrue result ↔ FactFollows (known_by known.now binding.now.block binding.now.place) rule.now binding.now
        (Formula.MaskedValueIsZero register mask) }
{
    let mask = number_of_term(rule, binding, mask);
    match operand_for(binding, register) {
        Some(operand) => mask & known.known(operand).zeros == mask,
        None => true,
    }
}

/// Whether some bit is known to be 1 in what a register stands for.
pub(crate) fn is_known_non_zero(
    known: &Facts,
    rule: &Rule,
    binding: &Binding,
    register: Name,
) -> bool
    requires { All (λ bits. length bits ≤ 64) known.now.results }
    ensures { IsTrue result ↔ FactFollows (known_by known.now binding.now.block binding.now.place) rule.now binding.now
        (Formula.IsKnownNonZero register) }
{
    match operand_for(binding, register) {
        Some(operand) => known.known(operand).ones != 0,
        None => true,
    }
}

/// What a register of the source stands for.
fn operand_for(binding: &Binding, register: Name) -> Option<Operand>
    ensures { result ≡ operand_for binding.now register }
{
    match register {
        Name::Input(i) => binding.inputs.as_slice().get(i as usize).copied(),
        Name::Source(j) => match binding.statements.as_slice().get(j as usize) {
            Some(bound) => Some(Operand::Register(*bound)),
            None => None,
        },
        Name::Target(_) => None,
    }
}

/// The number of a constant term, 0 where it has none.
fn number_of_term(rule: &Rule, binding: &Binding, node: u32) -> u64
    requires rule { IsRule rule.now }
    requires typing { IsTyping rule.now binding.now.typing }
    requires constants { ConstantsFit rule.now binding.now.typing binding.now.constants }
    requires node { node < length rule.now.terms }
    ensures { result ≡ number_of_term rule.now binding.now node }
{
    match term(rule, node, &binding.typing, &binding.constants) {
        Some(word) => word.number(),
        None => 0,
    }
}
