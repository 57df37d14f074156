//! Whether rules say something of bits.

ghost use Rattle.std.specs.Prelude.{◌↔◌, IsTrue};
ghost use Rattle.rule_core.specs.declared.rule.Register.{Register as Named};
ghost use Rattle.bindings.specs.Known.{AskBits, AsksBitsOf, SaysOf};

use rule_core::{Formula, Rule};

/// Whether one of these rules says something of the bits of a register. It takes no memory.
pub fn ask_bits(rules: &[Rule]) -> bool
    ensures { IsTrue result ↔ AskBits rules.now }
{
    for rule in rules {
        if asks_bits(rule) {
            return true;
        }
    }
    false
}

/// Whether a rule says something of the bits of a register. It takes no memory.
pub fn asks_bits(rule: &Rule) -> bool
    ensures { IsTrue result ↔ ((r : Named) × AsksBitsOf rule.now r) }
{
    for formula in rule.precondition.as_slice() {
        if says_bits(formula) {
            return true;
        }
    }
    false
}

/// Whether a node of its precondition does.
fn says_bits(formula: &Formula) -> bool
    ensures { IsTrue result ↔ ((r : Named) × SaysOf r formula.now) }
{
    match formula {
        Formula::MaskedValueIsZero(_, _) | Formula::IsKnownNonZero(_) => true,
        Formula::Compare(_, _, _) | Formula::IsPowerOfTwo(_) | Formula::IsSignBit(_) => false,
        Formula::HasOneUse(_) => false,
        Formula::Not(_) | Formula::And(_, _) | Formula::Or(_, _) => false,
    }
}
