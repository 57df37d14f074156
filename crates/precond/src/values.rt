//! What the constant terms of a rule give.

ghost use Rattle.std.specs.Prelude.{◌≡◌, ◌<◌, ◌≤◌, length, take};
ghost use Rattle.rule_core.specs.Checks.{IsRule};
ghost use Rattle.rule_core.specs.Typing.{IsTyping};
ghost use Rattle.rule_core.specs.Valid.{ConstantsFit};
ghost use Rattle.rule_core.specs.Terms.{constant_values, value_at};
ghost use Rattle.precond.specs.Numbers.{number_in};

use lists::List;
use ops::{Value, Word};
use rule_core::{Rule, Typing, term_value};

/// How many nodes a rule has at most.
pub(crate) const MOST_NODES: usize = 256;

/// What a node of the rule's constant terms gives on these constants: a number of its class's width, or `None` where it
/// has no value, as a division by 0. It takes as many steps as the rule has nodes.
pub fn term(rule: &Rule, node: u32, typing: &Typing, constants: &List<Word>) -> Option<Word>
    requires rule { IsRule rule.now }
    requires typing { IsTyping rule.now typing.now }
    requires constants { ConstantsFit rule.now typing.now constants.now }
    requires node { node < length rule.now.terms }
    ensures { result ≡ number_in (value_at (constant_values typing.now constants.now rule.now) node) }
{
    let values = constant_values(rule, typing, constants);
    number_in(values[node as usize])
}

/// The number that a value is, if it is one.
fn number_in(value: Value) -> Option<Word>
    ensures { result ≡ number_in value }
{
    match value {
        Value::Poison => None,
        Value::Bits(word) => Some(word),
    }
}

/// An array that begins with what the nodes of the rule's constant terms give; the values behind these have no meaning.
pub(crate) fn constant_values(
    rule: &Rule,
    typing: &Typing,
    constants: &List<Word>,
) -> [Value; MOST_NODES]
    requires rule { IsRule rule.now }
    requires typing { IsTyping rule.now typing.now }
    requires constants { ConstantsFit rule.now typing.now constants.now }
    ensures count { length rule.now.terms ≤ 256 }
    ensures values { take (length rule.now.terms) result ≡ constant_values typing.now constants.now rule.now }
{
    let mut values = [Value::Poison; MOST_NODES];
    for (n, term) in rule.terms.as_slice().iter().enumerate() {
        values[n] = term_value(typing.as_slice(), constants.as_slice(), &values[..n], *term);
    }
    values
}
