//! Whether the target of a rule names registers that statements of its source assign.

ghost use Rattle.std.specs.Prelude.{◌↔◌, ◌⊎◌, IsTrue};
ghost use Rattle.rule_core.specs.Checks.{IsRule};
ghost use Rattle.rule_core.specs.Positions.{operands_among, operands_of};
ghost use Rattle.bindings.specs.Nodes.{HasExactly, HasOperandOf, IsTemporaryWidth, NamesAmong, OneNamesAmong};
ghost use Rattle.bindings.specs.Statements.{MeasuresTemporary, TargetNamesTemporary};

use crate::nodes::Nodes;
use rule_core::{Argument, Node, Op, Register as Name, Rule, Statement};

/// Whether the target names a register that a statement of the source assigns: as an operand, as what it copies, or in
/// `width( )`.
pub(crate) fn target_names_temporary(rule: &Rule) -> bool
    requires { IsRule rule.now }
    ensures { IsTrue result ↔ TargetNamesTemporary rule.now }
{
    name_temporary(&measuring_nodes(rule), rule.target.as_slice())
}

/// The nodes whose terms have the width of a register that a statement of the source assigns.
fn measuring_nodes(rule: &Rule) -> Nodes
    requires { IsRule rule.now }
    ensures { HasExactly result (MeasuresTemporary rule.now.terms) }
{
    let mut measuring = Nodes::none();
    for (n, term) in rule.terms.as_slice().iter().enumerate() {
        if measures_temporary(&measuring, term.node) {
            measuring.insert(n);
        }
    }
    measuring
}

/// Whether a node is the width of a register that a statement of the source assigns, or one of its operands is in the
/// set.
fn measures_temporary(measuring: &Nodes, node: Node) -> bool
    ensures { IsTrue result ↔ (IsTemporaryWidth node ⊎ HasOperandOf measuring.now node) }
{
    match node {
        Node::Width(Name::Source(_), _) => true,
        Node::Unary(_, a) => measuring.contains(a),
        Node::Binary(_, a, b) => measuring.contains(a) || measuring.contains(b),
        Node::Width(Name::Input(_) | Name::Target(_), _) => false,
        Node::Literal(_) | Node::Constant(_) | Node::Register(_) | Node::Choice(_) => false,
    }
}

/// Whether an operand of one of these statements is a register that a statement of the source assigns, or a node of the
/// set.
fn name_temporary(measuring: &Nodes, statements: &[Statement]) -> bool
    ensures { IsTrue result ↔ OneNamesAmong measuring.now (operands_among statements.now) }
{
    for statement in statements {
        if op_names_temporary(measuring, statement.op) {
            return true;
        }
    }
    false
}

/// The same for the operands of one operation.
fn op_names_temporary(measuring: &Nodes, op: Op) -> bool
    ensures { IsTrue result ↔ OneNamesAmong measuring.now (operands_of op) }
{
    match op {
        Op::Binary(_, _, a, b) | Op::Compare(_, _, a, b) => {
            names_temporary(measuring, a.value) || names_temporary(measuring, b.value)
        }
        Op::Select(c, a, b) => {
            names_temporary(measuring, c.value)
                || names_temporary(measuring, a.value)
                || names_temporary(measuring, b.value)
        }
        Op::Unary(_, _, a) | Op::Convert(_, _, a, _) | Op::Freeze(a, _) | Op::Copy(a) => {
            names_temporary(measuring, a.value)
        }
    }
}

/// The same for one argument.
fn names_temporary(measuring: &Nodes, argument: Argument) -> bool
    ensures { IsTrue result ↔ NamesAmong measuring.now argument }
{
    match argument {
        Argument::Register(Name::Source(_)) => true,
        Argument::Register(Name::Input(_) | Name::Target(_)) => false,
        Argument::Literal(_) | Argument::Truth(_) | Argument::Constant(_) => false,
        Argument::Undef(_) => false,
        Argument::Term(node) => measuring.contains(node),
    }
}
