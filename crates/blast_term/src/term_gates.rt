//! How many gates the terms and the precondition of a rule have at most.
ghost use Rattle.std.specs.Prelude.{◌≡◌, ◌≤◌, ◌<◌, ◌*◌, length, slice_index};
ghost use Rattle.std.specs.List.{All};
ghost use Rattle.blast_value.specs.Gates.{opcode_gates};
ghost use Rattle.blast_term.specs.Gates.{node_gates, terms_gates, numbers_gates, choices_gates, formula_gates, formulas_gates, fact_gates, facts_gates};
ghost use Rattle.blast_term.specs.Terms.{term_widths, ReadsTerms};

use crate::width::width_of;
use blast_value::{Instruction, gates_of};
use ops::{Flags, Opcode, Width};
use rule_core::{Formula, Function, Node, Term};

/// The most gates that the nodes of terms take.
pub fn terms_gates(typing: &[Width], terms: &[Term]) -> u32
    requires few { length terms.now ≤ 256 }
    requires classes { All (λ t. t.class < length typing.now) terms.now }
    ensures value { result ≡ terms_gates typing.now terms.now }
    ensures few { result ≤ 256 * 266241 }
{
    let mut gates = 0;
    for term in terms {
        gates += node_gates(width_of(typing, term.class), term.node);
    }
    gates
}

/// The most gates that a node of this width takes.
fn node_gates(width: Width, node: Node) -> u32
    ensures value { result ≡ node_gates width node }
    ensures few { result ≤ 266241 }
{
    match node {
        Node::Literal(_) | Node::Constant(_) | Node::Choice(_) | Node::Width(_, _) => 0,
        Node::Register(_) => width.bits(),
        Node::Unary(Function::Negate, _) => opcode_gates(Opcode::Sub, width) + 1,
        Node::Unary(Function::Not, _) => opcode_gates(Opcode::Xor, width) + 1,
        Node::Unary(Function::Log2, _) => 8 * width.bits() + 1,
        Node::Unary(Function::Abs, _) => 8 * width.bits(),
        Node::Binary(op, _, _) => opcode_gates(op, width) + 1,
    }
}

/// The most gates that an instruction with two operands of its own width takes.
fn opcode_gates(op: Opcode, width: Width) -> u32
    ensures value { result ≡ opcode_gates op width }
    ensures few { result ≤ 266240 }
{
    blast_value::gates_are_few();
    gates_of(Instruction::Binary(op, Flags::NONE), width, width)
}

/// The most gates that the numbers of the nodes take.
pub fn numbers_gates(typing: &[Width], terms: &[Term]) -> u32
    requires few { length terms.now ≤ 256 }
    requires classes { All (λ t. t.class < length typing.now) terms.now }
    ensures value { result ≡ numbers_gates (term_widths typing.now terms.now) }
    ensures few { result ≤ 256 * 64 }
{
    let mut gates = 0;
    for term in terms {
        gates += width_of(typing, term.class).bits();
    }
    gates
}

/// The most gates that the numbers of the nodes at these places take.
pub fn choices_gates(typing: &[Width], terms: &[Term], places: &[u32]) -> u32
    requires few { length places.now ≤ 256 }
    requires classes { All (λ t. t.class < length typing.now) terms.now }
    requires there { All (λ n. n < length terms.now) places.now }
    ensures value { result ≡ choices_gates (term_widths typing.now terms.now) places.now }
    ensures few { result ≤ 256 * 64 }
{
    let mut gates = 0;
    for place in places {
        gates += node_width(typing, terms, *place).bits();
    }
    gates
}

/// The most gates that the nodes of a formula take.
pub fn formulas_gates(typing: &[Width], terms: &[Term], formulas: &[Formula]) -> u32
    requires few { length formulas.now ≤ 256 }
    requires classes { All (λ t. t.class < length typing.now) terms.now }
    requires there { All (ReadsTerms (length terms.now)) formulas.now }
    ensures value { result ≡ formulas_gates (term_widths typing.now terms.now) formulas.now }
    ensures few { result ≤ 256 * 514 }
{
    let mut gates = 0;
    for formula in formulas {
        gates += formula_gates(typing, terms, *formula);
    }
    gates
}

/// The most gates that a node of a formula takes.
fn formula_gates(typing: &[Width], terms: &[Term], formula: Formula) -> u32
    requires classes { All (λ t. t.class < length typing.now) terms.now }
    requires there { ReadsTerms (length terms.now) formula }
    ensures value { result ≡ formula_gates (term_widths typing.now terms.now) formula }
    ensures few { result ≤ 514 }
{
    match formula {
        Formula::Compare(_, a, _) => 2 * node_width(typing, terms, a).bits() + 4,
        Formula::IsPowerOfTwo(a) => 8 * node_width(typing, terms, a).bits() + 1,
        Formula::IsSignBit(a) => 2 * node_width(typing, terms, a).bits() + 1,
        Formula::HasOneUse(_) | Formula::Not(_) => 0,
        Formula::MaskedValueIsZero(_, _) | Formula::IsKnownNonZero(_) => 0,
        Formula::And(_, _) | Formula::Or(_, _) => 1,
    }
}

/// The most gates that what the nodes of a formula say of bits takes.
pub fn facts_gates(typing: &[Width], terms: &[Term], formulas: &[Formula]) -> u32
    requires few { length formulas.now ≤ 256 }
    requires classes { All (λ t. t.class < length typing.now) terms.now }
    requires there { All (ReadsTerms (length terms.now)) formulas.now }
    ensures value { result ≡ facts_gates (term_widths typing.now terms.now) formulas.now }
    ensures few { result ≤ 256 * 195 }
{
    let mut gates = 0;
    for formula in formulas {
        gates += fact_gates(typing, terms, *formula);
    }
    gates
}

/// The same of a node of a formula.
fn fact_gates(typing: &[Width], terms: &[Term], formula: Formula) -> u32
    requires classes { All (λ t. t.class < length typing.now) terms.now }
    requires there { ReadsTerms (length terms.now) formula }
    ensures value { result ≡ fact_gates (term_widths typing.now terms.now) formula }
    ensures few { result ≤ 195 }
{
    match formula {
        Formula::MaskedValueIsZero(_, a) => 3 * node_width(typing, terms, a).bits() + 3,
        Formula::IsKnownNonZero(_) => 67,
        _ => 0,
    }
}

/// The width of the node at a place.
fn node_width(typing: &[Width], terms: &[Term], place: u32) -> Width
    requires classes { All (λ t. t.class < length typing.now) terms.now }
    requires there { place < length terms.now }
    ensures { result ≡ slice_index (term_widths typing.now terms.now) place }
{
    width_of(typing, terms[place as usize].class)
}
