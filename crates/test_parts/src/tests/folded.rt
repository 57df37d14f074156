//! How many gates a graph makes for formulas that it simplifies.

use aig::Aig;
use circuits::Circuit;
use std::alloc::{AllocError, Global};
use std::test::Fail;

/// A formula over the inputs a, b and c.
#[derive(Clone, Copy, Debug)]
enum Formula {
    /// a ∧ b, built twice.
    AndTwice,
    /// a ⊕ b, and ¬a ⊕ ¬b.
    XorOfNegations,
    /// mux(a, b, c), and mux(¬a, c, b).
    MuxTurned,
    /// mux(a, b, c), and mux(a, ¬b, ¬c).
    MuxOfNegations,
    /// ¬a ∧ b, and mux(a, 1, ¬b).
    MuxOfConstant,
    /// a ∧ b, and mux(a, b, a).
    MuxOfCondition,
    /// a ⊕ b, and mux(a, b, ¬b).
    MuxOfOpposites,
    /// (a ∧ b) ∧ ¬a.
    Contradiction,
    /// (a ∧ b) ∧ a.
    Subsumption,
    /// ¬(a ∧ b) ∧ ¬a.
    Negated,
    /// ¬(a ∧ b) ∧ a, where a ∧ ¬b is there.
    Substitution,
    /// (a ∧ b) ∧ (c ∧ ¬a).
    TwoContradict,
    /// (a ∧ b) ∧ ¬(c ∧ ¬a).
    TwoSubsume,
    /// ¬(a ∧ b) ∧ ¬(a ∧ ¬b).
    Resolution,
}

/// Builds the inputs and the formula.
fn build<C: Circuit>(
    alloc: Global,
    circuit: &mut C,
    formula: Formula,
) -> Result<C::Literal, AllocError> {
    let a = circuit.input(alloc)?;
    let b = circuit.input(alloc)?;
    let c = circuit.input(alloc)?;
    match formula {
        Formula::AndTwice => {
            circuit.and(alloc, a, b)?;
            circuit.and(alloc, b, a)
        }
        Formula::XorOfNegations => {
            circuit.xor(alloc, a, b)?;
            let not_a = circuit.not(a);
            let not_b = circuit.not(b);
            circuit.xor(alloc, not_a, not_b)
        }
        Formula::MuxTurned => {
            circuit.mux(alloc, a, b, c)?;
            let not_a = circuit.not(a);
            circuit.mux(alloc, not_a, c, b)
        }
        Formula::MuxOfNegations => {
            circuit.mux(alloc, a, b, c)?;
            let not_b = circuit.not(b);
            let not_c = circuit.not(c);
            circuit.mux(alloc, a, not_b, not_c)
        }
        Formula::MuxOfConstant => {
            let not_a = circuit.not(a);
            circuit.and(alloc, not_a, b)?;
            let one = circuit.one();
            let not_b = circuit.not(b);
            circuit.mux(alloc, a, one, not_b)
        }
        Formula::MuxOfCondition => {
            circuit.and(alloc, a, b)?;
            circuit.mux(alloc, a, b, a)
        }
        Formula::MuxOfOpposites => {
            circuit.xor(alloc, a, b)?;
            let not_b = circuit.not(b);
            circuit.mux(alloc, a, b, not_b)
        }
        _ => pairs(alloc, circuit, formula, a, b, c),
    }
}

/// Builds a formula of two levels.
fn pairs<C: Circuit>(
    alloc: Global,
    circuit: &mut C,
    formula: Formula,
    a: C::Literal,
    b: C::Literal,
    c: C::Literal,
) -> Result<C::Literal, AllocError>
    requires a { C.has_literal circuit.old a }
    requires b { C.has_literal circuit.old b }
    requires c { C.has_literal circuit.old c }
{
    let both = circuit.and(alloc, a, b)?;
    let not_both = circuit.not(both);
    let not_a = circuit.not(a);
    let not_b = circuit.not(b);
    match formula {
        Formula::Contradiction => circuit.and(alloc, both, not_a),
        Formula::Subsumption => circuit.and(alloc, both, a),
        Formula::Negated => circuit.and(alloc, not_both, not_a),
        Formula::Substitution => {
            circuit.and(alloc, a, not_b)?;
            circuit.and(alloc, not_both, a)
        }
        Formula::TwoContradict => {
            let other = circuit.and(alloc, c, not_a)?;
            circuit.and(alloc, both, other)
        }
        Formula::TwoSubsume => {
            let other = circuit.and(alloc, c, not_a)?;
            let not_other = circuit.not(other);
            circuit.and(alloc, both, not_other)
        }
        _ => {
            let other = circuit.and(alloc, a, not_b)?;
            let not_other = circuit.not(other);
            circuit.and(alloc, not_both, not_other)
        }
    }
}

/// Each formula, and how many gates it takes.
static GATES: [(Formula, usize); 14] = [
    (Formula::AndTwice, 1),
    (Formula::XorOfNegations, 1),
    (Formula::MuxTurned, 1),
    (Formula::MuxOfNegations, 1),
    (Formula::MuxOfConstant, 1),
    (Formula::MuxOfCondition, 1),
    (Formula::MuxOfOpposites, 1),
    (Formula::Contradiction, 1),
    (Formula::Subsumption, 1),
    (Formula::Negated, 1),
    (Formula::Substitution, 2),
    (Formula::TwoContradict, 2),
    (Formula::TwoSubsume, 2),
    (Formula::Resolution, 2),
];

/// How many gates this graph has once the formula is built in it.
fn gate_count_in(alloc: Global, graph: &mut Aig, formula: Formula) -> Result<usize, AllocError> {
    build(alloc, graph, formula)?;
    Ok(graph.gates().len())
}

/// How many gates a graph has once the formula is built in it.
fn gate_count(alloc: Global, formula: Formula) -> Result<usize, AllocError> {
    let mut graph = Aig::new(alloc);
    gate_count_in(alloc, &mut graph, formula)
}

#[test]
fn gates_are_folded(rt: HostRuntime) -> Result<(), Fail> {
    for (formula, gates) in &GATES {
        assert_eq!(rt; gate_count(rt.alloc(), *formula)?, *gates, "{formula:?}");
    }
    Ok(())
}
