//! How large the clause sets of single gates and small graphs are.
ghost use Rattle.std.specs.Prelude.{IfOk};

use aig::Aig;
use circuits::Circuit;
use cnf_build::clauses_of;
use std::alloc::{AllocError, Global};
use std::test::Fail;

/// A root gate over the inputs a, b and c.
#[derive(Clone, Copy, Debug)]
enum Root {
    And,
    Xor,
    Mux,
    /// ¬(a ∧ b).
    NotBoth,
    One,
    /// The input b alone.
    Input,
    /// a ∧ 1.
    AndOne,
    /// a ⊕ b ⊕ c.
    Odd,
}

/// Builds three inputs, a gate that no root names, and the root.
fn build<C: Circuit>(alloc: Global, circuit: &mut C, root: Root) -> Result<C::Literal, AllocError>
    ensures { IfOk result (λ made. C.has_literal circuit.new made) }
{
    let a = circuit.input(alloc)?;
    let b = circuit.input(alloc)?;
    let c = circuit.input(alloc)?;
    circuit.and(alloc, b, c)?;
    match root {
        Root::And => circuit.and(alloc, a, b),
        Root::Xor => circuit.xor(alloc, a, b),
        Root::Mux => circuit.mux(alloc, a, b, c),
        Root::NotBoth => {
            let both = circuit.and(alloc, a, b)?;
            Ok(circuit.not(both))
        }
        Root::One => Ok(circuit.one()),
        Root::Input => Ok(b),
        Root::AndOne => {
            let one = circuit.one();
            circuit.and(alloc, a, one)
        }
        Root::Odd => {
            let odd = circuit.xor(alloc, a, b)?;
            circuit.xor(alloc, odd, c)
        }
    }
}

/// How many variables and clauses the root's set has, if this graph then has three inputs and at most three gates.
fn sizes_in(alloc: Global, graph: &mut Aig, root: Root) -> Result<Option<(u32, u32)>, AllocError> {
    let literal = build(alloc, graph, root)?;
    if graph.input_count() != 3 || graph.gates().len() > 3 {
        return Ok(None);
    }
    let set = clauses_of(alloc, graph, literal)?;
    Ok(Some((set.count, set.clause_count())))
}

/// How many variables and clauses the root's set has, if its graph has three inputs and at most three gates.
fn sizes(alloc: Global, root: Root) -> Result<Option<(u32, u32)>, AllocError> {
    let mut graph = Aig::new(alloc);
    sizes_in(alloc, &mut graph, root)
}

/// Roots, and how many variables and clauses their sets have: there are variables for the inputs, for the gates that
/// the root depends on, and for the constant where it is used.
static SIZES: [(Root, u32, u32); 8] = [
    (Root::And, 4, 4),
    (Root::Xor, 4, 5),
    (Root::Mux, 4, 5),
    (Root::NotBoth, 4, 4),
    (Root::One, 4, 2),
    (Root::Input, 3, 1),
    (Root::AndOne, 3, 1),
    (Root::Odd, 5, 9),
];

#[test]
fn sets_name_only_what_is_needed(rt: HostRuntime) -> Result<(), Fail> {
    for (root, variables, clauses) in &SIZES {
        let found = sizes(rt.alloc(), *root)?;
        assert_eq!(rt; found, Some((*variables, *clauses)), "{root:?}");
    }
    Ok(())
}
