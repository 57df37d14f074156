//! The clause set of a root: the clauses of the gates that it needs, and its unit clause.
ghost use Rattle.std.specs.Prelude.{◌≡◌, true, ◌+◌, ◌*◌, ◌^◌, ◌<◌, ◌≤◌, [], ◌∷◌, length, IfOk, All, EachIndex, slice_index};
ghost use Rattle.aig.specs.Graph.{IsOwn, value_of};
ghost use Rattle.clauses.specs.Literal.{IsVariable};
ghost use Rattle.clauses.specs.Settings.{StandsFor};
ghost use Rattle.cnf_build.specs.Definitions.{clauses_from, AreOverSmaller, NamesOnce};

use crate::definition::Definition;
use crate::naming::Naming;
use crate::needed::Needed;
use crate::tseitin::{clauses_from, push_clause};
use aig::{Aig, Literal};
use clauses::{Clause, Cnf, Lit};
use lists::List;
use std::alloc::{AllocError, Global};

/// A clause set that stands for the test that the root is true (Tseitin's encoding): a variable for
/// each gate that the root needs, clauses that make it equal to the gate's value, and the root as a
/// unit clause.
///
/// The set's inputs are those of the graph, in order, also those on which the root doesn't depend.
/// The only error is want of memory.
pub fn clauses_of(alloc: Global, aig: &Aig, root: Literal) -> Result<Cnf, AllocError>
    requires own { IsOwn aig.now root }
    requires few { aig.now.inputs + length aig.now.gates < 2 ^ 28 }
    ensures stands { IfOk result (λ set. StandsFor set (λ values. value_of aig.now values root ≡ true)) }

    // So no clause of a gate has a literal twice, or with its negation.
    ensures once { IfOk result (λ set. All NamesOnce set.gates) }

    // One variable at most for each input and gate, and one for the constant.
    ensures count { IfOk result (λ set. set.count ≤ aig.now.inputs + length aig.now.gates + 1) }
    ensures inputs { IfOk result (λ set. length set.inputs ≡ aig.now.inputs) }

    // Four clauses at most for each gate, and one for the constant.
    ensures gates { IfOk result (λ set. length set.gates ≤ 4 * length aig.now.gates + 1) }
    ensures root { IfOk result (λ set. length set.roots ≡ 1) }
{
    let gates = aig.gates();
    let inputs = aig.input_count() as u32;
    let needed = Needed::by(alloc, gates, root)?;
    let naming = Naming::of(alloc, inputs, gates, &needed)?;
    encode(alloc, inputs, naming.definitions(), naming.literal(root))
}

/// The set of these definitions' clauses, with the root as its root clause. The variables are
/// numbered from 1: those of the inputs, and then one for each definition.
fn encode(
    alloc: Global,
    inputs: u32,
    definitions: &[Definition],
    root: Lit,
) -> Result<Cnf, AllocError>
    requires few { inputs + length definitions.now ≤ 2 ^ 28 }
    requires over_smaller { AreOverSmaller (inputs + 1) definitions.now }
    requires root { IsVariable (inputs + length definitions.now) root.variable }
    ensures gates { IfOk result (λ set. set.gates ≡ clauses_from (inputs + 1) definitions.now) }
    ensures roots { IfOk result (λ set. set.roots ≡ (root ∷ []) ∷ []) }
    ensures input_count { IfOk result (λ set. length set.inputs ≡ inputs) }
    ensures inputs { IfOk result (λ set. EachIndex set.inputs (λ k. slice_index set.inputs k ≡ k + 1)) }
    ensures count { IfOk result (λ set. set.count ≡ inputs + length definitions.now) }
{
    let gates = clauses_from(alloc, inputs + 1, definitions)?;
    Ok(Cnf {
        gates,
        roots: root_clauses(alloc, root)?,
        inputs: input_variables(alloc, inputs)?,
        count: inputs + definitions.len() as u32,
    })
}

/// The root clauses: the unit clause that asserts the root's literal.
fn root_clauses(alloc: Global, root: Lit) -> Result<List<Clause>, AllocError>
    ensures { IfOk result (λ clauses. clauses ≡ (root ∷ []) ∷ []) }
{
    let mut clauses = List::new(alloc);
    push_clause(alloc, &mut clauses, &[root])?;
    Ok(clauses)
}

/// The numbers from 1 to `count`, in order.
fn input_variables(alloc: Global, count: u32) -> Result<List<u32>, AllocError>
    requires { count < 2 ^ 31 }
    ensures count { IfOk result (λ variables. length variables ≡ count) }
    ensures each { IfOk result (λ variables. EachIndex variables (λ k. slice_index variables k ≡ k + 1)) }
{
    let mut variables = List::new(alloc);
    for number in 0..count {
        variables.push(number + 1)?;
    }
    Ok(variables)
}
