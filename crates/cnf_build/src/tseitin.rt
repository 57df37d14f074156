//! The clauses of definitions (Tseitin's encoding).
ghost use Rattle.std.specs.Prelude.{◌≡◌, ◌+◌, ◌^◌, ◌<◌, [], ◌∷◌, ◌++◌, length, IfOk, OnOk};
ghost use Rattle.cnf_build.specs.Definitions.{clauses_of_definition, clauses_from};

use crate::definition::Definition;
use clauses::{Clause, Lit};
use lists::List;
use std::alloc::{AllocError, Global};

/// The clauses of definitions in order, the first of which defines the variable `first`.
pub(crate) fn clauses_from(
    alloc: Global,
    first: u32,
    definitions: &[Definition],
) -> Result<List<Clause>, AllocError>
    requires { first + length definitions.now < 2 ^ 31 }
    ensures { IfOk result (λ clauses. clauses ≡ clauses_from first definitions.now) }
{
    let mut clauses = List::new(alloc);
    let mut variable = first;
    for definition in definitions {
        push_definition(alloc, &mut clauses, variable, *definition)?;
        variable += 1;
    }
    Ok(clauses)
}

/// Adds the clauses of a definition: all are true exactly where the variable has the definition's
/// value.
fn push_definition(
    alloc: Global,
    clauses: &mut List<Clause>,
    variable: u32,
    definition: Definition,
) -> Result<(), AllocError>
    requires { variable < 2 ^ 31 }
    ensures { OnOk result (clauses.new ≡ clauses.old ++ clauses_of_definition variable definition) }
{
    let yes = Lit::new(variable, false);
    let no = yes.negation();
    match definition {
        Definition::One => push_clause(alloc, clauses, &[yes]),
        Definition::And(a, b) => {
            push_clause(alloc, clauses, &[no, a])?;
            push_clause(alloc, clauses, &[no, b])?;
            push_clause(alloc, clauses, &[yes, a.negation(), b.negation()])
        }
        Definition::Xor(a, b) => {
            push_clause(alloc, clauses, &[no, a, b])?;
            push_clause(alloc, clauses, &[no, a.negation(), b.negation()])?;
            push_clause(alloc, clauses, &[yes, a.negation(), b])?;
            push_clause(alloc, clauses, &[yes, a, b.negation()])
        }
        Definition::Mux(condition, a, b) => {
            push_clause(alloc, clauses, &[no, condition.negation(), a])?;
            push_clause(alloc, clauses, &[yes, condition.negation(), a.negation()])?;
            push_clause(alloc, clauses, &[no, condition, b])?;
            push_clause(alloc, clauses, &[yes, condition, b.negation()])
        }
    }
}

/// Adds the clause of these literals.
pub(crate) fn push_clause(
    alloc: Global,
    clauses: &mut List<Clause>,
    literals: &[Lit],
) -> Result<(), AllocError>
    ensures { OnOk result (clauses.new ≡ clauses.old ++ literals.now ∷ []) }
{
    clauses.push(Clause::from_slice(alloc, literals)?)
}
