//! Sets of clauses.

ghost use Rattle.std.specs.Prelude.{◌+◌, ◌^◌, ◌<◌, length, All};
ghost use Rattle.clauses.specs.Literal.{VariablesWithin, IsVariable};

use crate::Clause;
use crate::literal::{are_variables, are_within};
use lists::List;

/// A set of clauses in conjunctive normal form. Its variables are the numbers from 1 to `count`.
#[derive(Debug, Drop)]
pub struct Cnf {
    /// The clauses that define each gate's variable by its operands (Tseitin's encoding).
    pub gates: List<Clause>,
    /// The clauses that assert what is asked, beside the definitions of the gates.
    pub roots: List<Clause>,
    /// The variables of the circuit's inputs, in order.
    pub inputs: List<u32>,
    /// How many variables there are.
    pub count: u32,
    pub ghost gate_variables: { VariablesWithin count gates },
    pub ghost root_variables: { VariablesWithin count roots },
    pub ghost input_variables: { All (IsVariable count) inputs },
    pub ghost few_variables: { count < 2 ^ 31 },
    pub ghost few_clauses: { length gates + length roots < 2 ^ 31 },
}

impl Cnf {
    ghost use Rattle.std.specs.Prelude.{◌≡◌, ◌↔◌, ◌<◌, length, IfSome, IsSome, Some, slice_get};
    ghost use Rattle.clauses.specs.ClauseSet.{IsMadeOf, MakeSet, all_clauses};

    /// The set of these parts. It is `None` exactly where a variable of a clause or an input isn't
    /// one of the numbers from 1 to `count`, or there are 2^31 variables or clauses or more.
    pub fn new(
        gates: List<Clause>,
        roots: List<Clause>,
        inputs: List<u32>,
        count: u32,
    ) -> Option<Cnf>
        ensures ok { IfSome result (IsMadeOf gates roots inputs count) }
        ensures exact { IsSome result ↔ MakeSet gates roots inputs count }
    {
        let few = count < 1 << 31 && gates.len() + roots.len() < 1 << 31;
        if few
            && are_within(count, gates.as_slice())
            && are_within(count, roots.as_slice())
            && are_variables(count, inputs.as_slice())
        {
            Some(Cnf {
                gates,
                roots,
                inputs,
                count,
            })
        } else {
            None
        }
    }

    /// How many clauses there are, gates and roots together.
    pub fn clause_count(&self) -> u32
        ensures { result ≡ length (all_clauses self.now) }
    {
        (self.gates.len() + self.roots.len()) as u32
    }

    /// The clause of a number. Clauses are numbered from 0, gates first.
    pub fn clause(&self, number: u32) -> &Clause
        requires { number < length (all_clauses self.now) }
        ensures { slice_get (all_clauses self.now) number ≡ Some result.now }
    {
        let place = number as usize;
        let gates = self.gates.as_slice();
        if place < gates.len() {
            &gates[place]
        } else {
            &self.roots.as_slice()[place - gates.len()]
        }
    }
}
