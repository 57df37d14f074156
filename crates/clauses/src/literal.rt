//! Literals, and clauses as lists of them.

ghost use Rattle.std.specs.Prelude.{◌≡◌, ◌^◌, ◌<◌, ◌↔◌, All, IsTrue};
ghost use Rattle.clauses.specs.Literal.{IsVariable, IsWithin, VariablesWithin, negation_of};

use lists::ShortList;
use std::marker::Model;

/// A variable or its negation.
///
/// It is kept as a code: twice the number of the variable, and one more where it is negated.
#[derive(Clone, Copy, Debug, Default, PartialEq, Eq)]
pub struct Lit {
    code: u32,
}

/// A disjunction of literals: true where one of them is. The empty clause is never true.
pub type Clause = ShortList<Lit, 4>;

impl Model for Lit {
    ghost use Rattle.std.proofs.Common.{ap};
    ghost use Rattle.clauses.specs.Literal.{Lit, literal_at, code_of, code_of-literal_at};

    ghost Value = { Lit };

    ghost view = { λ l. literal_at l.code };

    ghost inverse = { λ l. record { code = code_of l } };

    ghost inverse_ok = { λ l h. ap (λ n. record { code = n }) (code_of-literal_at l.code) };
}

impl Lit {
    /// The variable of this number, or its negation.
    pub fn new(variable: u32, negated: bool) -> Lit
        requires { variable < 2 ^ 31 }
        ensures { result ≡ record { variable = variable; negated = negated } }
    {
        Lit {
            code: 2 * variable + u32::from(negated),
        }
    }

    /// The number of the variable; those of a set are numbered from 1.
    pub fn variable(self) -> u32
        ensures { result ≡ self.variable }
    {
        self.code / 2
    }

    /// Whether the literal is the variable's negation.
    pub fn is_negated(self) -> bool
        ensures { result ≡ self.negated }
    {
        self.code % 2 == 1
    }

    /// The literal that is true exactly where this one is false.
    pub fn negation(self) -> Lit
        ensures { result ≡ negation_of self }
    {
        Lit {
            code: self.code ^ 1,
        }
    }
}

/// Whether each variable of the clause is one of the numbers from 1 to the count.
pub fn is_within(count: u32, clause: &[Lit]) -> bool
    ensures { IsTrue result ↔ IsWithin count clause.now }
{
    clause.iter().all(|literal| 1 <= literal.variable() && literal.variable() <= count)
}

/// Whether each variable of the clauses is one of the numbers from 1 to the count.
pub(crate) fn are_within(count: u32, clauses: &[Clause]) -> bool
    ensures { IsTrue result ↔ VariablesWithin count clauses.now }
{
    clauses
        .iter()
        .all(|clause| is_within(count, clause.as_slice()))
}

/// Whether each of the numbers is one from 1 to the count.
pub(crate) fn are_variables(count: u32, numbers: &[u32]) -> bool
    ensures { IsTrue result ↔ All (IsVariable count) numbers.now }
{
    numbers.iter().all(|&number| 1 <= number && number <= count)
}
