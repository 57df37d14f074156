//! Occurrence lists: which clauses to look at when a literal becomes false.

ghost use Rattle.std.specs.Prelude.{◌≡◌, ◌+◌, ◌<◌, ◌^◌, ◌++◌, ◌∷◌, [], length, replicate, slice_set, slice_index_or, IfOk, OnOk};

use clauses::{Cnf, Lit};
use lists::List;
use std::alloc::{AllocError, Global};

/// For each literal, by its variable, the numbers of the clauses in which it stands.
#[derive(Drop)]
pub(crate) struct Occurrences {
    positive: Vec<List<u32>>,
    negative: Vec<List<u32>>,
}

impl Occurrences {
    ghost use Rattle.std.specs.Prelude.{◌≡◌, ◌+◌, ◌<◌, ◌^◌, [], length, All, IfOk, OnOk};
    ghost use Rattle.clauses.specs.Literal.{Lit};
    ghost use Rattle.depth_first.specs.OccurrenceLists.{numbers_of, CoversBelow, AddsNumber, AddsClause, IsIndexOf};

    /// The occurrence lists of the clauses of a set.
    pub(crate) fn new(alloc: Global, cnf: &Cnf) -> Result<Occurrences, AllocError>
        ensures { IfOk result (IsIndexOf cnf.now) }
    {
        let mut occurrences = Occurrences::empty(alloc, cnf.count)?;
        for number in 0..cnf.clause_count() {
            occurrences.add(cnf.clause(number).as_slice(), number)?;
        }
        Ok(occurrences)
    }

    /// Empty lists for the variables from 1 to `count`.
    fn empty(alloc: Global, count: u32) -> Result<Occurrences, AllocError>
        requires { count + 1 < 2 ^ 32 }
        ensures covers { IfOk result (CoversBelow (count + 1)) }
        ensures none { IfOk result (λ lists. (l : Lit) → numbers_of lists l ≡ []) }
    {
        Ok(Occurrences {
            positive: no_numbers(alloc, count)?,
            negative: no_numbers(alloc, count)?,
        })
    }

    /// The numbers of the clauses in which the literal stands.
    pub(crate) fn of(&self, literal: Lit) -> &[u32]
        requires positive { literal.variable < length self.now.positive.items }
        requires negative { literal.variable < length self.now.negative.items }
        ensures { result.now ≡ numbers_of self.now literal }
    {
        if literal.is_negated() {
            self.negative[literal.variable() as usize].as_slice()
        } else {
            self.positive[literal.variable() as usize].as_slice()
        }
    }

    /// Adds the number of a clause to the list of each of its literals.
    fn add(&mut self, clause: &[Lit], number: u32) -> Result<(), AllocError>
        requires covers { CoversBelow (length self.old.positive.items) self.old }
        requires within { All (λ l. l.variable < length self.old.positive.items) clause.now }
        ensures covers { CoversBelow (length self.old.positive.items) self.new }
        ensures adds { OnOk result (AddsClause self.old self.new clause.now number) }
    {
        for &literal in clause {
            self.add_literal(literal, number)?;
        }
        Ok(())
    }

    /// Adds a number to the list of one literal.
    fn add_literal(&mut self, literal: Lit, number: u32) -> Result<(), AllocError>
        requires positive { literal.variable < length self.old.positive.items }
        requires negative { literal.variable < length self.old.negative.items }
        ensures positive { length self.new.positive.items ≡ length self.old.positive.items }
        ensures negative { length self.new.negative.items ≡ length self.old.negative.items }
        ensures adds { OnOk result (AddsNumber self.old self.new literal number) }
    {
        if literal.is_negated() {
            add_at(&mut self.negative, literal.variable(), number)?;
        } else {
            add_at(&mut self.positive, literal.variable(), number)?;
        }
        Ok(())
    }
}

/// Adds a number to the list at a place.
fn add_at(lists: &mut Vec<List<u32>>, place: u32, number: u32) -> Result<(), AllocError>
    requires { place < length lists.old.items }
    ensures sizes { length lists.new.items ≡ length lists.old.items }
    ensures adds { OnOk result (lists.new.items ≡ slice_set lists.old.items place (slice_index_or lists.old.items place [] ++ number ∷ [])) }
{
    lists[place as usize].push(number)
}

/// An empty list for each number from 0 to `count`.
fn no_numbers(alloc: Global, count: u32) -> Result<Vec<List<u32>>, AllocError>
    requires { count + 1 < 2 ^ 32 }
    ensures { IfOk result (λ lists. lists.items ≡ replicate (count + 1) []) }
{
    let mut lists = Vec::new(alloc);
    for _i in 0..count + 1 {
        lists.push(List::new(alloc))?;
    }
    Ok(lists)
}
