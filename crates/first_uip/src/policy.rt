//! What no contract says of the search: which variable it decides, with which value, and when and how far it restarts.

ghost use Rattle.std.specs.Prelude.{◌≡◌, ◌+◌, ◌<◌, ℕ, length, IfOk, IfSome, IfNone};
ghost use Rattle.clauses.specs.Literal.{IsVariable};
ghost use Rattle.depth_first.specs.TrailEntries.{literals, IsOpen, IsSet};

use crate::order::Order;
use crate::restarts::Restarts;
use clauses::{Cnf, Lit};
use depth_first::{Entry, Trail};
use std::alloc::{AllocError, Global};

/// What the search has noted for these choices.
#[derive(Drop)]
pub(crate) struct Policy {
    order: Order,
    /// For each variable whether its last value was false (phase saving).
    pub(crate) negated: Vec<bool>,
    restarts: Restarts,
    ghost sizes: { length order.activities.items ≡ length negated.items },
}

/// The first variable without a value.
fn open_variable(cnf: &Cnf, trail: &Trail) -> Option<u32>
    requires { length trail.now.values.items ≡ cnf.now.count + 1 }
    ensures found { IfSome result (λ n. IsVariable cnf.now.count n × IsOpen (literals trail.now.entries.items) n) }
    ensures none { IfNone result ((n : ℕ) → IsVariable cnf.now.count n → IsSet (literals trail.now.entries.items) n) }
{
    for variable in 1..cnf.count + 1 {
        if trail.value(variable).is_none() {
            return Some(variable);
        }
    }
    None
}

impl Policy {
    ghost use Rattle.std.specs.Prelude.{◌≡◌, ◌+◌, ◌<◌, ◌≤◌, ℕ, length, IfOk, IfSome, IfNone};
    ghost use Rattle.clauses.specs.Literal.{IsVariable};
    ghost use Rattle.depth_first.specs.TrailEntries.{literals, IsOpen, IsSet};
    ghost use Rattle.first_uip.specs.Shown.{VariablesBelow};
    ghost use Rattle.first_uip.specs.Conflict.{DecidedAt};

    /// Nothing is noted yet.
    pub(crate) fn new(alloc: Global, cnf: &Cnf) -> Result<Policy, AllocError>
        ensures { IfOk result (λ policy. length policy.negated.items ≡ cnf.now.count + 1) }
    {
        Ok(Policy {
            order: Order::new(alloc, cnf.count)?,
            negated: vec![in alloc; false; cnf.count as usize + 1]?,
            restarts: Restarts::new(),
        })
    }

    /// The literal to decide: of the most active variable without a value, with the variable's last value.
    pub(crate) fn decision(&mut self, cnf: &Cnf, trail: &Trail) -> Option<Lit>
        requires sizes { length self.old.negated.items ≡ cnf.now.count + 1 }
        requires variables { length trail.now.values.items ≡ cnf.now.count + 1 }
        ensures sizes { length self.new.negated.items ≡ length self.old.negated.items }
        ensures found { IfSome result (λ l. IsVariable cnf.now.count l.variable × IsOpen (literals trail.now.entries.items) l.variable) }
        ensures none { IfNone result ((n : ℕ) → IsVariable cnf.now.count n → IsSet (literals trail.now.entries.items) n) }
    {
        let variable = match self.active_variable(trail) {
            Some(variable) => variable,
            None => open_variable(cnf, trail)?,
        };
        Some(Lit::new(variable, self.negated[variable as usize]))
    }

    /// The most active one of the variables in the order that have no value. It is taken out of the order, with the
    /// more active ones.
    fn active_variable(&mut self, trail: &Trail) -> Option<u32>
        requires { length trail.now.values.items ≡ length self.old.negated.items }
        ensures sizes { length self.new.negated.items ≡ length self.old.negated.items }
        ensures first { IfSome result (λ n. 0 < n) }
        ensures last { IfSome result (λ n. n < length self.old.negated.items) }
        ensures unset { IfSome result (IsOpen (literals trail.now.entries.items)) }
    {
        while let Some(variable) = self.order.pop() {
            if trail.value(variable).is_none() {
                return Some(variable);
            }
        }
        None
    }

    /// For the entries from a place on, which are to be popped: their values are saved, and their variables go back
    /// into the order.
    pub(crate) fn release(&mut self, trail: &Trail, place: usize) -> Result<(), AllocError>
        requires { length trail.now.values.items ≡ length self.old.negated.items }
        ensures { length self.new.negated.items ≡ length self.old.negated.items }
    {
        for released in place..trail.entries.len() {
            let literal = trail.entries[released].literal;
            self.negated[literal.variable() as usize] = literal.is_negated();
            self.order.insert(literal.variable())?;
        }
        Ok(())
    }

    /// The place of the decision to which a restart goes back: the first one on a variable that is less active than the
    /// next variable to be decided, or `jump`, the place of the backjump, if there is none before it. The decisions
    /// before that would be made again (van der Tak, Ramos and Heule, "Reusing the assignment trail in CDCL solvers").
    pub(crate) fn restart_place(
        &mut self,
        trail: &Trail,
        places: &[usize],
        jump: usize,
    ) -> Result<usize, AllocError>
        requires variables { length trail.now.values.items ≡ length self.old.negated.items }
        requires places { length places.now ≡ length self.old.negated.items }
        requires decided { DecidedAt trail.now.entries.items jump }
        ensures sizes { length self.new.negated.items ≡ length self.old.negated.items }
        ensures decided { IfOk result (DecidedAt trail.now.entries.items) }
        ensures within { IfOk result (λ place. place ≤ jump) }
    {
        self.release(trail, jump)?;
        let Some(next) = self.next_variable(trail, places, jump) else {
            return Ok(jump);
        };
        for place in 0..jump {
            let entry = trail.entries[place];
            if entry.cause.is_decision()
                && self.order.is_less_active(entry.literal.variable(), next)
            {
                return Ok(place);
            }
        }
        Ok(jump)
    }

    /// The most active one of the variables in the order that have no value once the entries from a place on are
    /// popped.
    fn next_variable(&mut self, trail: &Trail, places: &[usize], start: usize) -> Option<u32>
        requires variables { length trail.now.values.items ≡ length self.old.negated.items }
        requires places { length places.now ≡ length self.old.negated.items }
        ensures sizes { length self.new.negated.items ≡ length self.old.negated.items }
        ensures last { IfSome result (λ n. n < length self.old.negated.items) }
    {
        while let Some(variable) = self.order.first() {
            if trail.value(variable).is_none() || places[variable as usize] >= start {
                return Some(variable);
            }
            self.order.drop_first();
        }
        None
    }

    /// Counts a conflict, with the entries on which it rests, whose variables are bumped, and the levels that its
    /// clause spans. The answer is whether the search is to restart.
    pub(crate) fn count_conflict(&mut self, shown: &[Entry], levels: u32) -> bool
        requires { VariablesBelow (length self.old.negated.items) shown.now }
        ensures { length self.new.negated.items ≡ length self.old.negated.items }
    {
        for entry in shown {
            self.order.bump(entry.literal.variable());
        }
        self.order.decay();
        self.restarts.count_conflict(levels)
    }
}
