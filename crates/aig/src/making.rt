//! Gates are made, unless they fold to a literal of the graph.
ghost use Rattle.std.specs.Prelude.{◌≡◌, Bool, false, List as Seq, ◌&&◌, if◌then◌else◌, IfOk, IfSome, OnErr};
ghost use Rattle.std.specs.Bool.{xor};
ghost use Rattle.aig.specs.Gate.{AreApart};
ghost use Rattle.circuits.specs.Circuit.{Adds};
ghost use Rattle.aig.specs.Graph.{IsOwn, node_value, gate_values, value_of, graph_state};
ghost use Rattle.aig.specs.Parts.{HasParts};
ghost use Rattle.aig.specs.Stands.{Stands};

use crate::folding::{Choice, folded_and, folded_mux, folded_xor};
use crate::gate::Gate;
use crate::graph::Aig;
use crate::literal::Literal;
use crate::two_levels::{Parts, met, settled};
use std::alloc::AllocError;

impl Aig {
    /// The conjunction of two literals.
    pub(crate) fn both(&mut self, a: Literal, b: Literal) -> Result<Literal, AllocError>
        requires own_a { IsOwn self.old a }
        requires own_b { IsOwn self.old b }
        ensures stands { IfOk result (Stands self.new (λ inputs. value_of self.old inputs a && value_of self.old inputs b)) }
        ensures adds { Adds graph_state self.old self.new 1 }
        ensures err { OnErr result (self.new ≡ self.old) }
    {
        if let Some(known) = folded_and(a, b) {
            return Ok(known);
        }
        if let Some(known) = self.beneath(a, b) {
            return Ok(known);
        }
        self.push(Gate::and(a, b))
    }

    /// The conjunction of two literals, where it folds to a literal of the graph by the operands of
    /// their gates.
    fn beneath(&self, a: Literal, b: Literal) -> Option<Literal>
        requires own_a { IsOwn self.now a }
        requires own_b { IsOwn self.now b }
        ensures { IfSome result (Stands self.now (λ inputs. value_of self.now inputs a && value_of self.now inputs b)) }
    {
        let parts = self.parts(a);
        let others = self.parts(b);
        if let Some(known) = settled(a, &parts, b) {
            return Some(known);
        }
        if let Some(known) = settled(b, &others, a) {
            return Some(known);
        }
        if let Some(known) = met(a, &parts, b, &others) {
            return Some(known);
        }
        if let Some(known) = self.with_one_part(a, &parts, b) {
            return Some(known);
        }
        self.with_one_part(b, &others, a)
    }

    /// The xor of two literals.
    pub(crate) fn one_of(&mut self, a: Literal, b: Literal) -> Result<Literal, AllocError>
        requires own_a { IsOwn self.old a }
        requires own_b { IsOwn self.old b }
        ensures stands { IfOk result (Stands self.new (λ inputs. xor (value_of self.old inputs a) (value_of self.old inputs b))) }
        ensures adds { Adds graph_state self.old self.new 1 }
        ensures err { OnErr result (self.new ≡ self.old) }
    {
        let made = self.one_of_plain(a.plain(), b.plain())?;
        if a.is_negated() == b.is_negated() {
            Ok(made)
        } else {
            Ok(made.negation())
        }
    }

    /// The xor of two literals that aren't negated.
    fn one_of_plain(&mut self, a: Literal, b: Literal) -> Result<Literal, AllocError>
        requires own_a { IsOwn self.old a }
        requires own_b { IsOwn self.old b }
        requires plain_a { a.negated ≡ false }
        requires plain_b { b.negated ≡ false }
        ensures stands { IfOk result (Stands self.new (λ inputs. xor (value_of self.old inputs a) (value_of self.old inputs b))) }
        ensures adds { Adds graph_state self.old self.new 1 }
        ensures err { OnErr result (self.new ≡ self.old) }
    {
        match folded_xor(a, b) {
            Some(known) => Ok(known),
            None => self.push(Gate::xor(a, b)),
        }
    }

    /// The choice that is the first arm where the condition is true, and else the second. The
    /// condition isn't negated.
    pub(crate) fn chosen(
        &mut self,
        condition: Literal,
        yes: Literal,
        no: Literal,
    ) -> Result<Literal, AllocError>
        requires own_condition { IsOwn self.old condition }
        requires own_yes { IsOwn self.old yes }
        requires own_no { IsOwn self.old no }
        requires plain { condition.negated ≡ false }
        ensures stands { IfOk result (Stands self.new (λ inputs.
            if value_of self.old inputs condition then value_of self.old inputs yes else value_of self.old inputs no)) }
        ensures adds { Adds graph_state self.old self.new 1 }
        ensures err { OnErr result (self.new ≡ self.old) }
    {
        match folded_mux(condition, yes, no) {
            Choice::Known(known) => Ok(known),
            Choice::Both(a, b) => self.both(a, b),
            Choice::NotBoth(a, b) => Ok(self.both(a, b)?.negation()),
            Choice::OneOf(a, b) => self.one_of(a, b),
            Choice::Open => self.open_choice(condition, yes, no),
        }
    }

    /// A choice that doesn't fold, as a gate whose first arm isn't negated.
    fn open_choice(
        &mut self,
        condition: Literal,
        yes: Literal,
        no: Literal,
    ) -> Result<Literal, AllocError>
        requires own_condition { IsOwn self.old condition }
        requires own_yes { IsOwn self.old yes }
        requires own_no { IsOwn self.old no }
        requires plain { condition.negated ≡ false }
        requires condition_yes { AreApart condition.node yes.node }
        requires condition_no { AreApart condition.node no.node }
        requires arms { AreApart yes.node no.node }
        ensures stands { IfOk result (Stands self.new (λ inputs.
            if value_of self.old inputs condition then value_of self.old inputs yes else value_of self.old inputs no)) }
        ensures adds { Adds graph_state self.old self.new 1 }
        ensures err { OnErr result (self.new ≡ self.old) }
    {
        if yes.is_negated() {
            let made = self.push(Gate::Mux(condition, yes.negation(), no.negation()))?;
            Ok(made.negation())
        } else {
            self.push(Gate::Mux(condition, yes, no))
        }
    }

    /// The conjunction of a and b, where a is not (x and y) and b is one of x and y: that of b and the
    /// negation of the other one, if the graph has that gate.
    fn with_one_part(&self, a: Literal, parts: &Parts, b: Literal) -> Option<Literal>
        requires own_b { IsOwn self.now b }
        requires parts { (inputs : Seq Bool) → HasParts (node_value inputs (gate_values inputs self.now.gates)) a parts.now }
        ensures { IfSome result (Stands self.now (λ inputs. value_of self.now inputs a && value_of self.now inputs b)) }
    {
        match parts {
            Parts::NotBoth(x, y) if *x == b => self.found(b, y.negation()),
            Parts::NotBoth(x, y) if *y == b => self.found(b, x.negation()),
            _ => None,
        }
    }
}
