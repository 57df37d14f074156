//! The nodes of terms as literals.
ghost use Rattle.std.specs.Prelude.{◌≡◌, ◌<◌, Bool, List as Seq, length, map, slice_index, IfOk};
ghost use Rattle.std.specs.List.{All};
ghost use Rattle.ops.specs.Integer.{bits};
ghost use Rattle.circuits.specs.Circuit.{Adds};
ghost use Rattle.circuits.specs.Gates.{select_gates};
ghost use Rattle.circuits.specs.Word.{number_of};
ghost use Rattle.rule_core.specs.Terms.{Meanings, number_or_zero, term_value, values_of};
ghost use Rattle.blast_value.specs.Effect.{held_value, widths_of, IsOwn};
ghost use Rattle.blast_term.specs.Gates.{term_gates, terms_gates, numbers_gates};
ghost use Rattle.blast_term.specs.Terms.{MeansNames, TermIsHeld, TermsAreHeld, term_widths};
ghost use Rattle.blast_term.specs.Scope.{ScopeIsOwn};

use crate::function::{blast_function, blast_operator};
use crate::numbers::{number, number_or_zero, of_word, residue, valued, within};
use crate::scope::{Scope, at, register_held};
use crate::width::width_of;
use blast_value::Held;
use circuits::{Bits, Circuit};
use ops::Width;
use rule_core::{Node, Term};
use std::alloc::{AllocError, Global};

/// The values of the nodes of terms, in order.
pub fn blast_terms<C: Circuit>(
    alloc: Global,
    c: &mut C,
    typing: &[Width],
    scope: Scope<C::Literal>,
    terms: &[Term],
) -> Result<Vec<Held<C::Literal>>, AllocError>
    requires ready { TermsAreHeld typing.now scope terms.now }
    requires own { ScopeIsOwn (C.has_literal c.old) scope }
    ensures values { IfOk result (λ held. (inputs : Seq Bool) (names : Meanings) → C.admits c.old inputs →
        MeansNames (C.value c.old inputs) scope.entry names →
        map (held_value (C.value c.new inputs)) held.items ≡ values_of typing.now names terms.now) }
    ensures widths { IfOk result (λ held. widths_of held.items ≡ term_widths typing.now terms.now) }
    ensures own { IfOk result (λ held. All (IsOwn (C.has_literal c.new)) held.items) }
    ensures adds { Adds C.State c.old c.new
        (terms_gates typing.now terms.now) }
{
    let mut held = Vec::new(alloc);
    for term in terms {
        let made = blast_term(alloc, c, typing, scope, &held, *term)?;
        held.push(made)?;
    }
    Ok(held)
}

/// The value of a node, by the values of the nodes before it.
fn blast_term<C: Circuit>(
    alloc: Global,
    c: &mut C,
    typing: &[Width],
    scope: Scope<C::Literal>,
    before: &[Held<C::Literal>],
    term: Term,
) -> Result<Held<C::Literal>, AllocError>
    requires ready { TermIsHeld typing.now scope (widths_of before.now) term }
    requires own { ScopeIsOwn (C.has_literal c.old) scope }
    requires own_before { All (IsOwn (C.has_literal c.old)) before.now }
    ensures value { IfOk result (λ made. (inputs : Seq Bool) (names : Meanings) → C.admits c.old inputs →
        MeansNames (C.value c.old inputs) scope.entry names →
        held_value (C.value c.new inputs) made
        ≡ term_value typing.now names (map (held_value (C.value c.old inputs)) before.now) term) }
    ensures width { IfOk result (λ made. length made.bits ≡ slice_index typing.now term.class) }
    ensures own { IfOk result (IsOwn (C.has_literal c.new)) }
    ensures adds { Adds C.State c.old c.new (term_gates typing.now term) }
{
    let width = width_of(typing, term.class);
    match term.node {
        Node::Literal(literal) => number(alloc, c, width, residue(width, literal)),
        Node::Constant(k) => of_word(alloc, c, at(scope.constants, k)),
        Node::Register(register) => of_register(alloc, c, register_held(scope, register)),
        Node::Choice(k) => of_word(alloc, c, at(scope.choices, k)),
        Node::Width(_, class) => within(alloc, c, width, width_of(typing, class).bits()),
        Node::Unary(function, operand) => {
            blast_function(alloc, c, function, width, at(before, operand))
        }
        Node::Binary(op, left, right) => {
            blast_operator(alloc, c, op, width, at(before, left), at(before, right))
        }
    }
}

/// The number that a register holds, 0 where it holds poison.
fn of_register<C: Circuit>(
    alloc: Global,
    c: &mut C,
    held: &Held<C::Literal>,
) -> Result<Held<C::Literal>, AllocError>
    requires { IsOwn (C.has_literal c.old) held.now }
    ensures value { IfOk result (λ made. (inputs : Seq Bool) → C.admits c.old inputs →
        held_value (C.value c.new inputs) made
        ≡ bits (length held.now.bits) (number_or_zero (held_value (C.value c.old inputs) held.now))) }
    ensures width { IfOk result (λ made. length made.bits ≡ length held.now.bits) }
    ensures own { IfOk result (IsOwn (C.has_literal c.new)) }
    ensures adds { Adds C.State c.old c.new
        (select_gates (length held.now.bits)) }
{
    let bits = number_or_zero(alloc, c, held)?;
    Ok(valued(c, bits))
}

/// The number of each value, 0 where the value is poison.
pub fn numbers_or_zeros<C: Circuit>(
    alloc: Global,
    c: &mut C,
    held: &[Held<C::Literal>],
) -> Result<Vec<Bits<C::Literal>>, AllocError>
    requires { All (IsOwn (C.has_literal c.old)) held.now }
    ensures numbers { IfOk result (λ words. (inputs : Seq Bool) → C.admits c.old inputs →
        map (number_of (C.value c.new inputs)) words.items
        ≡ map number_or_zero (map (held_value (C.value c.old inputs)) held.now)) }
    ensures widths { IfOk result (λ words. map length words.items ≡ widths_of held.now) }
    ensures own { IfOk result (λ words. All (All (C.has_literal c.new)) words.items) }
    ensures adds { Adds C.State c.old c.new
        (numbers_gates (widths_of held.now)) }
{
    let mut words = Vec::new(alloc);
    for value in held {
        let word = number_or_zero(alloc, c, value)?;
        words.push(word)?;
    }
    Ok(words)
}
