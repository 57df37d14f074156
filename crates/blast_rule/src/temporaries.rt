//! The temporaries of a source as literals.
ghost use Rattle.std.specs.Prelude.{◌≡◌, ◌+◌, Bool, List as Seq, length, map, IfOk};
ghost use Rattle.std.specs.List.{All};
ghost use Rattle.circuits.specs.Circuit.{Adds};
ghost use Rattle.rule_core.specs.Checks.{IsRule};
ghost use Rattle.rule_core.specs.Typing.{IsTyping};
ghost use Rattle.rule_core.specs.Run.{Given, temporaries_of};
ghost use Rattle.rule_core.specs.Valid.{InputsFit};
ghost use Rattle.rule_core.specs.Readiness.{ValuesFit, GivenFits};
ghost use Rattle.blast_value.specs.Effect.{IsOwn};
ghost use Rattle.blast_rule.specs.Gates.{run_gates};
ghost use Rattle.blast_rule.specs.Runs.{shape, given_shape, IsGiven, TemporariesRan};
ghost use Rattle.blast_term.specs.Scope.{ScopeIsOwn};

use crate::statement::blast_next;
use blast_term::Scope;
use blast_value::{Blasted, Held};
use circuits::Circuit;
use ops::Width;
use rule_core::Rule;
use std::alloc::{AllocError, Global};

/// The values that statements have assigned, and whether one of them has undefined behaviour.
#[derive(Drop)]
pub(crate) struct Assigned<L> {
    pub(crate) held: Vec<Held<L>>,
    pub(crate) undefined: L,
}

/// The values of the source's temporaries, which read of `scope` no registers but inputs, and one
/// another.
pub(crate) fn blast_temporaries<C: Circuit>(
    alloc: Global,
    c: &mut C,
    rule: &Rule,
    typing: &[Width],
    scope: Scope<C::Literal>,
) -> Result<Assigned<C::Literal>, AllocError>
    requires rule { IsRule rule.now }
    requires typing { IsTyping rule.now typing.now }
    requires inputs { InputsFit rule.now typing.now (map shape scope.inputs.now) }
    requires given { GivenFits rule.now typing.now (temporaries_of rule.now) (given_shape scope) }
    requires own { ScopeIsOwn (C.has_literal c.old) scope }
    ensures ran { IfOk result (λ made. (inputs : Seq Bool) (given : Given) → C.admits c.old inputs →
        IsGiven (C.value c.old inputs) scope.entry given →
        TemporariesRan (C.value c.new inputs) rule.now typing.now given scope.entry.inputs.now
        made.held.items made.undefined) }
    ensures count { IfOk result (λ made. length made.held.items + 1 ≡ length rule.now.source) }
    ensures fit { IfOk result (λ made. ValuesFit typing.now rule.now.source (map shape made.held.items)) }
    ensures own { IfOk result (λ made. All (IsOwn (C.has_literal c.new)) made.held.items) }
    ensures own_undefined { IfOk result (λ made. C.has_literal c.new made.undefined) }
    ensures adds { Adds C.State c.old c.new
        (run_gates typing.now (temporaries_of rule.now)) }
{
    let mut held = Vec::new(alloc);
    let mut undefined = c.zero();
    for place in 0..rule.source.len() - 1 {
        let scope = Scope {
            source: &held,
            target: &[],
            ..scope
        };
        let statement = &rule.source.as_slice()[place];
        let made = blast_next(alloc, c, typing, scope, statement, undefined)?;
        undefined = made.undefined;
        held.push(held_of(made))?;
    }
    Ok(Assigned { held, undefined })
}

/// The literals of the register of a statement, after it.
pub(crate) fn held_of<L: Copy>(made: Blasted<L>) -> Held<L>
    ensures { result ≡ record { bits = made.bits; poison = made.poison } }
{
    let Blasted { bits, poison, .. } = made;
    Held { bits, poison }
}
