//! The target of a rule as literals.
ghost use Rattle.std.specs.Prelude.{◌≡◌, ◌+◌, ◌-◌, ◌<◌, [], Bool, List as Seq, Some, length, map, slice_get, vec_len, IfOk};
ghost use Rattle.std.specs.List.{All};
ghost use Rattle.circuits.specs.Circuit.{Adds};
ghost use Rattle.rule_core.specs.Checks.{IsRule};
ghost use Rattle.rule_core.specs.Typing.{IsTyping};
ghost use Rattle.rule_core.specs.Run.{Given, given_by, TargetGoesOn};
ghost use Rattle.ops.specs.Number.{Number};
ghost use Rattle.rule_core.specs.Valid.{InputsFit};
ghost use Rattle.rule_core.specs.Readiness.{ValuesFit, GivenFits};
ghost use Rattle.blast_value.specs.Effect.{effect_of, IsOwn, IsOwnEffect};
ghost use Rattle.blast_rule.specs.Gates.{run_gates, root_width};
ghost use Rattle.blast_term.specs.Scope.{holds, ScopeIsOwn};
ghost use Rattle.blast_rule.specs.Runs.{shape, given_shape, IsGiven, TargetRan};

use crate::statement::blast_next;
use crate::temporaries::{Assigned, held_of};
use blast_term::Scope;
use blast_value::{Blasted, Held};
use circuits::Circuit;
use ops::Width;
use rule_core::Rule;
use std::alloc::{AllocError, Global};

/// The effect of the target after the source's temporaries, whose values `scope` has.
pub(crate) fn blast_target<C: Circuit>(
    alloc: Global,
    c: &mut C,
    rule: &Rule,
    typing: &[Width],
    scope: Scope<C::Literal>,
) -> Result<Blasted<C::Literal>, AllocError>
    requires rule { IsRule rule.now }
    requires typing { IsTyping rule.now typing.now }
    requires inputs { InputsFit rule.now typing.now (map shape scope.inputs.now) }
    requires source { ValuesFit typing.now rule.now.source (map shape scope.source.now) }
    requires count { length scope.source.now + 1 ≡ length rule.now.source }
    requires given { GivenFits rule.now typing.now rule.now.target (given_shape scope) }
    requires own { ScopeIsOwn (C.has_literal c.old) scope }
    ensures gives { IfOk result (λ made. (inputs : Seq Bool) (constants choices : Seq Number) → C.admits c.old inputs →
        IsGiven (C.value c.old inputs) scope.entry (given_by typing.now constants choices rule.now) →
        TargetGoesOn typing.now constants choices rule.now
        (holds (C.value c.old inputs) scope.entry.inputs.now scope.entry.source.now [])
        (effect_of (C.value c.new inputs) made)) }
    ensures width { IfOk result (λ made. length made.bits ≡ root_width rule.now typing.now) }
    ensures own { IfOk result (IsOwnEffect (C.has_literal c.new)) }
    ensures adds { Adds C.State c.old c.new
        (run_gates typing.now rule.now.target) }
{
    let Assigned { held, undefined } = blast_statements(alloc, c, rule, typing, scope)?;
    let Held { bits, poison } = last(held);
    Ok(Blasted {
        bits,
        poison,
        undefined,
    })
}

/// The value that the last statement has assigned.
fn last<L: Copy>(mut held: Vec<Held<L>>) -> Held<L>
    requires { 0 < vec_len held }
    ensures { slice_get held.items (length held.items - 1) ≡ Some result }
{
    match held.pop() {
        Some(last) => last,
        None => unreachable!(),
    }
}

/// The values that the target's statements assign, after the source's temporaries.
fn blast_statements<C: Circuit>(
    alloc: Global,
    c: &mut C,
    rule: &Rule,
    typing: &[Width],
    scope: Scope<C::Literal>,
) -> Result<Assigned<C::Literal>, AllocError>
    requires rule { IsRule rule.now }
    requires typing { IsTyping rule.now typing.now }
    requires inputs { InputsFit rule.now typing.now (map shape scope.inputs.now) }
    requires source { ValuesFit typing.now rule.now.source (map shape scope.source.now) }
    requires count { length scope.source.now + 1 ≡ length rule.now.source }
    requires given { GivenFits rule.now typing.now rule.now.target (given_shape scope) }
    requires own { ScopeIsOwn (C.has_literal c.old) scope }
    ensures ran { IfOk result (λ made. (inputs : Seq Bool) (given : Given) → C.admits c.old inputs →
        IsGiven (C.value c.old inputs) scope.entry given →
        TargetRan (C.value c.new inputs) rule.now typing.now given scope.entry.inputs.now scope.entry.source.now
        made.held.items made.undefined) }
    ensures count { IfOk result (λ made. length made.held.items ≡ length rule.now.target) }
    ensures fit { IfOk result (λ made. ValuesFit typing.now rule.now.target (map shape made.held.items)) }
    ensures own { IfOk result (λ made. All (IsOwn (C.has_literal c.new)) made.held.items) }
    ensures own_undefined { IfOk result (λ made. C.has_literal c.new made.undefined) }
    ensures adds { Adds C.State c.old c.new
        (run_gates typing.now rule.now.target) }
{
    let mut held = Vec::new(alloc);
    let mut undefined = c.zero();
    for statement in rule.target.as_slice() {
        let scope = Scope {
            target: &held,
            ..scope
        };
        let made = blast_next(alloc, c, typing, scope, statement, undefined)?;
        undefined = made.undefined;
        held.push(held_of(made))?;
    }
    Ok(Assigned { held, undefined })
}
