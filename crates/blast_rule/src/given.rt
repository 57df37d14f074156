//! The constant terms of a rule and its precondition as literals.
ghost use Rattle.std.specs.Prelude.{◌≡◌, ◌↔◌, Bool, IsTrue, List as Seq, length, map, IfOk};
ghost use Rattle.std.specs.List.{All};
ghost use Rattle.circuits.specs.Circuit.{Adds};
ghost use Rattle.rule_core.specs.Checks.{IsRule};
ghost use Rattle.rule_core.specs.Typing.{IsTyping};
ghost use Rattle.rule_core.specs.Terms.{PreconditionHolds};
ghost use Rattle.blast_setting.specs.Inputs.{constant_widths};
ghost use Rattle.blast_rule.specs.Gates.{given_gates, widths_of_terms};
ghost use Rattle.blast_rule.specs.Runs.{AreTerms};
ghost use Rattle.blast_value.specs.Words.{number_held};

use blast_term::{Scope, blast_precondition, blast_terms, numbers_or_zeros};
use circuits::{Bits, Circuit};
use lists::List;
use ops::Width;
use rule_core::Rule;
use std::alloc::{AllocError, Global};

/// What the constants of a rule determine.
#[derive(Drop)]
pub(crate) struct GivenBits<L> {
    /// The number of each node of the rule's terms, 0 where it has no value.
    pub(crate) terms: List<Bits<L>>,
    /// Whether the precondition holds.
    pub(crate) met: L,
}

/// The constant terms of the rule and its precondition, at these numbers of the constants.
pub(crate) fn blast_given<C: Circuit>(
    alloc: Global,
    c: &mut C,
    rule: &Rule,
    typing: &[Width],
    constants: &[Bits<C::Literal>],
) -> Result<GivenBits<C::Literal>, AllocError>
    requires rule { IsRule rule.now }
    requires typing { IsTyping rule.now typing.now }
    requires widths { map length constants.now ≡ constant_widths rule.now typing.now }
    requires own { All (All (C.has_literal c.old)) constants.now }
    ensures terms { IfOk result (λ made. (inputs : Seq Bool) → C.admits c.old inputs →
        AreTerms (C.value c.new inputs) rule.now typing.now (map (number_held (C.value c.old inputs)) constants.now) made.terms) }
    ensures met { IfOk result (λ made. (inputs : Seq Bool) → C.admits c.old inputs →
        IsTrue (C.value c.new inputs made.met)
        ↔ PreconditionHolds rule.now typing.now (map (number_held (C.value c.old inputs)) constants.now)) }
    ensures widths { IfOk result (λ made. map length made.terms ≡ widths_of_terms rule.now typing.now) }
    ensures own_terms { IfOk result (λ made. All (All (C.has_literal c.new)) made.terms) }
    ensures own_met { IfOk result (λ made. C.has_literal c.new made.met) }
    ensures adds { Adds C.State c.old c.new
        (given_gates rule.now typing.now) }
{
    let scope = Scope {
        inputs: &[],
        source: &[],
        target: &[],
        constants,
        choices: &[],
        terms: &[],
    };
    let values = blast_terms(alloc, c, typing, scope, rule.terms.as_slice())?;
    let terms = numbers_or_zeros(alloc, c, &values)?;
    let met = blast_precondition(alloc, c, rule.precondition.as_slice(), &values)?;
    Ok(GivenBits {
        terms: List::from_vec(terms),
        met,
    })
}
