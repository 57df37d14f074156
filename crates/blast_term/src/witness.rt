//! The numbers that `Wit:` gives, as literals.
ghost use Rattle.std.specs.Prelude.{◌≡◌, ◌<◌, ◌+◌, Bool, List as Seq, length, map, slice_index, IfOk};
ghost use Rattle.std.specs.List.{All};
ghost use Rattle.circuits.specs.Circuit.{Adds};
ghost use Rattle.rule_core.specs.Terms.{Meanings};
ghost use Rattle.blast_value.specs.Effect.{held_value, widths_of, IsOwn};
ghost use Rattle.blast_term.specs.Gates.{terms_gates, choices_gates};
ghost use Rattle.blast_term.specs.Terms.{MeansNames, TermsAreHeld, term_widths, number_chosen, numbers_chosen};
ghost use Rattle.blast_value.specs.Words.{number_held};
ghost use Rattle.blast_term.specs.Scope.{ScopeIsOwn};

use crate::numbers::number_or_zero;
use crate::scope::{Scope, at};
use crate::term::blast_terms;
use blast_value::Held;
use circuits::{Bits, Circuit};
use lists::List;
use ops::Width;
use rule_core::Rule;
use std::alloc::{AllocError, Global};

/// The numbers that `Wit:` gives for the choices of the source, by what the temporaries of the source hold.
pub fn blast_witness<C: Circuit>(
    alloc: Global,
    c: &mut C,
    rule: &Rule,
    typing: &[Width],
    scope: Scope<C::Literal>,
) -> Result<List<Bits<C::Literal>>, AllocError>
    requires ready { TermsAreHeld typing.now scope rule.now.witness_terms }
    requires there { All (λ n. n < length rule.now.witness_terms) rule.now.witnesses }
    requires own { ScopeIsOwn (C.has_literal c.old) scope }
    ensures numbers { IfOk result (λ words. (inputs : Seq Bool) (names : Meanings) → C.admits c.old inputs →
        MeansNames (C.value c.old inputs) scope.entry names →
        map (number_held (C.value c.new inputs)) words ≡ numbers_chosen typing.now names rule.now) }
    ensures widths { IfOk result (λ words. map length words
        ≡ map (slice_index (term_widths typing.now rule.now.witness_terms)) rule.now.witnesses) }
    ensures own { IfOk result (All (All (C.has_literal c.new))) }
    ensures adds { Adds C.State c.old c.new
        (terms_gates typing.now rule.now.witness_terms
        + choices_gates (term_widths typing.now rule.now.witness_terms) rule.now.witnesses) }
{
    let terms = blast_terms(alloc, c, typing, scope, rule.witness_terms.as_slice())?;
    numbers_at(alloc, c, &terms, rule.witnesses.as_slice())
}

/// The numbers of the values at these places, 0 where a value is poison.
fn numbers_at<C: Circuit>(
    alloc: Global,
    c: &mut C,
    values: &[Held<C::Literal>],
    places: &[u32],
) -> Result<List<Bits<C::Literal>>, AllocError>
    requires there { All (λ n. n < length values.now) places.now }
    requires own { All (IsOwn (C.has_literal c.old)) values.now }
    ensures numbers { IfOk result (λ words. (inputs : Seq Bool) → C.admits c.old inputs →
        map (number_held (C.value c.new inputs)) words
        ≡ map (number_chosen (widths_of values.now) (map (held_value (C.value c.old inputs)) values.now)) places.now) }
    ensures widths { IfOk result (λ words. map length words ≡ map (slice_index (widths_of values.now)) places.now) }
    ensures own { IfOk result (All (All (C.has_literal c.new))) }
    ensures adds { Adds C.State c.old c.new
        (choices_gates (widths_of values.now) places.now) }
{
    let mut words = List::new(alloc);
    for place in places {
        let word = number_or_zero(alloc, c, at(values, *place))?;
        words.push(word)?;
    }
    Ok(words)
}
