//! The halves of a rule as literals.
ghost use Rattle.std.specs.Prelude.{◌≡◌, ◌+◌, ◌↔◌, [], if◌then◌else◌, IsTrue, Bool, List as Seq, length, map, IfOk};
ghost use Rattle.std.specs.List.{All};
ghost use Rattle.ops.specs.declared.value.Effect.TheVariants.{Undefined};
ghost use Rattle.circuits.specs.Circuit.{Adds};
ghost use Rattle.rule_core.specs.Checks.{IsRule};
ghost use Rattle.rule_core.specs.Facts.{KeepsFacts};
ghost use Rattle.rule_core.specs.Typing.{IsTyping};
ghost use Rattle.rule_core.specs.Run.{given_by};
ghost use Rattle.rule_core.specs.Valid.{Setting, HaveEffects};
ghost use Rattle.rule_core.specs.Readiness.{ValuesFit};
ghost use Rattle.blast_value.specs.Effect.{effect_of, widths_of, IsOwnEffect};
ghost use Rattle.blast_rule.specs.Gates.{witness_gates, halves_gates, said_gates, run_gates, root_gates, root_width, widths_of_terms};
ghost use Rattle.blast_setting.specs.Inputs.{input_widths, constant_widths, choice_widths};
ghost use Rattle.blast_setting.specs.SettingBits.{setting_held, SettingIsOwn, HasWidths};
ghost use Rattle.blast_rule.specs.Runs.{shape, setting_seen, AreTerms, TemporariesRan};
ghost use Rattle.blast_term.specs.Scope.{ScopeIsOwn};
ghost use Rattle.blast_value.specs.Words.{number_held};

use crate::statement::blast_next;
use crate::target::blast_target;
use crate::temporaries::blast_temporaries;
use blast_setting::SettingBits;
use blast_term::{Scope, blast_facts, blast_witness};
use blast_value::Blasted;
use circuits::{Bits, Circuit, or};
use lists::List;
use ops::Width;
use rule_core::Rule;
use std::alloc::{AllocError, Global};

/// The effects of both halves, and the choices that `Wit:` makes for the source.
#[derive(Drop)]
pub(crate) struct Halves<L> {
    /// The number that `Wit:` gives for each choice of the source.
    pub(crate) choices: List<Bits<L>>,
    pub(crate) source: Blasted<L>,
    pub(crate) target: Blasted<L>,
}

/// Whether `met` holds and the source's temporaries keep what the precondition says of bits, what `Wit:` chooses, and
/// what the source and the target do at a setting, where the rule's terms have these numbers. The source's temporaries
/// are built once.
pub(crate) fn blast_halves<C: Circuit>(
    alloc: Global,
    c: &mut C,
    rule: &Rule,
    typing: &[Width],
    setting: &SettingBits<C::Literal>,
    terms: &[Bits<C::Literal>],
    met: C::Literal,
) -> Result<(C::Literal, Halves<C::Literal>), AllocError>
    requires rule { IsRule rule.now }
    requires typing { IsTyping rule.now typing.now }
    requires widths { HasWidths rule.now typing.now setting.now }
    requires widths_of_terms { map length terms.now ≡ widths_of_terms rule.now typing.now }
    requires own { SettingIsOwn (C.has_literal c.old) setting.now }
    requires own_terms { All (All (C.has_literal c.old)) terms.now }
    requires own_met { C.has_literal c.old met }
    ensures met { IfOk result (λ made. (inputs : Seq Bool) (at : Setting) → C.admits c.old inputs →
        setting_held (C.value c.old inputs) setting.now ≡ at →
        AreTerms (C.value c.old inputs) rule.now typing.now at.constants terms.now →
        IsTrue (C.value c.new inputs made.0)
        ↔ (IsTrue (C.value c.old inputs met) × KeepsFacts rule.now typing.now at.constants at.inputs)) }
    ensures effects { IfOk result (λ made. (inputs : Seq Bool) (at : Setting) → C.admits c.old inputs →
        setting_held (C.value c.old inputs) setting.now ≡ at →
        AreTerms (C.value c.old inputs) rule.now typing.now at.constants terms.now →
        HaveEffects rule.now typing.now at (map (number_held (C.value c.new inputs)) made.1.choices)
        (effect_of (C.value c.new inputs) made.1.source) (effect_of (C.value c.new inputs) made.1.target)) }
    ensures source_width { IfOk result (λ made. length made.1.source.bits ≡ root_width rule.now typing.now) }
    ensures target_width { IfOk result (λ made. length made.1.target.bits ≡ root_width rule.now typing.now) }
    ensures own_met { IfOk result (λ made. C.has_literal c.new made.0) }
    ensures own_choices { IfOk result (λ made. All (All (C.has_literal c.new)) made.1.choices) }
    ensures own_source { IfOk result (λ made. IsOwnEffect (C.has_literal c.new) made.1.source) }
    ensures own_target { IfOk result (λ made. IsOwnEffect (C.has_literal c.new) made.1.target) }
    ensures adds { Adds C.State c.old c.new
        (witness_gates rule.now typing.now + halves_gates rule.now typing.now + said_gates rule.now typing.now) }
{
    let start = scope_of(setting, terms);
    let temporaries = blast_temporaries(alloc, c, rule, typing, start)?;
    let before = Scope {
        source: &temporaries.held,
        choices: setting.target_choices.as_slice(),
        ..start
    };
    let halves = after_temporaries(alloc, c, rule, typing, before, temporaries.undefined)?;
    let formulas = rule.precondition.as_slice();
    let met = blast_facts(alloc, c, formulas, before, temporaries.undefined, met)?;
    Ok((met, halves))
}

/// The rest, once the source's temporaries are built: `before` has their values, and `undefined` says whether one of
/// them has undefined behaviour.
fn after_temporaries<C: Circuit>(
    alloc: Global,
    c: &mut C,
    rule: &Rule,
    typing: &[Width],
    before: Scope<C::Literal>,
    undefined: C::Literal,
) -> Result<Halves<C::Literal>, AllocError>
    requires rule { IsRule rule.now }
    requires typing { IsTyping rule.now typing.now }
    requires inputs { widths_of before.inputs.now ≡ input_widths rule.now typing.now }
    requires constants { map length before.constants.now ≡ constant_widths rule.now typing.now }
    requires choices { map length before.choices.now ≡ choice_widths rule.now typing.now }
    requires terms { map length before.terms.now ≡ widths_of_terms rule.now typing.now }
    requires target { before.target.now ≡ [] }
    requires source { ValuesFit typing.now rule.now.source (map shape before.source.now) }
    requires count { length before.source.now + 1 ≡ length rule.now.source }
    requires own { ScopeIsOwn (C.has_literal c.old) before }
    requires own_undefined { C.has_literal c.old undefined }
    ensures effects { IfOk result (λ made. (inputs : Seq Bool) (at : Setting) → C.admits c.old inputs →
        setting_seen (C.value c.old inputs) before.entry ≡ at →
        AreTerms (C.value c.old inputs) rule.now typing.now at.constants before.entry.terms.now →
        TemporariesRan (C.value c.old inputs) rule.now typing.now (given_by typing.now at.constants [] rule.now)
        before.entry.inputs.now before.entry.source.now undefined →
        HaveEffects rule.now typing.now at (map (number_held (C.value c.new inputs)) made.choices)
        (effect_of (C.value c.new inputs) made.source) (effect_of (C.value c.new inputs) made.target)) }
    ensures source_width { IfOk result (λ made. length made.source.bits ≡ root_width rule.now typing.now) }
    ensures target_width { IfOk result (λ made. length made.target.bits ≡ root_width rule.now typing.now) }
    ensures own_choices { IfOk result (λ made. All (All (C.has_literal c.new)) made.choices) }
    ensures own_source { IfOk result (λ made. IsOwnEffect (C.has_literal c.new) made.source) }
    ensures own_target { IfOk result (λ made. IsOwnEffect (C.has_literal c.new) made.target) }
    ensures adds { Adds C.State c.old c.new
        (witness_gates rule.now typing.now + root_gates rule.now typing.now + run_gates typing.now rule.now.target + 1) }
{
    let choices = blast_witness(alloc, c, rule, typing, before)?;
    let chosen = Scope {
        choices: choices.as_slice(),
        ..before
    };
    let root = &rule.source.as_slice()[rule.source.len() - 1];
    let source = blast_next(alloc, c, typing, chosen, root, undefined)?;
    let target = blast_target(alloc, c, rule, typing, before)?;
    let target = after(alloc, c, undefined, target)?;
    Ok(Halves {
        choices,
        source,
        target,
    })
}

/// The scope of the source's temporaries: no register but the inputs is assigned, and no choice is made.
fn scope_of<'a, L>(setting: &'a SettingBits<L>, terms: &'a [Bits<L>]) -> Scope<'a, L>
    ensures inputs { result.inputs.now ≡ setting.now.inputs }
    ensures source { result.source.now ≡ [] }
    ensures target { result.target.now ≡ [] }
    ensures constants { result.constants.now ≡ setting.now.constants }
    ensures choices { result.choices.now ≡ [] }
    ensures terms { result.terms.now ≡ terms.now }
{
    Scope {
        inputs: setting.inputs.as_slice(),
        source: &[],
        target: &[],
        constants: setting.constants.as_slice(),
        choices: &[],
        terms,
    }
}

/// The effect of statements that run after others; `before` says whether one of those has undefined behaviour.
fn after<C: Circuit>(
    alloc: Global,
    c: &mut C,
    before: C::Literal,
    effect: Blasted<C::Literal>,
) -> Result<Blasted<C::Literal>, AllocError>
    requires own_before { C.has_literal c.old before }
    requires own { IsOwnEffect (C.has_literal c.old) effect }
    ensures effect { IfOk result (λ made. (inputs : Seq Bool) → C.admits c.old inputs →
        effect_of (C.value c.new inputs) made
        ≡ (if C.value c.old inputs before then Undefined else effect_of (C.value c.old inputs) effect)) }
    ensures bits { IfOk result (λ made. made.bits ≡ effect.bits) }
    ensures own { IfOk result (IsOwnEffect (C.has_literal c.new)) }
    ensures adds { Adds C.State c.old c.new 1 }
{
    let undefined = or(alloc, c, before, effect.undefined)?;
    Ok(Blasted {
        bits: effect.bits,
        poison: effect.poison,
        undefined,
    })
}
