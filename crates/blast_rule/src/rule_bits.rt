//! The circuit of a rule.
ghost use Rattle.std.specs.Prelude.{◌≡◌, ◌+◌, ◌≤◌, ◌↔◌, Bool, List as Seq, IsTrue, map, drop, IfOk, OnOk};
ghost use Rattle.circuits.specs.Circuit.{Adds, Keeps};
ghost use Rattle.rule_core.specs.Checks.{IsRule};
ghost use Rattle.rule_core.specs.Typing.{IsTyping};
ghost use Rattle.rule_core.specs.Valid.{SettingFits, HaveEffects};
ghost use Rattle.blast_value.specs.Effect.{effect_of};
ghost use Rattle.blast_setting.specs.Inputs.{input_bits};
ghost use Rattle.blast_setting.specs.SettingBits.{setting_held, SettingIsOwn, HasWidths};
ghost use Rattle.blast_setting.specs.Settings.{setting_of};
ghost use Rattle.blast_rule.specs.Gates.{most_gates, root_width};
ghost use Rattle.blast_rule.specs.Parts.{Refutes, AreOwn, HaveWidth};
ghost use Rattle.blast_value.specs.Words.{number_held};

use crate::given::blast_given;
use crate::halves::blast_halves;
use crate::refusal::refusal_where;
use blast_setting::{SettingBits, make_setting};
use blast_value::Blasted;
use circuits::{Bits, Circuit};
use lists::List;
use ops::Width;
use rule_core::{Rule, Typing};
use std::alloc::{AllocError, Global};

/// A rule as literals of a circuit.
#[derive(Drop)]
pub struct RuleBits<L> {
    /// Whether the setting that the circuit's inputs are read as is a counterexample.
    pub bad: L,
    /// The number that `Wit:` gives for each choice of the source: for each of its `undef`s, and for a freeze.
    pub choices: List<Bits<L>>,
    /// The effect of the source.
    pub source: Blasted<L>,
    /// The effect of the target.
    pub target: Blasted<L>,
}

/// The circuit of a rule at a typing. Its inputs are a setting: for each input of the rule its bits, the lowest first,
/// and then its poison bit; then the bits of each constant, and then those of each choice of the target. It makes that
/// many inputs and at most [`most_gates`](crate::most_gates) gates. The circuit has no inputs before.
pub fn blast_rule<C: Circuit>(
    alloc: Global,
    c: &mut C,
    rule: &Rule,
    typing: &Typing,
) -> Result<RuleBits<C::Literal>, AllocError>
    requires rule { IsRule rule.now }
    requires typing { IsTyping rule.now typing.now }
    requires no_inputs { C.inputs_made c.old ≡ 0 }

    // The literal is true exactly where the inputs are read as a counterexample.
    ensures bad { IfOk result (λ made. (inputs : Seq Bool) → C.admits c.old inputs →
        IsTrue (C.value c.new inputs made.bad) ↔ Refutes rule.now typing.now (setting_of rule.now typing.now inputs)) }
    ensures effects { IfOk result (λ made. (inputs : Seq Bool) → C.admits c.old inputs →
        HaveEffects rule.now typing.now (setting_of rule.now typing.now inputs)
        (map (number_held (C.value c.new inputs)) made.choices)
        (effect_of (C.value c.new inputs) made.source) (effect_of (C.value c.new inputs) made.target)) }
    ensures width { IfOk result (HaveWidth (root_width rule.now typing.now)) }
    ensures own { IfOk result (AreOwn (C.has_literal c.new)) }

    // `input_bits` inputs were made, as far as a list of inputs' values can tell.
    ensures inputs { OnOk result ((inputs : Seq Bool) → C.admits c.old inputs →
        drop (C.inputs_made c.new) inputs ≡ drop (input_bits rule.now typing.now) inputs) }
    ensures gates { C.gates_made c.new ≤ C.gates_made c.old + most_gates rule.now typing.now }
    ensures keeps { Keeps C.State c.old c.new }
{
    let typing = typing.as_slice();
    let setting = make_setting(alloc, c, rule, typing)?;
    blast_at(alloc, c, rule, typing, &setting)
}

/// The circuit of a rule over the literals of a setting.
fn blast_at<C: Circuit>(
    alloc: Global,
    c: &mut C,
    rule: &Rule,
    typing: &[Width],
    setting: &SettingBits<C::Literal>,
) -> Result<RuleBits<C::Literal>, AllocError>
    requires rule { IsRule rule.now }
    requires typing { IsTyping rule.now typing.now }
    requires widths { HasWidths rule.now typing.now setting.now }
    requires own { SettingIsOwn (C.has_literal c.old) setting.now }
    ensures bad { IfOk result (λ made. (inputs : Seq Bool) → C.admits c.old inputs →
        SettingFits rule.now typing.now (setting_held (C.value c.old inputs) setting.now) →
        IsTrue (C.value c.new inputs made.bad)
        ↔ Refutes rule.now typing.now (setting_held (C.value c.old inputs) setting.now)) }
    ensures effects { IfOk result (λ made. (inputs : Seq Bool) → C.admits c.old inputs →
        HaveEffects rule.now typing.now (setting_held (C.value c.old inputs) setting.now)
        (map (number_held (C.value c.new inputs)) made.choices)
        (effect_of (C.value c.new inputs) made.source) (effect_of (C.value c.new inputs) made.target)) }
    ensures width { IfOk result (HaveWidth (root_width rule.now typing.now)) }
    ensures own { IfOk result (AreOwn (C.has_literal c.new)) }
    ensures adds { Adds C.State c.old c.new (most_gates rule.now typing.now) }
{
    rule_core::every_rule_has_one_outcome();
    let given = blast_given(alloc, c, rule, typing, setting.constants.as_slice())?;
    let terms = given.terms.as_slice();
    let (met, halves) = blast_halves(alloc, c, rule, typing, setting, terms, given.met)?;
    let bad = refusal_where(alloc, c, met, &halves.source, &halves.target)?;
    Ok(RuleBits {
        bad,
        choices: halves.choices,
        source: halves.source,
        target: halves.target,
    })
}
