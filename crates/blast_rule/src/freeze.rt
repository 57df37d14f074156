//! Freezes as literals.
ghost use Rattle.std.specs.Prelude.{◌≡◌, Bool, List as Seq, length, slice_get, slice_index, Some, IfOk};
ghost use Rattle.std.specs.List.{All};
ghost use Rattle.circuits.specs.Circuit.{Adds};
ghost use Rattle.circuits.specs.Gates.{select_gates};
ghost use Rattle.rule_core.specs.declared.rule.Op.TheVariants.{Freeze as FreezeOf};
ghost use Rattle.rule_core.specs.Run.{Given, StatementGives, frozen};
ghost use Rattle.rule_core.specs.Readiness.{StatementIsReady};
ghost use Rattle.blast_value.specs.Effect.{held_value, effect_of, IsOwn, IsOwnEffect};
ghost use Rattle.blast_value.specs.Words.{number_held};
ghost use Rattle.blast_rule.specs.Gates.{op_gates};
ghost use Rattle.blast_rule.specs.Runs.{shapes, given_shape, IsGiven};
ghost use Rattle.blast_term.specs.Scope.{seen, ScopeIsOwn};

use crate::operand::operand_held;
use blast_term::{Scope, at};
use blast_value::{Blasted, Held};
use circuits::{Bits, Circuit, select};
use ops::Width;
use rule_core::{Operand, Statement};
use std::alloc::{AllocError, Global};

/// The effect of a freeze of this operand, by the scope that it reads. The number for poison is the choice at the place
/// `choice`.
pub(crate) fn blast_freeze<C: Circuit>(
    alloc: Global,
    c: &mut C,
    typing: &[Width],
    scope: Scope<C::Literal>,
    statement: &Statement,
    operand: Operand,
    choice: u32,
) -> Result<Blasted<C::Literal>, AllocError>
    requires freeze { statement.now.op ≡ FreezeOf operand choice }
    requires ready { StatementIsReady typing.now (given_shape scope) (shapes scope) statement.now }
    requires own { ScopeIsOwn (C.has_literal c.old) scope }
    ensures gives { IfOk result (λ made. (inputs : Seq Bool) (given : Given) → C.admits c.old inputs →
        IsGiven (C.value c.old inputs) scope.entry given →
        StatementGives typing.now given (seen (C.value c.old inputs) scope.entry) statement.now
        (effect_of (C.value c.new inputs) made)) }
    ensures width { IfOk result (λ made. slice_get typing.now statement.now.class ≡ Some (length made.bits)) }
    ensures own { IfOk result (IsOwnEffect (C.has_literal c.new)) }
    ensures adds { Adds C.State c.old c.new
        (op_gates typing.now (slice_index typing.now statement.now.class) statement.now.op) }
{
    let held = operand_held(alloc, c, typing, scope, operand)?;
    let Held { bits, poison } = frozen(alloc, c, &held, at(scope.choices, choice))?;
    Ok(Blasted {
        bits,
        poison,
        undefined: c.zero(),
    })
}

/// A frozen value: the value itself, or the number of the choice where that is poison.
fn frozen<C: Circuit>(
    alloc: Global,
    c: &mut C,
    held: &Held<C::Literal>,
    choice: &Bits<C::Literal>,
) -> Result<Held<C::Literal>, AllocError>
    requires same_width { length choice.now ≡ length held.now.bits }
    requires own { IsOwn (C.has_literal c.old) held.now }
    requires own_choice { All (C.has_literal c.old) choice.now }
    ensures value { IfOk result (λ made. (inputs : Seq Bool) → C.admits c.old inputs →
        held_value (C.value c.new inputs) made
        ≡ frozen (held_value (C.value c.old inputs) held.now) (number_held (C.value c.old inputs) choice.now)) }
    ensures width { IfOk result (λ made. length made.bits ≡ length held.now.bits) }
    ensures own { IfOk result (IsOwn (C.has_literal c.new)) }
    ensures adds { Adds C.State c.old c.new
        (select_gates (length held.now.bits)) }
{
    let bits = select(
        alloc,
        c,
        held.poison,
        choice.as_slice(),
        held.bits.as_slice(),
    )?;
    Ok(Held {
        bits,
        poison: c.zero(),
    })
}
