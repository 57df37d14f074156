//! One statement of a rule as literals.
ghost use Rattle.std.specs.Prelude.{◌≡◌, true, false, Bool, List as Seq, length, slice_get, slice_index, Some, IfOk};
ghost use Rattle.circuits.specs.Circuit.{Adds};
ghost use Rattle.rule_core.specs.declared.rule.Op.TheVariants.{Copy as CopyOf};
ghost use Rattle.rule_core.specs.Positions.{operands_of};
ghost use Rattle.rule_core.specs.Run.{Given, StatementGives};
ghost use Rattle.rule_core.specs.Readiness.{StatementIsReady};
ghost use Rattle.blast_value.specs.Effect.{effect_of, IsOwnEffect};
ghost use Rattle.blast_rule.specs.Gates.{op_gates, statement_gates};
ghost use Rattle.blast_rule.specs.Runs.{instruction_of, shapes, given_shape, IsGiven};
ghost use Rattle.blast_term.specs.Scope.{seen, ScopeIsOwn};

use crate::freeze::blast_freeze;
use crate::operand::{operand_held, operands_held};
use blast_term::{Scope, width_of};
use blast_value::{Blasted, Held, Instruction, blast_value};
use circuits::{Circuit, or};
use ops::Width;
use rule_core::{Op, Operand, Statement};
use std::alloc::{AllocError, Global};

/// The effect of a statement that runs after others, by the scope that it reads; `undefined` says whether one of those
/// before has undefined behaviour.
pub(crate) fn blast_next<C: Circuit>(
    alloc: Global,
    c: &mut C,
    typing: &[Width],
    scope: Scope<C::Literal>,
    statement: &Statement,
    undefined: C::Literal,
) -> Result<Blasted<C::Literal>, AllocError>
    requires ready { StatementIsReady typing.now (given_shape scope) (shapes scope) statement.now }
    requires own { ScopeIsOwn (C.has_literal c.old) scope }
    requires own_undefined { C.has_literal c.old undefined }
    ensures gives { IfOk result (λ made. (inputs : Seq Bool) (given : Given) → C.admits c.old inputs →
        IsGiven (C.value c.old inputs) scope.entry given → C.value c.old inputs undefined ≡ false →
        StatementGives typing.now given (seen (C.value c.new inputs) scope.entry) statement.now
        (effect_of (C.value c.new inputs) made)) }
    ensures stays { IfOk result (λ made. (inputs : Seq Bool) → C.admits c.old inputs →
        C.value c.old inputs undefined ≡ true → C.value c.new inputs made.undefined ≡ true) }
    ensures width { IfOk result (λ made. slice_get typing.now statement.now.class ≡ Some (length made.bits)) }
    ensures own { IfOk result (IsOwnEffect (C.has_literal c.new)) }
    ensures adds { Adds C.State c.old c.new
        (statement_gates typing.now statement.now) }
{
    let Blasted {
        bits,
        poison,
        undefined: here,
    } = blast_statement(alloc, c, typing, scope, statement)?;
    let undefined = or(alloc, c, undefined, here)?;
    Ok(Blasted {
        bits,
        poison,
        undefined,
    })
}

/// The effect of a statement, by the scope that it reads.
fn blast_statement<C: Circuit>(
    alloc: Global,
    c: &mut C,
    typing: &[Width],
    scope: Scope<C::Literal>,
    statement: &Statement,
) -> Result<Blasted<C::Literal>, AllocError>
    requires ready { StatementIsReady typing.now (given_shape scope) (shapes scope) statement.now }
    requires own { ScopeIsOwn (C.has_literal c.old) scope }
    ensures gives { IfOk result (λ made. (inputs : Seq Bool) (given : Given) → C.admits c.old inputs →
        IsGiven (C.value c.old inputs) scope.entry given →
        StatementGives typing.now given (seen (C.value c.old inputs) scope.entry) statement.now
        (effect_of (C.value c.new inputs) made)) }
    ensures width { IfOk result (λ made. slice_get typing.now statement.now.class ≡ Some (length made.bits)) }
    ensures own { IfOk result (IsOwnEffect (C.has_literal c.new)) }
    ensures adds { Adds C.State c.old c.new
        (op_gates typing.now (slice_index typing.now statement.now.class) statement.now.op) }
{
    match statement.op {
        Op::Binary(opcode, flags, left, right) => {
            let what = Instruction::Binary(opcode, flags);
            blast_instruction(alloc, c, typing, scope, statement, what, &[left, right])
        }
        Op::Compare(pred, samesign, left, right) => {
            let what = Instruction::Compare(pred, samesign);
            blast_instruction(alloc, c, typing, scope, statement, what, &[left, right])
        }
        Op::Unary(op, truth, operand) => {
            let what = Instruction::Unary(op, truth);
            blast_instruction(alloc, c, typing, scope, statement, what, &[operand])
        }
        Op::Select(condition, yes, no) => {
            let what = Instruction::Select;
            blast_instruction(
                alloc,
                c,
                typing,
                scope,
                statement,
                what,
                &[condition, yes, no],
            )
        }
        Op::Convert(cast, flags, operand, _) => {
            let what = Instruction::Convert(cast, flags);
            blast_instruction(alloc, c, typing, scope, statement, what, &[operand])
        }
        Op::Freeze(operand, choice) => {
            blast_freeze(alloc, c, typing, scope, statement, operand, choice)
        }
        Op::Copy(operand) => blast_copy(alloc, c, typing, scope, statement, operand),
    }
}

/// The effect of a statement with this instruction and these operands.
fn blast_instruction<C: Circuit>(
    alloc: Global,
    c: &mut C,
    typing: &[Width],
    scope: Scope<C::Literal>,
    statement: &Statement,
    what: Instruction,
    operands: &[Operand],
) -> Result<Blasted<C::Literal>, AllocError>
    requires instruction { instruction_of statement.now.op ≡ Some what }
    requires operands { operands.now ≡ operands_of statement.now.op }
    requires ready { StatementIsReady typing.now (given_shape scope) (shapes scope) statement.now }
    requires own { ScopeIsOwn (C.has_literal c.old) scope }
    ensures gives { IfOk result (λ made. (inputs : Seq Bool) (given : Given) → C.admits c.old inputs →
        IsGiven (C.value c.old inputs) scope.entry given →
        StatementGives typing.now given (seen (C.value c.old inputs) scope.entry) statement.now
        (effect_of (C.value c.new inputs) made)) }
    ensures width { IfOk result (λ made. slice_get typing.now statement.now.class ≡ Some (length made.bits)) }
    ensures own { IfOk result (IsOwnEffect (C.has_literal c.new)) }
    ensures adds { Adds C.State c.old c.new
        (op_gates typing.now (slice_index typing.now statement.now.class) statement.now.op) }
{
    let held = operands_held(alloc, c, typing, scope, operands)?;
    blast_value(alloc, c, what, width_of(typing, statement.class), &held)
}

/// The effect of a copy.
fn blast_copy<C: Circuit>(
    alloc: Global,
    c: &C,
    typing: &[Width],
    scope: Scope<C::Literal>,
    statement: &Statement,
    operand: Operand,
) -> Result<Blasted<C::Literal>, AllocError>
    requires copy { statement.now.op ≡ CopyOf operand }
    requires ready { StatementIsReady typing.now (given_shape scope) (shapes scope) statement.now }
    requires own { ScopeIsOwn (C.has_literal c.now) scope }
    ensures gives { IfOk result (λ made. (inputs : Seq Bool) (given : Given) → C.admits c.now inputs →
        IsGiven (C.value c.now inputs) scope.entry given →
        StatementGives typing.now given (seen (C.value c.now inputs) scope.entry) statement.now
        (effect_of (C.value c.now inputs) made)) }
    ensures width { IfOk result (λ made. slice_get typing.now statement.now.class ≡ Some (length made.bits)) }
    ensures own { IfOk result (IsOwnEffect (C.has_literal c.now)) }
{
    let Held { bits, poison } = operand_held(alloc, c, typing, scope, operand)?;
    Ok(Blasted {
        bits,
        poison,
        undefined: c.zero(),
    })
}
