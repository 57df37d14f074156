//! How terminators end a pass through a block.

ghost use Rattle.std.specs.Prelude.{◌≡◌, []};
ghost use Rattle.ir_core.specs.Checks.{OperandHasWidth};
ghost use Rattle.ir_core.specs.Blocks.{targets_of};
ghost use Rattle.ir_core.specs.Run.{EndGives, OnlyZero, Registers, returning, switch_target};
ghost use Rattle.ir_meaning.specs.Step.{EndFits, GoesBy, GoesTo, ending_of};
ghost use Rattle.ir_meaning.specs.Table.{IsTable, held_of};

use crate::noundef::{has_noundef, is_indefinite};
use crate::operand::operand;
use crate::table::Table;
use ir_core::{Function, Operand, Terminator};
use ops::{Value, Width, Word};

/// How a pass through a block ends.
#[derive(Clone, Copy)]
pub(crate) enum Step {
    /// With undefined behaviour.
    Undefined,
    /// With a return of the value.
    Return(Value),
    /// The run goes on at the block.
    Goes(u32),
}

/// How the terminator ends a pass through its block, where each number that is left open is 0.
pub(crate) fn end(f: &Function, table: &Table, end: &Terminator) -> Step
    requires table { IsTable f.now table.now.firsts.items table.now.values.items }
    requires fits { EndFits f.now end.now }
    ensures gives { EndGives OnlyZero (held_of f.now table.now.values.items) f.now end.now (ending_of (held_of f.now table.now.values.items) result) }
    ensures goes { GoesTo (targets_of end.now) result }
{
    match end {
        Terminator::Return(a) => {
            let noundef = has_noundef(f.before.as_slice());
            returning(noundef, *a, operand(f, table, f.width, *a))
        }
        Terminator::Jump(to) => Step::Goes(*to),
        Terminator::Branch(c, to, other) => match number(f, table, Width::ONE, *c) {
            None => Step::Undefined,
            Some(1) => Step::Goes(*to),
            Some(_) => Step::Goes(*other),
        },
        Terminator::Switch(a, width, other, cases) => match number(f, table, *width, *a) {
            None => Step::Undefined,
            Some(n) => Step::Goes(case_target(cases.as_slice(), *other, n)),
        },
        Terminator::Unreachable => Step::Undefined,
    }
}

/// A return of what the operand gave: undefined behaviour where that is indefinite and the return value is `noundef`.
fn returning(noundef: bool, a: Operand, value: Value) -> Step
    ensures value { (held : Registers) → ending_of held result ≡ returning noundef a value }
    ensures goes { GoesTo [] result }
{
    let indefinite = is_indefinite(a, &value);
    if noundef && indefinite {
        Step::Undefined
    } else {
        Step::Return(value)
    }
}

/// The number that the operand gives; `None` where it is poison or the literal `undef`, so that control depends on
/// nothing definite.
fn number(f: &Function, table: &Table, width: Width, a: Operand) -> Option<u64>
    requires table { IsTable f.now table.now.firsts.items table.now.values.items }
    requires width { OperandHasWidth f.now width a }
    ensures { GoesBy (held_of f.now table.now.values.items) width a result }
{
    match (a, operand(f, table, width, a)) {
        (Operand::Undef, _) | (_, Value::Poison) => None,
        (_, Value::Bits(number)) => Some(number.number()),
    }
}

/// The block of the first case with the number, and else the default block.
fn case_target(cases: &[(Word, u32)], other: u32, n: u64) -> u32
    ensures { result ≡ switch_target cases.now other n }
{
    for (case, to) in cases {
        if case.number() == n {
            return *to;
        }
    }
    other
}
