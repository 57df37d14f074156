//! What is reported to have changed where a rule is applied to a function, or its dead code is eliminated.

ghost use Rattle.test_texts.specs.Ready.{FunctionIsReady, RuleIsReady};
ghost use Rattle.use_counts.specs.Tables.{AreCounts};

use super::reading::{ADD_ZERO, NOT_ADD, SEL_INC, function_of, match_there, rule_of};
use crate::unfit::Unfit;
use changes::{Changes, apply_at, clean_at};
use ir_core::{Function, Register};
use rule_core::Rule;
use std::alloc::Global;
use std::test::Fail;
use use_counts::{Uses, count_uses, uses_of};

/// A function, the rule that is applied to it with the block and the place of the root, and the report. Without a rule
/// dead code is eliminated.
struct Row {
    rule: Option<(&'static str, u32, u32)>,
    function: &'static str,
    told: Told,
}

/// By block and place the instructions that went, came and changed, and how often the first parameter is used
/// afterwards.
struct Told {
    went: &'static [(u32, u32)],
    came: &'static [(u32, u32)],
    changed: &'static [(u32, u32)],
    uses: usize,
}

const ROWS: [Row; 5] = [
    Row {
        rule: Some((NOT_ADD, 0, 1)),
        function: "define i4 @f(i4 %a) { %1 = xor i4 %a, -1 %2 = add i4 %1, 5 ret i4 %2 }",
        told: Told {
            went: &[],
            came: &[],
            changed: &[(0, 1)],
            uses: 2,
        },
    },
    // A user of the root that moves to another place.
    Row {
        rule: Some((SEL_INC, 0, 1)),
        function: "define i4 @f(i1 %c, i4 %a) { %t = add i4 %a, 1 %r = select i1 %c, i4 %a, i4 %t
%s = mul i4 %r, %t ret i4 %s }",
        told: Told {
            went: &[],
            came: &[(0, 1)],
            changed: &[(0, 2)],
            uses: 1,
        },
    },
    // The root is used in two blocks and by a phi; %u uses an instruction that moves.
    Row {
        rule: Some((ADD_ZERO, 0, 0)),
        function: "define i8 @f(i8 %a, i1 %c) { entry: %r = add i8 %a, 0 %s = mul i8 %r, %a br i1 %c, label %l, label %m
l: %t = xor i8 %r, %r br label %m m: %p = phi i8 [ %r, %entry ], [ %t, %l ] %u = sub i8 %p, %s ret i8 %u }",
        told: Told {
            went: &[(0, 0)],
            came: &[],
            changed: &[(0, 0), (1, 0), (2, 0)],
            uses: 5,
        },
    },
    // A copy of an inserted instruction.
    Row {
        rule: Some((
            "Name: mul-four\n%r = mul %x, 4\n=>\n%t = shl %x, 1\n%u = shl %t, 1\n%r = %u\n",
            0,
            0,
        )),
        function: "define i8 @f(i8 %a) { %r = mul i8 %a, 4 %s = xor i8 %r, 1 %t = sub i8 %s, %a ret i8 %t }",
        told: Told {
            went: &[(0, 0)],
            came: &[(0, 0), (0, 1)],
            changed: &[(0, 2)],
            uses: 2,
        },
    },
    // In a loop two instructions that only use one another, and what only they use.
    Row {
        rule: None,
        function: "define i8 @f(i8 %n) { entry: %d = add i8 %n, 1 br label %l l: %i = phi i8 [ %n, %entry ], [ %k, %l ]
%z = phi i8 [ %d, %entry ], [ %y, %l ] %k = mul i8 %i, 3 %y = add i8 %z, %k %c = icmp ult i8 %k, %n
br i1 %c, label %l, label %out out: ret i8 %k }",
        told: Told {
            went: &[(0, 0), (1, 1), (1, 3)],
            came: &[],
            changed: &[],
            uses: 2,
        },
    },
];

/// Applies a rule at an instruction, where it matches.
fn apply_there(
    alloc: Global,
    f: &mut Function,
    block: u32,
    place: u32,
    rule: &Rule,
    uses: &mut Uses,
) -> Result<Changes, Unfit>
    requires function { FunctionIsReady f.old }
    requires rule { RuleIsReady rule.now }
    requires uses { AreCounts f.old uses.old }
{
    let Some(binding) = match_there(alloc, f, block, place, rule, false)? else {
        return Err(Unfit::NoMatch);
    };
    Ok(apply_at(alloc, f, &binding, rule, uses)?)
}

/// The report where a rule is applied to a function, or dead code is eliminated.
fn told_in(
    alloc: Global,
    f: &mut Function,
    rule: Option<(&str, u32, u32)>,
    uses: &mut Uses,
) -> Result<Changes, Unfit>
    requires function { FunctionIsReady f.old }
    requires uses { AreCounts f.old uses.old }
{
    let Some((text, block, place)) = rule else {
        return Ok(clean_at(alloc, f, uses)?);
    };
    let rule = rule_of(alloc, text)?;
    apply_there(alloc, f, block, place, &rule, uses)
}

/// The report on the function of a row, and the counts of uses afterwards.
fn told_with(alloc: Global, row: &Row, f: &mut Function) -> Result<(Changes, Uses), Unfit>
    requires { FunctionIsReady f.old }
{
    let mut uses = count_uses(alloc, f)?;
    let changes = told_in(alloc, f, row.rule, &mut uses)?;
    Ok((changes, uses))
}

/// The report on a row, and the counts of uses afterwards.
fn told_at(alloc: Global, row: &Row) -> Result<(Changes, Uses), Unfit> {
    let mut f = function_of(alloc, row.function)?;
    told_with(alloc, row, &mut f)
}

/// Whether the report is the expected one.
fn is_told(changes: &Changes, uses: &Uses, told: &Told) -> bool {
    changes.went.as_slice() == told.went
        && changes.came.as_slice() == told.came
        && changes.changed.as_slice() == told.changed
        && uses_of(uses, Register::Parameter(0)) == told.uses
}

#[test]
fn what_changed_is_told(rt: HostRuntime) -> Result<(), Fail> {
    for row in &ROWS {
        let (changes, uses) = told_at(rt.alloc(), row)?;
        assert!(rt; is_told(&changes, &uses, &row.told), "{}", row.function);
    }
    Ok(())
}
