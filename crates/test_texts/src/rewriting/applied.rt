//! Rules applied to functions: the function afterwards.

ghost use Rattle.test_texts.specs.Ready.{FunctionIsReady, RuleIsReady};

use super::reading::{
    ABS_NEG, ADD_ZERO, MUL_TWO, NOT_ADD, NOT_ADD_ONCE, REFREEZE, SEL_FREEZE, SEL_INC, TZ_READ,
    ZEXT_TWICE, function_of, match_there, rule_of,
};
use crate::unfit::Unfit;
use ir_core::Function;
use rewriter::apply;
use rule_core::Rule;
use std::alloc::Global;

/// A rule, a function, the block and the place of the root, and the function after it, if the rule matches there.
struct Row {
    rule: &'static str,
    function: &'static str,
    root: (u32, u32),
    applied: Option<&'static str>,
}

const ROWS: [Row; 33] = [
    Row {
        rule: NOT_ADD,
        function: "define i4 @f(i4 %a) { %1 = xor i4 %a, -1 %2 = add i4 %1, 5 ret i4 %2 }",
        root: (0, 1),
        applied: Some("define i4 @f(i4 %a) { %1 = xor i4 %a, -1 %2 = sub i4 4, %a ret i4 %2 }"),
    },
    // In a loop, where the input is a phi that uses the root. The root keeps its name.
    Row {
        rule: MUL_TWO,
        function: "define i8 @f(i8 %n) { entry: br label %l l: %i = phi i8 [ 0, %entry ], [ %k, %l ] %k = mul i8 %i, 2
%c = icmp ult i8 %k, %n br i1 %c, label %l, label %out out: ret i8 %k }",
        root: (1, 1),
        applied: Some(
            "define i8 @f(i8 %n) { entry: br label %l l: %i = phi i8 [ 0, %entry ], [ %k, %l ] %k = shl i8 %i, 1
%c = icmp ult i8 %k, %n br i1 %c, label %l, label %out out: ret i8 %k }",
        ),
    },
    // One more, unnamed instruction before the root.
    Row {
        rule: SEL_INC,
        function: "define i4 @f(i1 %c, i4 %a) { %t = add i4 %a, 1 %r = select i1 %c, i4 %a, i4 %t ret i4 %r }",
        root: (0, 1),
        applied: Some(
            "define i4 @f(i1 %c, i4 %a) { %t = add i4 %a, 1 %1 = sub i4 %t, 1 %r = select i1 %c, i4 %1, i4 %t ret i4 %r }",
        ),
    },
    // One flag too many on a temporary that the target names.
    Row {
        rule: SEL_INC,
        function: "define i4 @f(i1 %c, i4 %a) { %t = add nsw i4 %a, 1 %r = select i1 %c, i4 %a, i4 %t ret i4 %r }",
        root: (0, 1),
        applied: None,
    },
    // `hasOneUse`.
    Row {
        rule: NOT_ADD_ONCE,
        function: "define i4 @g(i4 %a) { %1 = xor i4 %a, -1 %2 = add i4 %1, 5 %3 = and i4 %1, %2 ret i4 %3 }",
        root: (0, 1),
        applied: None,
    },
    Row {
        rule: NOT_ADD,
        function: "define i4 @g(i4 %a) { %1 = xor i4 %a, -1 %2 = add i4 %1, 5 %3 = and i4 %1, %2 ret i4 %3 }",
        root: (0, 1),
        applied: Some(
            "define i4 @g(i4 %a) { %1 = xor i4 %a, -1 %2 = sub i4 4, %a %3 = and i4 %1, %2 ret i4 %3 }",
        ),
    },
    // The root is used in its own block and behind it, by a phi of its own block, and in a block that isn't reached. It
    // is removed.
    Row {
        rule: ADD_ZERO,
        function: "define i8 @f(i8 %n) { entry: br label %l l: %a = phi i8 [ 1, %entry ], [ %r, %l ] %i = phi i8 [ 0, %entry ], [ %j, %l ]
%r = add i8 %i, 0 %j = add i8 %r, 1 %c = icmp ult i8 %j, %n br i1 %c, label %l, label %out out: ret i8 %r
b: %x = add i8 %r, %r switch i8 %r, label %b [ i8 1, label %d ] d: %y = phi i8 [ %r, %b ] ret i8 %j }",
        root: (1, 2),
        applied: Some(
            "define i8 @f(i8 %n) { entry: br label %l l: %a = phi i8 [ 1, %entry ], [ %i, %l ] %i = phi i8 [ 0, %entry ], [ %j, %l ]
%j = add i8 %i, 1 %c = icmp ult i8 %j, %n br i1 %c, label %l, label %out out: ret i8 %i
b: %x = add i8 %i, %i switch i8 %i, label %b [ i8 1, label %d ] d: %y = phi i8 [ %i, %b ] ret i8 %j }",
        ),
    },
    // A block that isn't reached.
    Row {
        rule: ADD_ZERO,
        function: "define i8 @f() { ret i8 0 b: %a = add i8 %a, 0 ret i8 %a }",
        root: (1, 0),
        applied: None,
    },
    // The root becomes `poison`, and a number that a constant term gives.
    Row {
        rule: ADD_ZERO,
        function: "define i8 @f(i1 %c) { %r = add i8 poison, 0 %s = freeze i8 %r ret i8 %s }",
        root: (0, 0),
        applied: Some("define i8 @f(i1 %c) { %s = freeze i8 poison ret i8 %s }"),
    },
    Row {
        rule: "Name: or-or\n%t = or %x, C1\n%r = and %t, C2\n=>\n%r = C1 & C2\n",
        function: "define i8 @f(i8 %a) { e: %t = or i8 %a, 12 %r = and i8 %t, 10 br label %l l: %p = phi i8 [ %r, %e ] ret i8 %p }",
        root: (0, 1),
        applied: Some(
            "define i8 @f(i8 %a) { e: %t = or i8 %a, 12 br label %l l: %p = phi i8 [ 8, %e ] ret i8 %p }",
        ),
    },
    // Copies in the target, of an input and of an inserted instruction, and the places behind the root in all blocks.
    Row {
        rule: "Name: copies\n%r = add %x, %y\n=>\n%u = %x\n%v = sub 0, %y\n%w = %v\n%s = xor %w, -1\n%r = sub %u, %w\n",
        function: "define i8 @f(i8 %a, i8 %b) { e: %p = mul i8 %a, %a %r = add i8 %p, %b %q = mul i8 %r, %p %z = mul i8 %q, %r br label %l
l: %x = phi i8 [ %z, %e ], [ %q, %l ] %c = icmp eq i8 %q, %x br i1 %c, label %l, label %o o: ret i8 %z }",
        root: (0, 1),
        applied: Some(
            "define i8 @f(i8 %a, i8 %b) { e: %p = mul i8 %a, %a %0 = sub i8 0, %b %1 = xor i8 %0, -1 %r = sub i8 %p, %0 %q = mul i8 %r, %p
%z = mul i8 %q, %r br label %l l: %x = phi i8 [ %z, %e ], [ %q, %l ] %c = icmp eq i8 %q, %x br i1 %c, label %l, label %o o: ret i8 %z }",
        ),
    },
    // The root is a copy of an inserted instruction, which stays unnamed.
    Row {
        rule: "Name: copied\n%r = add %x, C\n=>\n%u = sub %x, -C\n%r = %u\n",
        function: "define i8 @f(i8 %a) { %r = add nsw i8 %a, 3 %s = mul i8 %r, %r ret i8 %s }",
        root: (0, 0),
        applied: Some("define i8 @f(i8 %a) { %1 = sub i8 %a, -3 %s = mul i8 %1, %1 ret i8 %s }"),
    },
    // The root is a copy of a temporary of the source.
    Row {
        rule: "Name: twice\n%t = xor %x, -1\n%u = xor %t, -1\n%r = xor %u, -1\n=>\n%r = %t\n",
        function: "define i8 @f(i8 %a) { %x = xor i8 %a, -1 %y = xor i8 %x, -1 %z = xor i8 %y, -1 %1 = add i8 %z, %y ret i8 %1 }",
        root: (0, 2),
        applied: Some(
            "define i8 @f(i8 %a) { %x = xor i8 %a, -1 %y = xor i8 %x, -1 %1 = add i8 %x, %y ret i8 %1 }",
        ),
    },
    // An `undef`, to which nothing is bound, and `true`.
    Row {
        rule: "Name: undef\nWit: 0\n%r = and %x, undef\n=>\n%r = and undef, undef\n",
        function: "define i8 @f(i8 %a) { %r = and i8 %a, undef ret i8 %r }",
        root: (0, 0),
        applied: Some("define i8 @f(i8 %a) { %r = and i8 undef, undef ret i8 %r }"),
    },
    Row {
        rule: "Name: or-one\n%r = or %x, true\n=>\n%r = xor 0, -1\n",
        function: "define i1 @f(i1 %a) { %r = or i1 %a, true ret i1 %r }",
        root: (0, 0),
        applied: Some("define i1 @f(i1 %a) { %r = xor i1 false, true ret i1 %r }"),
    },
    // Casts and comparisons, at the widths of the match.
    Row {
        rule: ZEXT_TWICE,
        function: "define i32 @f(i8 %a) { %x = zext i8 %a to i16 %y = zext i16 %x to i32 ret i32 %y }",
        root: (0, 1),
        applied: Some(
            "define i32 @f(i8 %a) { %x = zext i8 %a to i16 %y = zext i8 %a to i32 ret i32 %y }",
        ),
    },
    Row {
        rule: "Name: met\n%c = icmp eq %x, C\n%r = select %c, %y, C\n=>\n%d = icmp ne %x, C\n%r = select %d, %x, %y\n",
        function: "define i4 @f(i4 %a, i4 %b) { %c = icmp eq i4 %a, 9 %r = select i1 %c, i4 %b, i4 9 ret i4 %r }",
        root: (0, 1),
        applied: Some(
            "define i4 @f(i4 %a, i4 %b) { %c = icmp eq i4 %a, 9 %1 = icmp ne i4 %a, 9 %r = select i1 %1, i4 %a, i4 %b ret i4 %r }",
        ),
    },
    // A freeze that is inserted, one that is matched, also of `poison`, and one that is removed with its root.
    Row {
        rule: SEL_FREEZE,
        function: "define i1 @f(i1 %c, i1 %y) { %r = select i1 %c, i1 %y, i1 false ret i1 %r }",
        root: (0, 0),
        applied: Some(
            "define i1 @f(i1 %c, i1 %y) { %1 = freeze i1 %y %r = and i1 %c, %1 ret i1 %r }",
        ),
    },
    Row {
        rule: REFREEZE,
        function: "define i8 @f() { %r = freeze i8 poison ret i8 %r }",
        root: (0, 0),
        applied: Some("define i8 @f() { %r = freeze i8 poison ret i8 %r }"),
    },
    Row {
        rule: "Version: 2\nName: push\nWit: t1 + 1\n%t = add %x, 1\n%r = freeze %t\n=>\n%f = freeze %x\n%r = add %f, 1\n",
        function: "define i8 @f(i8 %a) { %t = add i8 %a, 1 %r = freeze i8 %t ret i8 %r }",
        root: (0, 1),
        applied: Some(
            "define i8 @f(i8 %a) { %t = add i8 %a, 1 %1 = freeze i8 %a %r = add i8 %1, 1 ret i8 %r }",
        ),
    },
    Row {
        rule: "Version: 2\nName: constant\nWit: 0\n%r = freeze C\n=>\n%r = C\n",
        function: "define i8 @f() { %r = freeze i8 5 ret i8 %r }",
        root: (0, 0),
        applied: Some("define i8 @f() { ret i8 5 }"),
    },
    // No input or constant is bound to `undef`, and a freeze matches no other instruction.
    Row {
        rule: REFREEZE,
        function: "define i8 @f() { %r = freeze i8 undef ret i8 %r }",
        root: (0, 0),
        applied: None,
    },
    Row {
        rule: REFREEZE,
        function: "define i8 @f(i8 %a) { %r = add i8 %a, 0 ret i8 %r }",
        root: (0, 0),
        applied: None,
    },
    // Intrinsics that are matched and inserted: of two operands, and of one with its truth value.
    Row {
        rule: "Version: 2\nName: to-umin\n%c = icmp ult %x, %y\n%r = select %c, %x, %y\n=>\n%r = umin %x, %y\n",
        function: "define i8 @f(i8 %a, i8 %b) { %c = icmp ult i8 %a, %b %r = select i1 %c, i8 %a, i8 %b ret i8 %r }",
        root: (0, 1),
        applied: Some(
            "define i8 @f(i8 %a, i8 %b) { %c = icmp ult i8 %a, %b %r = call i8 @llvm.umin.i8(i8 %a, i8 %b)\nret i8 %r }",
        ),
    },
    Row {
        rule: "Version: 2\nName: one-max\n%r = umax %x, C\n=>\n%r = umax C+1, %x\n",
        function: "define i8 @f(i8 %a) { %r = call i8 @llvm.umax.i8(i8 %a, i8 9)\nret i8 %r }",
        root: (0, 0),
        applied: Some(
            "define i8 @f(i8 %a) { %r = call i8 @llvm.umax.i8(i8 10, i8 %a)\nret i8 %r }",
        ),
    },
    Row {
        rule: "Version: 2\nName: one-max\n%r = umax %x, C\n=>\n%r = umax C+1, %x\n",
        function: "define i8 @f(i8 %a) { %r = call i8 @llvm.smax.i8(i8 %a, i8 9)\nret i8 %r }",
        root: (0, 0),
        applied: None,
    },
    Row {
        rule: ABS_NEG,
        function: "define i8 @f(i8 %a) { %n = sub i8 0, %a %r = call i8 @llvm.abs.i8(i8 %n, i1 true)\nret i8 %r }",
        root: (0, 1),
        applied: Some(
            "define i8 @f(i8 %a) { %n = sub i8 0, %a %r = call i8 @llvm.abs.i8(i8 %a, i1 false)\nret i8 %r }",
        ),
    },
    // The root has the statement's truth value or one more; and it is no other intrinsic.
    Row {
        rule: "Version: 2\nName: abs-abs\n%r = abs minpoison %x\n=>\n%r = abs %x\n",
        function: "define i8 @f(i8 %a) { %r = call i8 @llvm.abs.i8(i8 %a, i1 false)\nret i8 %r }",
        root: (0, 0),
        applied: None,
    },
    Row {
        rule: "Version: 2\nName: lz\n%r = ctlz %x\n=>\n%r = ctlz %x\n",
        function: "define i8 @f(i8 %a) { %r = call i8 @llvm.cttz.i8(i8 %a, i1 false)\nret i8 %r }",
        root: (0, 0),
        applied: None,
    },
    // A temporary has exactly the statement's truth value where the target names one, and else it or one more.
    Row {
        rule: TZ_READ,
        function: "define i8 @f(i8 %a) { %t = call i8 @llvm.cttz.i8(i8 %a, i1 true)\n%r = add i8 %t, 1 ret i8 %r }",
        root: (0, 1),
        applied: None,
    },
    Row {
        rule: TZ_READ,
        function: "define i8 @f(i8 %a) { %t = call i8 @llvm.cttz.i8(i8 %a, i1 false)\n%r = add i8 %t, 1 ret i8 %r }",
        root: (0, 1),
        applied: Some(
            "define i8 @f(i8 %a) { %t = call i8 @llvm.cttz.i8(i8 %a, i1 false)\n%r = sub i8 %t, -1 ret i8 %r }",
        ),
    },
    Row {
        rule: "Version: 2\nName: pop-shl\n%t = ctpop %x\n%r = and %t, 0\n=>\n%r = 0\n",
        function: "define i8 @f(i8 %a) { %t = call i8 @llvm.ctpop.i8(i8 %a)\n%r = and i8 %t, 0 ret i8 %r }",
        root: (0, 1),
        applied: Some("define i8 @f(i8 %a) { %t = call i8 @llvm.ctpop.i8(i8 %a)\nret i8 0 }"),
    },
    Row {
        rule: "Version: 2\nName: tz-gone\n%t = cttz %x\n%r = and %t, 0\n=>\n%r = 0\n",
        function: "define i8 @f(i8 %a) { %t = call i8 @llvm.cttz.i8(i8 %a, i1 true)\n%r = and i8 %t, 0 ret i8 %r }",
        root: (0, 1),
        applied: Some(
            "define i8 @f(i8 %a) { %t = call i8 @llvm.cttz.i8(i8 %a, i1 true)\nret i8 0 }",
        ),
    },
];

/// Applies a rule at an instruction, if it matches there.
fn apply_there(
    alloc: Global,
    f: &mut Function,
    block: u32,
    place: u32,
    rule: &Rule,
) -> Result<bool, Unfit>
    requires function { FunctionIsReady f.old }
    requires rule { RuleIsReady rule.now }
{
    let Some(binding) = match_there(alloc, f, block, place, rule, false)? else {
        return Ok(false);
    };
    apply(alloc, f, &binding, rule)?;
    Ok(true)
}

/// The whole function as a text.
fn shown(alloc: Global, f: &Function) -> Result<String, Unfit> {
    Ok(format!(in alloc; "{f:?}")?)
}

/// The whole function as a text, after the rule was applied, or nothing where it doesn't match.
fn applied_in(
    alloc: Global,
    f: &mut Function,
    rule: &Rule,
    root: (u32, u32),
) -> Result<String, Unfit>
    requires function { FunctionIsReady f.old }
    requires rule { RuleIsReady rule.now }
{
    if apply_there(alloc, f, root.0, root.1, rule)? {
        shown(alloc, f)
    } else {
        Ok(String::new(alloc))
    }
}

/// The same for the function of a row.
fn applied_by(alloc: Global, row: &Row, rule: &Rule) -> Result<String, Unfit>
    requires { RuleIsReady rule.now }
{
    let mut f = function_of(alloc, row.function)?;
    applied_in(alloc, &mut f, rule, row.root)
}

/// The same for the function and the rule of a row.
fn applied(alloc: Global, row: &Row) -> Result<String, Unfit> {
    let rule = rule_of(alloc, row.rule)?;
    applied_by(alloc, row, &rule)
}

/// The expected function as a text, or nothing if there is none.
fn expected(alloc: Global, row: &Row) -> Result<String, Unfit> {
    let Some(text) = row.applied else {
        return Ok(String::new(alloc));
    };
    shown(alloc, &function_of(alloc, text)?)
}

/// Whether the function afterwards is the expected one.
fn is_expected(alloc: Global, row: &Row) -> Result<bool, Unfit> {
    let found = applied(alloc, row)?;
    let expected = expected(alloc, row)?;
    Ok(found == expected)
}

#[test]
fn rules_are_applied(rt: HostRuntime) {
    for row in &ROWS {
        assert_eq!(rt;
            is_expected(rt.alloc(), row),
            Ok(true),
            "{}{}",
            row.rule,
            row.function
        );
    }
}
