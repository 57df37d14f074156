//! Functions that are read and folded.

ghost use Rattle.test_texts.specs.Ready.{FunctionIsReady};

use super::reading::function_of;
use crate::unfit::Unfit;
use fold_branch::fold;
use ir_core::{Function, Op};
use std::alloc::{AllocError, Global};
use std::fmt::Write;
use std::test::Fail;

/// Functions, and what each is once it is folded.
static ROWS: [(&str, &str); 13] = [
    // A branch on a number: the block that it doesn't choose is emptied, and a phi of one entry stays.
    (
        "define i8 @h(i8 %a) { entry: br i1 true, label %t, label %e t: br label %j e: %x = add i8 %a, 1 br label %j
j: %p = phi i8 [ %a, %t ], [ %x, %e ] ret i8 %p }",
        "define i8 @h(i8 %a) { entry: br label %t t: br label %j e: unreachable j: %p = phi i8 [ %a, %t ]
ret i8 %p }",
    ),
    (
        "define i8 @h(i8 %a) { entry: br i1 0, label %t, label %e t: ret i8 1 e: ret i8 2 }",
        "define i8 @h(i8 %a) { entry: br label %e t: unreachable e: ret i8 2 }",
    ),

    // Blocks that were out of reach before.
    (
        "define i8 @u(i1 %c) { entry: ret i8 0 a: %r = add i8 1, 2 br label %j j: ret i8 %r }",
        "define i8 @u(i1 %c) { entry: ret i8 0 a: unreachable j: unreachable }",
    ),

    // A switch on a number: a case, and none.
    (
        "define i8 @s() { switch i8 5, label %d [ i8 5, label %a ] a: ret i8 1 d: ret i8 2 }",
        "define i8 @s() { br label %a a: ret i8 1 d: unreachable }",
    ),
    (
        "define i8 @s() { switch i8 4, label %d [ i8 5, label %a ] a: ret i8 1 d: ret i8 2 }",
        "define i8 @s() { br label %d a: unreachable d: ret i8 2 }",
    ),

    // The first entry for a folded block stays alone, by its place and not by its operand.
    (
        "define i8 @s(i8 %a, i1 %c) { entry: br i1 %c, label %x, label %s x: br label %j
s: switch i8 -1, label %j [ i8 255, label %j i8 0, label %x ]
j: %p = phi i8 [ %a, %s ], [ 7, %x ], [ %a, %s ] %q = phi i8 [ 1, %x ], [ 2, %s ], [ 2, %s ] %r = add i8 %p, %q
ret i8 %r }",
        "define i8 @s(i8 %a, i1 %c) { entry: br i1 %c, label %x, label %s x: br label %j s: br label %j
j: %p = phi i8 [ %a, %s ], [ 7, %x ] %q = phi i8 [ 1, %x ], [ 2, %s ] %r = add i8 %p, %q ret i8 %r }",
    ),
    (
        "define i8 @b(i8 %a) { entry: br i1 false, label %j, label %j j: %p = phi i8 [ %a, %entry ], [ %a,
%entry ] ret i8 %p }",
        "define i8 @b(i8 %a) { entry: br label %j j: %p = phi i8 [ %a, %entry ] ret i8 %p }",
    ),

    // A register, `undef` and `poison` choose nothing, also where both ways lead to one block.
    (
        "define i8 @b(i8 %a, i1 %c) { entry: br i1 %c, label %j, label %j j: %p = phi i8 [ %a, %entry ], [ %a,
%entry ] ret i8 %p }",
        "define i8 @b(i8 %a, i1 %c) { entry: br i1 %c, label %j, label %j j: %p = phi i8 [ %a, %entry ], [ %a,
%entry ] ret i8 %p }",
    ),
    (
        "define i8 @b() { entry: br i1 undef, label %x, label %y x: switch i8 poison, label %y [ i8 0, label
%y ] y: ret i8 0 }",
        "define i8 @b() { entry: br i1 undef, label %x, label %y x: switch i8 poison, label %y [ i8 0, label
%y ] y: ret i8 0 }",
    ),

    // A loop that is never entered, and one that is left at once.
    (
        "define i8 @l(i8 %n) { entry: br i1 false, label %l, label %out
l: %i = phi i8 [ 0, %entry ], [ %k, %l ] %k = add i8 %i, 1 %c = icmp ult i8 %k, %n br i1 %c, label %l, label %out
out: %r = phi i8 [ %n, %entry ], [ %k, %l ] ret i8 %r }",
        "define i8 @l(i8 %n) { entry: br label %out l: unreachable out: %r = phi i8 [ %n, %entry ] ret i8 %r }",
    ),
    (
        "define i8 @l(i8 %n) { entry: br label %l
l: %i = phi i8 [ %n, %entry ], [ %k, %l ] %k = add i8 %i, 1 br i1 false, label %l, label %out out: ret i8 %k }",
        "define i8 @l(i8 %n) { entry: br label %l l: %i = phi i8 [ %n, %entry ] %k = add i8 %i, 1 br label %out
out: ret i8 %k }",
    ),

    // What a block that is cut leads to stays where another way leads there, and a branch there is folded too.
    (
        "define i8 @c(i8 %a) { entry: br i1 1, label %x, label %y y: br i1 true, label %z, label %x
x: %p = phi i8 [ %a, %entry ], [ 3, %y ] br i1 false, label %y, label %z z: %q = phi i8 [ %p, %x ], [ 4, %y ]
ret i8 %q }",
        "define i8 @c(i8 %a) { entry: br label %x y: unreachable x: %p = phi i8 [ %a, %entry ] br label %z
z: %q = phi i8 [ %p, %x ] ret i8 %q }",
    ),
    (
        "define i8 @c(i1 %c) { entry: br i1 %c, label %a, label %b a: br i1 1, label %z, label %d b: br i1 0,
label %z, label %d
d: ret i8 4 z: ret i8 5 }",
        "define i8 @c(i1 %c) { entry: br i1 %c, label %a, label %b a: br label %z b: br label %d d: ret i8 4 z:
ret i8 5 }",
    ),
];

/// All that a function holds.
fn shown(alloc: Global, f: &Function) -> Result<String, Unfit> {
    Ok(format!(in alloc; "{f:?}")?)
}

/// All that a function holds once it is folded.
fn folded_in(alloc: Global, f: &mut Function) -> Result<String, Unfit>
    requires { FunctionIsReady f.old }
{
    fold(alloc, f)?;
    shown(alloc, f)
}

/// The same of the function of a text.
fn folded(alloc: Global, text: &str) -> Result<String, Unfit> {
    let mut f = function_of(alloc, text)?;
    folded_in(alloc, &mut f)
}

/// Whether the function of a text is that of another once it is folded, and so is that one.
fn is_folded_to(alloc: Global, text: &str, expected: &str) -> Result<bool, Unfit> {
    let expected_shown = shown(alloc, &function_of(alloc, expected)?)?;
    let found = folded(alloc, text)?;
    let again = folded(alloc, expected)?;
    Ok(found == expected_shown && again == expected_shown)
}

#[test]
fn functions_are_folded(rt: HostRuntime) {
    for (text, expected) in &ROWS {
        assert_eq!(rt;
            is_folded_to(rt.alloc(), text, expected),
            Ok(true),
            "{text}"
        );
    }
}

/// How many blocks or cases a large function has.
const MANY: u32 = 20_000;

/// What a function has many of. It ends with a phi that has as many entries.
#[derive(Clone, Copy)]
enum Many {
    /// Blocks that each go to the next one by a branch on `true`, and else to the last.
    Blocks,
    /// Cases of a switch on a number that all go to one block.
    Cases,
}

fn push_blocks(text: &mut String) -> Result<(), AllocError> {
    text.push_str("define i32 @f() {\n")?;
    for number in 1..MANY {
        writeln!(text, "  br i1 true, label %{number}, label %end\n{number}:")?;
    }
    text.push_str("  br label %end\nend:\n  %r = phi i32 [ 0, %0 ]")?;
    for number in 1..MANY {
        write!(text, ", [ {number}, %{number} ]")?;
    }
    text.push_str("\n  ret i32 %r\n}\n")
}

fn push_cases(text: &mut String) -> Result<(), AllocError> {
    text.push_str("define i32 @f() {\n  switch i32 7, label %end [\n")?;
    for number in 1..MANY {
        writeln!(text, "    i32 {number}, label %end")?;
    }
    text.push_str("  ]\nend:\n  %r = phi i32 [ 5, %0 ]")?;
    for _ in 1..MANY {
        text.push_str(", [ 5, %0 ]")?;
    }
    text.push_str("\n  ret i32 %r\n}\n")
}

/// Adds a function that has many of these.
fn push(text: &mut String, many: Many) -> Result<(), AllocError> {
    match many {
        Many::Blocks => push_blocks(text),
        Many::Cases => push_cases(text),
    }
}

/// How many entries the first instruction of the last block has, if it is a phi.
fn entries_at_end(f: &Function) -> Option<usize> {
    let block = f.blocks.as_slice().last()?;
    match &block.insts.as_slice().first()?.op {
        Op::Phi(entries) => Some(entries.len()),
        _ => None,
    }
}

/// The same once the function is folded.
fn entries_left_in(alloc: Global, f: &mut Function) -> Result<Option<usize>, Unfit>
    requires { FunctionIsReady f.old }
{
    fold(alloc, f)?;
    Ok(entries_at_end(f))
}

/// The same of the function that has many of these.
fn entries_left(alloc: Global, many: Many) -> Result<Option<usize>, Unfit> {
    let mut text = String::new(alloc);
    push(&mut text, many)?;
    let mut f = function_of(alloc, text.as_str())?;
    entries_left_in(alloc, &mut f)
}

#[test]
fn large_functions_are_folded(rt: HostRuntime) -> Result<(), Fail> {
    for many in [Many::Blocks, Many::Cases] {
        assert_eq!(rt; entries_left(rt.alloc(), many)?, Some(1));
    }
    Ok(())
}
