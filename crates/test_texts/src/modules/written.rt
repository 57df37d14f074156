//! Modules that are read, cleaned of dead code, and printed.

use alive_top::{OptimiseOptions, Optimised, optimise};
use ir_parse::parse;
use std::alloc::Global;

/// A module without dead code, as it is printed.
const CANONICAL: &str = r#"source_filename = "a.c"
target triple = "x"

define internal i8 @f(i8 noundef %"a b", i8 %0) nounwind {
  %2 = add nuw nsw i8 %"a b", -1
  %c = icmp slt i8 %2, undef
  switch i8 %0, label %out [
    i8 -2, label %3
    i8 1, label %out
  ]

3:
  %4 = phi i8 [ 7, %1 ], [ poison, %3 ]
  %5 = select i1 %c, i8 %4, i8 %2
  %6 = trunc i8 %5 to i1
  %7 = freeze i1 %6
  br i1 %7, label %3, label %out

out:
  ret i8 -128
}

declare void @g()

define i1 @"5\22"() {
entry:
  switch i1 false, label %0 [
  ]

0:
  br label %1

1:
  unreachable
}

define i64 @""(i64 %-a.$_9) {
  %"1" = xor i64 %-a.$_9, -9223372036854775808
  ret i64 %"1"
}
"#;

const REPORT: &str = "@f: 0 rewrites\n@\"5\\22\": 0 rewrites\n@\"\": 0 rewrites\n";

/// Texts, and their modules as they are printed.
const ROWS: [(&str, &str); 9] = [
    ("; none\n\n", ""),
    (CANONICAL, CANONICAL),

    // Each beginning of a kept line; items, attachments and comments of a header.
    (
        "source_filename = \"a\" ; c\ntarget x\n$c = comdat any ; \ndeclare i8 @g(ptr)
define dso_local range(i8 0, 9) 7 #0 \"a\" \"k\"=\"v\" ret i i08 @\"0\"(i8 noundef align(4) %x, ; x
i1) #0 !dbg !5 !-5 !-5 { ret i8 %\"x\", !dbg !1 }
attributes #0 = { a }\n!0 = !{}\n!x = !{!0}",
        "source_filename = \"a\" ; c
target x
$c = comdat any ;
declare i8 @g(ptr)

define dso_local range(i8 0, 9) 7 #0 \"a\" \"k\"=\"v\" ret i i8 @\"0\"(i8 noundef align(4) %x, i1 %0) #0 {
  ret i8 %x
}

attributes #0 = { a }
!0 = !{}
!x = !{!0}
",
    ),

    // Each instruction and its flags, and numbers in all ways.
    (
        "define i8 @f(i8 %x) { %a = add nsw nuw i8 %x, 255 %b = sub i8 -128, %a %c = mul nuw i8 %b, undef
%d = udiv exact i8 %c, 1 %e = sdiv i8 %d, poison %f = urem i8 %e, 1 %g = srem i8 %f, 0 %h = shl nuw i8 %g, 1
%i = lshr exact i8 %h, 1 %j = ashr exact i8 %i, 1 %k = and i8 %j, 1 %l = or i8 %k, 1 %m = xor i8 %l, 1, !dbg !1
%n = icmp ult i8 %m, 1 %o = select i1 %n, i8 1, i8 %m %p = freeze i64 18446744073709551615
%q = trunc i8 %o to i1 %r = zext i1 %q to i64 %s = sext i1 true to i64 %t = icmp sge i64 %p, %r
%u = icmp ne i64 %s, 1 br i1 %t, label %\"a b\", label %1, !p !1
\"a b\": switch i1 %u, label %1 [ i1 -1, label %1 i1 0, label %\"\\61 b\" ] 1: ret i8 %o }",
        "define i8 @f(i8 %x) {
  %a = add nuw nsw i8 %x, -1
  %b = sub i8 -128, %a
  %c = mul nuw i8 %b, undef
  %d = udiv exact i8 %c, 1
  %e = sdiv i8 %d, poison
  %f = urem i8 %e, 1
  %g = srem i8 %f, 0
  %h = shl nuw i8 %g, 1
  %i = lshr exact i8 %h, 1
  %j = ashr exact i8 %i, 1
  %k = and i8 %j, 1
  %l = or i8 %k, 1
  %m = xor i8 %l, 1
  %n = icmp ult i8 %m, 1
  %o = select i1 %n, i8 1, i8 %m
  %p = freeze i64 -1
  %q = trunc i8 %o to i1
  %r = zext i1 %q to i64
  %s = sext i1 true to i64
  %t = icmp sge i64 %p, %r
  %u = icmp ne i64 %s, 1
  br i1 %t, label %\"a b\", label %1

\"a b\":
  switch i1 %u, label %1 [
    i1 true, label %1
    i1 false, label %\"a b\"
  ]

1:
  ret i8 %o
}
",
    ),

    // The flags of an `or`, of casts and of comparisons.
    (
        "define i1 @f(i8 %x) { %a = or disjoint i8 %x, 1 %b = trunc nsw nuw i8 %a to i4 %c = zext nneg i4 %b to i8
%d = trunc nsw i8 %c to i1 %e = icmp samesign ult i8 %x, %c %g = select i1 %d, i1 %e, i1 %d ret i1 %g }",
        "define i1 @f(i8 %x) {
  %a = or disjoint i8 %x, 1
  %b = trunc nuw nsw i8 %a to i4
  %c = zext nneg i4 %b to i8
  %d = trunc nsw i8 %c to i1
  %e = icmp samesign ult i8 %x, %c
  %g = select i1 %d, i1 %e, i1 %d
  ret i1 %g
}
",
    ),

    // Operands that are the same though written differently, and one phi entry for two edges.
    (
        "define i8 @f(i1 %c) { br i1 %c, label %a, label %a a: %w = phi i8 [ 255, %0 ], [ -1, %0 ], [ 255, %0 ]
%x = phi i8 [ undef, %0 ], [ undef, %0 ] %y = phi i1 [ true, %0 ], [ 1, %0 ], [ -1, %0 ]
%z = phi i8 [ 0, %0 ], !dbg !7 %s = select i1 %y, i8 %w, i8 %x %t = add i8 %s, %z ret i8 %t }",
        "define i8 @f(i1 %c) {
  br i1 %c, label %a, label %a

a:
  %w = phi i8 [ -1, %0 ], [ -1, %0 ], [ -1, %0 ]
  %x = phi i8 [ undef, %0 ], [ undef, %0 ]
  %y = phi i1 [ true, %0 ], [ true, %0 ], [ true, %0 ]
  %z = phi i8 [ 0, %0 ]
  %s = select i1 %y, i8 %w, i8 %x
  %t = add i8 %s, %z
  ret i8 %t
}
",
    ),

    // An unreachable block is a predecessor, and reads what is never assigned.
    (
        "define i8 @f() { br label %a a: %y = phi i8 [ 0, %0 ], [ %1, %b ] ret i8 %y
b: %1 = freeze i8 %2 %2 = freeze i8 %1 br label %a }",
        "define i8 @f() {
  br label %a

a:
  %y = phi i8 [ 0, %0 ], [ %1, %b ]
  ret i8 %y

b:
  %1 = freeze i8 %2
  %2 = freeze i8 %1
  br label %a
}
",
    ),

    // Two phis that are used by one another alone are dead, and numbers move up.
    (
        "define i8 @f(i8 %0, i1 %1) { br label %3 3: %4 = phi i8 [ %0, %2 ], [ %5, %3 ]
%5 = phi i8 [ %0, %2 ], [ %4, %3 ] %6 = phi i8 [ %0, %2 ], [ %7, %3 ] %7 = freeze i8 %6
br i1 %1, label %3, label %8 8: ret i8 %6 }",
        "define i8 @f(i8 %0, i1 %1) {
  br label %3

3:
  %4 = phi i8 [ %0, %2 ], [ %5, %3 ]
  %5 = freeze i8 %4
  br i1 %1, label %3, label %6

6:
  ret i8 %4
}
",
    ),

    // What only a switch uses is live, and what only a phi of another block uses, too.
    (
        "define i8 @f(i8 %a) { %unread = freeze i8 %a %read = freeze i8 %a %taken = freeze i8 %a
switch i8 %read, label %b [ i8 1, label %b ] b: %phi = phi i8 [ %taken, %0 ], [ %taken, %0 ] ret i8 %phi }",
        "define i8 @f(i8 %a) {
  %read = freeze i8 %a
  %taken = freeze i8 %a
  switch i8 %read, label %b [
    i8 1, label %b
  ]

b:
  %phi = phi i8 [ %taken, %0 ], [ %taken, %0 ]
  ret i8 %phi
}
",
    ),
];

/// The text that `optimise` prints for a module without rules, if the text is one.
fn cleaned(alloc: Global, text: &str) -> Option<Optimised> {
    let options = OptimiseOptions {
        conflicts: 0,
        steps: 0,
        fold: false,
        across: false,
    };
    optimise(alloc, text.as_bytes(), &[], options).ok()
}

/// Whether this is written of a module without rules.
pub(super) fn is_cleaned_to(alloc: Global, text: &str, written: &str) -> bool {
    match cleaned(alloc, text) {
        Some(optimised) => optimised.out.as_slice() == written.as_bytes(),
        None => false,
    }
}

/// Whether this is reported of a module without rules.
fn is_reported(alloc: Global, text: &str, report: &str) -> bool {
    match cleaned(alloc, text) {
        Some(optimised) => optimised.report.as_slice() == report.as_bytes(),
        None => false,
    }
}

/// How many entries a module has, if a text is one.
fn entry_count(alloc: Global, text: &str) -> Option<usize> {
    match parse(alloc, text.as_bytes()) {
        Ok(raw) => Some(raw.entries.len()),
        Err(_) => None,
    }
}

#[test]
fn modules_are_cleaned_and_written(rt: HostRuntime) {
    for (text, written) in &ROWS {
        assert!(rt; is_cleaned_to(rt.alloc(), text, written), "{text}");
    }
    assert!(rt; is_reported(rt.alloc(), CANONICAL, REPORT));
    assert_eq!(rt; entry_count(rt.alloc(), CANONICAL), Some(6));
}
