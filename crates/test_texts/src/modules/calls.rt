//! Calls of integer intrinsics: read, run, written and refused.

use super::refused::{Refused, expect_told};
use super::runs::line;
use super::written::is_cleaned_to;
use std::alloc::{AllocError, Global};
use std::test::Fail;

// Texts, and their modules as they are printed.
const WRITTEN: [(&str, &str); 3] = [
    (
        "define i5 @f(i5 %a, i5 %b) {
  %1 = tail call noundef i5 @llvm.umax.i5(i5 %a, i5 %b) #2
  ret i5 %1
}
",
        "define i5 @f(i5 %a, i5 %b) {
  %1 = call i5 @llvm.umax.i5(i5 %a, i5 %b)
  ret i5 %1
}
",
    ),

    // Items before the type, in arguments, on further lines, and behind the call; a name in quotes; attachments.
    (
        "define i8 @f(i8 %a) {
  %x = notail call fastcc range(i8 0, 9) noundef
    i8 @\"llvm.\\75min.i8\"(i8 noundef range(i8 -3, \"(\") align 999 %a, ; c
    i8 \"k\" = \"v\" 7 #0 255
    ) nounwind #1 \"k\"=\"v\" memory(none) 7, !dbg !3
  %y = call i8 @llvm.smin.i8(i8 true undef, i8 %x) ret unreachable
  %z = call i8 @llvm.smax.i8(i8 poison, i8 %y)
  %u = call i8 @llvm.abs.i8(i8 %z, i1 immarg true)
  %v = call i8 @llvm.ctpop.i8(i8 %u)
  %w = call i8 @llvm.ctlz.i8(i8 %v, i1 -1), !range !1
  %r = call i8 @llvm.cttz.i8(i8 %w, i1 0)
  ret i8 %r
}
",
        "define i8 @f(i8 %a) {
  %x = call i8 @llvm.umin.i8(i8 %a, i8 -1)
  %y = call i8 @llvm.smin.i8(i8 undef, i8 %x)
  %z = call i8 @llvm.smax.i8(i8 poison, i8 %y)
  %u = call i8 @llvm.abs.i8(i8 %z, i1 true)
  %v = call i8 @llvm.ctpop.i8(i8 %u)
  %w = call i8 @llvm.ctlz.i8(i8 %v, i1 true)
  %r = call i8 @llvm.cttz.i8(i8 %w, i1 false)
  ret i8 %r
}
",
    ),

    // An intrinsic at one bit and at 64, and a function of such a name.
    (
        "declare i8 @llvm.umax.i8(i8, i8)
define i1 @llvm.umax.i8(i1 %a, i64 %b) {
  %1 = call i1 @llvm.umin.i1(i1 %a, i1 true)
  %2 = call i64 @llvm.ctpop.i64(i64 %b)
  %3 = trunc i64 %2 to i1
  %4 = call i1 @llvm.abs.i1(i1 %3, i1 false)
  %5 = or i1 %1, %4
  ret i1 %5
}
",
        "declare i8 @llvm.umax.i8(i8, i8)

define i1 @llvm.umax.i8(i1 %a, i64 %b) {
  %1 = call i1 @llvm.umin.i1(i1 %a, i1 true)
  %2 = call i64 @llvm.ctpop.i64(i64 %b)
  %3 = trunc i64 %2 to i1
  %4 = call i1 @llvm.abs.i1(i1 %3, i1 false)
  %5 = or i1 %1, %4
  ret i1 %5
}
",
    ),
];

#[test]
fn calls_are_written_without_items(rt: HostRuntime) {
    for (text, expected) in &WRITTEN {
        assert!(rt; is_cleaned_to(rt.alloc(), text, expected), "{text}");
    }
}

// A call on %x of i8, an argument, and the line that a run prints.
const RUNS: [(&str, &str, &str); 22] = [
    ("ctlz.i8(i8 %x, i1 true)", "5", "return 5\n"),
    ("ctlz.i8(i8 %x, i1 true)", "0", "return poison\n"),
    ("ctlz.i8(i8 %x, i1 false)", "0", "return 8\n"),
    ("ctlz.i8(i8 %x, i1 false)", "128", "return 0\n"),
    ("cttz.i8(i8 %x, i1 false)", "0", "return 8\n"),
    ("cttz.i8(i8 %x, i1 true)", "0", "return poison\n"),
    ("cttz.i8(i8 %x, i1 true)", "128", "return 7\n"),
    ("ctpop.i8(i8 %x)", "255", "return 8\n"),
    ("ctpop.i8(i8 %x)", "0", "return 0\n"),
    ("abs.i8(i8 %x, i1 false)", "128", "return -128\n"),
    ("abs.i8(i8 %x, i1 true)", "128", "return poison\n"),
    ("abs.i8(i8 %x, i1 true)", "255", "return 1\n"),
    ("umin.i8(i8 %x, i8 7)", "255", "return 7\n"),
    ("umax.i8(i8 %x, i8 7)", "255", "return -1\n"),
    ("smin.i8(i8 %x, i8 7)", "255", "return -1\n"),
    ("smax.i8(i8 %x, i8 7)", "255", "return 7\n"),
    ("umax.i8(i8 %x, i8 undef)", "3", "return 3\n"),
    ("umin.i8(i8 %x, i8 poison)", "0", "return poison\n"),
    ("smax.i8(i8 %x, i8 7)", "poison", "return poison\n"),
    ("abs.i8(i8 %x, i1 false)", "poison", "return poison\n"),
    ("ctpop.i8(i8 %x)", "poison", "return poison\n"),
    ("cttz.i8(i8 %x, i1 0)", "poison", "return poison\n"),
];

/// The line that a run of the call prints.
fn ran(alloc: Global, call: &str, argument: &str) -> Result<Vec<u8>, AllocError> {
    let text = format!(in alloc;
        "define i8 @f(i8 %x) {{\n  %1 = call i8 @llvm.{call}\n  ret i8 %1\n}}\n"
    )?;
    line(alloc, text.as_str(), &[argument], 5)
}

#[test]
fn calls_are_run(rt: HostRuntime) -> Result<(), Fail> {
    for (call, argument, expected) in &RUNS {
        let line = ran(rt.alloc(), call, argument)?;
        assert_eq!(rt;
            line.as_slice(),
            expected.as_bytes(),
            "{call} of {argument}"
        );
    }
    Ok(())
}

const REFUSED: [Refused; 4] = [
    (
        "define i8 @f(i8 %a) {\n  ",
        &[
            ("%x = call i8 @g(i8 %a)", "2: LeftOut call"),
            ("call i8 @llvm.ctpop.i8(i8 1)", "2: LeftOut call"),
            ("ret i8 1\ncall", "3: Syntax"),
        ],
    ),
    (
        "define i8 @f(i8 %a) {\n%x = ",
        &[
            ("call i8 @5(", "2: LeftOut call"),
            ("call\ni8 @g", "2: LeftOut call"),
            ("call void @g()", "2: LeftOut void"),
            ("call i65 @g", "2: Width"),
            ("call ptr", "2: LeftOut ptr"),
            ("call fast\nfloat", "3: LeftOut float"),
            ("call <2", "2: LeftOut <"),
            ("tail\nadd i8", "3: LeftOut add"),
            ("notail 7", "2: Syntax"),
            ("musttail call", "2: LeftOut musttail"),
            ("call i8 %p(", "2: Syntax"),
            ("call i8 (i8) @g", "2: Syntax"),
            ("call i8 asm", "2: Syntax"),
            ("call i8 @llvm.umin.i65(", "2: LeftOut call"),
            ("call i8 @llvm.umin.i0(", "2: LeftOut call"),
            ("call i8 @llvm.umin.i08(", "2: LeftOut call"),
            ("call i8 @llvm.umin.i8.x(", "2: LeftOut call"),
            ("call i8 @llvm.umin.i(", "2: LeftOut call"),
            ("call i8 @llvm.umin(", "2: LeftOut call"),
            ("call i8 @llvm.umul.i8(", "2: LeftOut call"),
            ("call i8 @llvm.add.i8(", "2: LeftOut call"),
            ("call i8 @umin.i8(", "2: LeftOut call"),
            ("call i8 @\"llvm.umin.i8 \"(", "2: LeftOut call"),
            ("call i8 @llvm.umin.i8 i8", "2: Syntax"),
            ("call i8 @llvm.umin.i8(i8 1\n)", "3: Syntax"),
            ("call i8 @llvm.umin.i8(i8 1, i8 1\n, i8 1)", "3: Syntax"),
            ("call i8 @llvm.ctpop.i8(i8 1\n, i1 0)", "3: Syntax"),
            ("call i8 @llvm.abs.i8(i8 1\n)", "3: Syntax"),
            ("call i8 @llvm.cttz.i8()", "2: Syntax"),
            ("call i8 @llvm.abs.i8(i8 1, i1\nundef)", "3: Syntax"),
            ("call i8 @llvm.abs.i8(i8 1, i1\npoison)", "3: Syntax"),
            ("call i8 @llvm.abs.i8(i8 1, i1\n%a)", "3: Syntax"),
            ("call i8 @llvm.abs.i8(i8 1, i1\nx)", "3: Syntax"),
            (
                "call i8 @llvm.abs.i8(i8 %a, i1 label true)",
                "2: LeftOut label",
            ),
            ("call i8 @llvm.abs.i8(i8 1, i1 x\ni8 true)", "3: LeftOut i8"),
            ("call i8 @llvm.abs.i8(i8 1, i1\nlabel", "3: LeftOut label"),
            ("call i8 @llvm.abs.i8(i8 1, i1\nlabel\n)", "3: Syntax"),
            ("call i8 @llvm.abs.i8(i8 1, i1\nlabel,", "3: Syntax"),
            ("call i8 @llvm.abs.i8(i8 1, i1\n2)", "3: ConstRange"),
            ("call i8 @llvm.abs.i8(i8 1, i8\n300)", "3: ConstRange"),
            ("call i8 @llvm.ctpop.i8(i8\nfoo)", "3: LeftOut foo"),
            ("call i8 @llvm.ctpop.i8(i8\n#0)", "3: Syntax"),
            ("call i8 @llvm.ctpop.i8(i8\n\"k\")", "3: Syntax"),
            ("call i8 @llvm.ctpop.i8(i8\nx(y))", "3: Syntax"),
            ("call i8 @llvm.ctpop.i8(i8\n)", "3: Syntax"),
            ("call i8 @llvm.ctpop.i8(i8\n256)", "3: ConstRange"),
            ("call i8 @llvm.ctpop.i8(i8 %a\n7)", "3: Syntax"),
            ("call i8 @llvm.ctpop.i8(ptr", "2: LeftOut ptr"),
            ("call i8 @llvm.ctpop.i8(i8 i9 7)", "2: LeftOut i9"),
            ("call i8 @llvm.ctpop.i8(i8 x(\n))", "2: Syntax"),
            ("call i8 @llvm.ctpop.i8(i8 1) i8", "2: LeftOut i8"),
            ("call i8 @llvm.ctpop.i8(i8 1) \"k\"=\n\"v\"", "3: Syntax"),
            ("call i8 @llvm.ctpop.i8(i8 1) \"k\"\n=\"v\"", "3: Syntax"),
            ("call i8 @llvm.ctpop.i8(i8 1) \"k\"=v", "2: Syntax"),
            (
                "call i8 @llvm.ctpop.i8(i8 1)\nnounwind",
                "3: LeftOut nounwind",
            ),
            ("call i8 @llvm.ctpop.i8(i8 1) ret i8 1 }", "2: LeftOut i8"),
            ("call i8 @llvm.ctpop.i8(i8 1), x", "2: Syntax"),
        ],
    ),
    (
        "define i8 @f(i8 %a, i9 %b) {\n%x = call ",
        &[
            ("i9 @llvm.ctpop.i8(\ni9 1)\nret i8 %a }", "2: TypeClash"),
            ("i8 @llvm.ctpop.i9(\ni8 1)\nret i8 %a }", "2: TypeClash"),
            ("i8 @llvm.ctpop.i8(\ni9 1)\nret i8 %a }", "2: TypeClash"),
            (
                "i8 @llvm.umin.i8(\ni8 1,\ni9 1)\nret i8 %a }",
                "2: TypeClash",
            ),
            (
                "i8 @llvm.umin.i8(\ni9 1,\ni8 1)\nret i8 %a }",
                "2: TypeClash",
            ),
            ("i8 @llvm.abs.i8(i8 1,\ni8 0)\nret i8 %a }", "2: TypeClash"),
            (
                "i8 @llvm.abs.i8(i8 1,\ni8 true)\nret i8 %a }",
                "2: TypeClash",
            ),
            ("i8 @llvm.ctpop.i8(\ni8 %b)\nret i8 %a }", "3: TypeClash"),
            ("i8 @llvm.ctpop.i8(\ni8 true)\nret i8 %a }", "3: TypeClash"),
            ("i8 @llvm.ctpop.i8(\ni8 %c)\nret i8 %a }", "3: Unknown"),
            (
                "i8 @llvm.umin.i8(i8 1,\ni8 %x)\nret i8 %a }",
                "3: Unassigned %x in block 0",
            ),
            ("i9 @llvm.ctpop.i9(i9 1)\nret i8 %x }", "3: TypeClash"),
        ],
    ),
    (
        "define i8 @f() {\nbr label %b\nb:\n%x = call i8 @llvm.ctpop.i8(i8 1)\n",
        &[("%y = phi i8 [ 1, %0 ]\nret i8 %y }", "5: BadPhi")],
    ),
];

#[test]
fn calls_are_refused_at_their_first_fault(rt: HostRuntime) -> Result<(), Fail> {
    for texts in &REFUSED {
        expect_told(&rt, rt.alloc(), texts)?;
    }
    Ok(())
}
