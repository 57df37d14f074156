//! Texts that are refused, and the fault of each.

use ir_reader::{IrError, IrFault, IrFaultKind, read_module};
use ir_tokens::Identifier;
use std::alloc::{AllocError, Global};
use std::process::Abort;
use std::test::Fail;

/// The name of a kind of fault.
fn name(kind: &IrFaultKind) -> &'static str {
    match kind {
        IrFaultKind::TooLong => "TooLong",
        IrFaultKind::BadByte => "BadByte",
        IrFaultKind::Syntax => "Syntax",
        IrFaultKind::LeftOut(_) => "LeftOut",
        IrFaultKind::Width => "Width",
        IrFaultKind::ConstRange => "ConstRange",
        IrFaultKind::Numbering => "Numbering",
        IrFaultKind::Duplicate => "Duplicate",
        IrFaultKind::Unknown => "Unknown",
        IrFaultKind::TypeClash => "TypeClash",
        IrFaultKind::BadPhi => "BadPhi",
        IrFaultKind::EntryPred => "EntryPred",
        IrFaultKind::Unassigned(_, _) => "Unassigned",
    }
}

/// A common beginning of texts, and what is behind it in each, with the line and the kind of its first fault; with
/// `LeftOut` the word, with `Unassigned` the register and the block.
pub(super) type Refused = (&'static str, &'static [(&'static str, &'static str)]);

const TOKENS: [Refused; 3] = [
    (
        "",
        &[
            ("\n\nglobal", "3: LeftOut global"),
            ("@g = global i8 0", "1: LeftOut @"),
            ("%t = type i8", "1: LeftOut %"),
            ("x:", "1: LeftOut x"),
            ("\"x\":", "1: LeftOut \""),
            ("-7", "1: LeftOut -"),
            ("#0", "1: LeftOut #"),
            ("{", "1: LeftOut {"),
            (">", "1: Syntax"),
            ("\n\u{1}", "2: BadByte"),
            ("define i8 @f() { ret i8 0 } !0", "1: LeftOut !"),
            ("define i8 @f() define i8 @g()", "1: LeftOut i8"),
        ],
    ),
    (
        "define",
        &[
            ("\n\n", "2: Syntax"),
            (" i65 @f", "1: Width"),
            (" i0 @f", "1: Width"),
            (" void @f", "1: LeftOut void"),
            (" x\n<2 x i8> @f", "2: LeftOut <"),
            (" @f", "1: Syntax"),
            (" \"k\"=x", "1: Syntax"),
            (" i8 @0", "1: LeftOut @"),
            (" i8 f", "1: Syntax"),
            (" i8 @f i8", "1: Syntax"),
            (" i8 @f(ptr)", "1: LeftOut ptr"),
            (" i8 @f(i8, ...)", "1: LeftOut ..."),
            (" i8 @f(\ni65)", "2: Width"),
            (" i8 @f(%x)", "1: Syntax"),
            (" i8 @f(i8 %x,)", "1: Syntax"),
            (" i8 @f(i8 i65)", "1: LeftOut i65"),
            (" i8 @f(i8 <", "1: Syntax"),
            (" i8 @f(i8 %x %y", "1: Syntax"),
            (" i8 @f(i8 x\n(", "2: Syntax"),
            (" i8 @f() label", "1: LeftOut label"),
            (" i8 @f() [", "1: Syntax"),
            (" i8 @f() !dbg !x", "1: Syntax"),
            (" i8 @f() !7 !7", "1: Syntax"),
            (" i8 @f() !dbg !7 nounwind", "1: Syntax"),
            (" i8 @f() {}", "1: Syntax"),
            (" i8 @f() { a: b:", "1: Syntax"),
        ],
    ),
    (
        "define i8 @f() {",
        &[
            ("\nload i8", "2: LeftOut load"),
            ("\n#dbg_value(", "2: LeftOut #"),
            ("#0", "1: Syntax"),
            ("%a\n\n= add", "3: Syntax"),
            ("%a add", "1: Syntax"),
            ("%a = tail call i8", "1: Syntax"),
            ("%a = #", "1: Syntax"),
            ("%a = icmp i8", "1: LeftOut i8"),
            ("%a = icmp samesign", "1: Syntax"),
            ("%a = icmp samesign i8", "1: LeftOut i8"),
            ("%a = icmp samesign\nsamesign", "2: Syntax"),
            ("%a = icmp eq samesign", "1: LeftOut samesign"),
            ("%a = icmp nneg", "1: LeftOut nneg"),
            ("%a = or disjoint\ndisjoint", "2: Syntax"),
            ("%a = or disjoint nuw", "1: LeftOut nuw"),
            ("%a = xor disjoint", "1: LeftOut disjoint"),
            ("%a = trunc nsw nuw\nnsw", "2: Syntax"),
            ("%a = trunc exact", "1: LeftOut exact"),
            ("%a = sext nneg", "1: LeftOut nneg"),
            ("%a = select samesign", "1: LeftOut samesign"),
            ("%a = freeze nneg", "1: LeftOut nneg"),
            ("%a = add nuw\nnuw", "2: Syntax"),
            ("%a = add exact exact", "1: LeftOut exact"),
            ("%a = udiv nsw", "1: LeftOut nsw"),
            ("%a = add i65 1", "1: Width"),
            ("%a = add ptr", "1: LeftOut ptr"),
            ("%a = add <2", "1: LeftOut <"),
            ("%a = add %x", "1: Syntax"),
            ("%a = add i8 null", "1: LeftOut null"),
            ("%a = add i8 @f", "1: Syntax"),
            ("%a = add i8\n256", "2: ConstRange"),
            ("%a = add i8 -129", "1: ConstRange"),
            ("%a = add i8 1, 256", "1: ConstRange"),
            ("%a = add i8 1 2", "1: Syntax"),
            ("%a = add i8 1, 2 x", "1: LeftOut x"),
            ("%a = add i8 1, 2, x", "1: Syntax"),
            ("%a = add i8 1, 2, !x", "1: Syntax"),
            ("%a = select i1 1, i8 1, 2", "1: Syntax"),
            ("%a = zext i8 1 i9", "1: Syntax"),
            ("%a = zext nneg nneg", "1: Syntax"),
            ("%a = zext nuw", "1: LeftOut nuw"),
            ("%a = zext nneg i8 1", "1: Syntax"),
            ("%a = phi i8 [ 1, 2 ]", "1: Syntax"),
            ("%a = phi i8 [ 1, %b ], x", "1: Syntax"),
            ("%a = phi i8 [ 1, %b ], [ 256, %b ]", "1: ConstRange"),
            ("ret void", "1: LeftOut void"),
            ("ret 7", "1: Syntax"),
            ("br x", "1: LeftOut x"),
            ("br i1 %c, %a", "1: Syntax"),
            ("switch i8 1, label %d [ ptr", "1: LeftOut ptr"),
            ("switch i8 1, label %d [ i8 undef", "1: LeftOut undef"),
            ("switch i9 1, label %d [ i8 256", "1: ConstRange"),
            ("switch i8 1, label %d [ i8 1 label", "1: Syntax"),
            ("unreachable x", "1: Syntax"),
            ("unreachable\n\u{7f}", "2: BadByte"),
            ("unreachable\n\n", "2: Syntax"),
        ],
    ),
];

const FUNCTIONS: [Refused; 5] = [
    (
        "define i8 @f(",
        &[
            ("i8 %1) { ret i8 %1 }", "1: Numbering"),
            ("i8) {\n%1 = freeze i8 %0 ret i8 %1 }", "2: Numbering"),
            ("i8) {\nbr label %2\n3: ret i8 %0 }", "3: Numbering"),
            ("i8 %x,\ni8 %x) { ret i8 %x }", "2: Duplicate"),
            ("i16 %x) {\nret i8 %x }", "2: TypeClash"),
        ],
    ),
    (
        "define i8 @f(i8 %x) {\n",
        &[
            (
                "switch i8 %x, label %a [ i8 255, label %a\ni8 -1, label %a ] a: ret i8 0 }",
                "3: Duplicate",
            ),
            (
                "switch i8 %x, label %a [ i8 1, label %a\ni16 1, label %a ] a: ret i8 0 }",
                "3: Duplicate",
            ),
            (
                "br label %y\ny: %\"y\" = freeze i8 0 ret i8 %x }",
                "3: Duplicate",
            ),
            ("ret i8 %1 }", "2: Unknown"),
            ("br label %x }", "2: Unknown"),
            ("br label %a\na: ret i8 %a }", "3: Unknown"),
            (
                "br label %a a: %y = phi i8 [ 0, %0 ],\n[ 1, %x ] ret i8 %y }",
                "3: Unknown",
            ),
            (
                "switch i8 %x, label %a [\ni1 true, label %a ] a: ret i8 %x }",
                "3: TypeClash",
            ),
            ("%y = zext i8 %x to i8 ret i8 %y }", "2: TypeClash"),
            (
                "br i8\n%x, label %a, label %a a: ret i8 %x }",
                "3: TypeClash",
            ),
            (
                "%y = select i8 %x, i8 1,\ni16 2 ret i8 %y }",
                "2: TypeClash",
            ),
            ("ret i8 true }", "2: TypeClash"),
            ("ret i16 0 }", "2: TypeClash"),
        ],
    ),

    // Phis: behind another instruction; without an entry for a predecessor; with an entry for no predecessor; with two
    // different entries for one.
    (
        "define i8 @f(i1 %c) {\nbr i1 %c, label %a, label %a a:\n",
        &[
            (
                "%x = freeze i8 0\n%y = phi i8 [ 1, %0 ] ret i8 %y }",
                "4: BadPhi",
            ),
            ("%y = phi i8 [ 1, %0 ] br label %a }", "3: BadPhi"),
            ("%y = phi i8 [ 1, %0 ],\n[ 1, %a ] ret i8 %y }", "3: BadPhi"),
            ("%y = phi i8 [ 1, %0 ], [ 2, %0 ] ret i8 %y }", "3: BadPhi"),
            (
                "%y = phi i8 [ undef, %0 ], [ poison, %0 ] ret i8 %y }",
                "3: BadPhi",
            ),
            (
                "%y = phi i8 [ 1, %0 ] ret i8 %y\nb: br label %a }",
                "3: BadPhi",
            ),
            (
                "ret i8 0 b:\n%y = phi i8 [ 0, %0 ] ret i8 %y }",
                "4: BadPhi",
            ),
            ("br label\n%0 }", "3: EntryPred"),
            (
                "switch\ni8 0, label %a [ i8 1, label %0 ] }",
                "3: EntryPred",
            ),
        ],
    ),

    // Registers that are not assigned where they are read.
    (
        "define i8 @f(i1 %c) {\nbr i1 %c, label %a, label %b\na:\n",
        &[
            (
                "%x = freeze i8 %x br label %b b: ret i8 0 }",
                "4: Unassigned %x in block 1",
            ),
            (
                "%x = add i8 0,\n%1 %1 = freeze i8 0 br label %b b: ret i8 0 }",
                "5: Unassigned %1 in block 1",
            ),
            (
                "%x = select i1 %c, i8 0,\ni8 %\"y z\" %\"y z\" = freeze i8 0 br label %b b: ret i8 0 }",
                "5: Unassigned %y z in block 1",
            ),
            (
                "%x = freeze i8 0 br label %b b:\nret\ni8 %x }",
                "6: Unassigned %x in block 2",
            ),
            (
                "%x = freeze i8 0 br label %b b:\n%y = phi i8 [ %x, %a ],\n[ %x, %0 ] ret i8 %y }",
                "6: Unassigned %x in block 2",
            ),
            (
                "br label %b b: %y = phi i8 [ 0, %0 ],\n[ %x, %a ], [ 0, %b ] %x = freeze i8 0 br label %b }",
                "5: Unassigned %x in block 2",
            ),
            (
                "br label %b b:\nbr i1 %x, label %b, label %d d: %x = freeze i1 0 unreachable }",
                "5: Unassigned %x in block 2",
            ),
            (
                "br label %d b: %x = freeze i8 0 br label %d d:\nswitch i8 %x, label %a [] }",
                "5: Unassigned %x in block 3",
            ),
        ],
    ),

    // Two faults, and either is first in the text; in one function or in two.
    (
        "define i16 @f(i8",
        &[
            (" %x,\ni8 %x) { ret i8 0 }", "2: Duplicate"),
            (
                ") { %x = freeze i8 0\n%x = freeze i8 0\n%5 = freeze i8 0 ret i8 0 }",
                "3: Numbering",
            ),
            (
                ") {\n%5 = freeze i8 0\n%x = freeze i8 0 %x = freeze i8 0 ret i8 0 }",
                "2: Numbering",
            ),
            (") { %x = freeze i8 true\nret i16 %y }", "2: Unknown"),
            (") { %x = freeze i8 true\nbr label %y }", "2: Unknown"),
            (
                ") { ret i16 0 a:\n%x = phi i8 [ 0, %1 ]\nret i8 0 }",
                "3: TypeClash",
            ),
            (
                ") { br label %1 a:\n%x = phi i8 [ 0, %1 ] ret i16 0 }",
                "2: BadPhi",
            ),
            (
                ") { %x = freeze i8 %x ret i16 0 a:\nbr label %1 }",
                "2: EntryPred",
            ),
            (
                ") { %x = freeze i8 %x ret i16 0 }\ndefine i8 @g(i8 %5) { ret i8 %5 }",
                "1: Unassigned %x in block 0",
            ),
            (
                " %5) { ret i16 0 }\ndefine i8 @f() { %x = freeze i8 %x ret i8 0 }",
                "1: Numbering",
            ),
            (
                " %5) { ret i16 0 }\ndefine i8 @f() { ret i8 256 }",
                "2: ConstRange",
            ),
            (
                ") { ret i16 0 }\n$c = comdat any\ndefine i8 @g() { ret i8 %0 }",
                "3: Unknown",
            ),
            (
                ") { ret i16 0 }\ndefine i8 @g() { ret i8 0 }\ndefine i8 @f() { ret i16 0 }",
                "3: Duplicate",
            ),
        ],
    ),
];

/// The bytes of a name, as a text.
fn shown(name: &[u8]) -> &str {
    std::str::from_utf8(name).unwrap_or("no text")
}

/// The fault as a text.
fn fault_told(alloc: Global, fault: &IrFault) -> Result<String, AllocError> {
    let (line, kind) = (fault.line, name(&fault.kind));
    match &fault.kind {
        IrFaultKind::LeftOut(word) => {
            format!(in alloc; "{line}: {kind} {}", shown(word.as_slice()))
        }
        IrFaultKind::Unassigned(Identifier::Named(name), block) => {
            format!(in alloc;
                "{line}: {kind} %{} in block {block}",
                shown(name.as_slice())
            )
        }
        IrFaultKind::Unassigned(Identifier::Numbered(number), block) => {
            format!(in alloc; "{line}: {kind} %{number} in block {block}")
        }
        _ => format!(in alloc; "{line}: {kind}"),
    }
}

/// The first fault of a text, as a text.
fn told(alloc: Global, text: &str) -> Result<String, AllocError> {
    match read_module(alloc, text.as_bytes()) {
        Ok(_) => String::from_str(alloc, "read"),
        Err(IrError::NoMemory) => Err(AllocError),
        Err(IrError::Refused(fault)) => fault_told(alloc, &fault),
    }
}

/// The same of a text in two parts.
fn told_of_parts(alloc: Global, begin: &str, rest: &str) -> Result<String, AllocError> {
    let text = format!(in alloc; "{begin}{rest}")?;
    told(alloc, text.as_str())
}

/// Fails unless each text has this fault.
pub(super) fn expect_told(
    rt: &impl Abort,
    alloc: Global,
    texts: &Refused,
) -> Result<(), AllocError> {
    let (begin, rests) = texts;
    for (rest, wanted) in *rests {
        let told = told_of_parts(alloc, begin, rest)?;
        assert_eq!(rt; told.as_str(), *wanted, "{rest}");
    }
    Ok(())
}

#[test]
fn texts_are_refused_at_their_first_fault(rt: HostRuntime) -> Result<(), Fail> {
    for texts in &TOKENS {
        expect_told(&rt, rt.alloc(), texts)?;
    }
    for texts in &FUNCTIONS {
        expect_told(&rt, rt.alloc(), texts)?;
    }
    Ok(())
}
