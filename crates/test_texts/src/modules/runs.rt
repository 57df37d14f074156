//! Functions that are read and run.

use alive_top::{RunError, RunFault, run};
use std::alloc::{AllocError, Global};
use std::test::Fail;

const SWAP: &str = "define i8 @f(i8 %n) {
entry:
  br label %loop
loop:
  %a = phi i8 [ 1, %entry ], [ %b, %loop ]
  %b = phi i8 [ 2, %entry ], [ %a, %loop ]
  %i = phi i8 [ 0, %entry ], [ %j, %loop ]
  %j = add i8 %i, 1
  %c = icmp ult i8 %j, %n
  br i1 %c, label %loop, label %exit
exit:
  ret i8 %b
}
";

const PICK: &str = "define i8 @f(i8 %x) {
entry:
  switch i8 %x, label %other [ i8 3, label %three ]
three:
  br label %end
other:
  br label %end
end:
  %r = phi i8 [ 30, %three ], [ 7, %other ]
  ret i8 %r
}
";

const GIVEN: &str = "define i8 @f(i8 noundef %x) {
  ret i8 %x
}
";

const FREEZE: &str = "define i8 @f() {
  %x = freeze i8 poison
  ret i8 %x
}
";

const SELECT: &str = "define i8 @f(i1 %c) {
  %x = select i1 %c, i8 7, i8 poison
  ret i8 %x
}
";

const UNDEF: &str = "define i8 @f() {
  ret i8 undef
}
";

const DEFINED: &str = "define noundef i8 @f() {
  ret i8 undef
}
";

const DISJOINT: &str = "define i8 @f(i8 %x) {
  %r = or disjoint i8 %x, 1
  ret i8 %r
}
";

const CUT: &str = "define i4 @f(i8 %x) {
  %r = trunc nuw nsw i8 %x to i4
  ret i4 %r
}
";

const WIDENED: &str = "define i16 @f(i8 %x) {
  %r = zext nneg i8 %x to i16
  ret i16 %r
}
";

const ONE_SIGN: &str = "define i1 @f(i8 %x) {
  %r = icmp samesign ult i8 %x, -1
  ret i1 %r
}
";

/// A text, the arguments of `@f`, the most blocks that the run may enter, and the line that is printed, or `argument`.
static ROWS: [(&str, &[&str], u32, &str); 29] = [
    (SWAP, &["2"], 10, "return 1\n"),
    (SWAP, &["3"], 10, "return 2\n"),
    (SWAP, &["3"], 3, "running block 1\n"),
    (SWAP, &["poison"], 10, "undefined\n"),
    (SWAP, &["poison"], 1, "running block 1\n"),
    (PICK, &["3"], 3, "return 30\n"),
    (PICK, &["4"], 3, "return 7\n"),
    (GIVEN, &["poison"], 0, "undefined\n"),
    (GIVEN, &["5"], 0, "running block 0\n"),
    (GIVEN, &["127"], 1, "return 127\n"),
    (GIVEN, &["255"], 1, "return -1\n"),
    (GIVEN, &["256"], 1, "argument"),
    (GIVEN, &["07"], 1, "argument"),
    (GIVEN, &["-1"], 1, "argument"),
    (GIVEN, &["true"], 1, "argument"),
    (GIVEN, &[], 1, "argument"),
    (FREEZE, &[], 1, "return 0\n"),
    (SELECT, &["true"], 1, "return 7\n"),
    (SELECT, &["0"], 1, "return poison\n"),
    (UNDEF, &[], 1, "return 0\n"),
    (DEFINED, &[], 1, "undefined\n"),
    (DISJOINT, &["2"], 1, "return 3\n"),
    (DISJOINT, &["3"], 1, "return poison\n"),
    (CUT, &["7"], 1, "return 7\n"),
    (CUT, &["8"], 1, "return poison\n"),
    (WIDENED, &["127"], 1, "return 127\n"),
    (WIDENED, &["128"], 1, "return poison\n"),
    (ONE_SIGN, &["128"], 1, "return true\n"),
    (ONE_SIGN, &["127"], 1, "return poison\n"),
];

/// The line that a run of `@f` prints.
pub(super) fn line(
    alloc: Global,
    text: &str,
    arguments: &[&str],
    blocks: u32,
) -> Result<Vec<u8>, AllocError> {
    match run(alloc, text.as_bytes(), b"f", arguments, blocks) {
        Ok(line) => Ok(line),
        Err(RunError::Refused(RunFault::Module(_))) => Vec::from_slice(alloc, b"refused"),
        Err(RunError::Refused(RunFault::Argument)) => Vec::from_slice(alloc, b"argument"),
        Err(RunError::NoMemory) => Err(AllocError),
    }
}

#[test]
fn functions_end_as_worked_out(rt: HostRuntime) -> Result<(), Fail> {
    for (row, (text, arguments, blocks, wanted)) in ROWS.iter().enumerate() {
        let found = line(rt.alloc(), text, arguments, *blocks)?;
        assert_eq!(rt; found.as_slice(), wanted.as_bytes(), "row {row}");
    }
    Ok(())
}
