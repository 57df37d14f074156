//! Modules with more than 2^16 of one kind of thing: instructions of a block, blocks, parameters, cases, entries of a
//! phi, functions.

use super::written::is_cleaned_to;
use alive_top::run;
use std::alloc::{AllocError, Global};
use std::fmt::Write;
use std::test::Fail;

/// How many there are.
const MANY: u32 = 70_000;

/// What a module has many of.
#[derive(Clone, Copy)]
enum Many {
    Instructions,
    Blocks,
    Cases,
    Functions,
    Parameters,
}

/// Adds a block in which each instruction adds 1 to the one before.
fn push_instructions(text: &mut String) -> Result<(), AllocError> {
    text.push_str("define i32 @f(i32 %0) {\n  %2 = add i32 %0, 1\n")?;
    for number in 2..MANY {
        writeln!(text, "  %{} = add i32 %{number}, 1", number + 1)?;
    }
    writeln!(text, "  ret i32 %{MANY}\n}}")?;
    Ok(())
}

/// Adds blocks that each go to the next one.
fn push_blocks(text: &mut String) -> Result<(), AllocError> {
    text.push_str("define i32 @f(i32 %0) {\n")?;
    for number in 2..MANY {
        writeln!(text, "  br label %{number}\n\n{number}:")?;
    }
    text.push_str("  ret i32 %0\n}\n")
}

/// Adds parameters, of which the last is returned.
fn push_parameters(text: &mut String) -> Result<(), AllocError> {
    text.push_str("define i32 @f(")?;
    for number in 0..MANY {
        write!(text, "i32 %{number}, ")?;
    }
    writeln!(text, "i32 %{MANY}) {{\n  ret i32 %{MANY}\n}}")?;
    Ok(())
}

/// Adds cases that each go to a block of their own, and a phi with an entry for each of these.
fn push_cases(text: &mut String) -> Result<(), AllocError> {
    text.push_str("define i32 @f(i32 %0) {\n  switch i32 %0, label %2 [\n")?;
    for number in 3..MANY {
        writeln!(text, "    i32 {number}, label %{number}")?;
    }
    text.push_str("  ]\n\n2:\n  br label %end\n")?;
    for number in 3..MANY {
        writeln!(text, "\n{number}:\n  br label %end")?;
    }
    text.push_str("\nend:\n  %r = phi i32 [ 1, %2 ]")?;
    for number in 3..MANY {
        write!(text, ", [ {number}, %{number} ]")?;
    }
    text.push_str("\n  ret i32 %r\n}\n")
}

/// Adds functions that return at once.
fn push_functions(text: &mut String) -> Result<(), AllocError> {
    text.push_str("define i32 @f(i32 %0) {\n  ret i32 7\n}\n")?;
    for number in 0..MANY {
        writeln!(text, "\ndefine i32 @f{number}() {{\n  ret i32 {number}\n}}")?;
    }
    Ok(())
}

/// Adds a module that has many of these.
fn push(text: &mut String, many: Many) -> Result<(), AllocError> {
    match many {
        Many::Instructions => push_instructions(text),
        Many::Blocks => push_blocks(text),
        Many::Cases => push_cases(text),
        Many::Functions => push_functions(text),
        Many::Parameters => push_parameters(text),
    }
}

/// Whether `@f` returns at 65,537 the expected line.
fn returns(alloc: Global, text: &str, said: &str) -> bool {
    match run(alloc, text.as_bytes(), b"f", &["65537"], MANY) {
        Ok(line) => line.as_slice() == said.as_bytes(),
        Err(_) => false,
    }
}

/// Whether a text prints as it is once dead code is eliminated, and `@f` returns at 65,537 the expected line, if there
/// is one.
fn are_so(alloc: Global, text: &str, said: Option<&str>) -> bool {
    is_cleaned_to(alloc, text, text)
        && match said {
            Some(said) => returns(alloc, text, said),
            None => true,
        }
}

/// The same for the text of a module with many of these.
fn holds(alloc: Global, many: Many, said: Option<&str>) -> Result<bool, AllocError> {
    let mut text = String::new(alloc);
    push(&mut text, many)?;
    Ok(are_so(alloc, text.as_str(), said))
}

/// What the module has many of, and what `@f` returns at 65,537, if it has one parameter.
static ROWS: [(Many, Option<&str>); 5] = [
    (Many::Instructions, Some("return 135536\n")),
    (Many::Blocks, Some("return 65537\n")),
    (Many::Cases, Some("return 65537\n")),
    (Many::Functions, Some("return 7\n")),
    (Many::Parameters, None),
];

#[test]
fn modules_have_more_than_65536_of_each(rt: HostRuntime) -> Result<(), Fail> {
    for (row, (many, said)) in ROWS.iter().enumerate() {
        assert!(rt; holds(rt.alloc(), *many, *said)?, "row {row}");
    }
    Ok(())
}
