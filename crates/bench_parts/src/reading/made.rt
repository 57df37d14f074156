//! Texts of modules that are generated.

use std::alloc::{AllocError, Global};
use std::fmt::Write;

/// A function with a chain of this many blocks behind the first.
pub(super) fn chain(alloc: Global, blocks: u32) -> Result<String, AllocError> {
    let mut text = String::new(alloc);
    text.push_str("define i32 @chain(i32 %a) {\n")?;
    for block in 0..blocks {
        writeln!(text, "  br label %b{block}\nb{block}:")?;
    }
    text.push_str("  ret i32 %a\n}\n")?;
    Ok(text)
}

/// A function that returns at once, with a cycle of this many blocks.
pub(super) fn ring(alloc: Global, blocks: u32) -> Result<String, AllocError> {
    let mut text = String::new(alloc);
    text.push_str("define i32 @ring(i32 %a) {\n  ret i32 %a\n")?;
    for block in 0..blocks {
        let next = (block + 1) % blocks;
        writeln!(text, "b{block}:\n  br label %b{next}")?;
    }
    text.push_str("}\n")?;
    Ok(text)
}

/// A function with one switch of this many cases, which all go to one block.
pub(super) fn cases(alloc: Global, cases: u32) -> Result<String, AllocError> {
    let mut text = String::new(alloc);
    text.push_str("define i32 @cases(i32 %a) {\n  switch i32 %a, label %b [\n")?;
    for case in 0..cases {
        writeln!(text, "    i32 {case}, label %b")?;
    }
    text.push_str("  ]\nb:\n  ret i32 %a\n}\n")?;
    Ok(text)
}
