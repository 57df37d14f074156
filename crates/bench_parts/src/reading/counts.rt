//! The sizes of a module.

use ir_core::{Entry, Function, Module, Terminator};
use std::fmt;

/// The sizes of a module. Its `Display` is the line that is printed.
#[derive(Clone, Copy, Debug)]
pub(super) struct Counts {
    entries: usize,
    functions: usize,
    blocks: usize,
    /// The cases of all switches.
    cases: usize,
}

impl Counts {
    pub(super) fn of(module: &Module) -> Counts {
        let mut counts = Counts {
            entries: module.entries.len(),
            functions: 0,
            blocks: 0,
            cases: 0,
        };
        for entry in module.entries.as_slice() {
            if let Entry::Function(f) = entry {
                counts.functions = counts.functions.saturating_add(1);
                counts.blocks = counts.blocks.saturating_add(f.blocks.len());
                counts.cases = counts.cases.saturating_add(cases_of(f));
            }
        }
        counts
    }
}

impl fmt::Display for Counts {
    fn fmt<W: fmt::Write>(&self, f: &mut fmt::Formatter<W>) -> fmt::Result {
        write!(f, "entries {}", self.entries)?;
        write!(f, ", functions {}", self.functions)?;
        write!(f, ", blocks {}", self.blocks)?;
        write!(f, ", cases {}", self.cases)
    }
}

/// How many cases the switches of a function have.
fn cases_of(f: &Function) -> usize {
    let mut count: usize = 0;
    for block in f.blocks.as_slice() {
        if let Terminator::Switch(_, _, _, cases) = &block.end {
            count = count.saturating_add(cases.len());
        }
    }
    count
}
