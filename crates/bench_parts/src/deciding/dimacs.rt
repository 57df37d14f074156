//! Clause sets in the form of DIMACS, which other solvers read.

use crate::failure::Failure;
use clauses::{Clause, Cnf, Lit};
use std::fs::File;
use std::io::{BufWriter, Write};
use std::{fmt, fs};

/// A clause set as a text: the line `p cnf VARIABLES CLAUSES`, and a line for each clause, those of
/// gates first. A line has the number of each literal's variable, with `-` where the literal is
/// negated, and ends with 0.
#[derive(Clone, Copy, Debug)]
struct Dimacs<'a>(&'a Cnf);

impl fmt::Display for Dimacs<'_> {
    fn fmt<W: fmt::Write>(&self, f: &mut fmt::Formatter<W>) -> fmt::Result {
        let set = self.0;
        writeln!(f, "p cnf {} {}", set.count, set.clause_count())?;
        write_clauses(f, set.gates.as_slice())?;
        write_clauses(f, set.roots.as_slice())
    }
}

/// Writes a line for each clause.
fn write_clauses<W: fmt::Write>(f: &mut fmt::Formatter<W>, clauses: &[Clause]) -> fmt::Result {
    for clause in clauses {
        write_clause(f, clause.as_slice())?;
    }
    Ok(())
}

/// Writes the line of a clause.
fn write_clause<W: fmt::Write>(f: &mut fmt::Formatter<W>, clause: &[Lit]) -> fmt::Result {
    for literal in clause {
        let sign = if literal.is_negated() { "-" } else { "" };
        write!(f, "{sign}{} ", literal.variable())?;
    }
    writeln!(f, "0")
}

/// The file for the clause set of the rule at a place.
#[derive(Clone, Copy, Debug)]
pub(super) struct SetFile<'a> {
    /// The folder in which it stands.
    pub(super) folder: &'a str,
    /// The place of the rule, from 0, which is its name.
    pub(super) place: usize,
}

/// Opens the file; it is created, or emptied.
fn opened(rt: &HostRuntime, set_file: SetFile<'_>) -> Result<File, Failure> {
    let name = format!(in rt.alloc(); "{}/{}.cnf", set_file.folder, set_file.place)?;
    fs::create(rt, name.as_str()).map_err(|_| Failure::Output)
}

/// Writes a set to its file.
pub(super) fn write_set(rt: &HostRuntime, set_file: SetFile<'_>, set: &Cnf) -> Result<(), Failure> {
    let file = opened(rt, set_file)?;
    let mut out = BufWriter::new(rt.alloc(), file).map_err(|_| Failure::NoMemory)?;
    write!(out, "{}", Dimacs(set)).map_err(|_| Failure::Output)?;
    out.flush().map_err(|_| Failure::Output)
}
