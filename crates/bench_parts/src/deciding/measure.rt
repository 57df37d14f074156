//! The measured calls, and the line that is printed for them.

ghost use Rattle.std.specs.Prelude.{◌≤◌};
ghost use Rattle.aig.specs.Graph.{IsOwn};
ghost use Rattle.rule_core.specs.Checks.{IsRule};
ghost use Rattle.rule_core.specs.Typing.{IsTyping};
ghost use Rattle.cdcl_log.specs.Found.{most_conflicts};

use super::dimacs::{SetFile, write_set};
use crate::failure::Failure;
use crate::searched::{Outcome, Searched, now, search_set};
use aig::{Aig, Literal};
use blast_rule::blast_rule;
use clauses::Cnf;
use cnf_build::clauses_of;
use rule_core::{Rule, Typing};
use std::fmt;
use std::time::Duration;

/// Clauses are made for fewer inputs and fewer gates than this.
const MOST: usize = 1 << 27;

/// The clause set of a rule, and how many gates its graph has.
#[derive(Debug, Drop)]
struct Blasted {
    gates: usize,
    set: Cnf,
}

/// How large a rule's graph and its clauses are.
#[derive(Clone, Copy, Debug)]
struct Size {
    gates: usize,
    variables: u32,
    clauses: u32,
}

/// What was measured. Its `Display` is the end of the line that is printed.
#[derive(Clone, Copy, Debug)]
pub(super) struct Measurement {
    size: Size,
    blasting: Duration,
    searched: Searched,
}

impl Measurement {
    /// The word of the verdict.
    pub(super) fn word(&self) -> &'static str {
        match self.searched.outcome {
            Outcome::Sat => "refuted",
            Outcome::Unsat { .. } => "admitted",
            Outcome::Limit { .. } => "budget",
        }
    }

    /// How many clauses were learned.
    fn learned(&self) -> usize {
        match self.searched.outcome {
            Outcome::Sat => 0,
            Outcome::Unsat { log, .. } | Outcome::Limit { log } => log.clauses,
        }
    }

    /// How long the check of the log took.
    fn checking(&self) -> u128 {
        match self.searched.outcome {
            Outcome::Unsat { checking, .. } => checking.as_micros(),
            Outcome::Sat | Outcome::Limit { .. } => 0,
        }
    }
}

impl fmt::Display for Size {
    fn fmt<W: fmt::Write>(&self, f: &mut fmt::Formatter<W>) -> fmt::Result {
        write!(f, "{} gates", self.gates)?;
        write!(f, ", {} variables", self.variables)?;
        write!(f, ", {} clauses", self.clauses)
    }
}

impl fmt::Display for Measurement {
    fn fmt<W: fmt::Write>(&self, f: &mut fmt::Formatter<W>) -> fmt::Result {
        write!(f, "{}, {}", self.word(), self.size)?;
        write!(f, ", {} learned", self.learned())?;
        write!(f, ", blast {} us", self.blasting.as_micros())?;
        write!(f, ", search {} us", self.searched.searching.as_micros())?;
        write!(f, ", check {} us", self.checking())
    }
}

/// The clauses of a graph, if it isn't too large.
fn clauses_within(rt: &HostRuntime, graph: &Aig, root: Literal) -> Result<Cnf, Failure>
    requires { IsOwn graph.now root }
{
    if graph.input_count() >= MOST || graph.gates().len() >= MOST {
        return Err(Failure::TooLarge);
    }
    Ok(clauses_of(rt.alloc(), graph, root)?)
}

/// The clause set of the rule at the typing.
fn blast(rt: &HostRuntime, rule: &Rule, typing: &Typing) -> Result<Blasted, Failure>
    requires rule { IsRule rule.now }
    requires typing { IsTyping rule.now typing.now }
{
    let mut graph = Aig::new(rt.alloc());
    let bits = blast_rule(rt.alloc(), &mut graph, rule, typing)?;
    Ok(Blasted {
        set: clauses_within(rt, &graph, bits.bad)?,
        gates: graph.gates().len(),
    })
}

/// Decides the rule at the typing, and measures each step. Where a file is named, the clause set is
/// written to it.
pub(super) fn measure(
    rt: &HostRuntime,
    rule: &Rule,
    typing: &Typing,
    limit: u32,
    file: Option<SetFile<'_>>,
) -> Result<Measurement, Failure>
    requires rule { IsRule rule.now }
    requires typing { IsTyping rule.now typing.now }
    requires limit { limit ≤ most_conflicts }
{
    let start = now(rt)?;
    let Blasted { gates, set } = blast(rt, rule, typing)?;
    let blasting = now(rt)?.duration_since(start);
    if let Some(file) = file {
        write_set(rt, file, &set)?;
    }
    let searched = search_set(rt, &set, limit)?;
    Ok(Measurement {
        size: Size {
            gates,
            variables: set.count,
            clauses: set.clause_count(),
        },
        blasting,
        searched,
    })
}
