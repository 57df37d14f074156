//! Resolves the expressions of `Wit:`.

ghost use Rattle.std.specs.Prelude.{◌≡◌, IfOk};
ghost use Rattle.rule_parse.specs.Contents.{expressions_of};
ghost use Rattle.rule_reader.specs.Meaning.{last_nodes, AreNames, TermsMean};
ghost use Rattle.rule_reader.specs.WellFormed.{IsWellFormed};
ghost use Rattle.rule_reader.specs.FaultKinds.{Each, TermIsBound};

use crate::names::Names;
use crate::place::UseSite;
use crate::terms::add_term;
use lists::List;
use rule_core::Term;
use rule_parse::{RawRule, RawTerm};
use std::alloc::{AllocError, Global};

/// The expressions of `Wit:`, one for each choice of the source.
#[derive(Drop)]
pub(crate) struct Choices {
    /// Their nodes, one expression behind the other.
    pub(crate) terms: List<Term>,
    /// The place of the last node of each.
    pub(crate) places: List<u32>,
}

/// Resolves the expressions.
fn expressions(
    alloc: Global,
    rule: &RawRule,
    names: &Names,
    written: &[RawTerm],
) -> Result<Choices, AllocError>
    requires rule { IsWellFormed rule.now }
    requires names { AreNames rule.now.source names.now }
    requires bound { Each (TermIsBound rule.now UseSite.Heading) written.now }
    requires written { written.now ≡ expressions_of rule.now }
    ensures terms { IfOk result (λ w. TermsMean rule.now names.now (expressions_of rule.now) w.terms) }
    ensures places { IfOk result (λ w. w.places ≡ last_nodes 0 (expressions_of rule.now)) }
{
    let mut terms = List::new(alloc);
    let mut places = List::new(alloc);
    for written in written {
        add_term(
            alloc,
            &mut terms,
            rule,
            names,
            UseSite::Heading,
            written.as_slice(),
        )?;
        places.push(terms.len() as u32 - 1)?;
    }
    Ok(Choices { terms, places })
}

/// The expressions of `Wit:`, if that is written.
pub(crate) fn witness(alloc: Global, rule: &RawRule, names: &Names) -> Result<Choices, AllocError>
    requires rule { IsWellFormed rule.now }
    requires names { AreNames rule.now.source names.now }
    requires bound { Each (TermIsBound rule.now UseSite.Heading) (expressions_of rule.now) }
    ensures terms { IfOk result (λ w. TermsMean rule.now names.now (expressions_of rule.now) w.terms) }
    ensures places { IfOk result (λ w. w.places ≡ last_nodes 0 (expressions_of rule.now)) }
{
    match &rule.witness {
        Some(written) => expressions(alloc, rule, names, written.expressions.as_slice()),
        None => Ok(Choices {
            terms: List::new(alloc),
            places: List::new(alloc),
        }),
    }
}
