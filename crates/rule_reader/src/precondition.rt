//! Resolves the formula of `Pre:`.

ghost use Rattle.std.specs.Prelude.{◌≡◌, ◌+◌, ◌≤◌, ◌∷◌, [], suc, length, IfOk, OnOk};
ghost use Rattle.rule_parse.specs.Contents.{formula_of, target_terms, terms_of, terms_of_formula};
ghost use Rattle.rule_reader.specs.Meaning.{nodes_in, AreNames, FormulaMeans, TermsMean, PreconditionMeans, IsTemporary, AssignsAt};
ghost use Rattle.rule_reader.specs.WellFormed.{IsWellFormed};
ghost use Rattle.rule_reader.specs.FaultKinds.{Each, FormulaIsBound};
ghost use Rattle.rule_reader.specs.KnownRules.{TermIsReady, HasReadyTerms, AddsTerms};

use crate::names::Names;
use crate::place::UseSite;
use crate::registers::assigning;
use crate::resolve::register;
use crate::terms::add_term;
use lists::List;
use rule_core::{Formula, Term};
use rule_parse::{RawFormula, RawNode, RawRule};
use std::alloc::{AllocError, Global};

/// Appends the nodes of a term to those of others. The answer is the place of its last node.
fn place_of_term(
    alloc: Global,
    terms: &mut List<Term>,
    rule: &RawRule,
    names: &Names,
    written: &[RawNode],
) -> Result<u32, AllocError>
    requires rule { IsWellFormed rule.now }
    requires names { AreNames rule.now.source names.now }
    requires ready { TermIsReady rule.now UseSite.Heading written.now }
    requires few { length terms.old + length written.now ≤ 256 }
    ensures means { OnOk result (AddsTerms rule.now names.now terms.old (written.now ∷ []) terms.new) }
    ensures count { OnOk result (length terms.new ≡ length terms.old + length written.now) }
    ensures place { IfOk result (λ n. suc n ≡ length terms.old + length written.now) }
{
    add_term(alloc, terms, rule, names, UseSite::Heading, written)?;
    Ok(terms.len() as u32 - 1)
}

/// The source statement that assigns the temporary of this name.
fn temporary(rule: &RawRule, name: &[u8]) -> u32
    requires rule { IsWellFormed rule.now }
    requires bound { IsTemporary rule.now.source name.now }
    ensures { AssignsAt rule.now.source result name.now }
{
    let source = rule.source.as_slice();
    match assigning(source, source.len(), name) {
        Some(place) => place as u32,
        None => unreachable!(),
    }
}

/// Resolves a node of the formula, and appends the nodes of its terms to those of others.
fn node(
    alloc: Global,
    terms: &mut List<Term>,
    rule: &RawRule,
    names: &Names,
    written: &RawFormula,
) -> Result<Formula, AllocError>
    requires rule { IsWellFormed rule.now }
    requires names { AreNames rule.now.source names.now }
    requires ready { HasReadyTerms rule.now written.now }
    requires few { length terms.old + nodes_in (terms_of_formula written.now) ≤ 256 }
    ensures means { OnOk result (AddsTerms rule.now names.now terms.old (terms_of_formula written.now) terms.new) }
    ensures count { OnOk result (length terms.new ≡ length terms.old + nodes_in (terms_of_formula written.now)) }
    ensures formula { IfOk result (FormulaMeans rule.now names.now (length terms.old) written.now) }
{
    Ok(match written {
        RawFormula::Compare(predicate, left, right) => {
            let left = place_of_term(alloc, terms, rule, names, left.as_slice())?;
            let right = place_of_term(alloc, terms, rule, names, right.as_slice())?;
            Formula::Compare(*predicate, left, right)
        }
        RawFormula::IsPowerOfTwo(term) => Formula::IsPowerOfTwo(place_of_term(
            alloc,
            terms,
            rule,
            names,
            term.as_slice(),
        )?),
        RawFormula::IsSignBit(term) => Formula::IsSignBit(place_of_term(
            alloc,
            terms,
            rule,
            names,
            term.as_slice(),
        )?),
        RawFormula::HasOneUse(name) => Formula::HasOneUse(temporary(rule, name.as_slice())),
        RawFormula::MaskedValueIsZero(name, mask) => {
            let masked = register(rule, names, UseSite::Heading, name.as_slice());
            let mask = place_of_term(alloc, terms, rule, names, mask.as_slice())?;
            Formula::MaskedValueIsZero(masked, mask)
        }
        RawFormula::IsKnownNonZero(name) => Formula::IsKnownNonZero(register(
            rule,
            names,
            UseSite::Heading,
            name.as_slice(),
        )),
        RawFormula::Not(operand) => Formula::Not(*operand),
        RawFormula::And(left, right) => Formula::And(*left, *right),
        RawFormula::Or(left, right) => Formula::Or(*left, *right),
    })
}

/// Resolves the nodes of a formula, and appends the nodes of their terms to those of the target.
fn formula(
    alloc: Global,
    terms: &mut List<Term>,
    rule: &RawRule,
    names: &Names,
    written: &[RawFormula],
) -> Result<List<Formula>, AllocError>
    requires rule { IsWellFormed rule.now }
    requires names { AreNames rule.now.source names.now }
    requires bound { Each (FormulaIsBound rule.now) written.now }
    requires formula { written.now ≡ formula_of rule.now }
    requires target { TermsMean rule.now names.now (target_terms rule.now) terms.old }
    ensures means { IfOk result (PreconditionMeans rule.now names.now written.now) }
    ensures terms { OnOk result (TermsMean rule.now names.now (terms_of rule.now) terms.new) }
{
    let mut formula = List::new(alloc);
    for written in written {
        formula.push(node(alloc, terms, rule, names, written)?)?;
    }
    Ok(formula)
}

/// The nodes of `Pre:`, or none where a rule has no `Pre:`.
pub(crate) fn precondition(
    alloc: Global,
    terms: &mut List<Term>,
    rule: &RawRule,
    names: &Names,
) -> Result<List<Formula>, AllocError>
    requires rule { IsWellFormed rule.now }
    requires names { AreNames rule.now.source names.now }
    requires bound { Each (FormulaIsBound rule.now) (formula_of rule.now) }
    requires target { TermsMean rule.now names.now (target_terms rule.now) terms.old }
    ensures means { IfOk result (PreconditionMeans rule.now names.now (formula_of rule.now)) }
    ensures terms { OnOk result (TermsMean rule.now names.now (terms_of rule.now) terms.new) }
{
    match &rule.precondition {
        Some(written) => formula(alloc, terms, rule, names, written.formula.as_slice()),
        None => Ok(List::new(alloc)),
    }
}
