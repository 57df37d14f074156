//! Resolves the names of statements, which may all be used where they are.

ghost use Rattle.std.specs.Prelude.{◌≡◌, ◌≤◌, ℕ, [], ◌∷◌, length, Contains, Some, slice_get, IfOk, MatchOption};
ghost use Rattle.rule_parse.specs.Contents.{arguments_of, formula_of, terms_of, expressions_of};
ghost use Rattle.rule_reader.specs.Meaning.{AreNames, IsConstant, IsConstantOf, HasName, ArgumentMeans, OperandMeans, OpMeans, HalfMeans, TermsMean, PreconditionMeans, Means, last_nodes};
ghost use Rattle.rule_reader.specs.WellFormed.{IsWellFormed};
ghost use Rattle.rule_reader.specs.FaultKinds.{MayUse};
ghost use Rattle.rule_reader.specs.KnownRules.{half_of, IsPlaceOf, Finds, HalfIsBound, NamesAreThere, AreReady};

use crate::counts::Counts;
use crate::names::Names;
use crate::place::{Half, UseSite};
use crate::precondition::precondition;
use crate::registers::{assigning, is_root, place_of};
use crate::terms::target_terms;
use crate::witness::{Choices, witness};
use lists::{List, Text};
use rule_core::{Argument, Formula, Op, Operand, Register, Rule, Statement, Term};
use rule_parse::{RawArgument, RawOp, RawOperand, RawRule, RawStatement};
use std::alloc::{AllocError, Global};

/// The input of this name.
fn input(names: &Names, name: &[u8]) -> Option<Register>
    requires { length names.now.inputs ≤ 96 }
    ensures { MatchOption result
        (¬ Contains names.now.inputs name.now)
        (λ r. (k : ℕ) × (r ≡ Register.Input k) × (slice_get names.now.inputs k ≡ Some name.now)) }
{
    Some(Register::Input(place_of(names.inputs.as_slice(), name)? as u32))
}

/// The register that a name is in source statement `place`: what an earlier statement assigns, or an input.
fn in_source(rule: &RawRule, names: &Names, place: usize, name: &[u8]) -> Option<Register>
    requires rule { IsWellFormed rule.now }
    requires names { AreNames rule.now.source names.now }
    requires place { place ≤ length rule.now.source }
    ensures { Finds rule.now names.now (UseSite.Source place) name.now result }
{
    match assigning(rule.source.as_slice(), place, name) {
        Some(before) => Some(Register::Source(before as u32)),
        None => input(names, name),
    }
}

/// The register that a name is in `Pre:` and `Wit:`: a temporary of the source, or an input.
fn before_root(rule: &RawRule, names: &Names, name: &[u8]) -> Option<Register>
    requires rule { IsWellFormed rule.now }
    requires names { AreNames rule.now.source names.now }
    ensures { Finds rule.now names.now UseSite.Heading name.now result }
{
    let source = rule.source.as_slice();
    match assigning(source, source.len() - 1, name) {
        Some(temporary) => Some(Register::Source(temporary as u32)),
        None => input(names, name),
    }
}

/// The register that a name is in target statement `place`: what an earlier target statement assigns, a temporary of
/// the source, or an input; never the root.
fn in_target(rule: &RawRule, names: &Names, place: usize, name: &[u8]) -> Option<Register>
    requires rule { IsWellFormed rule.now }
    requires names { AreNames rule.now.source names.now }
    requires place { place ≤ length rule.now.target }
    ensures { Finds rule.now names.now (UseSite.Target place) name.now result }
{
    if is_root(rule.source.as_slice(), name) {
        return None;
    }
    match assigning(rule.target.as_slice(), place, name) {
        Some(before) => Some(Register::Target(before as u32)),
        None => before_root(rule, names, name),
    }
}

/// The register that a name is at the place, if one may be used there.
pub(crate) fn found(rule: &RawRule, names: &Names, place: UseSite, name: &[u8]) -> Option<Register>
    requires rule { IsWellFormed rule.now }
    requires names { AreNames rule.now.source names.now }
    requires place { IsPlaceOf rule.now place }
    ensures { Finds rule.now names.now place name.now result }
{
    match place {
        UseSite::Source(statement) => in_source(rule, names, statement, name),
        UseSite::Target(statement) => in_target(rule, names, statement, name),
        UseSite::Heading => before_root(rule, names, name),
    }
}

/// The register that a name is at the place, where one may be used.
pub(crate) fn register(rule: &RawRule, names: &Names, place: UseSite, name: &[u8]) -> Register
    requires rule { IsWellFormed rule.now }
    requires names { AreNames rule.now.source names.now }
    requires place { IsPlaceOf rule.now place }
    requires bound { MayUse rule.now place name.now }
    ensures { HasName rule.now names.now result name.now }
{
    match found(rule, names, place, name) {
        Some(register) => register,
        None => unreachable!(),
    }
}

/// The place of a constant among the source's.
pub(crate) fn constant(rule: &RawRule, names: &Names, name: &[u8]) -> u32
    requires rule { IsWellFormed rule.now }
    requires names { AreNames rule.now.source names.now }
    requires bound { IsConstant rule.now.source name.now }
    ensures { IsConstantOf rule.now names.now result name.now }
{
    match place_of(names.constants.as_slice(), name) {
        Some(place) => place as u32,
        None => unreachable!(),
    }
}

/// Resolves an operand, with these counts before it.
fn argument(
    rule: &RawRule,
    names: &Names,
    place: UseSite,
    before: Counts,
    written: &RawArgument,
) -> Argument
    requires rule { IsWellFormed rule.now }
    requires names { AreNames rule.now.source names.now }
    requires place { IsPlaceOf rule.now place }
    requires ready { AreReady rule.now place before (written.now ∷ []) }
    ensures { ArgumentMeans rule.now names.now before written.now result }
{
    match written {
        RawArgument::Register(name) => {
            Argument::Register(register(rule, names, place, name.as_slice()))
        }
        RawArgument::Literal(number) => Argument::Literal(*number),
        RawArgument::Truth(truth) => Argument::Truth(*truth),
        RawArgument::Constant(name) => {
            Argument::Constant(constant(rule, names, name.as_slice()))
        }
        RawArgument::Undef => Argument::Undef(before.choices),
        RawArgument::Term(term) => Argument::Term(before.nodes + term.len() as u32 - 1),
    }
}

/// The same with the type before the operand.
fn operand(
    rule: &RawRule,
    names: &Names,
    place: UseSite,
    before: Counts,
    written: &RawOperand,
) -> Operand
    requires rule { IsWellFormed rule.now }
    requires names { AreNames rule.now.source names.now }
    requires place { IsPlaceOf rule.now place }
    requires ready { AreReady rule.now place before (written.now.value ∷ []) }
    ensures { OperandMeans rule.now names.now before written.now result }
{
    Operand {
        value: argument(rule, names, place, before, &written.value),
        written: written.written,
        class: 0,
    }
}

/// Resolves what a statement computes, with these counts before it.
fn op(rule: &RawRule, names: &Names, place: UseSite, before: Counts, written: &RawOp) -> Op
    requires rule { IsWellFormed rule.now }
    requires names { AreNames rule.now.source names.now }
    requires place { IsPlaceOf rule.now place }
    requires ready { AreReady rule.now place before (arguments_of written.now) }
    ensures { OpMeans rule.now names.now before written.now result }
{
    match written {
        RawOp::Binary(opcode, flags, left, right) => Op::Binary(
            *opcode,
            *flags,
            operand(rule, names, place, before, left),
            operand(rule, names, place, before.past(&left.value), right),
        ),
        RawOp::Compare(predicate, samesign, left, right) => Op::Compare(
            *predicate,
            *samesign,
            operand(rule, names, place, before, left),
            operand(rule, names, place, before.past(&left.value), right),
        ),
        RawOp::Unary(intrinsic, truth, counted) => Op::Unary(
            *intrinsic,
            *truth,
            operand(rule, names, place, before, counted),
        ),
        RawOp::Select(condition, if_true, if_false) => {
            let arms = before.past(&condition.value);
            Op::Select(
                operand(rule, names, place, before, condition),
                operand(rule, names, place, arms, if_true),
                operand(rule, names, place, arms.past(&if_true.value), if_false),
            )
        }
        RawOp::Convert(cast, flags, converted, to) => Op::Convert(
            *cast,
            *flags,
            operand(rule, names, place, before, converted),
            *to,
        ),
        RawOp::Freeze(frozen) => Op::Freeze(
            operand(rule, names, place, before, frozen),
            before.past(&frozen.value).choices,
        ),
        RawOp::Copy(copied) => Op::Copy(operand(rule, names, place, before, copied)),
    }
}

/// The statement with this operation.
fn statement(alloc: Global, written: &RawStatement, op: Op) -> Result<Statement, AllocError>
    ensures name { IfOk result (λ s. s.name ≡ written.now.name) }
    ensures op { IfOk result (λ s. s.op ≡ op) }
{
    Ok(Statement {
        name: Text::from_vec(Vec::from_slice(alloc, written.name.as_slice())?),
        class: 0,
        op,
    })
}

/// Resolves the statements of a half.
fn statements(
    alloc: Global,
    rule: &RawRule,
    names: &Names,
    half: Half,
) -> Result<List<Statement>, AllocError>
    requires rule { IsWellFormed rule.now }
    requires names { AreNames rule.now.source names.now }
    requires bound { HalfIsBound rule.now half }
    ensures { IfOk result (HalfMeans rule.now names.now (half_of half rule.now)) }
{
    let mut statements = List::new(alloc);
    let mut before = Counts::NONE;
    let half_written = half.of(rule);
    for (place, written) in half_written.iter().enumerate() {
        let meant = op(rule, names, half.place(place), before, &written.op);
        before = before.past_op(&written.op);
        statements.push(statement(alloc, written, meant)?)?;
    }
    Ok(statements)
}

/// Resolves the statements of both halves.
fn halves(
    alloc: Global,
    rule: &RawRule,
    names: &Names,
) -> Result<(List<Statement>, List<Statement>), AllocError>
    requires rule { IsWellFormed rule.now }
    requires names { AreNames rule.now.source names.now }
    requires bound { NamesAreThere rule.now }
    ensures source { IfOk result (λ halves. HalfMeans rule.now names.now rule.now.source halves.0) }
    ensures target { IfOk result (λ halves. HalfMeans rule.now names.now rule.now.target halves.1) }
{
    let source = statements(alloc, rule, names, Half::Source)?;
    let target = statements(alloc, rule, names, Half::Target)?;
    Ok((source, target))
}

/// The nodes of the constant terms (of the target and of `Pre:`), those of the formula of `Pre:`, and what `Wit:` says.
fn heading(
    alloc: Global,
    rule: &RawRule,
    names: &Names,
) -> Result<(List<Term>, List<Formula>, Choices), AllocError>
    requires rule { IsWellFormed rule.now }
    requires names { AreNames rule.now.source names.now }
    requires bound { NamesAreThere rule.now }
    ensures terms { IfOk result (λ read. TermsMean rule.now names.now (terms_of rule.now) read.0) }
    ensures precondition { IfOk result (λ read. PreconditionMeans rule.now names.now (formula_of rule.now) read.1) }
    ensures witness_terms { IfOk result (λ read. TermsMean rule.now names.now (expressions_of rule.now) read.2.terms) }
    ensures witnesses { IfOk result (λ read. read.2.places ≡ last_nodes 0 (expressions_of rule.now)) }
{
    let mut terms = target_terms(alloc, rule, names)?;
    let precondition = precondition(alloc, &mut terms, rule, names)?;
    let choices = witness(alloc, rule, names)?;
    Ok((terms, precondition, choices))
}

/// The rule that is meant, but for its classes.
pub(crate) fn resolved(alloc: Global, rule: &RawRule, names: Names) -> Result<Rule, AllocError>
    requires rule { IsWellFormed rule.now }
    requires names { AreNames rule.now.source names }
    requires bound { NamesAreThere rule.now }
    ensures { IfOk result (Means rule.now) }
{
    let name = Text::from_vec(Vec::from_slice(alloc, rule.name.as_slice())?);
    let (source, target) = halves(alloc, rule, &names)?;
    let (terms, precondition, choices) = heading(alloc, rule, &names)?;
    Ok(Rule {
        name,
        inputs: names.inputs,
        constants: names.constants,
        source,
        target,
        terms,
        precondition,
        witness_terms: choices.terms,
        witnesses: choices.places,
    })
}
