//! Whether a binding is a match.

ghost use Rattle.std.specs.Prelude.{◌≡◌, ◌<◌, ◌≤◌, ◌^◌, ◌↔◌, ℕ, suc, length, All, Contains, IsTrue, Some, slice_get};
ghost use Rattle.rule_core.specs.Checks.{IsRule, MayBeFormula};
ghost use Rattle.rule_core.specs.Typing.{IsTyping};
ghost use Rattle.rule_core.specs.Valid.{ConstantsFit};
ghost use Rattle.rule_core.specs.declared.rule.Formula.{Formula as Asked};
ghost use Rattle.rule_core.specs.declared.rule.Statement.{Statement as SourceStatement};
ghost use Rattle.rule_typing.specs.Classes.{IsClassified};
ghost use Rattle.bindings.specs.Checks.{IsBoundInScope, IsMet, MatchesAt};
ghost use Rattle.bindings.specs.Facts.{AreFactsOf};
ghost use Rattle.ir_core.specs.declared.operand.Register.{Register};
ghost use Rattle.use_counts.specs.Tables.{count_of};
ghost use Rattle.bindings.specs.Known.{known_by};
ghost use Rattle.bindings.specs.Match.{MatchesInAnyOrder};
ghost use Rattle.bindings.specs.Promises.{AreKept};
ghost use Rattle.bindings.specs.Statements.{InstMatches, StatementMatches, TargetNamesTemporary, promises_of_inst, promises_of_statement};

use crate::binding::Binding;
use crate::facts::FunctionFacts;
use crate::inst::inst_at;
use crate::known::{has_no_bit_of, is_known_non_zero};
use crate::operation::{
    MOST_OPERANDS, is_same_operation, operand_of, promises_of_inst, promises_of_statement,
};
use crate::promises::Promises;
use crate::standing::{has_width, operand_matches};
use crate::temporaries::target_names_temporary;
use ir_core::{Function, Inst, Op as InstOp, Operand, Register, read_at};
use known_bits::Facts;
use precond::holds;
use rule_core::{Formula, Op, Rule};
use rule_typing::is_typing;
use use_counts::uses_of;

/// Whether the rule matches with this binding at the instruction that the binding names, inside its block or across
/// blocks, where this is known of the results of its block. The order of instructions is not asked for, as their index
/// in a draft's arena doesn't tell it.
pub fn is_match(
    f: &Function,
    facts: &FunctionFacts,
    known: &Facts,
    rule: &Rule,
    binding: &Binding,
    across: bool,
) -> bool
    requires insts { All (λ b. length b.insts < 2 ^ 32) f.now.blocks }
    requires facts { AreFactsOf f.now facts.now }
    requires few { All (λ bits. length bits ≤ 64) known.now.results }
    requires rule { IsRule rule.now }
    requires classes { IsClassified rule.now }
    ensures { IsTrue result ↔ MatchesInAnyOrder across (known_by known.now) f.now binding.now.block binding.now.place rule.now binding.now }
{
    if !facts.flow.reached(binding.block) || !has_sizes(rule, binding) {
        return false;
    }
    if !are_in_scope(binding, across) || !statements_match(f, rule, binding) {
        return false;
    }
    if has_undef(binding.inputs.as_slice()) {
        return false;
    }
    if !is_typing(rule, &binding.typing) || !holds(rule, &binding.typing, &binding.constants) {
        return false;
    }
    are_met(facts, known, rule, binding)
}

/// Whether the binding has an entry for each statement, each input and each constant of the rule.
fn has_sizes(rule: &Rule, binding: &Binding) -> bool
    ensures { IsTrue result ↔ ((length binding.now.statements ≡ length rule.now.source)
        × (length binding.now.inputs ≡ length rule.now.inputs)
        × (length binding.now.constants ≡ length rule.now.constants)) }
{
    binding.statements.len() == rule.source.len()
        && binding.inputs.len() == rule.inputs.len()
        && binding.constants.len() == rule.constants.len()
}

/// Whether the statements are bound to instructions of the binding's block, or may be bound across blocks.
fn are_in_scope(binding: &Binding, across: bool) -> bool
    ensures { IsTrue result ↔ ((r : Register) → Contains binding.now.statements r → IsBoundInScope across binding.now r) }
{
    for register in binding.statements.as_slice() {
        if !is_in_scope(binding, across, *register) {
            return false;
        }
    }
    true
}

/// The same for one statement, which is bound to this register.
fn is_in_scope(binding: &Binding, across: bool, register: Register) -> bool
    ensures { IsTrue result ↔ IsBoundInScope across binding.now register }
{
    match register {
        Register::Result(block, _) => across || block == binding.block,
        Register::Parameter(_) => true,
    }
}

/// Whether each statement of the source matches the instruction that it is bound to.
fn statements_match(f: &Function, rule: &Rule, binding: &Binding) -> bool
    requires insts { All (λ b. length b.insts < 2 ^ 32) f.now.blocks }
    requires rule { IsRule rule.now }
    requires count { length binding.now.statements ≡ length rule.now.source }
    ensures { IsTrue result ↔ ((j : ℕ) (s : SourceStatement) → slice_get rule.now.source j ≡ Some s → StatementMatches f.now rule.now binding.now j s) }
{
    let exact = target_names_temporary(rule);
    for j in 0..rule.source.len() {
        if !statement_matches(f, rule, binding, exact, j) {
            return false;
        }
    }
    true
}

/// Whether a statement of the source matches the instruction that it is bound to. With `exact`, the instruction of a
/// temporary may have no flags that the statement hasn't.
fn statement_matches(f: &Function, rule: &Rule, binding: &Binding, exact: bool, j: usize) -> bool
    requires insts { All (λ b. length b.insts < 2 ^ 32) f.now.blocks }
    requires count { length binding.now.statements ≡ length rule.now.source }
    requires place { j < length rule.now.source }
    requires exact { IsTrue exact ↔ TargetNamesTemporary rule.now }
    ensures { IsTrue result ↔ ((s : SourceStatement) → slice_get rule.now.source j ≡ Some s → StatementMatches f.now rule.now binding.now j s) }
{
    let Register::Result(block, place) = binding.statements.as_slice()[j] else {
        return false;
    };
    match inst_at(f, block, place) {
        Some(inst) => inst_matches(f, rule, binding, exact, j, block, place, inst),
        None => false,
    }
}

/// Whether an instruction matches a statement of the source.
fn inst_matches(
    f: &Function,
    rule: &Rule,
    binding: &Binding,
    exact: bool,
    j: usize,
    block: u32,
    place: u32,
    inst: &Inst,
) -> bool
    requires insts { All (λ b. length b.insts < 2 ^ 32) f.now.blocks }
    requires place { j < length rule.now.source }
    requires exact { IsTrue exact ↔ TargetNamesTemporary rule.now }
    ensures { (s : SourceStatement) → slice_get rule.now.source j ≡ Some s
        → IsTrue result ↔ InstMatches f.now rule.now binding.now j s block place inst.now }
{
    let statement = &rule.source.as_slice()[j];
    let is_root = is_root(rule, j);
    if !stands_well(binding, is_root, block, place) {
        return false;
    }
    if !is_same_operation(statement.op, &inst.op) {
        return false;
    }
    if !flags_match(statement.op, &inst.op, exact, is_root) {
        return false;
    }
    if !has_width(binding, statement.class, inst.width) {
        return false;
    }
    operands_match(f, binding, &statement.op, block, place)
}

/// Whether the statement is no root, or its instruction is the one at which the match is.
fn stands_well(binding: &Binding, is_root: bool, block: u32, place: u32) -> bool
    ensures { IsTrue result ↔ (IsTrue is_root → (block ≡ binding.now.block) × (place ≡ binding.now.place)) }
{
    !is_root || (block == binding.block && place == binding.place)
}

/// Whether an instruction has the statement's flags; and, where `exact` asks for it and the statement is no root, no
/// others.
fn flags_match(statement: Op, inst: &InstOp, exact: bool, is_root: bool) -> bool
    ensures { IsTrue result ↔ (AreKept (promises_of_statement statement) (promises_of_inst inst.now)
        × (IsTrue exact → ¬ IsTrue is_root → promises_of_inst inst.now ≡ promises_of_statement statement)) }
{
    let (asked, found) = (promises_of_statement(statement), promises_of_inst(inst));
    asked.are_within(found) && (is_root || !exact || are_same(found, asked))
}

/// Whether both are the same flags and truth value.
fn are_same(found: Promises, asked: Promises) -> bool
    ensures { IsTrue result ↔ found ≡ asked }
{
    found == asked
}

/// Whether a statement of the source is the root's.
fn is_root(rule: &Rule, j: usize) -> bool
    requires { j < length rule.now.source }
    ensures { IsTrue result ↔ (suc j ≡ length rule.now.source) }
{
    j == rule.source.len() - 1
}

/// Whether the operands that an instruction reads match those of an operation, as far as there are both.
fn operands_match(f: &Function, binding: &Binding, op: &Op, block: u32, place: u32) -> bool
    requires { All (λ b. length b.insts < 2 ^ 32) f.now.blocks }
    ensures { IsTrue result ↔ ((i : ℕ) → MatchesAt f.now binding.now op.now block place i) }
{
    for index in 0..MOST_OPERANDS {
        if !operand_matches_at(f, binding, op, block, place, index) {
            return false;
        }
    }
    true
}

/// The same for one operand.
fn operand_matches_at(
    f: &Function,
    binding: &Binding,
    op: &Op,
    block: u32,
    place: u32,
    index: usize,
) -> bool
    requires { All (λ b. length b.insts < 2 ^ 32) f.now.blocks }
    ensures { IsTrue result ↔ MatchesAt f.now binding.now op.now block place index }
{
    match (operand_of(*op, index), read_at(f, block, place, index)) {
        (Some(operand), Some(read)) => operand_matches(binding, operand, read),
        _ => true,
    }
}

/// Whether one of the operands is `undef`.
fn has_undef(operands: &[Operand]) -> bool
    ensures { IsTrue result ↔ Contains operands.now Operand.Undef }
{
    operands.contains(&Operand::Undef)
}

/// Whether what the nodes of the precondition ask of the function is met.
fn are_met(facts: &FunctionFacts, known: &Facts, rule: &Rule, binding: &Binding) -> bool
    requires few { All (λ bits. length bits ≤ 64) known.now.results }
    requires rule { IsRule rule.now }
    requires typing { IsTyping rule.now binding.now.typing }
    requires constants { ConstantsFit rule.now binding.now.typing binding.now.constants }
    ensures { IsTrue result ↔ ((formula : Asked) → Contains rule.now.precondition formula
        → IsMet facts.now (known_by known.now binding.now.block binding.now.place) rule.now binding.now formula) }
{
    for formula in rule.precondition.as_slice() {
        if !is_met(facts, known, rule, binding, *formula) {
            return false;
        }
    }
    true
}

/// Whether the register that a node asks one use of, if it does, has one, and what it says of bits, if it does, is
/// known of them.
fn is_met(
    facts: &FunctionFacts,
    known: &Facts,
    rule: &Rule,
    binding: &Binding,
    formula: Formula,
) -> bool
    requires few { All (λ bits. length bits ≤ 64) known.now.results }
    requires rule { IsRule rule.now }
    requires typing { IsTyping rule.now binding.now.typing }
    requires constants { ConstantsFit rule.now binding.now.typing binding.now.constants }
    requires formula { (n : ℕ) × MayBeFormula rule.now n formula }
    ensures { IsTrue result ↔ IsMet facts.now (known_by known.now binding.now.block binding.now.place) rule.now binding.now formula }
{
    match formula {
        Formula::HasOneUse(j) => has_one_use(facts, binding, j),
        Formula::MaskedValueIsZero(register, mask) => {
            has_no_bit_of(known, rule, binding, register, mask)
        }
        Formula::IsKnownNonZero(register) => is_known_non_zero(known, rule, binding, register),
        Formula::Compare(_, _, _) | Formula::IsPowerOfTwo(_) | Formula::IsSignBit(_) => true,
        Formula::Not(_) | Formula::And(_, _) | Formula::Or(_, _) => true,
    }
}

/// Whether the register that a source statement assigns has one use.
fn has_one_use(facts: &FunctionFacts, binding: &Binding, j: u32) -> bool
    ensures { IsTrue result ↔ ((r : Register) → slice_get binding.now.statements j ≡ Some r → count_of facts.now.uses r ≡ 1) }
{
    match binding.statements.as_slice().get(j as usize) {
        Some(register) => uses_of(&facts.uses, *register) == 1,
        None => true,
    }
}
