//! The instructions that a rule inserts in the place of a root.

ghost use Rattle.std.specs.Prelude.{◌≡◌, ◌+◌, ◌-◌, ◌<◌, ◌^◌, ◌++◌, flat_map, length, take, Some, None, IfOk, OnOk};
ghost use Rattle.std.specs.Option.{option_to_list};
ghost use Rattle.rule_core.specs.Checks.{IsRule};
ghost use Rattle.rule_core.specs.declared.rule.Statement.{Statement};
ghost use Rattle.rewriter.specs.Put as put;
ghost use Rattle.rewriter.specs.Ready.{IsBound, OpIsReady, StatementIsReady, op_put};

use crate::operands::{class_width, operand_put};
use bindings::Binding;
use ir_core::{Inst, Op, Operand, Register};
use lists::{List, Text};
use rule_core::{Op as RuleOp, Rule, Statement};
use std::alloc::{AllocError, Global};
use substitution::Rewrite;

/// The operand for the register that a target statement assigns, given those for the statements before it, so many of
/// which become instructions.
fn result_put(
    rule: &Rule,
    binding: &Binding,
    results: &[Operand],
    count: u32,
    statement: &Statement,
) -> Operand
    requires rule { IsRule rule.now }
    requires bound { IsBound rule.now binding.now }
    requires statement { StatementIsReady rule.now binding.now (length results.now) statement.now }
    requires count { count ≡ put.count_put (take (length results.now) rule.now.target) }
    requires place { binding.now.place + count < 2 ^ 32 }
    ensures { result ≡ put.result_put rule.now binding.now results.now statement.now }
{
    match statement.op {
        RuleOp::Copy(operand) => operand_put(rule, binding, results, operand),
        _ => Operand::Register(Register::Result(binding.block, binding.place + count)),
    }
}

/// For each target statement the operand for its register.
fn results_put(alloc: Global, rule: &Rule, binding: &Binding) -> Result<Vec<Operand>, AllocError>
    requires rule { IsRule rule.now }
    requires bound { IsBound rule.now binding.now }
    requires place { binding.now.place + 32 < 2 ^ 32 }
    ensures { IfOk result (λ results. results.items ≡ put.results_put rule.now binding.now) }
{
    let mut results = Vec::new(alloc);
    let mut count = 0;
    for statement in rule.target.as_slice() {
        let result = result_put(rule, binding, &results, count, statement);
        results.push(result)?;
        if !is_copy(statement.op) {
            count += 1;
        }
    }
    Ok(results)
}

/// Whether an operation is a copy.
fn is_copy(op: RuleOp) -> bool
    ensures { result ≡ put.is_copy op }
{
    match op {
        RuleOp::Copy(_) => true,
        _ => false,
    }
}

/// The operation of a target statement's instruction, given operands for the target's registers: none for a copy.
fn op_put(rule: &Rule, binding: &Binding, results: &[Operand], op: RuleOp) -> Option<Op>
    requires rule { IsRule rule.now }
    requires bound { IsBound rule.now binding.now }
    requires op { OpIsReady rule.now binding.now (length results.now) op }
    ensures { result ≡ op_put rule.now binding.now results.now op }
{
    match op {
        RuleOp::Binary(opcode, flags, x, y) => {
            let x = operand_put(rule, binding, results, x);
            Some(Op::Binary(opcode, flags, x, operand_put(rule, binding, results, y)))
        }
        RuleOp::Compare(pred, samesign, x, y) => {
            let width = class_width(binding, x.class);
            let x = operand_put(rule, binding, results, x);
            Some(Op::Compare(
                pred,
                samesign,
                width,
                x,
                operand_put(rule, binding, results, y),
            ))
        }
        RuleOp::Unary(intrinsic, truth, x) => {
            Some(Op::Unary(intrinsic, truth, operand_put(rule, binding, results, x)))
        }
        RuleOp::Select(condition, x, y) => {
            let condition = operand_put(rule, binding, results, condition);
            let x = operand_put(rule, binding, results, x);
            Some(Op::Select(condition, x, operand_put(rule, binding, results, y)))
        }
        RuleOp::Convert(cast, flags, x, _) => {
            let from = class_width(binding, x.class);
            Some(Op::Convert(cast, flags, from, operand_put(rule, binding, results, x)))
        }
        RuleOp::Freeze(x, _) => Some(Op::Freeze(operand_put(rule, binding, results, x))),
        RuleOp::Copy(_) => None,
    }
}

/// A target statement as an instruction of this name: none for a copy.
fn inst_put(
    rule: &Rule,
    binding: &Binding,
    results: &[Operand],
    name: Option<Text>,
    statement: &Statement,
) -> Option<Inst>
    requires rule { IsRule rule.now }
    requires bound { IsBound rule.now binding.now }
    requires results { results.now ≡ put.results_put rule.now binding.now }
    requires statement { StatementIsReady rule.now binding.now (length results.now) statement.now }
    ensures { option_to_list result ≡ put.insts_with rule.now binding.now name statement.now }
{
    let op = op_put(rule, binding, results, statement.op)?;
    Some(Inst {
        name,
        width: class_width(binding, statement.class),
        op,
    })
}

/// Appends a target statement as an instruction of this name to others: a copy adds none.
fn push_put(
    rule: &Rule,
    binding: &Binding,
    results: &[Operand],
    name: Option<Text>,
    statement: &Statement,
    insts: &mut List<Inst>,
) -> Result<(), AllocError>
    requires rule { IsRule rule.now }
    requires bound { IsBound rule.now binding.now }
    requires results { results.now ≡ put.results_put rule.now binding.now }
    requires statement { StatementIsReady rule.now binding.now (length results.now) statement.now }
    ensures { OnOk result (insts.new ≡ insts.old ++ put.insts_with rule.now binding.now name statement.now) }
{
    if let Some(inst) = inst_put(rule, binding, results, name, statement) {
        insts.push(inst)?;
    }
    Ok(())
}

/// The target's statements but the last one as instructions in order, unnamed.
fn unnamed_put(
    alloc: Global,
    rule: &Rule,
    binding: &Binding,
    results: &[Operand],
) -> Result<List<Inst>, AllocError>
    requires rule { IsRule rule.now }
    requires bound { IsBound rule.now binding.now }
    requires results { results.now ≡ put.results_put rule.now binding.now }
    ensures { IfOk result (λ insts. insts ≡ flat_map (put.insts_with rule.now binding.now None) (take (length rule.now.target - 1) rule.now.target)) }
{
    let target = rule.target.as_slice();
    let last = target.len() - 1;
    let mut insts = List::new(alloc);
    for statement in &target[..last] {
        push_put(rule, binding, results, None, statement, &mut insts)?;
    }
    Ok(insts)
}

/// The target's statements as instructions in order, unnamed but for the last one.
fn insts_put(
    alloc: Global,
    rule: &Rule,
    binding: &Binding,
    results: &[Operand],
    name: Option<Text>,
) -> Result<List<Inst>, AllocError>
    requires rule { IsRule rule.now }
    requires bound { IsBound rule.now binding.now }
    requires results { results.now ≡ put.results_put rule.now binding.now }
    ensures { IfOk result (λ insts. insts ≡ put.insts_put rule.now binding.now name rule.now.target) }
{
    let mut insts = unnamed_put(alloc, rule, binding, results)?;
    let target = rule.target.as_slice();
    let last = &target[target.len() - 1];
    push_put(rule, binding, results, name, last, &mut insts)?;
    Ok(insts)
}

/// The instructions that a rule inserts in the place of the root, which has this name, and the operand that replaces
/// the root's register.
pub fn rewrite_of(
    alloc: Global,
    rule: &Rule,
    binding: &Binding,
    name: Option<Text>,
) -> Result<Rewrite, AllocError>
    requires rule { IsRule rule.now }
    requires bound { IsBound rule.now binding.now }
    requires place { binding.now.place + 32 < 2 ^ 32 }
    ensures { IfOk result (λ rewrite. rewrite ≡ put.rewrite_of rule.now binding.now name) }
{
    let results = results_put(alloc, rule, binding)?;
    let put = insts_put(alloc, rule, binding, &results, name)?;
    Ok(Rewrite {
        block: binding.block,
        place: binding.place,
        put,
        result: results[rule.target.len() - 1],
    })
}
