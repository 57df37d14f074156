//! How many gates a rule's circuit has at most.
ghost use Rattle.std.specs.Prelude.{◌≡◌, ◌≤◌, ◌<◌, ◌*◌, ◌^◌, length, map};
ghost use Rattle.std.specs.List.{All};
ghost use Rattle.rule_core.specs.Checks.{IsRule};
ghost use Rattle.rule_core.specs.Positions.{classes_of_statement, operands_of};
ghost use Rattle.rule_core.specs.Typing.{IsTyping};
ghost use Rattle.blast_rule.specs.Gates.{most_gates, given_gates, witness_gates, halves_gates, said_gates, run_gates, op_gates, root_width};

use blast_term::{
    choices_gates, facts_gates, formulas_gates, numbers_gates, terms_gates, width_of,
};
use blast_value::{Instruction, gates_of};
use ops::Width;
use rule_core::{Op, Rule, Statement, Typing};

/// The most gates that [`blast_rule`](crate::blast_rule) adds for the rule at the typing. It takes no memory, and as
/// many steps as there are statements and nodes.
pub fn most_gates(rule: &Rule, typing: &Typing) -> u32
    requires rule { IsRule rule.now }
    requires typing { IsTyping rule.now typing.now }
    ensures { result ≡ most_gates rule.now typing.now }
{
    let widths = typing.as_slice();
    given_gates(rule, widths)
        + witness_gates(rule, widths)
        + halves_gates(rule, widths)
        + said_gates(rule, widths)
        + 2 * root_width(rule, widths).bits()
        + 4
        + 1
}

/// The most gates of the constant terms, their numbers, and the precondition.
fn given_gates(rule: &Rule, typing: &[Width]) -> u32
    requires rule { IsRule rule.now }
    requires typing { IsTyping rule.now typing.now }
    ensures value { result ≡ given_gates rule.now typing.now }
    ensures few { result < 2 ^ 27 }
{
    let terms = rule.terms.as_slice();
    let formulas = rule.precondition.as_slice();
    terms_gates(typing, terms)
        + numbers_gates(typing, terms)
        + formulas_gates(typing, terms, formulas)
        + terms.len() as u32
}

/// The most gates of the numbers that `Wit:` chooses.
fn witness_gates(rule: &Rule, typing: &[Width]) -> u32
    requires rule { IsRule rule.now }
    requires typing { IsTyping rule.now typing.now }
    ensures value { result ≡ witness_gates rule.now typing.now }
    ensures few { result < 2 ^ 27 }
{
    let terms = rule.witness_terms.as_slice();
    let places = rule.witnesses.as_slice();
    terms_gates(typing, terms) + choices_gates(typing, terms, places)
}

/// The most gates of the statements of both halves, and of the test whether a temporary or the target has undefined
/// behaviour.
fn halves_gates(rule: &Rule, typing: &[Width]) -> u32
    requires rule { IsRule rule.now }
    requires typing { IsTyping rule.now typing.now }
    ensures value { result ≡ halves_gates rule.now typing.now }
    ensures few { result < 2 ^ 27 }
{
    let source = rule.source.as_slice();
    let target = rule.target.as_slice();
    run_gates(typing, source) + run_gates(typing, target) + 1
}

/// The same of what the precondition says of bits.
fn said_gates(rule: &Rule, typing: &[Width]) -> u32
    requires rule { IsRule rule.now }
    requires typing { IsTyping rule.now typing.now }
    ensures value { result ≡ said_gates rule.now typing.now }
    ensures few { result ≤ 256 * 195 }
{
    let terms = rule.terms.as_slice();
    facts_gates(typing, terms, rule.precondition.as_slice())
}

/// The width of the root.
fn root_width(rule: &Rule, typing: &[Width]) -> Width
    requires rule { IsRule rule.now }
    requires typing { IsTyping rule.now typing.now }
    ensures { result ≡ root_width rule.now typing.now }
{
    let source = rule.source.as_slice();
    width_of(typing, source[source.len() - 1].class)
}

/// The most gates of statements that run one after the other.
fn run_gates(typing: &[Width], statements: &[Statement]) -> u32
    requires few { length statements.now ≤ 32 }
    requires classes { All (λ s. All (λ class. class < length typing.now) (classes_of_statement s)) statements.now }
    ensures value { result ≡ run_gates typing.now statements.now }
    ensures few { result ≤ 32 * 266241 }
{
    let mut gates = 0;
    for statement in statements {
        gates += op_gates(typing, width_of(typing, statement.class), statement.op) + 1;
    }
    gates
}

/// The most gates of an operation whose result has this width.
fn op_gates(typing: &[Width], width: Width, op: Op) -> u32
    requires { All (λ class. class < length typing.now) (map (λ o. o.class) (operands_of op)) }
    ensures value { result ≡ op_gates typing.now width op }
    ensures few { result ≤ 266240 }
{
    blast_value::gates_are_few();
    match op {
        Op::Binary(opcode, flags, _, _) => {
            gates_of(Instruction::Binary(opcode, flags), width, width)
        }
        Op::Compare(pred, samesign, left, _) => {
            gates_of(
                Instruction::Compare(pred, samesign),
                width,
                width_of(typing, left.class),
            )
        }
        Op::Unary(op, truth, _) => gates_of(Instruction::Unary(op, truth), width, width),
        Op::Select(_, _, _) => gates_of(Instruction::Select, width, width),
        Op::Convert(cast, flags, operand, _) => {
            gates_of(
                Instruction::Convert(cast, flags),
                width,
                width_of(typing, operand.class),
            )
        }
        Op::Freeze(_, _) => width.bits(),
        Op::Copy(_) => 0,
    }
}
