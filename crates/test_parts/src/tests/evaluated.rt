//! Operations on words against a table from arithmetic over whole numbers, by evaluation and in a graph.
ghost use Rattle.std.specs.Prelude.{◌<◌, ◌≤◌};

use super::gate_graphs::{gate_values, value};
use super::operations::{OPERATIONS, Operation, Question, answer};
use super::tables::ROWS;
use super::words::{inputs_of, number, word};
use aig::{Aig, Literal};
use circuits::{Bits, Circuit, EvalCircuit};
use lists::List;
use std::alloc::{AllocError, Global};
use std::process::Abort;
use std::test::Fail;

/// The result on two words of inputs.
fn answer_of_inputs<C: Circuit>(
    alloc: Global,
    c: &mut C,
    operation: Operation,
    width: usize,
) -> Result<Bits<C::Literal>, AllocError>
    requires { 0 < width }
{
    let a = word(alloc, c, width)?;
    let b = word(alloc, c, width)?;
    answer(alloc, c, operation, &a, &b)
}

/// The result's number, by evaluation.
fn evaluated(alloc: Global, question: Question) -> Result<u64, AllocError>
    requires some { 0 < question.width }
    requires few { question.width ≤ 64 }
{
    let inputs = inputs_of(alloc, question.width, question.a, question.b)?;
    let mut circuit = EvalCircuit::new(List::from_vec(inputs));
    number_by(alloc, &mut circuit, question)
}

/// The result's number, by a circuit whose literals are truth values.
fn number_by(
    alloc: Global,
    circuit: &mut EvalCircuit,
    question: Question,
) -> Result<u64, AllocError>
    requires { 0 < question.width }
{
    let word = answer_of_inputs(alloc, circuit, question.operation, question.width)?;
    Ok(number(word.as_slice()))
}

/// The result's number, by evaluating the gates of a graph.
fn by_graph(alloc: Global, question: Question) -> Result<u64, AllocError>
    requires some { 0 < question.width }
    requires few { question.width ≤ 64 }
{
    let mut graph = Aig::new(alloc);
    number_in(alloc, &mut graph, question)
}

/// The result's number, by evaluating the gates that are added to this graph.
fn number_in(alloc: Global, graph: &mut Aig, question: Question) -> Result<u64, AllocError>
    requires some { 0 < question.width }
    requires few { question.width ≤ 64 }
{
    let word = answer_of_inputs(alloc, graph, question.operation, question.width)?;
    number_of(alloc, graph, word.as_slice(), question)
}

/// The number of these literals, where the inputs are the question's words.
fn number_of(
    alloc: Global,
    graph: &Aig,
    word: &[Literal],
    question: Question,
) -> Result<u64, AllocError>
    requires { question.width ≤ 64 }
{
    let inputs = inputs_of(alloc, question.width, question.a, question.b)?;
    let gates = gate_values(alloc, graph.gates(), inputs.as_slice())?;
    let mut number = 0u64;
    for literal in word.iter().rev() {
        let bit = value(*literal, inputs.as_slice(), gates.as_slice());
        number = number.wrapping_mul(2) | u64::from(bit);
    }
    Ok(number)
}

/// Fails unless the result is this number: by evaluation and, where asked, in a graph.
pub(super) fn expect_number(
    rt: &impl Abort,
    alloc: Global,
    question: Question,
    expected: u64,
    in_graph: bool,
) -> Result<(), AllocError>
    requires some { 0 < question.width }
    requires few { question.width ≤ 64 }
{
    assert!(rt; evaluated(alloc, question)? == expected, "{question:?}");
    if in_graph {
        assert!(rt;
            by_graph(alloc, question)? == expected,
            "{question:?} in a graph"
        );
    }
    Ok(())
}

#[test]
fn words_at_a_table(rt: HostRuntime) -> Result<(), Fail> {
    for row in &ROWS {
        assert!(rt; 0 < row.width && row.width <= 64);
        for (operation, expected) in OPERATIONS.iter().zip(&row.answers) {
            let question = Question {
                operation: *operation,
                width: row.width,
                a: row.a,
                b: row.b,
            };
            expect_number(&rt, rt.alloc(), question, *expected, true)?;
        }
    }
    Ok(())
}
