//! Operations on words of three bits, decided by the search over the clauses of their graph.
ghost use Rattle.std.specs.Prelude.{◌≡◌, ◌<◌, ◌≤◌, length, IfOk};
ghost use Rattle.std.specs.List.{All};
ghost use Rattle.circuits.specs.Circuit.{Keeps};

use super::operations::{OPERATIONS, Operation, Question, answer};
use super::words::{constant, word};
use aig::Aig;
use cdcl_log::{Found, search};
use circuits::{Bits, Circuit, equal};
use clauses::Cnf;
use cnf_build::clauses_of;
use std::alloc::{AllocError, Global};
use std::process::Abort;
use std::test::Fail;

/// The word of three bits in two's complement.
fn signed(word: i64) -> i64 {
    if word < 4 { word } else { word.wrapping_sub(8) }
}

/// 1 where a whole number is outside the range from `least` to `most`, else 0.
fn overflows(number: i64, least: i64, most: i64) -> i64 {
    i64::from(number < least || most < number)
}

/// The result by arithmetic over whole numbers, if there is one.
fn whole_number(operation: Operation, a: i64, b: i64) -> Option<i64> {
    let x = signed(a);
    let y = signed(b);
    match operation {
        Operation::Product => Some(a.wrapping_mul(b)),
        Operation::SumOverflows => Some(overflows(a.wrapping_add(b), 0, 7)),
        Operation::SignedSumOverflows => Some(overflows(x.wrapping_add(y), -4, 3)),
        Operation::DifferenceOverflows => Some(overflows(a.wrapping_sub(b), 0, 7)),
        Operation::SignedDifferenceOverflows => Some(overflows(x.wrapping_sub(y), -4, 3)),
        Operation::ProductOverflows => Some(overflows(a.wrapping_mul(b), 0, 7)),
        Operation::SignedProductOverflows => Some(overflows(x.wrapping_mul(y), -4, 3)),
        Operation::Quotient => a.checked_div(b),
        Operation::Remainder => a.checked_rem(b),
        Operation::SignedQuotient | Operation::SignedRemainder if x == -4 && y == -1 => None,
        Operation::SignedQuotient => x.checked_div(y),
        Operation::SignedRemainder => x.checked_rem(y),
        Operation::Intrinsic(_) => None,
    }
}

/// A literal that is true where the word has this number.
fn is_number<C: Circuit>(
    alloc: Global,
    circuit: &mut C,
    word: &Bits<C::Literal>,
    number: u64,
) -> Result<C::Literal, AllocError>
    requires width { length word.now ≤ 64 }
    requires own { All (C.has_literal circuit.old) word.now }
    ensures own { IfOk result (λ same. C.has_literal circuit.new same) }
    ensures keeps { Keeps C.State circuit.old circuit.new }
{
    let constant = constant(alloc, circuit, number, word.len())?;
    equal(alloc, circuit, word, &constant)
}

/// A literal that is true where the result on two words is this number.
fn is_answer<C: Circuit>(
    alloc: Global,
    circuit: &mut C,
    operation: Operation,
    a: &Bits<C::Literal>,
    b: &Bits<C::Literal>,
    number: u64,
) -> Result<C::Literal, AllocError>
    requires some { 0 < length a.now }
    requires few { length a.now ≤ 64 }
    requires same_width { length b.now ≡ length a.now }
    requires own_a { All (C.has_literal circuit.old) a.now }
    requires own_b { All (C.has_literal circuit.old) b.now }
    ensures own { IfOk result (λ same. C.has_literal circuit.new same) }
    ensures keeps { Keeps C.State circuit.old circuit.new }
{
    let answer = answer(alloc, circuit, operation, a, b)?;
    is_number(alloc, circuit, &answer, number)
}

/// A literal that is true where two words are the question's numbers.
fn are_asked_of<C: Circuit>(
    alloc: Global,
    circuit: &mut C,
    question: Question,
    a: &Bits<C::Literal>,
    b: &Bits<C::Literal>,
) -> Result<C::Literal, AllocError>
    requires few_a { length a.now ≤ 64 }
    requires few_b { length b.now ≤ 64 }
    requires own_a { All (C.has_literal circuit.old) a.now }
    requires own_b { All (C.has_literal circuit.old) b.now }
    ensures own { IfOk result (λ same. C.has_literal circuit.new same) }
    ensures keeps { Keeps C.State circuit.old circuit.new }
{
    let a_is = is_number(alloc, circuit, a, question.a)?;
    let b_is = is_number(alloc, circuit, b, question.b)?;
    circuit.and(alloc, a_is, b_is)
}

/// A literal that is true where two words are the question's numbers, and the result is this number or, unless `holds`,
/// another.
fn claim_of_words<C: Circuit>(
    alloc: Global,
    circuit: &mut C,
    question: Question,
    number: u64,
    holds: bool,
    a: &Bits<C::Literal>,
    b: &Bits<C::Literal>,
) -> Result<C::Literal, AllocError>
    requires some { 0 < length a.now }
    requires few { length a.now ≤ 64 }
    requires same_width { length b.now ≡ length a.now }
    requires own_a { All (C.has_literal circuit.old) a.now }
    requires own_b { All (C.has_literal circuit.old) b.now }
    ensures own { IfOk result (λ made. C.has_literal circuit.new made) }
{
    let asked = are_asked_of(alloc, circuit, question, a, b)?;
    let agrees = is_answer(alloc, circuit, question.operation, a, b, number)?;
    let claimed = if holds { agrees } else { circuit.not(agrees) };
    circuit.and(alloc, asked, claimed)
}

/// The same for two words of inputs.
fn claim<C: Circuit>(
    alloc: Global,
    circuit: &mut C,
    question: Question,
    number: u64,
    holds: bool,
) -> Result<C::Literal, AllocError>
    requires some { 0 < question.width }
    requires few { question.width ≤ 6 }
    ensures own { IfOk result (λ made. C.has_literal circuit.new made) }
{
    let a = word(alloc, circuit, question.width)?;
    let b = word(alloc, circuit, question.width)?;
    claim_of_words(alloc, circuit, question, number, holds, &a, &b)
}

/// Whether a set has a model, if the search decides that.
fn has_model(alloc: Global, set: &Cnf) -> Result<Option<bool>, AllocError> {
    Ok(match search(alloc, set, 1000)? {
        Found::Sat(_) => Some(true),
        Found::Unsat(_) => Some(false),
        Found::Limit(_) => None,
    })
}

/// Whether the claim is satisfiable, if the graph has the inputs of two words and at most 300 gates.
fn decided_in(
    alloc: Global,
    graph: &mut Aig,
    question: Question,
    number: u64,
    holds: bool,
) -> Result<Option<bool>, AllocError>
    requires some { 0 < question.width }
    requires few { question.width ≤ 6 }
{
    let root = claim(alloc, graph, question, number, holds)?;
    if graph.input_count() != 2 * question.width || graph.gates().len() > 300 {
        return Ok(None);
    }
    let set = clauses_of(alloc, graph, root)?;
    has_model(alloc, &set)
}

/// Whether the claim is satisfiable, by the clauses of a graph.
fn decided(
    alloc: Global,
    question: Question,
    number: u64,
    holds: bool,
) -> Result<Option<bool>, AllocError>
    requires some { 0 < question.width }
    requires few { question.width ≤ 6 }
{
    let mut graph = Aig::new(alloc);
    decided_in(alloc, &mut graph, question, number, holds)
}

/// Fails unless the search proves that the result can be no other number and, where asked, that it can be this one.
pub(super) fn expect_decided(
    rt: &impl Abort,
    alloc: Global,
    question: Question,
    number: u64,
    also_held: bool,
) -> Result<(), AllocError>
    requires some { 0 < question.width }
    requires few { question.width ≤ 6 }
{
    let denied = decided(alloc, question, number, false)?;
    assert!(rt; matches!(denied, Some(false)), "{question:?}");
    if also_held {
        let held = decided(alloc, question, number, true)?;
        assert!(rt; matches!(held, Some(true)), "{question:?}");
    }
    Ok(())
}

#[test]
fn words_are_decided(rt: HostRuntime) -> Result<(), Fail> {
    for operation in &OPERATIONS {
        for setting in 0..64i64 {
            let a = setting / 8;
            let b = setting % 8;
            let question = Question {
                operation: *operation,
                width: 3,
                a: a.unsigned_abs(),
                b: b.unsigned_abs(),
            };
            if let Some(number) = whole_number(*operation, a, b) {
                let number = number.rem_euclid(8).unsigned_abs();
                expect_decided(&rt, rt.alloc(), question, number, true)?;
            }
        }
    }
    Ok(())
}
