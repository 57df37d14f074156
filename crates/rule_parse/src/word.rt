//! Words of rules.

ghost use Rattle.std.specs.Prelude.{◌≡◌};
ghost use Rattle.rule_parse.specs.Keywords as spelled;

use crate::raw::RawArgument;
use ops::keywords::{cast_name, is, opcode_name, unary_name};
use ops::{Cast, Opcode, Unary};
use rule_tokens::Version;

/// An operation that a statement begins with.
#[derive(Clone, Copy)]
pub enum Operation {
    Binary(Opcode),
    Compare,
    Unary(Unary),
    Select,
    Convert(Cast),
    Freeze,
}

fn operation_name(operation: Operation) -> &'static str
    ensures { result.now ≡ spelled.operation_word operation }
{
    match operation {
        Operation::Binary(opcode) => opcode_name(opcode),
        Operation::Compare => "icmp",
        Operation::Unary(op) => unary_name(op),
        Operation::Select => "select",
        Operation::Convert(cast) => cast_name(cast),
        Operation::Freeze => "freeze",
    }
}

const OPERATIONS: [Operation; 27] = [
    Operation::Binary(Opcode::Add),
    Operation::Binary(Opcode::Sub),
    Operation::Binary(Opcode::Mul),
    Operation::Binary(Opcode::UDiv),
    Operation::Binary(Opcode::SDiv),
    Operation::Binary(Opcode::URem),
    Operation::Binary(Opcode::SRem),
    Operation::Binary(Opcode::Shl),
    Operation::Binary(Opcode::LShr),
    Operation::Binary(Opcode::AShr),
    Operation::Binary(Opcode::And),
    Operation::Binary(Opcode::Or),
    Operation::Binary(Opcode::Xor),
    Operation::Compare,
    Operation::Select,
    Operation::Convert(Cast::Trunc),
    Operation::Convert(Cast::ZExt),
    Operation::Convert(Cast::SExt),
    Operation::Freeze,
    Operation::Binary(Opcode::UMin),
    Operation::Binary(Opcode::UMax),
    Operation::Binary(Opcode::SMin),
    Operation::Binary(Opcode::SMax),
    Operation::Unary(Unary::Abs),
    Operation::Unary(Unary::CtPop),
    Operation::Unary(Unary::CtLz),
    Operation::Unary(Unary::CtTz),
];

/// Whether version 2 brought the operation.
fn is_of_second(operation: Operation) -> bool
    ensures { result ≡ spelled.is_of_second operation }
{
    match operation {
        Operation::Binary(opcode) => opcode.is_intrinsic(),
        Operation::Unary(_) | Operation::Freeze => true,
        Operation::Compare | Operation::Select | Operation::Convert(_) => false,
    }
}

/// Whether the version has the operation.
fn is_known(operation: Operation, version: Version) -> bool
    ensures { result ≡ spelled.is_known operation version }
{
    if is_of_second(operation) {
        matches!(version, Version::Two)
    } else {
        true
    }
}

/// Whether the operation's word is that of a function of terms too, so that its opcode is a kind of token of its own.
fn is_apart(operation: Operation) -> bool
    ensures { result ≡ spelled.is_apart operation }
{
    matches!(operation, Operation::Unary(Unary::Abs))
}

/// Whether the opcode of the operation is an opcode token, where `apart` asks for those, or a word.
fn is_told(apart: bool, operation: Operation) -> bool
    ensures { result ≡ spelled.is_told apart operation }
{
    match apart {
        true => is_apart(operation),
        false => !is_apart(operation),
    }
}

/// The operation of the version that an opcode token (`apart`) or a word with these bytes names.
#[tactic(auto, unfolding(crate::specs::Keywords::operation_in))]
pub(crate) fn operation_of(version: Version, apart: bool, word: &[u8]) -> Option<Operation>
    ensures { result ≡ spelled.operation_in version apart word.now }
{
    OPERATIONS.iter().copied().find(|operation| {
        is(word, operation_name(*operation))
            && is_known(*operation, version)
            && is_told(apart, *operation)
    })
}

/// Whether the word is the flag by which the truth value of the intrinsic is true.
pub(crate) fn is_truth_flag(op: Unary, word: &[u8]) -> bool
    ensures { result ≡ spelled.is_truth_flag op word.now }
{
    match op {
        Unary::Abs => is(word, "minpoison"),
        Unary::CtPop => false,
        Unary::CtLz | Unary::CtTz => is(word, "zeropoison"),
    }
}

/// The operand of a source that a word is, where it is no constant: `true`, `false` or `undef`.
#[tactic(auto, unfolding(crate::specs::Keywords::source_word_in))]
pub(crate) fn source_word_of(word: &[u8]) -> Option<RawArgument>
    ensures { result ≡ spelled.source_word_in word.now }
{
    if is(word, "true") {
        Some(RawArgument::Truth(true))
    } else if is(word, "false") {
        Some(RawArgument::Truth(false))
    } else if is(word, "undef") {
        Some(RawArgument::Undef)
    } else {
        None
    }
}
