//! Words of a module's text. (LLVM Language Reference, "Type System", "Instruction Reference".)

ghost use Rattle.std.specs.Prelude.{◌≡◌, ◌^◌, ◌-◌, min};
ghost use Rattle.std.specs.List.{list_all};
ghost use Rattle.scan.specs.Bytes as bytes;
ghost use Rattle.ir_tokens.specs.Numbers.{decimal_value};
ghost use Rattle.ir_instructions.specs.Keywords as spelled;

use ir_tokens::RawValue;
use ops::keywords::{cast_name, is, opcode_name};
use ops::{Cast, Opcode, Width};

/// The type that a word spells.
#[derive(Clone, Copy)]
pub enum TypeWord {
    /// No integer type.
    Other,
    /// An integer type that is not supported: of no bit, or of more than 64.
    OutOfRange,
    Integer(Width),
}

/// An operation, by its first word.
#[derive(Clone, Copy)]
pub enum Operation {
    Binary(Opcode),
    Compare,
    Select,
    Convert(Cast),
    Freeze,
    Phi,
    Call,
    /// `tail`, behind which a call stands; and so for `notail`.
    Tail,
    NoTail,
}

/// A terminator, by its first word.
#[derive(Clone, Copy)]
pub enum Ending {
    Return,
    Unreachable,
    Branch,
    Switch,
}

#[tactic(auto, unfolding(scan::specs::Bytes::is_digit))]
fn is_digit(byte: u8) -> bool
    ensures { result ≡ bytes.is_digit byte }
{
    byte.is_ascii_digit()
}

/// Whether the bytes are all digits.
fn all_digits(text: &[u8]) -> bool
    ensures { result ≡ list_all bytes.is_digit text.now }
{
    text.iter().all(|byte| is_digit(*byte))
}

/// Whether the bytes are at least one digit and nothing else.
fn are_digits(text: &[u8]) -> bool
    ensures { result ≡ bytes.are_digits text.now }
{
    match text {
        [] => false,
        [_, ..] => all_digits(text),
    }
}

/// The number that digits spell, or 2^32 - 1 if it is greater.
fn magnitude(digits: &[u8]) -> u32
    ensures { result ≡ min (decimal_value digits.now) (2 ^ 32 - 1) }
{
    let mut number: u32 = 0;
    for digit in digits {
        let value = u32::from(digit.saturating_sub(b'0'));
        number = number.saturating_mul(10).saturating_add(value);
    }
    number
}

/// The type that a word spells.
#[tactic(auto, unfolding(crate::specs::Keywords::type_in))]
pub fn type_of(word: &[u8]) -> TypeWord
    ensures { result ≡ spelled.type_in word.now }
{
    match word {
        [b'i', digits @ ..] if are_digits(digits) => match Width::new(magnitude(digits)) {
            Some(width) => TypeWord::Integer(width),
            None => TypeWord::OutOfRange,
        },
        _ => TypeWord::Other,
    }
}

fn operation_name(operation: Operation) -> &'static str
    ensures { result.now ≡ spelled.operation_word operation }
{
    match operation {
        Operation::Binary(opcode) => opcode_name(opcode),
        Operation::Compare => "icmp",
        Operation::Select => "select",
        Operation::Convert(cast) => cast_name(cast),
        Operation::Freeze => "freeze",
        Operation::Phi => "phi",
        Operation::Call => "call",
        Operation::Tail => "tail",
        Operation::NoTail => "notail",
    }
}

const OPERATIONS: [Operation; 23] = [
    Operation::Binary(Opcode::Add),
    Operation::Binary(Opcode::Sub),
    Operation::Binary(Opcode::Mul),
    Operation::Binary(Opcode::UDiv),
    Operation::Binary(Opcode::SDiv),
    Operation::Binary(Opcode::URem),
    Operation::Binary(Opcode::SRem),
    Operation::Binary(Opcode::Shl),
    Operation::Binary(Opcode::LShr),
    Operation::Binary(Opcode::AShr),
    Operation::Binary(Opcode::And),
    Operation::Binary(Opcode::Or),
    Operation::Binary(Opcode::Xor),
    Operation::Compare,
    Operation::Select,
    Operation::Convert(Cast::Trunc),
    Operation::Convert(Cast::ZExt),
    Operation::Convert(Cast::SExt),
    Operation::Freeze,
    Operation::Phi,
    Operation::Call,
    Operation::Tail,
    Operation::NoTail,
];

/// The operation that begins with a word.
#[tactic(auto, unfolding(crate::specs::Keywords::operation_in))]
pub(crate) fn operation_of(word: &[u8]) -> Option<Operation>
    ensures { result ≡ spelled.operation_in word.now }
{
    OPERATIONS
        .iter()
        .copied()
        .find(|operation| is(word, operation_name(*operation)))
}

/// The truth value that a word spells: `true` or `false`.
#[tactic(auto, unfolding(crate::specs::Keywords::truth_in))]
pub(crate) fn truth_of(word: &[u8]) -> Option<RawValue>
    ensures { result ≡ spelled.truth_in word.now }
{
    if is(word, "true") {
        Some(RawValue::True)
    } else if is(word, "false") {
        Some(RawValue::False)
    } else {
        None
    }
}

/// The value that a word spells.
#[tactic(auto, unfolding(crate::specs::Keywords::value_in))]
pub(crate) fn value_of(word: &[u8]) -> Option<RawValue>
    ensures { result ≡ spelled.value_in word.now }
{
    if is(word, "undef") {
        Some(RawValue::Undef)
    } else if is(word, "poison") {
        Some(RawValue::Poison)
    } else {
        truth_of(word)
    }
}

fn ending_name(ending: Ending) -> &'static str
    ensures { result.now ≡ spelled.ending_word ending }
{
    match ending {
        Ending::Return => "ret",
        Ending::Unreachable => "unreachable",
        Ending::Branch => "br",
        Ending::Switch => "switch",
    }
}

const ENDINGS: [Ending; 4] = [
    Ending::Return,
    Ending::Unreachable,
    Ending::Branch,
    Ending::Switch,
];

/// The terminator that begins with a word.
#[tactic(auto, unfolding(crate::specs::Keywords::ending_in))]
pub(crate) fn ending_of(word: &[u8]) -> Option<Ending>
    ensures { result ≡ spelled.ending_in word.now }
{
    ENDINGS
        .iter()
        .copied()
        .find(|ending| is(word, ending_name(*ending)))
}
