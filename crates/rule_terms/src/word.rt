//! Words and marks of terms.

ghost use Rattle.std.specs.Prelude.{◌≡◌, ◌-◌, ◌^◌, min};
ghost use Rattle.scan.specs.RuleTokens as tokens;
ghost use Rattle.rule_tokens.specs.Numbers.{decimal_value};
ghost use Rattle.rule_terms.specs.Keywords as spelled;

use crate::place::TermPlace;
use ops::Opcode;
use ops::keywords::is;
use rule_core::Function;
use rule_tokens::{all_digits, are_digits, magnitude};

fn operator_mark(opcode: Opcode) -> &'static str
    ensures { result.now ≡ spelled.operator_mark opcode }
{
    match opcode {
        Opcode::Mul => "*",
        Opcode::SDiv => "/",
        Opcode::UDiv => "/u",
        Opcode::SRem => "%",
        Opcode::URem => "%u",
        Opcode::Add => "+",
        Opcode::Sub => "-",
        Opcode::Shl => "<<",
        Opcode::AShr => ">>",
        Opcode::LShr => "u>>",
        Opcode::And => "&",
        Opcode::Xor => "^",
        Opcode::Or => "|",
        Opcode::UMin | Opcode::UMax | Opcode::SMin | Opcode::SMax => "",
    }
}

/// The precedence level of an operator, 1 for the tightest; 0 for what is no operator of terms.
pub(crate) fn level_of(opcode: Opcode) -> u32
    ensures { result ≡ spelled.level_of opcode }
{
    match opcode {
        Opcode::Mul | Opcode::SDiv | Opcode::UDiv | Opcode::SRem | Opcode::URem => 1,
        Opcode::Add | Opcode::Sub => 2,
        Opcode::Shl | Opcode::AShr | Opcode::LShr => 3,
        Opcode::And => 4,
        Opcode::Xor => 5,
        Opcode::Or => 6,
        Opcode::UMin | Opcode::UMax | Opcode::SMin | Opcode::SMax => 0,
    }
}

const OPERATORS: [Opcode; 13] = [
    Opcode::Mul,
    Opcode::SDiv,
    Opcode::UDiv,
    Opcode::SRem,
    Opcode::URem,
    Opcode::Add,
    Opcode::Sub,
    Opcode::Shl,
    Opcode::AShr,
    Opcode::LShr,
    Opcode::And,
    Opcode::Xor,
    Opcode::Or,
];

/// The binary operator that a mark is, as its instruction.
#[tactic(auto, unfolding(crate::specs::Keywords::operator_in))]
pub fn operator_of(mark: &[u8]) -> Option<Opcode>
    ensures { result ≡ spelled.operator_in mark.now }
{
    OPERATORS
        .iter()
        .copied()
        .find(|opcode| is(mark, operator_mark(*opcode)))
}

/// Whether a word is a constant: `C`, and digits or none.
#[tactic(auto, unfolding(scan::specs::RuleTokens::is_constant))]
pub fn is_constant(word: &[u8]) -> bool
    ensures { result ≡ tokens.is_constant word.now }
{
    match word {
        [b'C', digits @ ..] => all_digits(digits),
        _ => false,
    }
}

/// The place of what is counted from 1, saturated to `u32`.
fn place_of(digits: &[u8]) -> u32
    ensures { result ≡ min (decimal_value digits.now - 1) (2 ^ 32 - 1) }
{
    match u32::try_from(magnitude(digits).saturating_sub(1)) {
        Ok(place) => place,
        Err(_) => u32::MAX,
    }
}

/// The place of the choice of the target that a word names: 0 for `t1`.
#[tactic(auto, unfolding(crate::specs::Keywords::choice_in))]
fn choice_of(word: &[u8]) -> Option<u32>
    ensures { result ≡ spelled.choice_in word.now }
{
    match word {
        [b't', b'0', ..] => None,
        [b't', digits @ ..] if are_digits(digits) => Some(place_of(digits)),
        _ => None,
    }
}

/// What a word means in an operand's place.
#[derive(Clone, Copy)]
pub enum Meaning {
    /// `width`, of a register in parentheses.
    Width,
    /// A function of an operand in parentheses.
    Call(Function),
    /// A constant.
    Constant,
    /// A choice of the target, by its place.
    Choice(u32),
}

/// What a name means where an operand begins.
#[tactic(auto, unfolding(crate::specs::Keywords::name_in))]
fn name_meaning(place: TermPlace, word: &[u8]) -> Option<Meaning>
    ensures { result ≡ spelled.name_in place word.now }
{
    if is_constant(word) {
        return Some(Meaning::Constant);
    }
    match place {
        TermPlace::Constant => None,
        TermPlace::Witness => match choice_of(word) {
            Some(choice) => Some(Meaning::Choice(choice)),
            None => None,
        },
    }
}

/// What a word means where an operand begins.
#[tactic(auto, unfolding(crate::specs::Keywords::meaning_in))]
pub(crate) fn meaning_of(place: TermPlace, word: &[u8]) -> Option<Meaning>
    ensures { result ≡ spelled.meaning_in place word.now }
{
    if is(word, "width") {
        Some(Meaning::Width)
    } else if is(word, "log2") {
        Some(Meaning::Call(Function::Log2))
    } else if is(word, "abs") {
        Some(Meaning::Call(Function::Abs))
    } else {
        name_meaning(place, word)
    }
}
