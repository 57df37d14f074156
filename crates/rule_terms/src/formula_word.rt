//! The marks and words of formulas.

ghost use Rattle.std.specs.Prelude.{◌≡◌};
ghost use Rattle.std.specs.List.{list_any};
ghost use Rattle.std.specs.Str.{bytes_eq};
ghost use Rattle.rule_terms.specs.FormulaReaders as reading;
ghost use Rattle.rule_terms.specs.FormulaKeywords as spelled;
ghost use Rattle.rule_tokens.specs.SeenTokens.{seen, seen_token};

use crate::raw::{RawFormula, RawTerm};
use ops::Pred;
use ops::keywords::is;
use rule_tokens::Token;

/// A predicate of one term.
#[derive(Clone, Copy)]
pub enum Predicate {
    IsPowerOfTwo,
    IsSignBit,
}

/// What a member of a formula begins with.
#[derive(Clone, Copy)]
pub enum Opening {
    /// By `!`.
    Turns,
    /// By a parenthesis around a formula.
    Encloses,
    /// By a predicate of one term.
    Tests(Predicate),
    /// By a term, which is compared.
    Compares,
}

/// What the search for a formula in parentheses makes of a token.
#[derive(Clone, Copy)]
pub enum Sign {
    Opens,
    Closes,
    LineEnds,
    /// It stands in formulas and not in terms.
    InFormula,
    Plain,
}

/// The predicates of comparisons.
const PREDICATES: [Pred; 10] = [
    Pred::Eq,
    Pred::Ne,
    Pred::Ugt,
    Pred::Uge,
    Pred::Ult,
    Pred::Ule,
    Pred::Sgt,
    Pred::Sge,
    Pred::Slt,
    Pred::Sle,
];

fn comparison_name(pred: Pred) -> &'static str
    ensures { result.now ≡ spelled.comparison_mark pred }
{
    match pred {
        Pred::Eq => "==",
        Pred::Ne => "!=",
        Pred::Slt => "<",
        Pred::Sle => "<=",
        Pred::Sgt => ">",
        Pred::Sge => ">=",
        Pred::Ult => "u<",
        Pred::Ule => "u<=",
        Pred::Ugt => "u>",
        Pred::Uge => "u>=",
    }
}

/// The predicate that the mark is the comparison by.
#[tactic(auto, unfolding(crate::specs::FormulaKeywords::comparison_in))]
pub(crate) fn comparison_of(mark: &[u8]) -> Option<Pred>
    ensures { result ≡ spelled.comparison_in mark.now }
{
    PREDICATES
        .iter()
        .copied()
        .find(|pred| is(mark, comparison_name(*pred)))
}

/// The predicate of one term that a word is.
#[tactic(auto, unfolding(crate::specs::FormulaKeywords::predicate_in))]
pub(crate) fn predicate_of(word: &[u8]) -> Option<Predicate>
    ensures { result ≡ spelled.predicate_in word.now }
{
    if is(word, "isPowerOf2") {
        Some(Predicate::IsPowerOfTwo)
    } else if is(word, "isSignBit") {
        Some(Predicate::IsSignBit)
    } else {
        None
    }
}

/// The node of a predicate of a term.
pub(crate) fn predicate_node(predicate: Predicate, term: RawTerm) -> RawFormula
    ensures { result ≡ spelled.predicate_node predicate term }
{
    match predicate {
        Predicate::IsPowerOfTwo => RawFormula::IsPowerOfTwo(term),
        Predicate::IsSignBit => RawFormula::IsSignBit(term),
    }
}

/// The marks that stand in formulas and not in terms.
const FORMULA_MARKS: [&str; 13] = [
    "==", "!=", "<", "<=", ">", ">=", "u<", "u<=", "u>", "u>=", "!", "&&", "||",
];

/// Whether the word or mark is one of these.
pub fn is_among(word: &[u8], words: &[&str]) -> bool
    ensures { result ≡ list_any (λ w. bytes_eq word.now w.now) words.now }
{
    words.iter().any(|wanted| is(word, wanted))
}

/// What the search for a formula in parentheses makes of a mark.
fn mark_sign(mark: &[u8]) -> Sign
    ensures { result ≡ reading.mark_sign mark.now }
{
    if is(mark, "(") {
        Sign::Opens
    } else if is(mark, ")") {
        Sign::Closes
    } else if is_among(mark, &FORMULA_MARKS) {
        Sign::InFormula
    } else {
        Sign::Plain
    }
}

/// What it makes of a word.
fn word_sign(word: &[u8]) -> Sign
    ensures { result ≡ reading.word_sign word.now }
{
    if is_among(word, &["isPowerOf2", "isSignBit", "hasOneUse"]) {
        Sign::InFormula
    } else {
        Sign::Plain
    }
}

/// What it makes of a token.
fn sign_of(token: &Token<'_>) -> Sign
    ensures { result ≡ reading.sign_of (seen_token token.now) }
{
    match token {
        Token::Line(_) => Sign::LineEnds,
        Token::Mark(mark) => mark_sign(mark),
        Token::Word(word) => word_sign(word),
        Token::Fact(_) => Sign::InFormula,
        _ => Sign::Plain,
    }
}

/// Whether the `(` before these tokens encloses a formula and not a term.
#[tactic(auto, unfolding(crate::specs::FormulaReaders::opens_formula))]
pub(crate) fn opens_formula(tokens: &[Token<'_>]) -> bool
    ensures { result ≡ reading.opens_formula 0 (seen tokens.now) }
{
    let mut depth: usize = 0;
    let mut remaining = tokens;
    while let [token, rest @ ..] = remaining {
        remaining = rest;
        match sign_of(token) {
            Sign::Opens => depth += 1,
            Sign::Closes => {
                if depth == 0 {
                    return false;
                }
                depth -= 1;
            }
            Sign::LineEnds => return false,
            Sign::InFormula => return true,
            Sign::Plain => {}
        }
    }
    false
}

/// What a member of a formula begins with.
#[tactic(auto, unfolding(crate::specs::FormulaReaders::opening_at))]
pub(crate) fn opening_of(tokens: &[Token<'_>]) -> Opening
    ensures { result ≡ reading.opening_at (seen tokens.now) }
{
    match tokens {
        [Token::Mark(mark), ..] if is(mark, "!") => Opening::Turns,
        [Token::Mark(mark), rest @ ..] if is(mark, "(") && opens_formula(rest) => Opening::Encloses,
        [Token::Word(word), ..] => match predicate_of(word) {
            Some(predicate) => Opening::Tests(predicate),
            None => Opening::Compares,
        },
        _ => Opening::Compares,
    }
}
