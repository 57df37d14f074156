//! What an operand of a term begins with.

ghost use Rattle.std.specs.Prelude.{◌≡◌};
ghost use Rattle.refusal.specs.Refusals.{Gives};
ghost use Rattle.rule_tokens.specs.SeenTokens.{seen};
ghost use Rattle.rule_tokens.specs.Steps.{Reads};
ghost use Rattle.rule_terms.specs.TermReaders as parsing;
ghost use Rattle.rule_tokens.specs.Limits.{rule_limits};

use crate::place::TermPlace;
use crate::raw::RawNode;
use crate::word::{Meaning, meaning_of};
use lists::Text;
use ops::keywords::is;
use refusal::refused;
use rule_core::Function;
use rule_tokens::{
    RuleError, RuleFault, RuleFaultKind, Token, literal, misplaced_word, name_within, unexpected,
};
use std::alloc::Global;

/// What an operand begins with.
#[derive(Drop)]
pub enum Start {
    /// A node of one token, which is the whole operand.
    Leaf(RawNode),
    /// `-` or `~`.
    Prefix(Function),
    /// `(`.
    Parenthesis,
    /// `log2(` or `abs(`.
    Call(Function),
    /// `width(`.
    Width,
}

/// Takes the mark that has to be next.
#[tactic(auto, unfolding(crate::specs::TermReaders::mark_at))]
pub fn mark(wanted: &str, line: usize, tokens: &mut &[Token<'_>]) -> Result<(), RuleFault>
    ensures { Reads (λ _. seen tokens.new.now) result (parsing.mark_at wanted.now line (seen tokens.old.now)) }
{
    match *tokens {
        [Token::Mark(mark), rest @ ..] => {
            if is(mark, wanted) {
                *tokens = rest;
                Ok(())
            } else {
                let kind = RuleFaultKind::Syntax;
                Err(RuleFault { line, kind })
            }
        }
        _ => Err(unexpected(line, *tokens)),
    }
}

/// A register, in `Wit:` alone.
fn register(alloc: Global, place: TermPlace, line: usize, name: &[u8]) -> Result<Start, RuleError>
    ensures { Gives (λ x. x) result (parsing.register_in rule_limits place line name.now) }
{
    match place {
        TermPlace::Constant => Err(refused(line, RuleFaultKind::Syntax)),
        TermPlace::Witness => Ok(Start::Leaf(RawNode::Register(name_within(alloc, line, name)?))),
    }
}

/// What the word begins, where these tokens are behind it.
fn word(
    alloc: Global,
    line: usize,
    word: &[u8],
    meaning: Option<Meaning>,
    tokens: &mut &[Token<'_>],
) -> Result<Start, RuleError>
    ensures { Gives (λ x. (x, seen tokens.new.now)) result (parsing.word_at rule_limits line word.now meaning (seen tokens.old.now)) }
{
    match meaning {
        Some(Meaning::Width) => {
            mark("(", line, tokens)?;
            Ok(Start::Width)
        }
        Some(Meaning::Call(function)) => {
            mark("(", line, tokens)?;
            Ok(Start::Call(function))
        }
        Some(Meaning::Constant) => {
            let name = name_within(alloc, line, word)?;
            Ok(Start::Leaf(RawNode::Constant(name)))
        }
        Some(Meaning::Choice(choice)) => {
            name_within(alloc, line, word)?;
            Ok(Start::Leaf(RawNode::Choice(choice)))
        }
        None => Err(misplaced_word(alloc, line, word)),
    }
}

/// What a mark begins: a parenthesis or a unary operator.
#[tactic(auto, unfolding(crate::specs::TermReaders::opening_in))]
fn opening_of(mark: &[u8]) -> Option<Start>
    ensures { result ≡ parsing.opening_in mark.now }
{
    if is(mark, "(") {
        Some(Start::Parenthesis)
    } else if is(mark, "-") {
        Some(Start::Prefix(Function::Negate))
    } else if is(mark, "~") {
        Some(Start::Prefix(Function::Not))
    } else {
        None
    }
}

/// Reads what an operand begins with.
#[tactic(auto, unfolding(crate::specs::TermReaders::start_at))]
pub(crate) fn begin(
    alloc: Global,
    place: TermPlace,
    line: usize,
    tokens: &mut &[Token<'_>],
) -> Result<Start, RuleError>
    ensures { Gives (λ x. (x, seen tokens.new.now)) result (parsing.start_at rule_limits place line (seen tokens.old.now)) }
{
    match *tokens {
        [Token::Number(text), rest @ ..] => {
            *tokens = rest;
            Ok(Start::Leaf(RawNode::Literal(literal(text))))
        }
        [Token::Register(name), rest @ ..] => {
            *tokens = rest;
            register(alloc, place, line, name)
        }
        [Token::Word(text), rest @ ..] => {
            *tokens = rest;
            word(alloc, line, text, meaning_of(place, text), tokens)
        }
        [Token::Mark(mark), rest @ ..] => {
            let Some(start) = opening_of(mark) else {
                return Err(refused(line, RuleFaultKind::Syntax));
            };
            *tokens = rest;
            Ok(start)
        }
        _ => Err(unexpected(line, *tokens).into()),
    }
}

/// Reads the register of a `width(`, and the `)` behind it.
#[tactic(auto, unfolding(crate::specs::TermReaders::measured_at))]
pub(crate) fn measured(
    alloc: Global,
    line: usize,
    tokens: &mut &[Token<'_>],
) -> Result<Text, RuleError>
    ensures { Gives (λ x. (x, seen tokens.new.now)) result (parsing.measured_at rule_limits line (seen tokens.old.now)) }
{
    match *tokens {
        [Token::Register(name), rest @ ..] => {
            *tokens = rest;
            let name = name_within(alloc, line, name)?;
            mark(")", line, tokens)?;
            Ok(name)
        }
        _ => Err(unexpected(line, *tokens).into()),
    }
}
