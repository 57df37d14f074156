//! Operands from tokens, with their types, and the end of a line behind them.

ghost use Rattle.std.specs.Prelude.{◌≡◌, IfOk};
ghost use Rattle.refusal.specs.Refusals.{Gives};
ghost use Rattle.rule_tokens.specs.SeenTokens.{seen};
ghost use Rattle.rule_parse.specs.declared.half.Half.TheVariants as halves;
ghost use Rattle.rule_parse.specs.RuleReaders as parsing;
ghost use Rattle.rule_parse.specs.Keywords as spelled;
ghost use Rattle.rule_tokens.specs.Limits.{rule_limits};

use crate::half::Half;
use crate::limit::MOST_NESTED;
use crate::raw::{RawArgument, RawOperand};
use crate::word::source_word_of;
use lists::Text;
use ops::Width;
use ops::keywords::is;
use refusal::refused;
use rule_terms::{RawNode, RawTerm, TermPlace, is_constant, term};
use rule_tokens::{
    RuleError, RuleFaultKind, Token, integer_type, line_end, literal, maybe_type, misplaced_word,
    name_within, unexpected,
};
use std::alloc::{AllocError, Global};

/// A word of the source as an operand: a constant, `true`, `false` or `undef`.
#[tactic(auto, unfolding(crate::specs::RuleReaders::source_word))]
fn source_word(alloc: Global, line: usize, word: &[u8]) -> Result<RawArgument, RuleError>
    ensures { Gives (λ x. x) result (parsing.source_word rule_limits line word.now) }
{
    if is_constant(word) {
        return Ok(RawArgument::Constant(name_within(alloc, line, word)?));
    }
    match source_word_of(word) {
        Some(argument) => Ok(argument),
        None => Err(misplaced_word(alloc, line, word)),
    }
}

/// Reads an operand of the source without a type before it.
#[tactic(auto, unfolding(crate::specs::RuleReaders::argument_at))]
fn source_argument(
    alloc: Global,
    line: usize,
    tokens: &mut &[Token<'_>],
) -> Result<RawArgument, RuleError>
    ensures { Gives (λ x. (x, seen tokens.new.now)) result (parsing.argument_at rule_limits halves.Source line (seen tokens.old.now)) }
{
    match *tokens {
        [Token::Register(name), rest @ ..] => {
            *tokens = rest;
            Ok(RawArgument::Register(name_within(alloc, line, name)?))
        }
        [Token::Number(text), rest @ ..] => {
            *tokens = rest;
            Ok(RawArgument::Literal(literal(text)))
        }
        [Token::Word(word), rest @ ..] => {
            *tokens = rest;
            source_word(alloc, line, word)
        }
        _ => Err(unexpected(line, *tokens).into()),
    }
}

/// A term as an operand: a single literal or constant is kept as such.
#[tactic(auto, unfolding(crate::specs::Keywords::argument_of))]
fn argument_of(alloc: Global, term: RawTerm) -> Result<RawArgument, AllocError>
    ensures { IfOk result (λ x. x ≡ spelled.argument_of term) }
{
    match term.as_slice() {
        [RawNode::Literal(number)] => Ok(RawArgument::Literal(*number)),
        [RawNode::Constant(name)] => {
            let name = Vec::from_slice(alloc, name.as_slice())?;
            Ok(RawArgument::Constant(Text::from_vec(name)))
        }
        _ => Ok(RawArgument::Term(term)),
    }
}

/// Reads a constant term as an operand.
fn term_argument(
    alloc: Global,
    line: usize,
    tokens: &mut &[Token<'_>],
) -> Result<RawArgument, RuleError>
    ensures { Gives (λ x. (x, seen tokens.new.now)) result (parsing.term_argument_at rule_limits line (seen tokens.old.now)) }
{
    let nodes = term(alloc, TermPlace::Constant, MOST_NESTED, line, tokens)?;
    Ok(argument_of(alloc, nodes)?)
}

/// Reads an operand of the target without a type before it.
#[tactic(auto, unfolding(crate::specs::RuleReaders::argument_at))]
fn target_argument(
    alloc: Global,
    line: usize,
    tokens: &mut &[Token<'_>],
) -> Result<RawArgument, RuleError>
    ensures { Gives (λ x. (x, seen tokens.new.now)) result (parsing.argument_at rule_limits halves.Target line (seen tokens.old.now)) }
{
    match *tokens {
        [Token::Register(name), rest @ ..] => {
            *tokens = rest;
            Ok(RawArgument::Register(name_within(alloc, line, name)?))
        }
        [Token::Word(word), rest @ ..] if is(word, "undef") => {
            *tokens = rest;
            Ok(RawArgument::Undef)
        }
        _ => term_argument(alloc, line, tokens),
    }
}

/// Reads an operand without a type before it.
fn argument(
    alloc: Global,
    half: Half,
    line: usize,
    tokens: &mut &[Token<'_>],
) -> Result<RawArgument, RuleError>
    ensures { Gives (λ x. (x, seen tokens.new.now)) result (parsing.argument_at rule_limits half line (seen tokens.old.now)) }
{
    match half {
        Half::Source => source_argument(alloc, line, tokens),
        Half::Target => target_argument(alloc, line, tokens),
    }
}

/// Reads an operand, behind the type that was read, if one was.
#[tactic(auto, unfolding(crate::specs::RuleReaders::typed_at))]
pub(crate) fn typed(
    alloc: Global,
    half: Half,
    line: usize,
    written: Option<Width>,
    tokens: &mut &[Token<'_>],
) -> Result<RawOperand, RuleError>
    ensures { Gives (λ x. (x, seen tokens.new.now)) result (parsing.typed_at rule_limits half line written (seen tokens.old.now)) }
{
    let value = argument(alloc, half, line, tokens)?;
    Ok(RawOperand { written, value })
}

/// Reads an operand, with an optional type before it.
pub(crate) fn operand(
    alloc: Global,
    half: Half,
    line: usize,
    tokens: &mut &[Token<'_>],
) -> Result<RawOperand, RuleError>
    ensures { Gives (λ x. (x, seen tokens.new.now)) result (parsing.operand_at rule_limits half line (seen tokens.old.now)) }
{
    let written = maybe_type(tokens);
    typed(alloc, half, line, written, tokens)
}

/// Reads `to` and a type, which are optional, and the end of the line.
#[tactic(auto, unfolding(crate::specs::RuleReaders::to_at))]
pub(crate) fn result_type(
    alloc: Global,
    line: usize,
    tokens: &mut &[Token<'_>],
) -> Result<Option<Width>, RuleError>
    ensures { Gives (λ x. (x, seen tokens.new.now)) result (parsing.to_at line (seen tokens.old.now)) }
{
    let [Token::Word(word), rest @ ..] = *tokens else {
        line_end(line, *tokens)?;
        return Ok(None);
    };
    if is(word, "to") {
        *tokens = rest;
        let width = integer_type(alloc, line, tokens)?;
        line_end(line, *tokens)?;
        Ok(Some(width))
    } else {
        Err(refused(line, RuleFaultKind::Syntax))
    }
}
