//! Rules from the tokens of a text: each part of a rule stands on a line of its own.

ghost use Rattle.std.specs.Prelude.{◌≡◌, ◌∷◌, IfSome, IfNone};
ghost use Rattle.refusal.specs.Refusals.{Gives};
ghost use Rattle.rule_parse.specs.RuleReaders as parsing;
ghost use Rattle.rule_parse.specs.RuleReaders.{IsNoStatement};
ghost use Rattle.rule_tokens.specs.SeenTokens.{seen};
ghost use Rattle.rule_tokens.specs.Steps.{Reads};
ghost use Rattle.rule_tokens.specs.Tokens.{Line, Register};
ghost use Rattle.rule_tokens.specs.Limits.{rule_limits};

use crate::half::Half;
use crate::precondition::precondition;
use crate::raw::{RawRule, RawStatement};
use crate::statement::statement;
use crate::witness::witness;
use lists::{List, Text};
use ops::keywords::is;
use refusal::refused;
use rule_tokens::{
    RuleError, RuleFault, RuleFaultKind, Token, Version, line_end, name_within, unexpected,
};
use std::alloc::Global;

/// The most statements of a half.
const MOST_STATEMENTS: usize = 32;

/// The fault of the token that begins the next line, or, where there is no such line, one on the text's last line.
fn unexpected_line(last: usize, tokens: &[Token<'_>]) -> RuleFault
    ensures { result ≡ parsing.unexpected_line last (seen tokens.now) }
{
    match tokens {
        [Token::Line(line), rest @ ..] => unexpected(*line, rest),
        _ => unexpected(last, tokens),
    }
}

/// Reads a rule's name, behind `Name:`.
fn name_text(alloc: Global, line: usize, tokens: &mut &[Token<'_>]) -> Result<Text, RuleError>
    ensures { Gives (λ x. (x, seen tokens.new.now)) result (parsing.name_text rule_limits line (seen tokens.old.now)) }
{
    match *tokens {
        [Token::Name([]), ..] => Err(refused(line, RuleFaultKind::Syntax)),
        [Token::Name(name), rest @ ..] => {
            *tokens = rest;
            name_within(alloc, line, name)
        }
        _ => Err(unexpected(line, *tokens).into()),
    }
}

/// Reads the line of `Name:`: its number, and the name.
#[tactic(auto, unfolding(crate::specs::RuleReaders::name_at))]
fn name(alloc: Global, last: usize, tokens: &mut &[Token<'_>]) -> Result<(usize, Text), RuleError>
    ensures { Gives (λ x. (x, seen tokens.new.now)) result (parsing.name_at rule_limits last (seen tokens.old.now)) }
{
    match *tokens {
        [Token::Line(line), Token::Head(head), rest @ ..] => {
            if is(head, "Name:") {
                *tokens = rest;
                Ok((*line, name_text(alloc, *line, tokens)?))
            } else {
                Err(refused(*line, RuleFaultKind::Syntax))
            }
        }
        _ => Err(unexpected_line(last, *tokens).into()),
    }
}

/// Takes the line number and the register that begin a statement, if those are next.
fn register<'a>(tokens: &mut &[Token<'a>]) -> Option<(usize, &'a [u8])>
    ensures some { IfSome result (λ x. seen tokens.old.now ≡ Line x.0 ∷ Register x.1.now ∷ seen tokens.new.now) }
    ensures none { IfNone result (IsNoStatement (seen tokens.old.now)) }
    ensures stays { IfNone result (seen tokens.new.now ≡ seen tokens.old.now) }
{
    match *tokens {
        [Token::Line(line), Token::Register(name), rest @ ..] => {
            *tokens = rest;
            Some((*line, *name))
        }
        _ => None,
    }
}

/// Reads statements, as long as a line begins with a register.
fn statements(
    alloc: Global,
    version: Version,
    half: Half,
    tokens: &mut &[Token<'_>],
) -> Result<List<RawStatement>, RuleError>
    ensures { Gives (λ x. (x, seen tokens.new.now)) result (parsing.statements_at rule_limits version 32 half (seen tokens.old.now)) }
{
    let mut statements = List::new(alloc);
    while let Some((line, name)) = register(tokens) {
        if statements.len() == MOST_STATEMENTS {
            return Err(refused(line, RuleFaultKind::TooMany));
        }
        statements.push(statement(alloc, version, half, line, name, tokens)?)?;
    }
    Ok(statements)
}

/// Reads the source: one statement or more.
#[tactic(auto, unfolding(crate::specs::RuleReaders::source_at))]
fn source(
    alloc: Global,
    version: Version,
    last: usize,
    tokens: &mut &[Token<'_>],
) -> Result<List<RawStatement>, RuleError>
    ensures { Gives (λ x. (x, seen tokens.new.now)) result (parsing.source_at rule_limits version last (seen tokens.old.now)) }
{
    match *tokens {
        [Token::Line(_), Token::Register(_), ..] => statements(
            alloc,
            version,
            Half::Source,
            tokens,
        ),
        _ => Err(unexpected_line(last, *tokens).into()),
    }
}

/// Reads the line of the `=>`.
#[tactic(auto, unfolding(crate::specs::RuleReaders::arrow_at))]
fn arrow(last: usize, tokens: &mut &[Token<'_>]) -> Result<(), RuleFault>
    ensures { Reads (λ _. seen tokens.new.now) result (parsing.arrow_at last (seen tokens.old.now)) }
{
    match *tokens {
        [Token::Line(line), Token::Arrow, rest @ ..] => {
            *tokens = rest;
            line_end(*line, rest)
        }
        _ => Err(unexpected_line(last, *tokens)),
    }
}

/// Reads the target: one statement or more.
#[tactic(auto, unfolding(crate::specs::RuleReaders::target_at))]
fn target(
    alloc: Global,
    version: Version,
    last: usize,
    tokens: &mut &[Token<'_>],
) -> Result<List<RawStatement>, RuleError>
    ensures { Gives (λ x. (x, seen tokens.new.now)) result (parsing.target_at rule_limits version last (seen tokens.old.now)) }
{
    match *tokens {
        [Token::Line(_), Token::Register(_), ..] => statements(
            alloc,
            version,
            Half::Target,
            tokens,
        ),
        _ => Err(unexpected_line(last, *tokens).into()),
    }
}

/// Reads a rule.
#[tactic(auto, unfolding(crate::specs::RuleReaders::rule_at))]
fn rule(
    alloc: Global,
    version: Version,
    last: usize,
    tokens: &mut &[Token<'_>],
) -> Result<RawRule, RuleError>
    ensures { Gives (λ x. (x, seen tokens.new.now)) result (parsing.rule_at rule_limits version last (seen tokens.old.now)) }
{
    let (line, name) = name(alloc, last, tokens)?;
    let precondition = precondition(alloc, tokens)?;
    let witness = witness(alloc, tokens)?;
    let source = source(alloc, version, last, tokens)?;
    arrow(last, tokens)?;
    let target = target(alloc, version, last, tokens)?;
    Ok(RawRule {
        line,
        name,
        precondition,
        witness,
        source,
        target,
    })
}

/// Reads the rules of tokens, in this version, up to their end, or the first fault; `last` is the text's last line.
pub(crate) fn rules(
    alloc: Global,
    version: Version,
    last: usize,
    tokens: &[Token<'_>],
) -> Result<Vec<RawRule>, RuleError>
    ensures { Gives (λ x. x.items) result (parsing.rules_of rule_limits version last (seen tokens.now)) }
{
    let mut rules = Vec::new(alloc);
    let mut rest = tokens;
    while !rest.is_empty() {
        rules.push(rule(alloc, version, last, &mut rest)?)?;
    }
    Ok(rules)
}
