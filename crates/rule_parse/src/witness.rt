//! `Wit:` from the tokens of a text.

ghost use Rattle.refusal.specs.Refusals.{Gives};
ghost use Rattle.rule_tokens.specs.SeenTokens.{seen};
ghost use Rattle.rule_parse.specs.RuleReaders as parsing;
ghost use Rattle.rule_tokens.specs.Limits.{rule_limits};

use crate::limit::MOST_NESTED;
use crate::raw::RawWitness;
use lists::List;
use ops::keywords::is;
use rule_terms::{RawTerm, TermPlace, takes, term};
use rule_tokens::{RuleError, Token, line_end};
use std::alloc::Global;

/// Reads an expression, and adds it to those before.
fn expression(
    alloc: Global,
    line: usize,
    expressions: &mut List<RawTerm>,
    tokens: &mut &[Token<'_>],
) -> Result<(), RuleError>
    ensures { Gives (λ _. (expressions.new, seen tokens.new.now)) result (parsing.expression_at rule_limits line expressions.old (seen tokens.old.now)) }
{
    let term = term(alloc, TermPlace::Witness, MOST_NESTED, line, tokens)?;
    expressions.push(term)?;
    Ok(())
}

/// Reads the expressions behind the first one, each behind a `,`.
fn more_expressions(
    alloc: Global,
    line: usize,
    expressions: &mut List<RawTerm>,
    tokens: &mut &[Token<'_>],
) -> Result<(), RuleError>
    ensures { Gives (λ _. (expressions.new, seen tokens.new.now)) result (parsing.more_expressions rule_limits line expressions.old (seen tokens.old.now)) }
{
    while takes(",", tokens) {
        expression(alloc, line, expressions, tokens)?;
    }
    Ok(())
}

/// Reads expressions with `,` between them, and the end of the line.
#[tactic(auto, unfolding(crate::specs::RuleReaders::expressions_at))]
fn expressions(
    alloc: Global,
    line: usize,
    tokens: &mut &[Token<'_>],
) -> Result<List<RawTerm>, RuleError>
    ensures { Gives (λ x. (x, seen tokens.new.now)) result (parsing.expressions_at rule_limits line (seen tokens.old.now)) }
{
    let mut expressions = List::new(alloc);
    expression(alloc, line, &mut expressions, tokens)?;
    more_expressions(alloc, line, &mut expressions, tokens)?;
    line_end(line, *tokens)?;
    Ok(expressions)
}

/// Reads `Wit:` and its expressions, if that is next.
#[tactic(auto, unfolding(crate::specs::RuleReaders::witness_at))]
pub(crate) fn witness(
    alloc: Global,
    tokens: &mut &[Token<'_>],
) -> Result<Option<RawWitness>, RuleError>
    ensures { Gives (λ x. (x, seen tokens.new.now)) result (parsing.witness_at rule_limits (seen tokens.old.now)) }
{
    match *tokens {
        [Token::Line(line), Token::Head(head), rest @ ..] if is(head, "Wit:") => {
            *tokens = rest;
            let expressions = expressions(alloc, *line, tokens)?;
            Ok(Some(RawWitness {
                line: *line,
                expressions,
            }))
        }
        _ => Ok(None),
    }
}
