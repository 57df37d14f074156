//! The version of a rule file, from its first line.

ghost use Rattle.refusal.specs.Refusals.{Gives};
ghost use Rattle.rule_tokens.specs.SeenTokens.{seen};
ghost use Rattle.rule_parse.specs.RuleReaders as parsing;

use ops::keywords::is;
use rule_tokens::{
    RuleError, Token, Version, line_end, misplaced_word, unexpected, written_version,
};
use std::alloc::Global;

/// Reads the number behind `Version:`.
#[tactic(auto, unfolding(crate::specs::RuleReaders::version_number_at))]
fn number(alloc: Global, line: usize, tokens: &mut &[Token<'_>]) -> Result<Version, RuleError>
    ensures { Gives (λ x. (x, seen tokens.new.now)) result (parsing.version_number_at line (seen tokens.old.now)) }
{
    let [Token::Number(text), rest @ ..] = *tokens else {
        return Err(unexpected(line, *tokens).into());
    };
    match written_version(text) {
        Some(version) => {
            *tokens = rest;
            line_end(line, rest)?;
            Ok(version)
        }
        None => Err(misplaced_word(alloc, line, text)),
    }
}

/// Reads the version, if the first line says it.
#[tactic(auto, unfolding(crate::specs::RuleReaders::version_at))]
pub(crate) fn version(alloc: Global, tokens: &mut &[Token<'_>]) -> Result<Version, RuleError>
    ensures { Gives (λ x. (x, seen tokens.new.now)) result (parsing.version_at (seen tokens.old.now)) }
{
    match *tokens {
        [Token::Line(line), Token::Head(head), rest @ ..] if is(head, "Version:") => {
            *tokens = rest;
            number(alloc, *line, tokens)
        }
        _ => Ok(Version::One),
    }
}
