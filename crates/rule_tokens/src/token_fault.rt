//! Faults of the first token of those that are left.

ghost use Rattle.std.specs.Prelude.{◌≡◌};
ghost use Rattle.refusal.specs.Refusals.{Refuses};
ghost use Rattle.rule_tokens.specs.declared.fault.RuleFaultKind.TheVariants as kinds;
ghost use Rattle.rule_tokens.specs.PartReaders as reading;
ghost use Rattle.rule_tokens.specs.SeenTokens.{seen};

use crate::fault::{RuleError, RuleFault, RuleFaultKind};
use crate::token::Token;
use lists::Text;
use ops::keywords::is;
use refusal::refused;
use std::alloc::Global;

/// The fault that a word or a number is left out of the language.
pub fn left_out(alloc: Global, line: usize, bytes: &[u8]) -> RuleError
    ensures { Refuses result (reading.fault line (kinds.LeftOut bytes.now)) }
{
    match Vec::from_slice(alloc, bytes) {
        Ok(bytes) => refused(line, RuleFaultKind::LeftOut(Text::from_vec(bytes))),
        Err(error) => error.into(),
    }
}

/// The fault of a word that doesn't fit where other words would.
pub fn misplaced_word(alloc: Global, line: usize, word: &[u8]) -> RuleError
    ensures { Refuses result (reading.misplaced_word line word.now) }
{
    if is(word, "hasOneUse") {
        refused(line, RuleFaultKind::Syntax)
    } else {
        left_out(alloc, line, word)
    }
}

/// The fault of the first token, which is of a kind that doesn't fit; or the line ends too soon.
pub fn unexpected(line: usize, tokens: &[Token<'_>]) -> RuleFault
    ensures { result ≡ reading.unexpected line (seen tokens.now) }
{
    let kind = match tokens {
        [Token::Bad, ..] => RuleFaultKind::BadByte,
        [Token::Excess, ..] => RuleFaultKind::TooMany,
        _ => RuleFaultKind::Syntax,
    };
    RuleFault { line, kind }
}

/// The fault of the first token, which doesn't fit where other words would.
pub fn misplaced(alloc: Global, line: usize, tokens: &[Token<'_>]) -> RuleError
    ensures { Refuses result (reading.left_out line (seen tokens.now)) }
{
    match tokens {
        [Token::Word(word), ..] => misplaced_word(alloc, line, word),
        _ => unexpected(line, tokens).into(),
    }
}
