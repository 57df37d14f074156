//! Marks that are next.

ghost use Rattle.std.specs.Prelude.{◌≡◌, drop, if◌then◌else◌};
ghost use Rattle.rule_tokens.specs.SeenTokens.{seen};
ghost use Rattle.rule_terms.specs.Chains as reading;

use ops::keywords::is;
use rule_tokens::Token;

/// Takes the mark if it is next, and says whether it was.
pub fn takes(mark: &str, tokens: &mut &[Token<'_>]) -> bool
    ensures next { result ≡ reading.next_is mark.now (seen tokens.old.now) }
    ensures goes { seen tokens.new.now ≡ (if result then drop 1 (seen tokens.old.now) else seen tokens.old.now) }
{
    let [Token::Mark(found), rest @ ..] = *tokens else {
        return false;
    };
    let taken = is(found, mark);
    if taken {
        *tokens = rest;
    }
    taken
}
