//! The laws of tokens. Each is the contract of a function with an empty body.
ghost use Rattle.scan.specs.Laws.{OneTokenAtAPlace, OneModuleTokenAtAPlace, OneGroupAtAPlace};

/// At a place of a text there is no more than one token of a rule file, or one invalid byte, in an operator's place or
/// not.
pub fn every_place_has_one_rule_token()
    ensures { OneTokenAtAPlace }
{}

/// At a place of a module's text there is no more than one token, or one invalid byte or token.
pub fn every_place_of_a_module_has_one_token()
    ensures { OneModuleTokenAtAPlace }
{}

/// There is at most one place where a bracket before a place is closed.
pub fn every_bracket_is_closed_once()
    ensures { OneGroupAtAPlace }
{}
