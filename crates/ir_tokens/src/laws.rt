//! The law of tokens, as the contract of a function with an empty body.
ghost use Rattle.ir_tokens.specs.Laws.{TextsHaveOneListOfTokens};

/// A text has exactly one list of tokens.
pub fn every_text_has_one_list_of_tokens()
    ensures { TextsHaveOneListOfTokens }
{
    scan::every_place_of_a_module_has_one_token();
    scan::every_bracket_is_closed_once();
}
