//! The laws of printed texts. Each is the contract of a function with an empty body.
ghost use Rattle.ir_text.specs.Laws.{LexemesAreTokens, PrintedTextsSpell};

/// A text that is written token by token is lexed as these tokens.
pub fn lexemes_are_tokens()
    ensures { LexemesAreTokens }
{}

/// The printed text of a module spells the module, written canonically.
pub fn printed_texts_spell_their_module()
    ensures { PrintedTextsSpell }
{}
