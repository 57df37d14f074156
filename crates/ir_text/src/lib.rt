//! The printed text of a module of LLVM IR: its lexemes (tokens with the blanks before them), the forms that its parts
//! have to have, and the law that it spells the module.
//!
//! The definitions stand in `specs/`: `PrintedText` says which bytes the text of a module has, `NameText` and
//! `NumberText` how names and numbers are printed, `Report` which lines the report on a module has, `Lexemes` when a
//! text that is written token by token is lexed as these tokens, `Forms` which forms the parts of a module have, so
//! that its printed text reads as the module, `CanonicalModule` how a module is written canonically, and `Laws` what
//! holds. It has laws and no code.
#![tactic(auto)]

mod laws;

pub use laws::{lexemes_are_tokens, printed_texts_spell_their_module};
