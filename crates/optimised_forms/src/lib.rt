//! What the plain strategy gives can be printed and read back: rewriting keeps the forms that a printed text needs,
//! dead code elimination does, and so the strategy does. And the strategy takes each module that is read from a text.
//!
//! The laws stand in `specs/Laws`; which forms there are, in `ir_text`, and what the strategy gives, in
//! `strategy_core`.
#![tactic(auto)]

mod laws;

pub use laws::{
    formed_modules_numbers_fit, module_texts_are_countable, optimised_modules_have_forms,
    rewritten_functions_have_forms,
};
