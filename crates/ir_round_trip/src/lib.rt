//! The round trip: a function, a module or a text that is written canonically, as printed ones are, is read as what it
//! was written for. The modules of texts have the forms for it, and dead code elimination keeps them.
//!
//! The laws stand in `specs/Laws`; what is written canonically, and which forms there are, in `ir_text`.
#![tactic(auto)]

mod laws;

pub use laws::{
    canonical_functions_mean, canonical_modules_read, cleaning_keeps_forms, module_texts_are_small,
    module_texts_have_forms, module_texts_meet_checks, printed_texts_read,
};
