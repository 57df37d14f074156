//! The second half of lexing a module: its tokens in order, each with its line; the names and numbers that they spell;
//! and the kinds of faults.
#![tactic(auto)]

mod bytes;
mod called;
mod fault;
mod laws;
mod naming;
mod number;
mod place;
mod raw;
mod reader;
mod token;
mod tokens;

pub use bytes::{is_number, is_plain_name};
pub use called::Identifier;
pub use fault::{IrError, IrFault, IrFaultKind};
pub use laws::every_text_has_one_list_of_tokens;
pub use naming::identifier;
pub use number::constant;
pub use place::{Extent, Section};
pub use raw::{
    RawArguments, RawBlock, RawCall, RawCase, RawEntry, RawFunction, RawIdentifier, RawIncoming,
    RawInst, RawModule, RawOp, RawOperand, RawParameter, RawTerminator, RawValue, TypedOperand,
};
pub use reader::TokenReader;
pub use token::{Placed, Token};
pub use tokens::tokens_of;
