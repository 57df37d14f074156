//! The error type that readers of texts and the checks behind them share: the input has a fault, or memory was refused.
//! Since it is one type, `?` passes it on as it is.
#![tactic(auto)]

mod fault;
mod refusal;

pub use fault::Fault;
pub use refusal::{Refusal, refused};
