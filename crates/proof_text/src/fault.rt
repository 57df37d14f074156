//! Why a text is no text of proofs.

use refusal::{Fault, Refusal};

/// What is wrong. The reader of texts tells the first three; the others are told beside a list of rules.
#[derive(Drop)]
pub enum LogFaultKind {
    /// The text has more than 67,108,864 bytes.
    TooLong,
    /// A byte that is no printable ASCII, no blank and no line feed.
    BadByte,
    /// Any other departure from the form.
    Syntax,
    /// No rule has the name of a proof.
    UnknownRule,
    /// The widths of a proof are no typing of its rule.
    BadTyping,
    /// An earlier proof has the same rule and the same widths.
    Repeated,
}

/// The first fault of a text.
pub type LogFault = Fault<LogFaultKind>;

/// Why no proofs were read.
pub type LogError = Refusal<LogFault>;
