//! Why a text is refused as a module.

use crate::called::Identifier;
use lists::Text;
use refusal::{Fault, Refusal};

/// The kinds of faults. They are looked for in this order: the kinds up to `ConstRange` over the whole text, and the
/// others then function by function.
#[derive(Drop)]
pub enum IrFaultKind {
    /// The text has more than 16,777,216 bytes.
    TooLong,
    /// An invalid byte.
    BadByte,
    /// A token that fits nothing that the grammar allows there, or the text ends too soon.
    Syntax,
    /// A part of LLVM IR that is not supported (left out): the word, or the first byte of a token that is no word.
    LeftOut(Text),
    /// An integer type whose width is not from 1 to 64.
    Width,
    /// A number that does not fit its type.
    ConstRange,
    /// The number that is written for a parameter, a block or a result is not the next of the function's series.
    Numbering,
    /// A name is given twice, an earlier function has the function's name, or two cases of a `switch` have one value.
    Duplicate,
    /// A register or a block is used that the function does not define.
    Unknown,
    /// A value does not have the type that is written for it, or types do not agree.
    TypeClash,
    /// A `phi`, on the line of its register: it stands behind an instruction that is no `phi`, it has no entry for a
    /// predecessor of its block or one for another block, or it has two operands for one block.
    BadPhi,
    /// A terminator names the entry block.
    EntryPred,
    /// A register is read where it is not assigned on every path: the identifier that is written for it, and the index
    /// of the block in which that stands.
    Unassigned(Identifier, u32),
}

/// The first fault of a text. If the text ends too soon, its line is the last one, and if it is too long, the first.
pub type IrFault = Fault<IrFaultKind>;

/// Why no module was read.
pub type IrError = Refusal<IrFault>;
