//! Why a text is no rule file.

use lists::Text;
use refusal::{Fault, Refusal};

/// What is wrong, in the order in which it is looked for: over the whole text up to `TooMany`, and then rule by rule.
#[derive(Drop)]
pub enum RuleFaultKind {
    /// The text has more than 1,048,576 bytes.
    TooLong,
    /// A byte that is no printable ASCII, no blank and no line feed, outside comments.
    BadByte,
    /// A token that does not fit, or a line or text that ends too soon.
    Syntax,
    /// A word that this subset of the language leaves out, or the number of an unknown version.
    LeftOut(Text),
    /// A limit is passed: 32 statements in a half, 256 operands, literals, names, operators and functions in a rule, 32
    /// open parentheses and pending unary operators, 200 bytes of a name, or 8 classes of types in a rule.
    TooMany,
    /// A rule's name, or a register of a half, is given twice.
    Duplicate,
    /// A register, a constant or a choice is named that is not there to use.
    Unbound,
    /// The last statement of the target does not assign the root.
    RootMissing,
    /// The target assigns an input or a temporary of the source.
    Redefines,
    /// A temporary of the source (a register other than the root) that no later statement of the source uses.
    UnusedTemp,
    /// `undef` or a freeze stands in the source outside the root, or `undef` is copied or frozen.
    UndefInside,
    /// `Wit:` has not as many expressions as the source has `undef`s and freezes.
    WitnessCount,
    /// No widths are a typing.
    NoType,
    /// A class of types has neither a name in the source nor a fixed width.
    OpenType,
}

/// The first fault of a text. Where a line or the text ends too soon its line is that one or the last one, and where
/// the text is too long the first.
pub type RuleFault = Fault<RuleFaultKind>;

/// Why no rules were read.
pub type RuleError = Refusal<RuleFault>;
