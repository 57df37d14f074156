//! Identifiers of registers and blocks.

/// The identifier of a register or a block (LangRef, "Identifiers").
#[derive(Clone, Copy)]
pub(crate) enum Identifier<'a> {
    /// A name, without the `%`.
    Named(&'a [u8]),
    /// A number of the series for those without a name.
    Numbered(u64),
}
