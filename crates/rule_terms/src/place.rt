//! Where a term stands.

/// Where a term stands.
#[derive(Clone, Copy, PartialEq, Eq)]
pub enum TermPlace {
    /// In a target or a precondition: it is made of constants and literals.
    Constant,
    /// In `Wit:`, where it may name registers and the target's choices too.
    Witness,
}
