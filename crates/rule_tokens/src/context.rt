//! What the tokens before a token tell the lexer of it.

ghost use Rattle.std.specs.Prelude.{◌≡◌};
ghost use Rattle.rule_tokens.specs.Contexts as meaning;

use crate::version::{Version, written_version};
use ops::keywords::is;
use scan::{RuleKind, ends_primary};

/// What stands directly before a token.
#[derive(Clone, Copy)]
pub enum Before {
    /// `Version:`.
    VersionHead,
    /// `=`.
    Equals,
    Other,
}

/// What the tokens before a token tell the lexer of it.
#[derive(Clone, Copy)]
pub struct Context {
    /// Whether a binary operator may stand here, since the token before ends a primary expression of a term.
    pub operator: bool,
    /// The version of the file: the first one, until a line says another.
    pub version: Version,
    /// Whether it stands in the target of a rule, behind `=>`.
    pub in_target: bool,
    pub before: Before,
}

impl Context {
    /// The context of a text's first token.
    pub(crate) const START: Context = Context {
        operator: false,
        version: Version::One,
        in_target: false,
        before: Before::Other,
    };

    /// The context of the token behind one of this kind with these bytes.
    pub(crate) fn behind(self, kind: RuleKind, bytes: &[u8]) -> Context
        ensures { result ≡ meaning.context_behind self kind bytes.now }
    {
        Context {
            operator: ends_primary(kind, bytes),
            version: self.version_behind(kind, bytes),
            in_target: self.in_target || matches!(kind, RuleKind::Arrow),
            before: before_of(kind, bytes),
        }
    }

    /// The context of the token behind the name of a rule.
    pub(crate) fn behind_name(self) -> Context
        ensures { result ≡ meaning.behind_name self }
    {
        Context {
            version: self.version,
            ..Context::START
        }
    }

    /// Whether a word here is `abs` as an opcode, with `(` directly behind it or not.
    pub(crate) fn takes_as_opcode(self, called: bool, word: &[u8]) -> bool
        ensures { result ≡ meaning.is_opcode self called word.now }
    {
        match (self.version, self.before) {
            (Version::Two, Before::Equals) => is(word, "abs") && !(self.in_target && called),
            _ => false,
        }
    }

    /// The version of the file, once this token is read.
    fn version_behind(self, kind: RuleKind, bytes: &[u8]) -> Version
        ensures { result ≡ meaning.version_behind self kind bytes.now }
    {
        match (self.before, kind) {
            (Before::VersionHead, RuleKind::Number) => {
                written_version(bytes).unwrap_or(Version::One)
            }
            _ => self.version,
        }
    }
}

/// What the token directly behind needs to know of this one.
fn before_of(kind: RuleKind, bytes: &[u8]) -> Before
    ensures { result ≡ meaning.before_of kind bytes.now }
{
    match kind {
        RuleKind::Head if is(bytes, "Version:") => Before::VersionHead,
        RuleKind::Mark if is(bytes, "=") => Before::Equals,
        _ => Before::Other,
    }
}
