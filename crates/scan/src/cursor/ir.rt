//! The next token of a module of LLVM IR, and the parts of its text that are kept as they are written.

ghost use Rattle.std.specs.Prelude.{◌≡◌, ◌+◌, length, IfOk, IfErr, OnErr, IfSome, IfNone};
ghost use Rattle.scan.specs.IrTokens.{IsNextToken, IsBadToken};
ghost use Rattle.scan.specs.Kept.{rest_to_feed, IsKeptLine, IsGroup, HasNoGroup};

use super::Cursor;
use crate::bad_byte::BadByte;
use crate::gap::gap_end;
use crate::ir::front::front;
use crate::ir::token::Token;
use crate::kept::{behind_group, rest_to_feed};
use crate::line::ir_token_line;
use crate::name::blanks_behind;
use crate::span::Span;

impl<'a> Cursor<'a> {
    /// Reads the next token of a module, behind blanks, line feeds and comments, and moves behind it. It is the longest
    /// token that begins there.
    ///
    /// The error is a byte there that is invalid outside comments and quotes, or a token that is or has a quoted text
    /// with a byte 0, written or escaped; the cursor then stays where it was.
    ///
    /// A call scans the gap, and the run of name bytes or the rest of the line behind it, a few times. So a text is
    /// read in time linear in its length, except for runs that are no token: each `Other` of `---` costs what is left
    /// of the run, since a `:` behind it would make it a label.
    pub fn next_token(&mut self) -> Result<Token, BadByte>
        ensures text { self.new.text ≡ self.old.text }
        ensures token { IfOk result (IsNextToken self.old.text self.old.at) }
        ensures goes { IfOk result (λ t. self.new.at ≡ t.span.end) }
        ensures bad { IfErr result (λ e. IsBadToken self.old.text self.old.at e.line) }
        ensures stays { OnErr result (self.new.at ≡ self.old.at) }
    {
        let (start, passed) = gap_end(self.text, self.at);
        let before = self.feeds + passed;
        let Some((kind, length)) = front(&self.text[start..]) else {
            return Err(BadByte { line: before + 1 });
        };
        let end = start + length;
        let line = ir_token_line(kind, self.text, start, before);
        // no token has a line feed
        self.feeds = before;
        self.at = end;
        Ok(Token {
            kind,
            line,
            span: Span { start, end },
        })
    }

    /// Reads the rest of the line, with its comment and without the blanks at its end, and moves to the end of the
    /// line, before the line feed. No byte of it is invalid. Where only blanks are there the span is empty and begins
    /// at the cursor.
    pub fn take_line(&mut self) -> Span
        ensures text { self.new.text ≡ self.old.text }
        ensures line { IsKeptLine self.old.text self.old.at result }
        ensures goes { self.new.at ≡ self.old.at + length (rest_to_feed self.old.text self.old.at) }
    {
        let rest = rest_to_feed(self.text, self.at);
        let start = self.at;
        let end = start + (rest.len() - blanks_behind(rest));
        self.at += rest.len();
        Span { start, end }
    }

    /// Reads the bytes up to and with the `)` that closes a `(` before the cursor, and moves behind them. Brackets in
    /// quoted texts don't count, a `;` begins no comment, and every byte but a line feed is valid.
    ///
    /// `None` where no `)` on the line closes it; the cursor then stays where it was.
    pub fn take_group(&mut self) -> Option<Span>
        ensures text { self.new.text ≡ self.old.text }
        ensures group { IfSome result (IsGroup self.old.text self.old.at) }
        ensures none { IfNone result (HasNoGroup self.old.text self.old.at) }
        ensures goes { IfSome result (λ s. self.new.at ≡ s.end) }
        ensures stays { IfNone result (self.new.at ≡ self.old.at) }
    {
        let rest = behind_group(&self.text[self.at..])?;
        let start = self.at;
        let end = self.text.len() - rest.len();
        self.at = end;
        Some(Span { start, end })
    }
}
