//! A cursor that moves over a text token by token.

ghost use Rattle.std.specs.Prelude.{◌≡◌, ◌+◌, ◌≤◌, length, take, IfOk, IfErr, OnErr};
ghost use Rattle.scan.specs.RuleTokens.{IsNextRuleToken, IsBadNext};
ghost use Rattle.scan.specs.Names.{IsNameNext, IsBadInRest, rest_of_line};

mod ir;

use crate::bad_byte::BadByte;
use crate::front::front;
use crate::gap::gap_end;
use crate::line::{feeds, token_line};
use crate::name::{blanks_before, blanks_behind, has_bad, rest_of_line};
use crate::rule_token::RuleToken;
use crate::span::Span;
use std::marker::Model;

/// A text, and a place in it: a byte offset, at most the text's length.
#[derive(Drop)]
pub struct Cursor<'a> {
    text: &'a [u8],
    at: usize,
    /// How many line feeds there are before the place.
    feeds: usize,
}

impl<'a> Model for Cursor<'a> {
    ghost use Rattle.std.specs.Prelude.{◌≡◌, ◌≤◌, length, take};
    ghost use Rattle.scan.specs.Lines as lines;
    ghost use Rattle.scan.specs.Places.{Place};

    ghost Value = { Place };

    ghost view = { λ c. record { text = c.text.now; at = c.at } };

    ghost invariant = { λ c. (c.at ≤ length c.text.now) × (c.feeds ≡ lines.feeds (take c.at c.text.now)) };
}

impl<'a> Cursor<'a> {
    /// The cursor at the start of the text.
    pub fn new(text: &'a [u8]) -> Cursor<'a>
        ensures { result ≡ record { text = text.now; at = 0 } }
    {
        Cursor {
            text,
            at: 0,
            feeds: 0,
        }
    }

    /// Reads the next token of a rule file, behind blanks, line feeds and comments, and moves behind it. It is the
    /// longest token that begins there. `operator` says whether the token before it ends a primary (`ends_primary`); if
    /// it does and this one stands on the same line, this one is read in an operator's place: there `%u` is an
    /// operator, and `-5` two tokens.
    ///
    /// The error is an invalid byte in that place; the cursor then stays where it was.
    pub fn next_rule_token(&mut self, operator: bool) -> Result<RuleToken, BadByte>
        ensures text { self.new.text ≡ self.old.text }
        ensures token { IfOk result (IsNextRuleToken operator self.old.text self.old.at) }
        ensures goes { IfOk result (λ t. self.new.at ≡ t.span.end) }
        ensures bad { IfErr result (λ e. IsBadNext self.old.text self.old.at e.line) }
        ensures stays { OnErr result (self.new.at ≡ self.old.at) }
    {
        let (start, passed) = gap_end(self.text, self.at);
        let before = self.feeds + passed;
        let Some((kind, length)) = front(&self.text[start..], operator && passed == 0) else {
            return Err(BadByte { line: before + 1 });
        };
        let end = start + length;
        let line = token_line(kind, self.text, start, before);
        self.feeds = before + feeds(&self.text[start..end]);
        self.at = end;
        Ok(RuleToken {
            kind,
            line,
            span: Span { start, end },
        })
    }

    /// Reads the rest of the line up to a comment, without the blanks at its ends, and moves behind it: the name of a
    /// rule, where its head was read. Where nothing is there the span is empty.
    ///
    /// The error is an invalid byte in it; the cursor then stays where it was.
    pub fn take_name(&mut self) -> Result<Span, BadByte>
        ensures text { self.new.text ≡ self.old.text }
        ensures name { IfOk result (IsNameNext self.old.text self.old.at) }
        ensures goes { IfOk result (λ _. self.new.at ≡ self.old.at + length (rest_of_line self.old.text self.old.at)) }
        ensures bad { IfErr result (λ e. IsBadInRest self.old.text self.old.at e.line) }
        ensures stays { OnErr result (self.new.at ≡ self.old.at) }
    {
        let rest = rest_of_line(self.text, self.at);
        if has_bad(rest) {
            return Err(BadByte {
                line: self.feeds + 1,
            });
        }
        let start = self.at + blanks_before(rest);
        let end = self.at + (rest.len() - blanks_behind(rest));
        self.at += rest.len();
        Ok(Span {
            start,
            end: start.max(end),
        })
    }
}
