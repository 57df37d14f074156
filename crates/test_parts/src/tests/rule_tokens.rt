//! Small texts of rule files, whose tokens are seen by hand.

use super::bytes_of;
use RuleKind::{Arrow, End, Head, Mark, Number, Other, Register, Word};
use scan::{BadByte, Cursor, RuleKind, ends_primary};
use std::process::Abort;
use std::rt::HostRuntime;

/// A token: its kind, its line and its bytes.
type Seen<'a> = (RuleKind, usize, &'a str);

/// Texts with their tokens, each read in an operator's place where the token before ends a primary expression; and the
/// line on which the text ends (`Ok`) or on which a byte may not stand (`Err`).
const TEXTS: [(&[u8], &[Seen], Result<usize, usize>); 36] = [
    (b"", &[], Ok(1)),
    (b"\n\n", &[], Ok(2)),
    (b"\n ; x", &[], Ok(2)),
    // a carriage return is a blank and ends no line; a comment holds every byte
    (
        b"a\r\r ;\x01\xe9;\r\nb\n",
        &[(Word, 1, "a"), (Word, 2, "b")],
        Ok(2),
    ),
    (b"; a\n;\n b", &[(Word, 3, "b")], Ok(3)),
    // the longest match
    (
        b"5u<C",
        &[(Number, 1, "5"), (Mark, 1, "u<"), (Word, 1, "C")],
        Ok(1),
    ),
    (
        b"Cu<C",
        &[(Word, 1, "Cu"), (Mark, 1, "<"), (Word, 1, "C")],
        Ok(1),
    ),
    (b"u>>=", &[(Mark, 1, "u>>"), (Mark, 1, "=")], Ok(1)),
    (b"u<<", &[(Mark, 1, "u<"), (Mark, 1, "<")], Ok(1)),
    (
        b"==> =>",
        &[(Mark, 1, "=="), (Mark, 1, ">"), (Arrow, 1, "=>")],
        Ok(1),
    ),
    (
        b"5to 1x",
        &[
            (Number, 1, "5"),
            (Word, 1, "to"),
            (Number, 1, "1"),
            (Word, 1, "x"),
        ],
        Ok(1),
    ),
    (
        b"C1<-1",
        &[(Word, 1, "C1"), (Mark, 1, "<"), (Number, 1, "-1")],
        Ok(1),
    ),
    (
        b"a_1.2",
        &[(Word, 1, "a_1"), (Other, 1, "."), (Number, 1, "2")],
        Ok(1),
    ),
    (
        b"%a.1_=,",
        &[(Register, 1, "%a.1_"), (Mark, 1, "="), (Mark, 1, ",")],
        Ok(1),
    ),
    (
        b"!(~1)&&|||^",
        &[
            (Mark, 1, "!"),
            (Mark, 1, "("),
            (Mark, 1, "~"),
            (Number, 1, "1"),
            (Mark, 1, ")"),
            (Mark, 1, "&&"),
            (Mark, 1, "||"),
            (Mark, 1, "|"),
            (Mark, 1, "^"),
        ],
        Ok(1),
    ),
    // heads
    (b" Name:x", &[(Head, 1, "Name:"), (Word, 1, "x")], Ok(1)),
    (b"Name :", &[(Word, 1, "Name"), (Other, 1, ":")], Ok(1)),
    (
        b"xPre: Wit:",
        &[(Word, 1, "xPre"), (Other, 1, ":"), (Head, 1, "Wit:")],
        Ok(1),
    ),
    // minus signs
    (b"- -1", &[(Mark, 1, "-"), (Number, 1, "-1")], Ok(1)),
    (b"--1", &[(Mark, 1, "-"), (Number, 1, "-1")], Ok(1)),
    (
        b"C--1",
        &[(Word, 1, "C"), (Mark, 1, "-"), (Number, 1, "-1")],
        Ok(1),
    ),
    (
        b"(2)-1",
        &[
            (Mark, 1, "("),
            (Number, 1, "2"),
            (Mark, 1, ")"),
            (Mark, 1, "-"),
            (Number, 1, "1"),
        ],
        Ok(1),
    ),
    (
        b"t1-1 t-1",
        &[
            (Word, 1, "t1"),
            (Mark, 1, "-"),
            (Number, 1, "1"),
            (Word, 1, "t"),
            (Number, 1, "-1"),
        ],
        Ok(1),
    ),
    // operators that begin as other tokens do
    (
        b"C %u 2 /u(t1 % (3",
        &[
            (Word, 1, "C"),
            (Mark, 1, "%u"),
            (Number, 1, "2"),
            (Mark, 1, "/u"),
            (Mark, 1, "("),
            (Word, 1, "t1"),
            (Mark, 1, "%"),
            (Mark, 1, "("),
            (Number, 1, "3"),
        ],
        Ok(1),
    ),
    (b"= %u", &[(Mark, 1, "="), (Register, 1, "%u")], Ok(1)),
    (
        b"C %u-1",
        &[
            (Word, 1, "C"),
            (Register, 1, "%u"),
            (Mark, 1, "-"),
            (Number, 1, "1"),
        ],
        Ok(1),
    ),
    (
        b"C /u-1",
        &[
            (Word, 1, "C"),
            (Mark, 1, "/"),
            (Word, 1, "u"),
            (Number, 1, "-1"),
        ],
        Ok(1),
    ),
    (
        b"C %2 C%x",
        &[
            (Word, 1, "C"),
            (Register, 1, "%2"),
            (Word, 1, "C"),
            (Register, 1, "%x"),
        ],
        Ok(1),
    ),
    (
        b"C %% C %\n%",
        &[
            (Word, 1, "C"),
            (Other, 1, "%"),
            (Other, 1, "%"),
            (Word, 1, "C"),
            (Other, 1, "%"),
            (Other, 2, "%"),
        ],
        Ok(2),
    ),
    // a line begins where an operand may
    (
        b"%x\n%u = C\n-1",
        &[
            (Register, 1, "%x"),
            (Register, 2, "%u"),
            (Mark, 2, "="),
            (Word, 2, "C"),
            (Number, 3, "-1"),
        ],
        Ok(3),
    ),

    // bytes that may not stand
    (b"a\x80", &[(Word, 1, "a")], Err(1)),
    (b"a\n\x0b", &[(Word, 1, "a")], Err(2)),
    (b"a;\x00\n\n\x7f", &[(Word, 1, "a")], Err(3)),
    (b"a\x0c", &[(Word, 1, "a")], Err(1)),
    (b"a\xef\xbb\xbf", &[(Word, 1, "a")], Err(1)),
    (b"a \r\x1f b", &[(Word, 1, "a")], Err(1)),
];

/// What is behind `Name:`, the name, or none where it has a byte that may not stand, and the next token.
const NAMES: [(&[u8], Option<&str>, RuleKind); 8] = [
    (b"Name: a: b \r\n%", Some("a: b"), Other),
    (b"Name:x", Some("x"), End),
    (b"Name: ; x", Some(""), End),
    (b"Name:\n1", Some(""), Number),
    (b"Name: \t ", Some(""), End),
    (b"Name: a;b\n(", Some("a"), Mark),
    (b"Name: a \x80 b", None, Word),
    (b"Name: a; \x80 b", Some("a"), End),
];

/// Fails unless the text has these tokens, and then ends or has a bad byte.
fn expect_tokens(rt: &impl Abort, text: &[u8], tokens: &[Seen], ending: Result<usize, usize>) {
    let mut cursor = Cursor::new(text);
    let mut operator = false;
    for (kind, line, spelled) in tokens {
        let token = cursor.next_rule_token(operator).ok().expect(rt, "a token");
        let bytes = bytes_of(text, token.span);
        assert_eq!(rt; (token.kind, token.line), (*kind, *line), "{spelled}");
        assert_eq!(rt; bytes, spelled.as_bytes(), "{spelled}");
        operator = ends_primary(token.kind, bytes);
    }
    let last = cursor.next_rule_token(operator);
    let found = last.map(|token| (token.kind, token.line));
    let wanted = ending
        .map(|line| (End, line))
        .map_err(|line| BadByte { line });
    assert_eq!(rt; found, wanted);
}

#[test]
fn texts_have_their_tokens(rt: HostRuntime) {
    for (text, tokens, ending) in &TEXTS {
        expect_tokens(&rt, text, tokens, *ending);
    }
}

#[test]
fn names_are_the_rest_of_their_line(rt: HostRuntime) {
    for (text, name, next) in &NAMES {
        let mut cursor = Cursor::new(text);
        assert!(rt; cursor.next_rule_token(false).is_ok());
        let taken = cursor.take_name();
        assert_eq!(rt;
            taken.ok().map(|span| bytes_of(text, span)),
            name.map(|name| name.as_bytes())
        );
        assert_eq!(rt;
            cursor.next_rule_token(false).map(|token| token.kind),
            Ok(*next)
        );
    }
}
