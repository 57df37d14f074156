//! Small texts of modules, whose tokens are seen by hand.

use super::bytes_of;
use TokenKind::{
    End, Function, Group, Label, Mark, Metadata, Number, Other, Quoted, Register, Word,
};
use scan::{BadByte, Cursor, TokenKind};
use std::process::Abort;
use std::rt::HostRuntime;

/// A token: its kind, its line and its bytes.
type Seen<'a> = (TokenKind, usize, &'a [u8]);

/// Texts with their tokens, and the line on which the text ends (`Ok`) or on which a byte or a token may not stand
/// (`Err`).
const TEXTS: [(&[u8], &[Seen], Result<usize, usize>); 26] = [
    (b"", &[], Ok(1)),
    // a comment may hold any byte; a `;` in quotes begins no comment
    (
        b"\r\n;\x01\xe9\" ; \na\t\";\"\n",
        &[(Word, 3, b"a"), (Quoted, 3, b"\";\"")],
        Ok(3),
    ),
    (
        b"7: a: -5: -a:b\n\"x\":\"\": x-1.y:",
        &[
            (Label, 1, b"7:"),
            (Label, 1, b"a:"),
            (Label, 1, b"-5:"),
            (Label, 1, b"-a:"),
            (Word, 1, b"b"),
            (Label, 2, b"\"x\":"),
            (Label, 2, b"\"\":"),
            (Label, 2, b"x-1.y:"),
        ],
        Ok(2),
    ),
    (
        b"7a: x :",
        &[
            (Other, 1, b"7"),
            (Label, 1, b"a:"),
            (Word, 1, b"x"),
            (Other, 1, b":"),
        ],
        Ok(1),
    ),
    (
        b"i8-1 x-y $a .b _c",
        &[
            (Word, 1, b"i8-1"),
            (Word, 1, b"x-y"),
            (Word, 1, b"$a"),
            (Word, 1, b".b"),
            (Word, 1, b"_c"),
        ],
        Ok(1),
    ),
    (
        b"-1,007\n12%1",
        &[
            (Number, 1, b"-1"),
            (Mark, 1, b","),
            (Number, 1, b"007"),
            (Number, 2, b"12"),
            (Register, 2, b"%1"),
        ],
        Ok(2),
    ),
    // runs of name bytes that begin with `-` or a digit and are no numbers
    (
        b"- --1 -a 1.5 5-",
        &[
            (Other, 1, b"-"),
            (Other, 1, b"-"),
            (Number, 1, b"-1"),
            (Other, 1, b"-"),
            (Word, 1, b"a"),
            (Other, 1, b"1"),
            (Word, 1, b".5"),
            (Other, 1, b"5"),
            (Other, 1, b"-"),
        ],
        Ok(1),
    ),
    (
        b"%5a@5a#5a",
        &[
            (Register, 1, b"%5"),
            (Word, 1, b"a"),
            (Function, 1, b"@5"),
            (Word, 1, b"a"),
            (Group, 1, b"#5"),
            (Word, 1, b"a"),
        ],
        Ok(1),
    ),
    (
        b"%-5@-%x.1=%\"a b\"@\"\"%\"\":",
        &[
            (Register, 1, b"%-5"),
            (Function, 1, b"@-"),
            (Register, 1, b"%x.1"),
            (Mark, 1, b"="),
            (Register, 1, b"%\"a b\""),
            (Function, 1, b"@\"\""),
            (Register, 1, b"%\"\""),
            (Other, 1, b":"),
        ],
        Ok(1),
    ),
    (
        b"!-x!5!{!\"s\"! a",
        &[
            (Metadata, 1, b"!-x"),
            (Metadata, 1, b"!5"),
            (Metadata, 1, b"!"),
            (Mark, 1, b"{"),
            (Metadata, 1, b"!"),
            (Quoted, 1, b"\"s\""),
            (Metadata, 1, b"!"),
            (Word, 1, b"a"),
        ],
        Ok(1),
    ),
    (
        b"(){}[]<#x##0",
        &[
            (Mark, 1, b"("),
            (Mark, 1, b")"),
            (Mark, 1, b"{"),
            (Mark, 1, b"}"),
            (Mark, 1, b"["),
            (Mark, 1, b"]"),
            (Mark, 1, b"<"),
            (Mark, 1, b"#"),
            (Word, 1, b"x"),
            (Mark, 1, b"#"),
            (Group, 1, b"#0"),
        ],
        Ok(1),
    ),
    (
        b"%@>*:^+'\\",
        &[
            (Other, 1, b"%"),
            (Other, 1, b"@"),
            (Other, 1, b">"),
            (Other, 1, b"*"),
            (Other, 1, b":"),
            (Other, 1, b"^"),
            (Other, 1, b"+"),
            (Other, 1, b"'"),
            (Other, 1, b"\\"),
        ],
        Ok(1),
    ),
    // quoted texts that aren't closed on their line
    (
        b"%\"a\n@\"b c\"x\"",
        &[
            (Other, 1, b"%"),
            (Other, 1, b"\""),
            (Word, 1, b"a"),
            (Function, 2, b"@\"b c\""),
            (Word, 2, b"x"),
            (Other, 2, b"\""),
        ],
        Ok(2),
    ),
    // no escape of a byte 0
    (
        b"\"\\\\00\"c\"\\0g\\\"\"\\0\"",
        &[
            (Quoted, 1, b"\"\\\\00\""),
            (Word, 1, b"c"),
            (Quoted, 1, b"\"\\0g\\\""),
            (Quoted, 1, b"\"\\0\""),
        ],
        Ok(1),
    ),
    (
        b"\"\xff\x7f\x01\t\\\"",
        &[(Quoted, 1, b"\"\xff\x7f\x01\t\\\"")],
        Ok(1),
    ),
    (b"\n\n", &[], Ok(2)),
    // no quoted text, though the byte behind may not stand
    (b"\"\x00\n\"", &[(Other, 1, b"\"")], Err(1)),

    // bytes and tokens that may not stand
    (b"\x80", &[], Err(1)),
    (b"\n\x0b", &[], Err(2)),
    (b";\x00\n\n\x00", &[], Err(3)),
    (b"\"\\00\"", &[], Err(1)),
    (b"\n\"a\x00\":", &[], Err(2)),
    (b"%\"\\00\"", &[], Err(1)),
    (b"@\"\\\\\\00\"", &[], Err(1)),
    (b"\"\\1\\00\"", &[], Err(1)),
    (b"\x7f", &[], Err(1)),
];

/// What is behind a word, the rest of its line as it is kept, and the kind and the line of the next token.
const LINES: [(&[u8], &[u8], TokenKind, usize); 5] = [
    (
        b"x = \"\x00;\" ; \xff \t\r\ny",
        b" = \"\x00;\" ; \xff",
        Word,
        2,
    ),
    (b"x;c\n", b";c", End, 1),
    (b"x\n1", b"", Number, 2),
    (b"x \r\n", b"", End, 1),
    (b"x y", b" y", End, 1),
];

/// What is behind a `(`, the bytes up to the `)` that closes it, or none where it isn't closed, and the kind of the
/// next token.
const GROUPS: [(&[u8], Option<&[u8]>, TokenKind); 9] = [
    (b"()", Some(b")"), End),
    (b"(a(b)(c))%d)", Some(b"a(b)(c))"), Register),
    (b"(\")\"\"(\")1", Some(b"\")\"\"(\")"), Number),
    (b"(;)\n-1", Some(b";)"), Number),
    (b"(\x00\xff\"\x00\")", Some(b"\x00\xff\"\x00\")"), End),
    (b"(a\n)", None, Word),
    (b"(()", None, Mark),
    (b"(1\")", None, Number),
    (b"(", None, End),
];

/// Fails unless the text has these tokens and then this ending, however often that is asked for.
fn expect_tokens(rt: &impl Abort, text: &[u8], tokens: &[Seen], ending: Result<usize, usize>) {
    let mut cursor = Cursor::new(text);
    for (kind, line, spelled) in tokens {
        let token = cursor.next_token().ok().expect(rt, "a token");
        assert_eq!(rt; (token.kind, token.line), (*kind, *line));
        assert_eq!(rt; bytes_of(text, token.span), *spelled);
    }
    let wanted = ending
        .map(|line| (End, line))
        .map_err(|line| BadByte { line });
    for _again in 0..2 {
        let last = cursor.next_token();
        assert_eq!(rt; last.map(|token| (token.kind, token.line)), wanted);
    }
}

#[test]
fn modules_have_their_tokens(rt: HostRuntime) {
    for (text, tokens, ending) in &TEXTS {
        expect_tokens(&rt, text, tokens, *ending);
    }
}

#[test]
fn lines_and_groups_are_kept(rt: HostRuntime) {
    for (text, kept, next, line) in &LINES {
        let mut cursor = Cursor::new(text);
        assert!(rt; cursor.next_token().is_ok());
        let rest = cursor.take_line();
        assert_eq!(rt; bytes_of(text, rest), *kept);
        let token = cursor.next_token();
        assert_eq!(rt;
            token.map(|token| (token.kind, token.line)),
            Ok((*next, *line))
        );
    }
    for (text, kept, next) in &GROUPS {
        let mut cursor = Cursor::new(text);
        assert!(rt; cursor.next_token().is_ok());
        let group = cursor.take_group();
        assert_eq!(rt; group.map(|span| bytes_of(text, span)), *kept);
        assert_eq!(rt; cursor.next_token().map(|token| token.kind), Ok(*next));
    }
}
