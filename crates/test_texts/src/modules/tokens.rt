//! Tokens, names and numbers against tables that were worked out by hand.

use Token::{
    Bad, End, Function, Group, Kept, KeptGroup, Label, Mark, Metadata, Number, Other, Register,
    Word,
};
use ir_tokens::{
    Identifier, Placed, Token, TokenReader, constant, identifier, is_number, is_plain_name,
    tokens_of,
};
use ops::Width;
use std::alloc::AllocError;
use std::process::Abort;
use std::test::Fail;

/// Texts and their tokens with their lines.
const TEXTS: [(&[u8], &[(usize, Token)]); 7] = [
    // each beginning of a kept line
    (
        b"source_filename = \"a\" ; c\ntarget x\r\n\n  attributes #0 = { y } \t\ndeclare\n$\"c\" = z\n$x:y\n!0 = !{}\n!x: \0\xff",
        &[
            (1, Kept(b"source_filename = \"a\" ; c")),
            (2, Kept(b"target x")),
            (4, Kept(b"attributes #0 = { y }")),
            (5, Kept(b"declare")),
            (6, Kept(b"$\"c\" = z")),
            (7, Kept(b"$x:y")),
            (8, Kept(b"!0 = !{}")),
            (9, Kept(b"!x: \0\xff")),
            (9, End),
        ],
    ),
    // tokens that are not the first on their line, labels, and longer words begin no kept line
    (
        b"a target\ndeclare: x\ntargets !\n} !0 = !{}\n",
        &[
            (1, Word(b"a")),
            (1, Word(b"target")),
            (2, Label(b"declare")),
            (2, Word(b"x")),
            (3, Word(b"targets")),
            (3, Metadata(b"")),
            (4, Mark(b'}')),
            (4, Metadata(b"0")),
            (4, Mark(b'=')),
            (4, Metadata(b"")),
            (4, Mark(b'{')),
            (4, Mark(b'}')),
            (4, End),
        ],
    ),
    // a header with kept groups and without, a body, and a kept line behind it
    (
        b"define i8 @f(align(8) %5a x ( \")\" ; ( ) )\n(#0 y\n()\ndeclare {\n7: %\"0\" add (a)\n!0\n}\n!1 ",
        &[
            (1, Word(b"define")),
            (1, Word(b"i8")),
            (1, Function(b"f")),
            (1, Mark(b'(')),
            (1, Word(b"align")),
            (1, KeptGroup(b"(8)")),
            (1, Register(b"5")),
            (1, Word(b"a")),
            (1, Word(b"x")),
            (1, KeptGroup(b"( \")\" ; ( ) )")),
            (2, Mark(b'(')),
            (2, Group(b"#0")),
            (2, Word(b"y")),
            (3, Mark(b'(')),
            (3, Mark(b')')),
            (4, Word(b"declare")),
            (4, Mark(b'{')),
            (5, Label(b"7")),
            (5, Register(b"\"0\"")),
            (5, Word(b"add")),
            (5, KeptGroup(b"(a)")),
            (6, Metadata(b"0")),
            (7, Mark(b'}')),
            (8, Kept(b"!1")),
            (8, End),
        ],
    ),
    // a kept group with a line feed in it
    (
        b"define x(\n) y",
        &[(1, Word(b"define")), (1, Word(b"x")), (1, Other)],
    ),
    (
        b"-8, 7a",
        &[(1, Number(b"-8")), (1, Mark(b',')), (1, Other)],
    ),
    (b"x \x01 y", &[(1, Word(b"x")), (1, Bad)]),
    (b"\"x\":\n%\"\\00\" y", &[(1, Label(b"\"x\"")), (2, Bad)]),
];

/// Registers as written, and the name or the number that they are.
const CALLED: [(&[u8], Result<&[u8], u64>); 11] = [
    (b"a.b", Ok(b"a.b")),
    (b"-5", Ok(b"-5")),
    (b"\"\\41b\"", Ok(b"Ab")),
    (b"\"0\"", Ok(b"0")),
    (b"\"\"", Ok(b"")),
    (b"\"\\\\41\"", Ok(b"\\41")),
    (b"\"\\4\\fFx\"", Ok(b"\\4\xffx")),
    (b"0", Err(0)),
    (b"007", Err(7)),
    (b"18446744073709551615", Err(18446744073709551615)),
    (b"18446744073709551616", Err(18446744073709551615)),
];

/// Numbers as written, widths, and the values at these widths.
const CONSTANTS: [(&[u8], u32, Option<u64>); 16] = [
    (b"0", 1, Some(0)),
    (b"-0", 1, Some(0)),
    (b"1", 1, Some(1)),
    (b"-1", 1, Some(1)),
    (b"2", 1, None),
    (b"-2", 1, None),
    (b"007", 8, Some(7)),
    (b"255", 8, Some(255)),
    (b"256", 8, None),
    (b"-128", 8, Some(128)),
    (b"-129", 8, None),
    (b"18446744073709551615", 64, Some(18446744073709551615)),
    (b"18446744073709551616", 64, None),
    (b"-9223372036854775808", 64, Some(9223372036854775808)),
    (b"-9223372036854775809", 64, None),
    (b"-99999999999999999999", 64, None),
];

/// Fails unless these are the tokens.
fn expect_tokens<'a>(rt: &impl Abort, tokens: &[Placed<'a>], wanted: &[(usize, Token<'a>)]) {
    assert_eq!(rt; tokens.len(), wanted.len());
    for (found, (line, token)) in tokens.iter().zip(wanted) {
        assert_eq!(rt; found.line, *line);
        assert_eq!(rt; found.token, *token);
    }
}

#[test]
fn texts_have_their_tokens(rt: HostRuntime) -> Result<(), Fail> {
    for (text, wanted) in &TEXTS {
        let tokens = tokens_of(rt.alloc(), text)?;
        expect_tokens(&rt, tokens.as_slice(), wanted);
    }
    Ok(())
}

/// A kept line, a function and the end, each an entry.
const ENTRIES: &[u8] = b"declare x ; c\n\ndefine y\n{ z }\n";

/// The tokens of the first entry, and of the first two.
const FIRST: [(usize, Token); 1] = [(1, Kept(b"declare x ; c"))];

const FIRST_TWO: [(usize, Token); 6] = [
    (1, Kept(b"declare x ; c")),
    (3, Word(b"define")),
    (3, Word(b"y")),
    (4, Mark(b'{')),
    (4, Word(b"z")),
    (4, Mark(b'}')),
];

/// Fails unless the entries are read one by one, behind those that are there.
fn expect_entries(rt: &impl Abort, tokens: &mut Vec<Placed<'static>>) -> Result<(), AllocError> {
    let (reader, are_last) = TokenReader::new(ENTRIES).take_entry(tokens)?;
    assert!(rt; !are_last);
    expect_tokens(rt, tokens.as_slice(), &FIRST);
    let (reader, are_last) = reader.take_entry(tokens)?;
    assert!(rt; !are_last);
    expect_tokens(rt, tokens.as_slice(), &FIRST_TWO);
    tokens.clear();
    let (_, are_last) = reader.take_entry(tokens)?;
    assert!(rt; are_last);
    expect_tokens(rt, tokens.as_slice(), &[(4, End)]);
    Ok(())
}

#[test]
fn entries_are_taken_in_turn(rt: HostRuntime) -> Result<(), Fail> {
    let mut tokens = Vec::new(rt.alloc());
    expect_entries(&rt, &mut tokens)?;
    Ok(())
}

#[test]
fn names_and_numbers_are_read(rt: HostRuntime) -> Result<(), Fail> {
    for (written, wanted) in &CALLED {
        let called = identifier(rt.alloc(), written)?;
        let found = match &called {
            Identifier::Named(name) => Ok(name.as_slice()),
            Identifier::Numbered(number) => Err(*number),
        };
        assert_eq!(rt; found, *wanted);
    }
    for (digits, bits, wanted) in &CONSTANTS {
        let width = Width::new(*bits).ok_or("no width")?;
        assert_eq!(rt; constant(digits, width).map(|word| word.number()), *wanted);
    }
    assert!(rt; is_number(b"-5") && !is_number(b"-") && !is_number(b"5a") && !is_number(b""));
    assert!(rt; is_plain_name(b"-5") && !is_plain_name(b"5a") && !is_plain_name(b""));
    Ok(())
}
