//! Texts that are read, and written again as they were, or refused.

use proof_text::{LogFaultKind, Proof, read_proofs, write_proofs};
use refusal::Refusal;
use std::alloc::{AllocError, Global};

/// Texts with their faults: the line, and 2 for `BadByte` or 3 for `Syntax`; 0 and 0 where there is none.
const TEXTS: [(&[u8], usize, u8); 36] = [
    (b"", 0, 0),
    (b"proof a [1]\nlog 0\n", 0, 0),
    (b"proof  [0 12 4294967295]\nlog 0\n", 0, 0),
    (b"proof a [x] b [7]\nlog 0\nproof b [7]\nlog 1\n:\n", 0, 0),
    (
        b"proof a [8]\nlog 2\n1 -2147483647 : 0 10\n: 1 2 4294967295\n",
        0,
        0,
    ),
    (b"proof a [8]\nlog 2\n1 : 0\n", 3, 3),
    (b"proof a [8]\nlog 1\n: 0", 3, 3),
    (b"proof a [8]\nlog 1\n: 00\n", 3, 3),
    (b"proof a [8]\nlog 1\n: 0\x01\n", 3, 2),
    (b"proof a [8]\nlog 1\n: 4294967296\x01\n", 3, 3),
    (b"proof a [8]\nlog 1\n0 : 1\n", 3, 3),
    (b"proof a [8]\nlog 1\n-0 : 1\n", 3, 3),
    (b"proof a [8]\nlog 1\n- : 1\n", 3, 3),
    (b"proof a [8]\nlog 1\n2147483648 : 1\n", 3, 3),
    (b"proof a [8]\nlog 1\n1: 1\n", 3, 3),
    (b"proof a [8]\nlog 1\n1 :1\n", 3, 3),
    (b"proof a [8]\nlog 1\n1 : \n", 3, 3),
    (b"proof a [8]\nlog 01\n1 :\n", 2, 3),
    (b"proof a [8]\nlog 18446744073709551617\n:\n:\n", 4, 3),
    (b"proof a [8]\nlog 99999999999999999999999\nproof\n", 3, 3),
    (b"proof a [8]\nlog \n", 2, 3),
    (b"proof a [8]\nlo\xff", 2, 2),
    (b"proof a\n", 1, 3),
    (b"proof a []\n", 1, 3),
    (b"proof a [1 ]\n", 1, 3),
    (b"proof a [1] \n", 1, 3),
    (b"proof a[1]\n", 1, 3),
    (b"proof a [01]\n", 1, 3),
    (b"proof a [01]\t\n", 1, 3),
    (b"proof a [01]\x07\n", 1, 2),
    (b"proof a\tb\r [1]\nlog 0\n", 0, 0),
    (b"proof a [1]\nlog 1\n:\r\n", 3, 3),
    (b"proof a [1]", 1, 3),
    (b"proofs", 1, 3),
    (b"\n", 1, 3),
    (b"proof a [1]\nlog 0\n\n", 3, 3),
];

/// 0 where these proofs are written as the text again, else 1.
fn rewriting_code(alloc: Global, proofs: &[Proof], text: &[u8]) -> Result<u8, AllocError> {
    let again = write_proofs(alloc, proofs)?;
    Ok(u8::from(again.as_slice() != text))
}

/// The number of a kind.
fn kind_code(kind: &LogFaultKind) -> u8 {
    match kind {
        LogFaultKind::TooLong => 1,
        LogFaultKind::BadByte => 2,
        LogFaultKind::Syntax => 3,
        _ => 9,
    }
}

/// The fault of a text: its line, and the number of its kind.
fn found(alloc: Global, text: &[u8]) -> Result<(usize, u8), AllocError> {
    match read_proofs(alloc, text) {
        Ok(proofs) => Ok((0, rewriting_code(alloc, proofs.as_slice(), text)?)),
        Err(Refusal::Refused(fault)) => Ok((fault.line, kind_code(&fault.kind))),
        Err(Refusal::NoMemory) => Err(AllocError),
    }
}

#[test]
fn texts_are_read_or_refused(rt: HostRuntime) {
    for (text, line, kind) in &TEXTS {
        assert_eq!(rt; found(rt.alloc(), text), Ok((*line, *kind)));
    }
}
