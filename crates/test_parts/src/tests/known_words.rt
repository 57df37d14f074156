//! Sums and differences of words of which some bits are known, by Kleene's tables worked out by hand.

use circuits::{Bits, KnownBit, KnownCircuit, add, sub};
use lists::List;
use std::alloc::{AllocError, Global};
use std::test::Fail;

/// Two words, the highest bit first and `?` where it is unknown, and what is known of their sum and their difference.
struct Row {
    a: &'static str,
    b: &'static str,
    sum: &'static str,
    difference: &'static str,
}

const ROWS: [Row; 7] = [
    Row {
        a: "1111",
        b: "0001",
        sum: "0000",
        difference: "1110",
    },
    // No carry comes to the unknown bit.
    Row {
        a: "?00",
        b: "011",
        sum: "?11",
        difference: "?01",
    },
    // Where one word has a 1 the other has a 0, and nothing is carried.
    Row {
        a: "?0?0",
        b: "0?01",
        sum: "???1",
        difference: "???1",
    },
    // A carry stops at two bits that are 0.
    Row {
        a: "00?1",
        b: "0001",
        sum: "0??0",
        difference: "???0",
    },
    // The carry of 1, an unknown bit and 1 is unknown, though it is 1 either way.
    Row {
        a: "1?1",
        b: "011",
        sum: "??0",
        difference: "??0",
    },
    Row {
        a: "0?",
        b: "0?",
        sum: "??",
        difference: "??",
    },
    Row {
        a: "?",
        b: "?",
        sum: "?",
        difference: "?",
    },
];

/// The word of a text.
fn word_of(alloc: Global, text: &str) -> Result<Bits<KnownBit>, AllocError> {
    let mut bits = List::new(alloc);
    for byte in text.as_bytes().iter().rev() {
        bits.push(match *byte {
            b'0' => KnownBit::Zero,
            b'1' => KnownBit::One,
            _ => KnownBit::Unknown,
        })?;
    }
    Ok(bits)
}

#[test]
fn sums_of_words_that_are_known_in_part(rt: HostRuntime) -> Result<(), Fail> {
    for row in &ROWS {
        let a = word_of(rt.alloc(), row.a)?;
        let b = word_of(rt.alloc(), row.b)?;
        assert!(rt; a.len() == b.len());
        let mut gates = KnownCircuit;
        let sum = add(rt.alloc(), &mut gates, &a, &b)?;
        let difference = sub(rt.alloc(), &mut gates, &a, &b)?;
        let expected = word_of(rt.alloc(), row.sum)?;
        assert!(rt;
            sum.as_slice() == expected.as_slice(),
            "{} + {}",
            row.a,
            row.b
        );
        let expected = word_of(rt.alloc(), row.difference)?;
        assert!(rt;
            difference.as_slice() == expected.as_slice(),
            "{} - {}",
            row.a,
            row.b
        );
    }
    Ok(())
}
