//! Tests against tables that were worked out by hand, of each call that takes memory, of operations on words that the
//! search decides, of the sizes of clause sets, of logs and their texts, of clauses that repeat a literal, and of
//! colourings of numbers.

mod circuit_intrinsics;
mod command_lines;
mod decided;
mod evaluated;
mod files;
mod folded;
mod gate_graphs;
mod graphs;
mod growing;
mod instructions;
mod intrinsics;
mod known_words;
mod logs;
mod module_tokens;
mod operations;
mod progressions;
mod proof_texts;
mod repeated;
mod rule_tokens;
mod sizes;
mod tables;
mod words;

use scan::Span;

/// The bytes of a text at these places.
fn bytes_of(text: &[u8], span: Span) -> &[u8] {
    text.get(span.start..span.end)
        .unwrap_or(b"no part of the text")
}
