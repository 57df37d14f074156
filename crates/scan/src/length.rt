//! For each kind of token, the length of the longest one that a text begins with: 0 where it begins with none.

ghost use Rattle.std.specs.Prelude.{ℕ, List, [], ◌∷◌, ◌++◌, map};
ghost use Rattle.scan.specs.Longest.{IsLongest};
ghost use Rattle.scan.specs.RuleTokens as tokens;

use crate::begins::{begins_argument, begins_name_byte, begins_word, behind};
use crate::run::{digit_run, register_run, word_run};

/// The heads of the parts of a rule file.
const HEADS: [&str; 4] = ["Version:", "Name:", "Pre:", "Wit:"];

/// The marks that are tokens in every place.
const MARKS: [&str; 28] = [
    "=", ",", "(", ")", "~", "*", "/", "+", "-", "<<", ">>", "u>>", "&", "^", "|", "==", "!=", "<",
    "<=", ">", ">=", "u<", "u<=", "u>", "u>=", "!", "&&", "||",
];

/// The length of the longest word that the text begins with when this word is added to those for which it was
/// `longest`.
fn with_word(text: &[u8], word: &str, longest: usize) -> usize
    ensures { (words : List (List ℕ)) → IsLongest (λ bytes _. tokens.is_among words bytes) text.now longest
        → IsLongest (λ bytes _. tokens.is_among (words ++ word.now ∷ []) bytes) text.now result }
{
    if word.len() > longest && text.starts_with(word.as_bytes()) {
        word.len()
    } else {
        longest
    }
}

/// The length of the longest of the words that the text begins with.
fn longest_among(text: &[u8], words: &[&str]) -> usize
    ensures { IsLongest (λ bytes _. tokens.is_among (map (λ w. w.now) words.now) bytes) text.now result }
{
    let mut longest = 0;
    for word in words {
        longest = with_word(text, word, longest);
    }
    longest
}

pub(crate) fn head(text: &[u8]) -> usize
    ensures { IsLongest (λ bytes _. tokens.is_among tokens.heads bytes) text.now result }
{
    longest_among(text, &HEADS)
}

/// `=>`, between source and target.
pub(crate) fn arrow(text: &[u8]) -> usize
    ensures { IsLongest (λ bytes _. tokens.is_among tokens.arrows bytes) text.now result }
{
    longest_among(text, &["=>"])
}

/// `/u` and `%u`, where no name byte follows.
fn unsigned_operator(text: &[u8]) -> usize
    ensures { IsLongest tokens.is_unsigned_operator text.now result }
{
    if longest_among(text, &["/u", "%u"]) == 2 && !begins_name_byte(&text[2..]) {
        2
    } else {
        0
    }
}

/// `%`, where a blank or `(` follows.
fn remainder(text: &[u8]) -> usize
    ensures { IsLongest tokens.is_remainder text.now result }
{
    if longest_among(text, &["%"]) == 1 && begins_argument(&text[1..]) {
        1
    } else {
        0
    }
}

/// A mark; `operator` says whether it is read in an operator's place.
pub(crate) fn mark(text: &[u8], operator: bool) -> usize
    ensures { IsLongest (tokens.is_mark operator) text.now result }
{
    let anywhere = longest_among(text, &MARKS);
    if operator {
        anywhere.max(unsigned_operator(text).max(remainder(text)))
    } else {
        anywhere
    }
}

pub(crate) fn register(text: &[u8]) -> usize
    ensures { IsLongest (λ bytes _. tokens.is_register bytes) text.now result }
{
    let Some(name) = behind(text, b'%') else {
        return 0;
    };
    let run = register_run(name);
    if run == 0 { 0 } else { run + 1 }
}

pub(crate) fn word(text: &[u8]) -> usize
    ensures { IsLongest (λ bytes _. tokens.is_rule_word bytes) text.now result }
{
    if begins_word(text) { word_run(text) } else { 0 }
}

/// `-`, and digits behind it.
fn negative(text: &[u8]) -> usize
    ensures { IsLongest (λ bytes _. tokens.is_negative bytes) text.now result }
{
    let Some(digits) = behind(text, b'-') else {
        return 0;
    };
    let run = digit_run(digits);
    if run == 0 { 0 } else { run + 1 }
}

/// Digits, and, unless they are read in an operator's place, a `-` directly before them.
pub(crate) fn number(text: &[u8], operator: bool) -> usize
    ensures { IsLongest (λ bytes _. tokens.is_literal operator bytes) text.now result }
{
    let digits = digit_run(text);
    if operator {
        digits
    } else {
        digits.max(negative(text))
    }
}
