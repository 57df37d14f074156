//! Runs: how many bytes at the start of a text are of one sort.

ghost use Rattle.std.specs.Prelude.{◌≡◌, ◌≤◌, length};
ghost use Rattle.std.specs.List.{prefix_len};
ghost use Rattle.scan.specs.Bytes as bytes;
ghost use Rattle.scan.specs.Quoted as quoted;

use crate::bytes::{is_digit, is_name_byte, is_quotable, is_register_byte, is_word_byte};

pub(crate) fn digit_run(text: &[u8]) -> usize
    ensures { result ≡ prefix_len bytes.is_digit text.now }
{
    text.iter().take_while(|byte| is_digit(**byte)).count()
}

pub(crate) fn word_run(text: &[u8]) -> usize
    ensures { result ≡ prefix_len bytes.is_word_byte text.now }
{
    text.iter().take_while(|byte| is_word_byte(**byte)).count()
}

pub(crate) fn register_run(text: &[u8]) -> usize
    ensures { result ≡ prefix_len bytes.is_register_byte text.now }
{
    text.iter()
        .take_while(|byte| is_register_byte(**byte))
        .count()
}

pub(crate) fn name_run(text: &[u8]) -> usize
    ensures value { result ≡ prefix_len bytes.is_name_byte text.now }
    ensures within { result ≤ length text.now }
{
    text.iter().take_while(|byte| is_name_byte(**byte)).count()
}

pub(crate) fn quotable_run(text: &[u8]) -> usize
    ensures value { result ≡ prefix_len quoted.is_quotable text.now }
    ensures within { result ≤ length text.now }
{
    text.iter().take_while(|byte| is_quotable(**byte)).count()
}
