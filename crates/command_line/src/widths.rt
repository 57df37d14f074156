//! Lists of widths, as `1-8,16`.

ghost use Rattle.std.specs.Prelude.{◌≡◌, ◌≤◌, ◌++◌, ◌∷◌, [], OnOk, true, false, map, filter, IfOk, MatchOption};
ghost use Rattle.std.specs.List.{list_all};
ghost use Rattle.command_line.specs.Widths.{items, is_item, first_of_item, last_of_item, is_width_list, up_to, IsWidthList};
ghost use Rattle.command_line.specs.Spans.{begins_with_zero_or_plus, width_of, span_in, span_of, is_in_some};

use lists::List;
use ops::Width;
use std::alloc::{AllocError, Global};

/// A span of widths, from the first to the last.
#[derive(Clone, Copy)]
struct Span {
    first: u32,
    last: u32,
}

/// Whether the text begins with a zero or a plus sign: `parse` takes that, but a width may not.
fn begins_with_zero_or_plus(text: &str) -> bool
    ensures { result ≡ begins_with_zero_or_plus text.now }
{
    matches!(text.as_bytes().first(), Some(b'0' | b'+'))
}

/// The width, from 1 to 64, that digits without a leading zero spell.
fn read_width(text: &str) -> Option<u32>
    ensures { result ≡ width_of text.now }
{
    if begins_with_zero_or_plus(text) {
        return None;
    }
    match text.parse::<u32>() {
        Ok(number) => {
            if 1 <= number && number <= 64 {
                Some(number)
            } else {
                None
            }
        }
        Err(_) => None,
    }
}

/// The texts a and b of an item `a-b`, and of an item `a` the same text twice.
fn ends_of(item: &str) -> (&str, &str)
    ensures first { result.0.now ≡ first_of_item item.now }
    ensures last { result.1.now ≡ last_of_item item.now }
{
    match item.split_once('-') {
        Some(ends) => ends,
        None => (item, item),
    }
}

/// The span of an item `a` or `a-b`, if it is well-formed.
fn read_item(item: &str) -> Option<Span>
    ensures { result ≡ span_of item.now }
{
    let (first, last) = ends_of(item);
    match (read_width(first), read_width(last)) {
        (Some(first), Some(last)) if first <= last => Some(Span { first, last }),
        _ => None,
    }
}

/// The items of a list, without the commas between them.
fn items_of<'a>(alloc: Global, text: &'a str) -> Result<Vec<&'a str>, AllocError>
    ensures { IfOk result (λ all. map (λ item. item.now) all.items ≡ items text.now) }
{
    text.split(',').collect(alloc)
}

/// The spans of the items, or `None` where one is malformed.
fn read_items(alloc: Global, items: &[&str]) -> Result<Option<Vec<Span>>, AllocError>
    ensures { IfOk result (λ read. MatchOption read (list_all (λ item. is_item item.now) items.now ≡ false)
        (λ spans. (list_all (λ item. is_item item.now) items.now ≡ true) × (spans.items ≡ map (λ item. span_in item.now) items.now))) }
{
    let mut spans = Vec::new(alloc);
    for item in items {
        let Some(span) = read_item(item) else {
            return Ok(None);
        };
        spans.push(span)?;
    }
    Ok(Some(spans))
}

/// Whether one of the spans holds the width.
fn is_named(spans: &[Span], bits: u32) -> bool
    ensures { result ≡ is_in_some spans.now bits }
{
    spans
        .iter()
        .any(|span| span.first <= bits && bits <= span.last)
}

/// Appends a width, if it is in a span.
fn push_if_named(widths: &mut List<Width>, spans: &[Span], bits: u32) -> Result<(), AllocError>
    requires least { 1 ≤ bits }
    requires most { bits ≤ 64 }
    ensures { OnOk result (widths.new ≡ widths.old ++ filter (is_in_some spans.now) (bits ∷ [])) }
{
    if is_named(spans, bits) {
        widths.push(Width::new(bits).unwrap())?;
    }
    Ok(())
}

/// The widths in the spans, ascending and each once.
fn widths_in(alloc: Global, spans: &[Span]) -> Result<List<Width>, AllocError>
    ensures { IfOk result (λ widths. widths ≡ filter (is_in_some spans.now) (up_to 64)) }
{
    let mut widths = List::new(alloc);
    for bits in 1..65 {
        push_if_named(&mut widths, spans, bits)?;
    }
    Ok(widths)
}

/// The widths of a list, or `None` where it is malformed.
pub(crate) fn read_widths(alloc: Global, text: &str) -> Result<Option<List<Width>>, AllocError>
    ensures { IfOk result (λ read. MatchOption read (is_width_list text.now ≡ false) (IsWidthList text.now)) }
{
    let items = items_of(alloc, text)?;
    match read_items(alloc, items.as_slice())? {
        Some(spans) => Ok(Some(widths_in(alloc, spans.as_slice())?)),
        None => Ok(None),
    }
}
