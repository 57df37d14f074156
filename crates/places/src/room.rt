//! Room for one more label before a number, made by labelling anew the numbers of a range of labels that has few
//! (M. Bender, R. Cole, E. Demaine, M. Farach-Colton and J. Zito, "Two simplified algorithms for maintaining order in a
//! list", ESA 2002).
//!
//! The ranges are those of 2^k labels that begin at a multiple of 2^k. A range has few numbers if, spaced evenly in it,
//! they are further apart than they are many: so it has less than 2^(k/2), a density below √2^-k. The range of all
//! labels has few as long as there are less than 2^32 - 1 numbers.
//!
//! A range is labelled anew only where its half around the number has too many. Then of its c numbers each half has
//! c/2, and too many only from about c/√2 on, so a fifth of c is inserted before that: an insertion labels at most a
//! few numbers anew for each k, on the average over all. This is not proved.

ghost use Rattle.std.specs.Prelude.{◌≡◌, ◌+◌, ◌*◌, ◌<◌, ◌≤◌, ℕ, length, IfSome, IfNone};
ghost use Rattle.places.specs.Links.{IsListing, node_of, with_label};
ghost use Rattle.places.specs.Numbers.{numbers_in};
ghost use Rattle.places.specs.Spacings.{IsRun, IsWithin, IsSpacing, IsSpaced};

use crate::links::Links;
use crate::node::{Node, label_of, node_at, set_label};

/// Numbers that stand one after another, from the first to the last, and how many they are.
#[derive(Clone, Copy)]
struct Run {
    first: u32,
    last: u32,
    count: u32,
}

/// So many numbers from the first on, whose labels are to be `gap` apart, the first's that much above `low`.
#[derive(Clone, Copy)]
struct Spacing {
    first: u32,
    count: u32,
    low: u64,
    gap: u64,
}

impl Links {
    /// Makes sure that there is a free label between that of a number and its predecessor's, by giving new labels
    /// around it where there is none.
    pub(crate) fn make_room(&mut self, at: u32)
        requires listing { IsListing self.old.nodes.items 0 self.old.first (numbers_in self.old) }
        requires at { at < length self.old.nodes.items }
        ensures listing { IsListing self.new.nodes.items 0 self.new.first (numbers_in self.old) }
        ensures room { (node_of self.new.nodes.items (node_of self.new.nodes.items at).before).label + 1 < (node_of self.new.nodes.items at).label }
    {
        let node = node_at(self.nodes.as_slice(), at);
        let low = label_of(self.nodes.as_slice(), node.before);
        let gap = node.label - low;
        if gap < 2 {
            let spacing = self.spacing_around(at);
            self.label_anew(spacing);
        }
    }

    /// The numbers of the smallest range around a number that has few, and where they are to be.
    fn spacing_around(&self, at: u32) -> Spacing
        requires listing { IsListing self.now.nodes.items 0 self.now.first (numbers_in self.now) }
        requires at { at < length self.now.nodes.items }
        ensures spacing { IsSpacing self.now.nodes.items (numbers_in self.now) result }
        ensures at { IsSpaced (numbers_in self.now) result at }
    {
        let label = label_of(self.nodes.as_slice(), at);
        let mut run = Run {
            first: at,
            last: at,
            count: 1,
        };
        for bits in 1..u64::BITS {
            let width = u64::MAX >> (u64::BITS - bits);
            let high = label | width;
            let low = high - width;
            run = self.down_to(run, low);
            run = self.up_to(run, high);
            let gap = gap_in(width, run.count);
            if gap > u64::from(run.count) {
                return Spacing {
                    first: run.first,
                    count: run.count,
                    low,
                    gap,
                };
            }
        }
        let count = self.nodes.len() as u32;
        let gap = gap_of(count);
        Spacing {
            first: self.first,
            count,
            low: 0,
            gap,
        }
    }

    /// The run with all that stands before it and has at least this label.
    fn down_to(&self, run: Run, low: u64) -> Run
        requires listing { IsListing self.now.nodes.items 0 self.now.first (numbers_in self.now) }
        requires run { IsRun (numbers_in self.now) run }
        ensures run { IsRun (numbers_in self.now) result }
        ensures more { IsWithin (numbers_in self.now) run result }
        ensures low { (node_of self.now.nodes.items (node_of self.now.nodes.items result.first).before).label ≤ low }
    {
        let mut run = run;
        while let Some(number) = before_from(self.nodes.as_slice(), run.first, low) {
            run.first = number;
            run.count += 1;
        }
        run
    }

    /// The run with all that stands behind it and has at most this label.
    fn up_to(&self, run: Run, high: u64) -> Run
        requires listing { IsListing self.now.nodes.items 0 self.now.first (numbers_in self.now) }
        requires run { IsRun (numbers_in self.now) run }
        ensures run { IsRun (numbers_in self.now) result }
        ensures more { IsWithin (numbers_in self.now) run result }
        ensures first { result.first ≡ run.first }
        ensures high { (node_of self.now.nodes.items result.last).after < length self.now.nodes.items → high < (node_of self.now.nodes.items (node_of self.now.nodes.items result.last).after).label }
    {
        let mut run = run;
        while let Some(number) = after_up_to(self.nodes.as_slice(), run.last, high) {
            run.last = number;
            run.count += 1;
        }
        run
    }

    /// Gives these numbers their labels.
    fn label_anew(&mut self, spacing: Spacing)
        requires listing { IsListing self.old.nodes.items 0 self.old.first (numbers_in self.old) }
        requires spacing { IsSpacing self.old.nodes.items (numbers_in self.old) spacing }
        ensures listing { IsListing self.new.nodes.items 0 self.new.first (numbers_in self.old) }
        ensures room { (n : ℕ) → IsSpaced (numbers_in self.old) spacing n → (node_of self.new.nodes.items (node_of self.new.nodes.items n).before).label + 1 < (node_of self.new.nodes.items n).label }
    {
        let mut label = spacing.low;
        let mut number = spacing.first;
        for place in 0..spacing.count {
            label += spacing.gap;
            self.set_label(number, label);
            number = node_at(self.nodes.as_slice(), number).after;
        }
    }

    fn set_label(&mut self, number: u32, label: u64)
        requires { number < length self.old.nodes.items }
        ensures nodes { self.new.nodes.items ≡ with_label self.old.nodes.items number label }
        ensures first { self.new.first ≡ self.old.first }
    {
        set_label(self.nodes.as_mut_slice(), number, label);
    }
}

/// The number before this one, if it has at least this label.
fn before_from(nodes: &[Node], number: u32, low: u64) -> Option<u32>
    requires { number < length nodes.now }
    ensures before { IfSome result (λ n. n ≡ (node_of nodes.now number).before) }
    ensures inside { IfSome result (λ n. n < length nodes.now) }
    ensures none { IfNone result ((node_of nodes.now (node_of nodes.now number).before).label ≤ low) }
{
    let before = node_at(nodes, number).before;
    if (before as usize) < nodes.len() && low <= label_of(nodes, before) {
        Some(before)
    } else {
        None
    }
}

/// The number after this one, if it has at most this label.
fn after_up_to(nodes: &[Node], number: u32, high: u64) -> Option<u32>
    requires { number < length nodes.now }
    ensures after { IfSome result (λ n. n ≡ (node_of nodes.now number).after) }
    ensures inside { IfSome result (λ n. n < length nodes.now) }
    ensures none { IfNone result ((node_of nodes.now number).after < length nodes.now → high < (node_of nodes.now (node_of nodes.now number).after).label) }
{
    let after = node_at(nodes, number).after;
    if (after as usize) < nodes.len() && label_of(nodes, after) <= high {
        Some(after)
    } else {
        None
    }
}

/// The distance at which so many numbers are evenly spaced in this many labels.
fn gap_in(width: u64, count: u32) -> u64
    ensures { (count + 1) * result ≤ width }
{
    width / (u64::from(count) + 1)
}

/// The distance at which the labels of so many numbers are spaced evenly.
pub(crate) fn gap_of(count: u32) -> u64
    ensures apart { 1 < result }
    ensures fits { (count + 1) * result ≤ u64.MAX }
{
    u64::MAX / (u64::from(count) + 1)
}
