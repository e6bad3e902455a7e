//! The lines of one local label.

ghost use Rattle.std.specs.Prelude.{◌≡◌, ◌-◌, ◌≤◌, ◌<◌, [], ◌∷◌, ◌++◌, length, map, true, Some, None, OnOk, OnErr, slice_get};
ghost use Rattle.sv8_asm.specs.Names.{Mark, mark, last_of, first_behind};
ghost use Rattle.sv8_asm.specs.Index.{mark_of, location_of};

use std::alloc::{AllocError, Global};
use std::marker::Model;

/// A line that has a local label, and its location.
#[derive(Drop, Clone, Copy)]
pub(crate) struct LocalLabel {
    line: u32,
    location: u32,
}

/// The lines that have one digit as their label, as they came. They are searched by halves as long as they came in their order.
#[derive(Drop)]
pub(crate) struct Marks {
    labels: Vec<LocalLabel>,
    last: u32,
    is_in_order: bool,
}

impl Model for Marks {
    ghost use Rattle.std.specs.Prelude.{◌≡◌, List, map, true};
    ghost use Rattle.sv8_asm.specs.Names.{Mark};
    ghost use Rattle.sv8_asm.specs.Index.{mark_of, Ordered};

    ghost Value = { List Mark };

    ghost view = { λ m. map mark_of m.labels.items };

    ghost invariant = { λ m. m.is_in_order ≡ true → Ordered 0 (map mark_of m.labels.items) m.last };
}

/// A number of labels the last of which stands at or above a line, and the next one behind it, by binary search.
fn count_up_to(labels: &[LocalLabel], line: u32) -> usize
    ensures most { result ≤ length labels.now }
    ensures above { (l : LocalLabel) → 0 < result → slice_get labels.now (result - 1) ≡ Some l → l.line ≤ line }
    ensures behind { (l : LocalLabel) → slice_get labels.now result ≡ Some l → line < l.line }
{
    let mut low = 0;
    let mut high = labels.len();
    while low < high {
        let middle = low + (high - low) / 2;
        if labels[middle].line <= line {
            low = middle + 1;
        } else {
            high = middle;
        }
    }
    low
}

/// The location of the last of these lines up to and with a line.
#[tactic(auto, unfolding(crate::specs::Names::last_of))]
fn last_up_to(line: u32, labels: &[LocalLabel]) -> Option<i64>
    ensures { result ≡ last_of None line (map mark_of labels.now) }
{
    let mut found = None;
    let mut rest = labels;
    while let [first, after @ ..] = rest {
        if first.line <= line {
            found = Some(i64::from(first.location));
        }
        rest = after;
    }
    found
}

/// The location of the first of these lines behind a line.
#[tactic(auto, unfolding(crate::specs::Names::first_behind))]
fn first_after(line: u32, labels: &[LocalLabel]) -> Option<i64>
    ensures { result ≡ first_behind line (map mark_of labels.now) }
{
    let mut rest = labels;
    while let [first, after @ ..] = rest {
        if line < first.line {
            return Some(i64::from(first.location));
        }
        rest = after;
    }
    None
}

/// Whether lines that were in order up to the last one are so with one more.
fn stays_in_order(was: bool, last: u32, line: u32) -> bool
    ensures before { result ≡ true → was ≡ true }
    ensures behind { result ≡ true → last ≤ line }
{
    was && last <= line
}

/// The location of a label, if there is such a one.
fn location_at(labels: &[LocalLabel], index: usize) -> Option<i64>
    ensures { result ≡ location_of (slice_get (map mark_of labels.now) index) }
{
    match labels.get(index) {
        Some(label) => Some(i64::from(label.location)),
        None => None,
    }
}

impl Marks {
    pub(crate) fn new(alloc: Global) -> Self
        ensures { result ≡ [] }
    {
        Marks {
            labels: Vec::new(alloc),
            last: 0,
            is_in_order: true,
        }
    }

    /// The location of the last line up to and with a line.
    pub(crate) fn last_up_to(&self, line: u32) -> Option<i64>
        ensures { result ≡ last_of None line self.now }
    {
        if !self.is_in_order {
            return last_up_to(line, &self.labels);
        }
        let count = count_up_to(&self.labels, line);
        if count == 0 {
            return None;
        }
        location_at(&self.labels, count - 1)
    }

    /// The location of the first line behind a line.
    pub(crate) fn first_behind(&self, line: u32) -> Option<i64>
        ensures { result ≡ first_behind line self.now }
    {
        if !self.is_in_order {
            return first_after(line, &self.labels);
        }
        let count = count_up_to(&self.labels, line);
        location_at(&self.labels, count)
    }

    /// One more line.
    pub(crate) fn push(&mut self, line: u32, location: u32) -> Result<(), AllocError>
        ensures ok { OnOk result (self.new ≡ self.old ++ mark line location ∷ []) }
        ensures err { OnErr result (self.new ≡ self.old) }
    {
        self.labels.push(LocalLabel { line, location })?;
        self.is_in_order = stays_in_order(self.is_in_order, self.last, line);
        self.last = line;
        Ok(())
    }
}
