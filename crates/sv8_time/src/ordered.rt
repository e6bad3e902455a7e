//! Elements of one kind in the order of their places.

ghost use Rattle.std.specs.Prelude.{◌≡◌, ℕ, ◌+◌, ◌≤◌, [], length, MatchResult, IfOk, OnOk, OnErr, if◌then◌else◌, not, nat_lt, nat_le, true, slice_range};
ghost use Rattle.std.specs.List.{prefix_len, list_any, filter};
ghost use Rattle.std.specs.Option.{option_to_list};
ghost use Rattle.sv8_time.specs.Order.{Rising, Stands, Misses, passes_at, place_before, comes_before, is_at, of_major, of_major_behind, behind_major, placed, cleared_at};

use crate::order::is_before;
use std::alloc::{AllocError, Global};
use std::marker::Model;

/// What has a place of two numbers, in the order of the first and then of the second.
pub(crate) trait Keyed: Copy {
    ghost use Rattle.std.specs.Prelude.{ℕ};

    ghost major_of: { Self → ℕ };

    ghost minor_of: { Self → ℕ };

    fn major(&self) -> u32
        ensures { result ≡ major_of self.now };

    fn minor(&self) -> u32
        ensures { result ≡ minor_of self.now };
}

/// Elements in rising place, with one at a place.
#[derive(Drop)]
pub(crate) struct Ordered<E: Keyed> {
    entries: Vec<E>,
}

impl<E: Keyed> Model for Ordered<E> {
    ghost use Rattle.std.specs.Prelude.{List};
    ghost use Rattle.sv8_time.specs.Order.{Rising, comes_before};

    ghost Value = { List E };

    ghost view = { λ o. o.entries.items };

    ghost invariant = { λ o. Rising (comes_before E.major_of E.minor_of) o.entries.items };
}

impl<E: Keyed> Ordered<E> {
    pub(crate) fn new(alloc: Global) -> Self
        ensures { result ≡ [] }
    {
        Ordered {
            entries: Vec::new(alloc),
        }
    }

    /// The same elements once more.
    pub(crate) fn copy(&self, alloc: Global) -> Result<Self, AllocError>
        ensures { IfOk result (λ o. o ≡ self.now) }
    {
        let entries = Vec::from_slice(alloc, &self.entries)?;
        Ok(Ordered { entries })
    }

    pub(crate) fn count(&self) -> usize
        ensures { result ≡ length self.now }
    {
        self.entries.len()
    }

    /// How many elements come before one.
    fn position(&self, entry: E) -> usize
        ensures value { result ≡ prefix_len (λ e. comes_before E.major_of E.minor_of e entry) self.now }
        ensures bound { result ≤ length self.now }
    {
        self.entries.as_slice().partition_point(|other| is_before(
            other.major(),
            other.minor(),
            entry.major(),
            entry.minor(),
        ))
    }

    /// Whether the element at an index has the place of another.
    fn stands_at(&self, index: usize, entry: E) -> bool
        ensures { result ≡ passes_at (is_at E.major_of E.minor_of (E.major_of entry) (E.minor_of entry)) self.now index }
    {
        match self.entries.get(index) {
            Some(other) => other.major() == entry.major() && other.minor() == entry.minor(),
            None => false,
        }
    }

    /// Where an element of the same place stands, or else where this one belongs.
    fn place(&self, entry: E) -> Result<usize, usize>
        ensures { MatchResult result
            (Stands (comes_before E.major_of E.minor_of) (is_at E.major_of E.minor_of (E.major_of entry) (E.minor_of entry)) entry self.now)
            (Misses (comes_before E.major_of E.minor_of) (is_at E.major_of E.minor_of (E.major_of entry) (E.minor_of entry)) entry self.now) }
    {
        let _entries = &self.entries;
        let index = self.position(entry);
        if self.stands_at(index, entry) {
            Ok(index)
        } else {
            Err(index)
        }
    }

    /// Whether there is an element at the place of one.
    pub(crate) fn has(&self, entry: E) -> bool
        ensures { result ≡ list_any (is_at E.major_of E.minor_of (E.major_of entry) (E.minor_of entry)) self.now }
    {
        match self.place(entry) {
            Ok(_) => true,
            Err(_) => false,
        }
    }

    /// The element at the place of one.
    pub(crate) fn get(&self, entry: E) -> Option<E>
        ensures { option_to_list result ≡ filter (is_at E.major_of E.minor_of (E.major_of entry) (E.minor_of entry)) self.now }
    {
        match self.place(entry) {
            Ok(index) => self.entries.get(index).copied(),
            Err(_) => None,
        }
    }

    /// Puts an element at its place, over the one that stands there.
    pub(crate) fn put(&mut self, entry: E) -> Result<(), AllocError>
        ensures value { OnOk result (self.new ≡ placed (comes_before E.major_of E.minor_of) entry self.old) }
        ensures count { OnOk result (length self.new ≡ (if list_any (is_at E.major_of E.minor_of (E.major_of entry) (E.minor_of entry)) self.old then length self.old else length self.old + 1)) }
        ensures err { OnErr result (self.new ≡ self.old) }
    {
        match self.place(entry) {
            Ok(index) => {
                self.entries[index] = entry;
                Ok(())
            }
            Err(index) => {
                self.entries.insert(index, entry)?;
                Ok(())
            }
        }
    }

    /// Puts an element over the one that stands at its place. It takes no memory.
    pub(crate) fn replace(&mut self, entry: E)
        requires { list_any (is_at E.major_of E.minor_of (E.major_of entry) (E.minor_of entry)) self.old ≡ true }
        ensures value { self.new ≡ placed (comes_before E.major_of E.minor_of) entry self.old }
        ensures count { length self.new ≡ length self.old }
    {
        match self.place(entry) {
            Ok(index) => {
                self.entries[index] = entry;
            }
            Err(_) => {}
        }
    }

    /// Removes the element at the place of one.
    pub(crate) fn cut(&mut self, entry: E)
        requires { list_any (is_at E.major_of E.minor_of (E.major_of entry) (E.minor_of entry)) self.old ≡ true }
        ensures value { self.new ≡ cleared_at E.major_of E.minor_of (E.major_of entry) (E.minor_of entry) self.old }
        ensures count { length self.new ≤ length self.old }
    {
        match self.place(entry) {
            Ok(index) => {
                self.entries.remove(index);
            }
            Err(_) => {}
        }
    }

    /// How many elements have a first number below one.
    fn count_below(&self, major: u32) -> usize
        ensures value { result ≡ prefix_len (λ e. nat_lt (E.major_of e) major) self.now }
        ensures bound { result ≤ length self.now }
    {
        self.entries
            .as_slice()
            .partition_point(|entry| entry.major() < major)
    }

    /// How many elements have a first number up to one.
    fn count_up_to(&self, major: u32) -> usize
        ensures value { result ≡ prefix_len (λ e. nat_le (E.major_of e) major) self.now }
        ensures bound { result ≤ length self.now }
    {
        self.entries
            .as_slice()
            .partition_point(|entry| entry.major() <= major)
    }

    /// How many elements do not come after a place.
    fn count_through(&self, major: u32, minor: u32) -> usize
        ensures value { result ≡ prefix_len (λ e. not (place_before major minor (E.major_of e) (E.minor_of e))) self.now }
        ensures bound { result ≤ length self.now }
    {
        self.entries.as_slice().partition_point(|entry| !is_before(
            major,
            minor,
            entry.major(),
            entry.minor(),
        ))
    }

    /// Where the elements of one first number stand.
    fn span(&self, major: u32) -> (usize, usize)
        ensures order { result.0 ≤ result.1 }
        ensures bound { result.1 ≤ length self.now }
        ensures part { slice_range self.now result.0 result.1 ≡ of_major E.major_of major self.now }
    {
        let _entries = &self.entries;
        (self.count_below(major), self.count_up_to(major))
    }

    /// Where the elements of one first number stand whose second number is above another.
    fn span_behind(&self, major: u32, minor: u32) -> (usize, usize)
        ensures order { result.0 ≤ result.1 }
        ensures bound { result.1 ≤ length self.now }
        ensures part { slice_range self.now result.0 result.1 ≡ of_major_behind E.major_of E.minor_of major minor self.now }
    {
        let _entries = &self.entries;
        (self.count_through(major, minor), self.count_up_to(major))
    }

    /// The elements of one first number, in rising second number.
    #[tactic(auto, using(crate::proofs::Parts::rising_filter))]
    pub(crate) fn at(&self, major: u32) -> &[E]
        ensures value { result.now ≡ of_major E.major_of major self.now }
        ensures rising { Rising (comes_before E.major_of E.minor_of) result.now }
    {
        let (first, last) = self.span(major);
        &self.entries[first..last]
    }

    /// The elements of one first number whose second number is above another.
    pub(crate) fn at_behind(&self, major: u32, minor: u32) -> &[E]
        ensures { result.now ≡ of_major_behind E.major_of E.minor_of major minor self.now }
    {
        let (first, last) = self.span_behind(major, minor);
        &self.entries[first..last]
    }

    /// The elements whose first number is above one.
    pub(crate) fn behind(&self, major: u32) -> &[E]
        ensures value { result.now ≡ behind_major E.major_of major self.now }
        ensures rising { Rising (comes_before E.major_of E.minor_of) self.now }
    {
        let first = self.count_up_to(major);
        &self.entries[first..]
    }
}

/// Puts an element into one order and an element into another, or neither.
pub(crate) fn put_both<A: Keyed, B: Keyed>(
    first: &mut Ordered<A>,
    a: A,
    second: &mut Ordered<B>,
    b: B,
) -> Result<(), AllocError>
    ensures first { OnOk result (first.new ≡ placed (comes_before A.major_of A.minor_of) a first.old) }
    ensures count { OnOk result (length first.new ≡ (if list_any (is_at A.major_of A.minor_of (A.major_of a) (A.minor_of a)) first.old then length first.old else length first.old + 1)) }
    ensures second { OnOk result (second.new ≡ placed (comes_before B.major_of B.minor_of) b second.old) }
    ensures first_kept { OnErr result (first.new ≡ first.old) }
    ensures second_kept { OnErr result (second.new ≡ second.old) }
{
    match second.place(b) {
        Ok(index) => {
            first.put(a)?;
            second.entries[index] = b;
            Ok(())
        }
        Err(index) => {
            second.entries.reserve(1)?;
            first.put(a)?;
            second.entries.insert(index, b)?;
            Ok(())
        }
    }
}
