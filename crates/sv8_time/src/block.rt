//! The input bytes of one stretch of steps.

ghost use Rattle.std.specs.Prelude.{◌≡◌, ℕ, ◌+◌, ◌≤◌, ◌<◌, List, [], ◌∷◌, ◌++◌, take, length, MatchResult, IfOk, OnOk, OnErr, nat_lt, true, false, slice_get, slice_set, vec_len, if◌then◌else◌, option_map, Some};
ghost use Rattle.std.specs.List.{prefix_len, insert, remove};
ghost use Rattle.sv8_time.specs.Order.{Stands, Misses, passes_at};
ghost use Rattle.sv8_time.specs.Schedule.{input_of, input_before, is_input_at, has_input, put_input, cut_input, bytes_of_step, input_bytes, bytes_below, byte_count};
ghost use Rattle.sv8_time.specs.Inputs.{given, givens};

use crate::starts::{Holder, count_started, recount, start_at, start_in};
use std::alloc::{AllocError, Global};
use std::marker::Model;

/// The bytes that come in at a step.
#[derive(Drop)]
struct Entry {
    step: u32,
    bytes: Vec<u8>,
}

/// Inputs in rising step, each with the number of bytes before it.
#[derive(Drop)]
pub(crate) struct Block {
    entries: Vec<Entry>,
    starts: Vec<u32>,
    total: u32,
}

impl Model for Block {
    ghost use Rattle.std.specs.Prelude.{List};
    ghost use Rattle.sv8_time.specs.Schedule.{Input};
    ghost use Rattle.sv8_time.specs.Inputs.{givens, Kept};

    ghost Value = { List Input };

    ghost view = { λ i. givens i.entries.items };

    ghost invariant = { λ i. Kept (givens i.entries.items) i.starts.items i.total };
}

impl Entry {
    /// The same bytes at the same step once more.
    fn copy(&self, alloc: Global) -> Result<Entry, AllocError>
        ensures { IfOk result (λ e. given e ≡ given self.now) }
    {
        let bytes = Vec::from_slice(alloc, &self.bytes)?;
        Ok(Entry {
            step: self.step,
            bytes,
        })
    }
}

/// Copies of entries.
fn copies_of(alloc: Global, entries: &[Entry]) -> Result<Vec<Entry>, AllocError>
    ensures { IfOk result (λ v. givens v.items ≡ givens entries.now) }
{
    let mut copies = Vec::with_capacity(alloc, entries.len())?;
    for entry in entries {
        copies.push(entry.copy(alloc)?)?;
    }
    Ok(copies)
}

impl Holder for Entry {
    ghost use Rattle.sv8_time.specs.Inputs.{given};

    ghost held = { given };

    fn byte_total(&self) -> u32 {
        self.bytes.len() as u32
    }
}

#[tactic(auto, using(crate::proofs::InputPlaces::map_replace))]
fn replace_at(entries: &mut Vec<Entry>, index: usize, entry: Entry)
    requires { index < vec_len entries.old }
    ensures { givens entries.new.items ≡ slice_set (givens entries.old.items) index (given entry) }
{
    entries[index] = entry;
}

#[tactic(auto, using(crate::proofs::InputPlaces::map_insert))]
fn insert_at(
    entries: &mut Vec<Entry>,
    starts: &mut Vec<u32>,
    index: usize,
    entry: Entry,
) -> Result<(), AllocError>
    requires { index ≤ vec_len entries.old }
    ensures ok { OnOk result (givens entries.new.items ≡ insert (givens entries.old.items) index (given entry)) }
    ensures starts { OnOk result (starts.new.items ≡ starts.old.items ++ 0 ∷ []) }
    ensures err { OnErr result (entries.new.items ≡ entries.old.items) }
    ensures starts_kept { OnErr result (starts.new.items ≡ starts.old.items) }
{
    starts.reserve(1)?;
    entries.insert(index, entry)?;
    starts.push(0)?;
    Ok(())
}

#[tactic(auto, using(crate::proofs::InputPlaces::map_remove))]
fn remove_at(entries: &mut Vec<Entry>, starts: &mut Vec<u32>, index: usize)
    requires within { index < vec_len entries.old }
    requires same { length starts.old.items ≡ length entries.old.items }
    ensures entries { givens entries.new.items ≡ remove (givens entries.old.items) index }
    ensures starts { starts.new.items ≡ remove starts.old.items index }
{
    entries.remove(index);
    starts.remove(index);
}

fn bytes_in(entries: &[Entry], index: usize) -> &[u8]
    requires { index < length entries.now }
    ensures { option_map (λ i. i.bytes) (slice_get (givens entries.now) index) ≡ Some result.now }
{
    let entry = &entries[index];
    entry.bytes.as_slice()
}

fn byte_at(bytes: &[u8], index: u32) -> Option<u8>
    ensures { result ≡ slice_get bytes.now index }
{
    bytes.get(index as usize).copied()
}

impl Block {
    pub(crate) fn new(alloc: Global) -> Block
        ensures { result ≡ [] }
    {
        Block {
            entries: Vec::new(alloc),
            starts: Vec::new(alloc),
            total: 0,
        }
    }

    /// The same inputs once more.
    pub(crate) fn copy(&self, alloc: Global) -> Result<Block, AllocError>
        ensures { IfOk result (λ b. b ≡ self.now) }
    {
        let entries = copies_of(alloc, &self.entries)?;
        let starts = Vec::from_slice(alloc, &self.starts)?;
        Ok(Block {
            entries,
            starts,
            total: self.total,
        })
    }

    /// The number of all bytes.
    pub(crate) fn total(&self) -> u32
        ensures { result ≡ byte_count self.now }
    {
        let _entries = &self.entries;
        self.total
    }

    /// How many inputs come before a step.
    fn count_below(&self, step: u32) -> usize
        ensures value { result ≡ prefix_len (λ i. nat_lt i.step step) self.now }
        ensures bound { result ≤ length self.now }
    {
        self.entries
            .as_slice()
            .partition_point(|entry| entry.step < step)
    }

    /// Whether the input at an index is that of this step.
    fn stands_at(&self, index: usize, step: u32) -> bool
        ensures { result ≡ passes_at (is_input_at step) self.now index }
    {
        match self.entries.get(index) {
            Some(entry) => entry.step == step,
            None => false,
        }
    }

    /// Where the input of a step stands, or else where it belongs.
    fn place(&self, step: u32) -> Result<usize, usize>
        ensures { (bytes : List ℕ) → MatchResult result (Stands input_before (is_input_at step) (input_of step bytes) self.now) (Misses input_before (is_input_at step) (input_of step bytes) self.now) }
    {
        let _entries = &self.entries;
        let index = self.count_below(step);
        if self.stands_at(index, step) {
            Ok(index)
        } else {
            Err(index)
        }
    }

    /// Whether there is an input in a step.
    pub(crate) fn has(&self, step: u32) -> bool
        ensures { result ≡ has_input step self.now }
    {
        match self.place(step) {
            Ok(_) => true,
            Err(_) => false,
        }
    }

    /// The number of bytes before the entry at an index.
    fn start(&self, index: usize) -> u32
        requires { index ≤ length self.now }
        ensures { result ≡ byte_count (take index self.now) }
    {
        match start_at(&self.starts, index) {
            Some(start) => start,
            None => self.total,
        }
    }

    /// The number of bytes of all steps below one.
    pub(crate) fn delivered(&self, before: u32) -> u32
        ensures { result ≡ bytes_below before self.now }
    {
        let _entries = &self.entries;
        self.start(self.count_below(before))
    }

    /// A byte of all inputs in the order of their steps, from 0.
    pub(crate) fn byte(&self, index: u32) -> Option<u8>
        ensures { result ≡ slice_get (input_bytes self.now) index }
    {
        let _entries = &self.entries;
        let count = count_started(&self.starts, index);
        if count == 0 {
            return None;
        }
        let start = start_in(&self.starts, count - 1);
        let bytes = bytes_in(&self.entries, count - 1);
        byte_at(bytes, index - start)
    }

    /// The bytes of a step, none where nothing comes in.
    pub(crate) fn at(&self, step: u32) -> &[u8]
        ensures value { result.now ≡ bytes_of_step step self.now }
        ensures short { length result.now ≤ 1024 }
    {
        match self.place(step) {
            Ok(index) => bytes_in(&self.entries, index),
            Err(_) => &[],
        }
    }

    /// Puts the bytes of a step, over those that stand there.
    pub(crate) fn put(&mut self, alloc: Global, step: u32, bytes: &[u8]) -> Result<(), AllocError>
        requires short { length bytes.now ≤ 1024 }
        requires room { has_input step self.old ≡ false → length self.old < 65536 }
        ensures value { OnOk result (self.new ≡ put_input (input_of step bytes.now) self.old) }
        ensures count { OnOk result (length self.new ≡ (if has_input step self.old then length self.old else length self.old + 1)) }
        ensures err { OnErr result (self.new ≡ self.old) }
    {
        let entry = Entry {
            step,
            bytes: Vec::from_slice(alloc, bytes)?,
        };
        match self.place(step) {
            Ok(index) => {
                let before = self.start(index);
                replace_at(&mut self.entries, index, entry);
                self.total = recount(&self.entries, &mut self.starts, index, before);
                Ok(())
            }
            Err(index) => {
                let before = self.start(index);
                insert_at(&mut self.entries, &mut self.starts, index, entry)?;
                self.total = recount(&self.entries, &mut self.starts, index, before);
                Ok(())
            }
        }
    }

    /// Removes the bytes of a step.
    pub(crate) fn cut(&mut self, step: u32)
        requires { has_input step self.old ≡ true }
        ensures value { self.new ≡ cut_input step self.old }
        ensures count { length self.new ≤ length self.old }
    {
        match self.place(step) {
            Ok(index) => {
                let before = self.start(index);
                remove_at(&mut self.entries, &mut self.starts, index);
                self.total = recount(&self.entries, &mut self.starts, index, before);
            }
            Err(_) => {}
        }
    }
}
