//! The notes of the steps from a checkpoint to the next one.

ghost use Rattle.std.specs.Prelude.{◌≡◌, ℕ, ◌+◌, ◌<◌, ◌≤◌, ◌==◌, ◌&&◌, ◌||◌, ◌++◌, ◌∷◌, [], true, false, IfOk, OnOk};
ghost use Rattle.std.specs.List.{list_any};
ghost use Rattle.sv8_model.specs.Words.{bit};
ghost use Rattle.sv8_touches.specs.Told.{told};
ghost use Rattle.sv8_notes.specs.Cells.{cell_of};
ghost use Rattle.sv8_notes.specs.Flags.{IsFlagged};
ghost use Rattle.sv8_notes.specs.Marks.{mark_of, IsUntouched};
ghost use Rattle.sv8_notes.specs.Steps.{Gains, IsFirstBelow, footprint_in, is_asked_in, is_word_of, has_word, no_steps};
ghost use Rattle.sv8_notes.specs.Sought.{is_met, sought_word};
ghost use Rattle.sv8_notes.specs.Touching.{is_from_to, is_note_in, are_notes_in, touches_any};
ghost use Rattle.sv8_notes.specs.WordRuns.{words_of, words_of_run};
ghost use Rattle.sv8_notes.specs.Recording.{with_run, without_last, word_at};

use crate::cell::Cell;
use crate::flags::flag_step;
use crate::level_run::LevelRun;
use crate::mark_words::{mark_all, mark_runs};
use crate::marks::Marks;
use crate::offsets::{first_among, lesser, within};
use crate::step_notes::TIMER_LEVEL;
use crate::word_run::WordRun;
use crate::word_runs::{are_in_runs, first_of_runs, flag_runs};
use std::alloc::{AllocError, Global};
use std::marker::Model;
use sv8_phys::{Touch, TouchKind};
use sv8_touches::{is_told, levels_of};

/// A word of RAM that a step reads, or writes. Steps are named by their offset, the number of steps since the checkpoint.
#[derive(Clone, Copy)]
pub(crate) struct WordNote {
    pub address: u32,
    pub offset: u32,
}

/// What is looked for in the steps.
#[derive(Clone, Copy)]
pub enum Sought {
    /// A step that reads the cell.
    Read(Cell),
    /// A step that writes the cell.
    Write(Cell),
    /// A step that does either.
    Touch(Cell),
    /// A step that takes or counts the bytes that wait at the console.
    Input,
}

impl Sought {
    /// The address of the word that is looked for, if one is.
    pub fn word(self) -> Option<u32>
        ensures { result ≡ sought_word self }
    {
        match self {
            Sought::Read(cell) | Sought::Write(cell) | Sought::Touch(cell) => cell.word(),
            Sought::Input => None,
        }
    }
}

/// What each of the steps from a checkpoint to the next one touches.
pub struct Notes {
    /// The words that are read as the first of their step, but for the rarer steps: instructions that are fetched.
    fetches: Vec<WordRun>,
    /// All other words that are read.
    reads: Vec<WordNote>,
    writes: Vec<WordNote>,
    levels: Vec<LevelRun>,
    inputs: Vec<u32>,
    expiries: Vec<u32>,
}

// Written out, so that crates above prove no drop of its parts.
impl Drop for Notes {
    fn drop(self) {
        let Notes {
            fetches: _,
            reads: _,
            writes: _,
            levels: _,
            inputs: _,
            expiries: _,
        } = self;
    }
}

impl Model for Notes {
    ghost use Rattle.sv8_notes.specs.Steps.{Steps};
    ghost use Rattle.sv8_notes.specs.WordRuns.{words_of, words_of_run};

    ghost Value = { Steps };

    ghost view = { λ n. record { fetches = words_of n.fetches.items; reads = n.reads.items; writes = n.writes.items; levels = n.levels.items; inputs = n.inputs.items; expiries = n.expiries.items } };
}

impl WordNote {
    /// The step, if it is from one step on and below another, and the word has this address.
    fn first(&self, address: u32, from: u32, end: u32) -> Option<u32>
        ensures { IsFirstBelow (λ n. is_word_of address n self.now) from end result }
    {
        if self.address == address {
            within(self.offset, from, end)
        } else {
            None
        }
    }
}

/// The first step from one offset on and below another that has a note of a word.
fn first_of_word(notes: &[WordNote], address: u32, from: u32, end: u32) -> Option<u32>
    ensures { IsFirstBelow (has_word notes.now address) from end result }
{
    let mut found = None;
    for note in notes {
        found = lesser(found, note.first(address, from, end));
    }
    found
}

/// Whether a number is one of those from one to another.
fn is_from_to(low: u32, last: u32, number: u32) -> bool
    ensures { result ≡ is_from_to low last number }
{
    low <= number && number <= last
}

impl WordNote {
    /// Whether it is of a word whose address is from one to another, at a step from one offset on and below another.
    pub(crate) fn is_in(&self, low: u32, last: u32, from: u32, end: u32) -> bool
        ensures { result ≡ is_note_in low last from end self.now }
    {
        (self.address % 4 == 0 && is_from_to(low, last, self.address))
            && (from <= self.offset && self.offset < end)
    }
}

impl WordNote {
    /// Sets the flag of its step, where its word has an address from one to another. Flag number i is that of the step with
    /// the offset `from + i`.
    #[inline(always)]
    pub(crate) fn flag(&self, low: u32, last: u32, from: u32, flags: &mut [bool])
        ensures { IsFlagged (λ i. is_note_in low last (from + i) (from + i + 1) self.now) flags.old flags.new }
    {
        if self.address % 4 == 0 && is_from_to(low, last, self.address) {
            flag_step(self.offset, from, flags);
        }
    }
}

/// Sets the flags of the steps of some notes.
fn flag_notes(notes: &[WordNote], low: u32, last: u32, from: u32, flags: &mut [bool])
    ensures { IsFlagged (λ i. are_notes_in low last (from + i) (from + i + 1) notes.now) flags.old flags.new }
{
    let mut rest = notes;
    while let [note, after @ ..] = rest {
        note.flag(low, last, from, flags);
        rest = after;
    }
}

/// Whether one of some notes is.
fn are_in(notes: &[WordNote], low: u32, last: u32, from: u32, end: u32) -> bool
    ensures { result ≡ are_notes_in low last from end notes.now }
{
    let mut rest = notes;
    while let [note, after @ ..] = rest {
        if note.is_in(low, last, from, end) {
            return true;
        }
        rest = after;
    }
    false
}

/// Puts an item behind others where there is no room for it.
#[cold]
#[inline(never)]
fn push_growing<T: Copy>(items: &mut Vec<T>, item: T) -> Result<(), AllocError>
    ensures { OnOk result (items.new.items ≡ items.old.items ++ item ∷ []) }
{
    items.push(item)?;
    Ok(())
}

/// Puts an item behind others. What a growth needs of the stack stays out of the way where there is room.
#[inline(always)]
fn push<T: Copy>(items: &mut Vec<T>, item: T) -> Result<(), AllocError>
    ensures { OnOk result (items.new.items ≡ items.old.items ++ item ∷ []) }
{
    if items.len() == items.capacity() {
        return push_growing(items, item);
    }
    items.push_reserved(item);
    Ok(())
}

/// Takes a note of a word.
#[inline(always)]
fn note_word(notes: &mut Vec<WordNote>, address: u32, offset: u32) -> Result<(), AllocError>
    ensures { OnOk result (notes.new.items ≡ notes.old.items ++ record { address = address; offset = offset } ∷ []) }
{
    push(notes, WordNote { address, offset })
}

/// The same runs once more and another behind them, in no more memory than they need.
fn runs_with(runs: &Vec<WordRun>, run: WordRun) -> Result<Vec<WordRun>, AllocError>
    ensures { IfOk result (λ all. words_of all.items ≡ words_of runs.now.items ++ words_of_run run) }
{
    if run.count() == 0 {
        let all = runs.clone()?;
        return Ok(all);
    }
    let mut all = Vec::with_capacity(*runs.allocator(), runs.len() + 1)?;
    all.extend_from_slice(runs)?;
    all.push(run)?;
    Ok(all)
}

impl Notes {
    /// Of no steps.
    pub fn new(alloc: Global) -> Notes
        ensures { result ≡ no_steps }
    {
        Notes {
            fetches: Vec::new(alloc),
            reads: Vec::new(alloc),
            writes: Vec::new(alloc),
            levels: Vec::new(alloc),
            inputs: Vec::new(alloc),
            expiries: Vec::new(alloc),
        }
    }

    /// Lets all notes go; the memory stays.
    pub fn clear(&mut self)
        ensures { self.new ≡ no_steps }
    {
        self.fetches.clear();
        self.reads.clear();
        self.writes.clear();
        self.levels.clear();
        self.inputs.clear();
        self.expiries.clear();
    }

    /// The same notes once more and those of a run behind them, in no more memory than they need.
    ///
    /// # Errors
    ///
    /// `AllocError` where that memory cannot be had.
    pub(crate) fn copy_with(&self, run: WordRun) -> Result<Notes, AllocError>
        ensures { IfOk result (λ n. n ≡ with_run self.now run) }
    {
        let fetches = runs_with(&self.fetches, run)?;
        Ok(Notes {
            fetches,
            reads: self.reads.clone()?,
            writes: self.writes.clone()?,
            levels: self.levels.clone()?,
            inputs: self.inputs.clone()?,
            expiries: self.expiries.clone()?,
        })
    }

    /// Levels are asked: the last run goes on, or another begins.
    #[inline(always)]
    pub(crate) fn note_levels(&mut self, levels: u16, offset: u32) -> Result<(), AllocError>
        requires { offset < 1000000 }
        ensures asked { OnOk result ((l j : ℕ) → list_any (is_asked_in l j) self.new.levels ≡ (list_any (is_asked_in l j) self.old.levels || (j == offset && bit levels l))) }
        ensures others { OnOk result (self.new ≡ record self.old { levels = self.new.levels }) }
    {
        let count = self.levels.len();
        if count > 0 && self.levels[count - 1].extend(levels, offset) {
            return Ok(());
        }
        self.levels.reserve(1)?;
        self.levels.push_reserved(LevelRun {
            first: offset,
            end: offset + 1,
            levels,
        });
        Ok(())
    }

    /// Takes a note of a touch, as data.
    #[inline(always)]
    fn note(&mut self, touch: Touch, offset: u32) -> Result<(), AllocError>
        requires { offset < 1000000 }
        ensures { OnOk result (Gains offset (touch ∷ []) (touch ∷ []) self.old self.new) }
    {
        match touch {
            Touch::Read(address) => self.note_read(address, offset)?,
            Touch::Write(address) => self.note_write(address, offset)?,
            Touch::Input => self.inputs.push(offset)?,
            Touch::Levels(levels) => self.note_levels(levels, offset)?,
            Touch::Expiry => self.expiries.push(offset)?,
        }
        Ok(())
    }

    /// Takes notes of words that are fetched.
    #[inline(always)]
    pub(crate) fn note_run(&mut self, run: WordRun) -> Result<(), AllocError>
        ensures { OnOk result (self.new ≡ with_run self.old run) }
    {
        if run.count() == 0 {
            return Ok(());
        }
        push(&mut self.fetches, run)?;
        Ok(())
    }

    /// Takes a note of a word that is read as data.
    #[inline(always)]
    pub(crate) fn note_read(&mut self, address: u32, offset: u32) -> Result<(), AllocError>
        ensures { OnOk result (self.new ≡ record self.old { reads = self.old.reads ++ word_at address offset }) }
    {
        note_word(&mut self.reads, address, offset)
    }

    /// Takes a note of a word that is written.
    #[inline(always)]
    pub(crate) fn note_write(&mut self, address: u32, offset: u32) -> Result<(), AllocError>
        ensures { OnOk result (self.new ≡ record self.old { writes = self.old.writes ++ word_at address offset }) }
    {
        note_word(&mut self.writes, address, offset)
    }

    /// Lets the last note of a word that is written go.
    pub(crate) fn forget_write(&mut self)
        ensures { self.new ≡ record self.old { writes = without_last self.old.writes } }
    {
        let count = self.writes.len();
        self.writes.truncate(count.saturating_sub(1));
    }

    /// Takes notes of what is told of a step, as data, from the list of all that it touched.
    #[inline(never)]
    pub(crate) fn note_told(&mut self, touches: &[Touch], offset: u32) -> Result<(), AllocError>
        requires { offset < 1000000 }
        ensures { OnOk result (Gains offset (told touches.now) (told touches.now) self.old self.new) }
    {
        let mut levels = 0;
        for touch in touches {
            levels |= levels_of(*touch);
            if is_told(touches, *touch) {
                self.note(*touch, offset)?;
            }
        }
        if levels != 0 {
            self.note_levels(levels, offset)?;
        }
        Ok(())
    }

    /// Marks the words that the steps touch with a number, unless their marks are greater.
    ///
    /// # Errors
    ///
    /// `AllocError` where memory for the marks cannot be had; some words are then marked.
    pub fn mark_words(&self, alloc: Global, marks: &mut Marks, mark: u32) -> Result<(), AllocError>
        ensures grows { (a : ℕ) → mark_of marks.old a ≤ mark_of marks.new a }
        ensures marked { OnOk result ((a : ℕ) → mark_of marks.new a < mark → IsUntouched self.now a) }
    {
        mark_runs(alloc, marks, &self.fetches, mark)?;
        mark_all(alloc, marks, &self.reads, mark)?;
        mark_all(alloc, marks, &self.writes, mark)?;
        Ok(())
    }

    /// The first step from one offset on and below another that asks a level.
    fn first_asking(&self, level: u32, from: u32, end: u32) -> Option<u32>
        ensures { IsFirstBelow (λ n. list_any (is_asked_in level n) self.now.levels) from end result }
    {
        let mut found = None;
        for run in &self.levels {
            found = lesser(found, run.first_asking(level, from, end));
        }
        found
    }

    /// The first step from one offset on and below another that reads a word.
    fn first_word_read(&self, address: u32, from: u32, end: u32) -> Option<u32>
        ensures { IsFirstBelow (λ n. has_word self.now.fetches address n || has_word self.now.reads address n) from end result }
    {
        lesser(
            first_of_runs(&self.fetches, address, from, end),
            first_of_word(&self.reads, address, from, end),
        )
    }

    /// The first step that reads a cell.
    fn first_read(&self, cell: Cell, from: u32, end: u32) -> Option<u32>
        ensures { IsFirstBelow (λ n. (footprint_in self.now n).reads (cell_of cell)) from end result }
    {
        match cell {
            Cell::Byte(address) => self.first_word_read(4 * (address / 4), from, end),
            Cell::Level(level) => self.first_asking(level, from, end),
        }
    }

    /// The first step that writes a cell.
    fn first_write(&self, cell: Cell, from: u32, end: u32) -> Option<u32>
        ensures { IsFirstBelow (λ n. (footprint_in self.now n).writes (cell_of cell)) from end result }
    {
        match cell {
            Cell::Byte(address) => first_of_word(&self.writes, 4 * (address / 4), from, end),
            Cell::Level(level) if level == TIMER_LEVEL => first_among(&self.expiries, from, end),
            Cell::Level(_) => None,
        }
    }

    /// The first step from one offset on and below another that does what is sought.
    pub fn first_from(&self, sought: Sought, from: u32, end: u32) -> Option<u32>
        ensures { IsFirstBelow (λ n. is_met sought (footprint_in self.now n)) from end result }
    {
        match sought {
            Sought::Read(cell) => self.first_read(cell, from, end),
            Sought::Write(cell) => self.first_write(cell, from, end),
            Sought::Touch(cell) => lesser(
                self.first_read(cell, from, end),
                self.first_write(cell, from, end),
            ),
            Sought::Input => first_among(&self.inputs, from, end),
        }
    }

    /// Whether a step from one offset on and below another touches a word whose address is from one to another, by the
    /// touches that count.
    pub fn touches_any(&self, kind: TouchKind, low: u32, last: u32, from: u32, end: u32) -> bool
        ensures { result ≡ touches_any kind low last from end self.now }
    {
        (kind == TouchKind::Any && are_in_runs(&self.fetches, low, last, from, end))
            || are_in(&self.reads, low, last, from, end)
            || are_in(&self.writes, low, last, from, end)
    }

    /// Sets the flag of each step that touches a word whose address is from one to another, by the touches that count. Flag
    /// number i is that of the step with the offset `from + i`.
    pub fn flag_touching(&self, kind: TouchKind, low: u32, last: u32, from: u32, flags: &mut [bool])
        ensures { IsFlagged (λ i. touches_any kind low last (from + i) (from + i + 1) self.now) flags.old flags.new }
    {
        if kind == TouchKind::Any {
            flag_runs(&self.fetches, low, last, from, flags);
        }
        flag_notes(&self.reads, low, last, from, flags);
        flag_notes(&self.writes, low, last, from, flags);
    }
}
