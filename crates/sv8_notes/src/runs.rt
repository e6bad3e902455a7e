//! One page of each checkpoint of a trace that is to change, where many checkpoints have the same.

ghost use Rattle.std.specs.Prelude.{◌≡◌, ℕ, ◌+◌, ◌-◌, ◌<◌, ◌≤◌, ◌%◌, ◌&&◌, ◌++◌, ◌∷◌, [], cond, leb, ltb, length, replicate, slice_index_or, slice_set, MatchBool, IfOk, OnOk};
ghost use Rattle.sv8_notes.specs.PageRuns.{expand, before, no_run, with_byte, IsPlace};

use crate::column::PageColumn;
use std::alloc::{AllocError, Global};
use std::marker::Model;
use sv8_phys::Page;

/// So many checkpoints, one after the other, that have the same page.
#[derive(Drop)]
struct PageRun {
    page: Page,
    count: usize,
}

/// A run, by its number, and a place in it.
#[derive(Clone, Copy)]
struct Place {
    run: usize,
    offset: usize,
}

impl PageRun {
    /// Takes one checkpoint more into the run, if it has the same page.
    fn extend(&mut self, page: &Page) -> bool
        ensures { MatchBool result ((self.old.page ≡ page.now) × (self.new ≡ record self.old { count = self.old.count + 1 })) (self.new ≡ self.old) }
    {
        if self.count == usize::MAX {
            return false;
        }
        if !self.page.is_same(page) {
            return false;
        }
        self.count += 1;
        true
    }

    /// Leaves the first `count` checkpoints in the run, and gives a run of the others.
    fn split_off(&mut self, count: usize) -> Result<PageRun, AllocError>
        requires { count ≤ self.old.count }
        ensures first { OnOk result (self.new ≡ record self.old { count = count }) }
        ensures rest { IfOk result (λ r. r ≡ record self.old { count = self.old.count - count }) }
    {
        let page = self.page.share()?;
        let rest = PageRun {
            page,
            count: self.count - count,
        };
        self.count = count;
        Ok(rest)
    }

    /// Sets a byte in the page of the run.
    fn set_byte(&mut self, address: u32, value: u8) -> Result<(), AllocError>
        ensures { OnOk result (self.new ≡ with_byte address value self.old) }
    {
        self.page.set_byte(address, value)?;
        Ok(())
    }

    /// Adds the page of each checkpoint of the run to others.
    #[tactic(auto, using(crate::proofs::RunLists::one_more))]
    fn add_to(self, pages: &mut Vec<Page>) -> Result<(), AllocError>
        ensures { OnOk result (pages.new.items ≡ pages.old.items ++ replicate self.count self.page) }
    {
        if self.count == 0 {
            return Ok(());
        }
        for _other in 0..self.count - 1 {
            pages.push(self.page.share()?)?;
        }
        pages.push(self.page)?;
        Ok(())
    }
}

/// Takes one checkpoint more into the last run, if it has the same page.
#[tactic(auto, using(crate::proofs::RunLists::extended))]
fn extend_last(runs: &mut Vec<PageRun>, page: &Page) -> bool
    ensures { MatchBool result (expand runs.new.items ≡ expand runs.old.items ++ page.now ∷ []) (expand runs.new.items ≡ expand runs.old.items) }
{
    let count = runs.len();
    if count == 0 {
        return false;
    }
    runs[count - 1].extend(page)
}

/// The run of a checkpoint; or, of the number of all checkpoints, the place behind the last run.
#[tactic(auto, using(crate::proofs::RunLists::before_next, crate::proofs::RunLists::before_all))]
fn find(runs: &[PageRun], at: usize) -> Place
    requires { at ≤ length (expand runs.now) }
    ensures { IsPlace runs.now at result }
{
    let mut offset = at;
    for (run, part) in runs.iter().enumerate() {
        if offset < part.count {
            return Place { run, offset };
        }
        offset -= part.count;
    }
    Place {
        run: runs.len(),
        offset: 0,
    }
}

/// Makes a run begin at a checkpoint, and gives the number of runs before it.
fn cut(runs: &mut Vec<PageRun>, at: usize) -> Result<usize, AllocError>
    requires { at ≤ length (expand runs.old.items) }
    ensures same { OnOk result (expand runs.new.items ≡ expand runs.old.items) }
    ensures inside { IfOk result (λ n. n ≤ length runs.new.items) }
    ensures place { IfOk result (λ n. before n runs.new.items ≡ at) }
    ensures kept { OnOk result ((n : ℕ) → before n runs.old.items < at → before n runs.new.items ≡ before n runs.old.items) }
{
    let place = find(runs, at);
    if place.offset == 0 {
        return Ok(place.run);
    }
    let rest = runs[place.run].split_off(place.offset)?;
    runs.insert(place.run + 1, rest)?;
    Ok(place.run + 1)
}

/// Sets a byte in the pages of the runs from `first` on and below `last`.
fn set_in_runs(
    runs: &mut Vec<PageRun>,
    first: usize,
    last: usize,
    address: u32,
    value: u8,
) -> Result<(), AllocError>
    requires { last ≤ length runs.old.items }
    ensures length { OnOk result (length runs.new.items ≡ length runs.old.items) }
    ensures set { OnOk result ((j : ℕ) → slice_index_or runs.new.items j no_run
        ≡ cond (leb first j && ltb j last) (with_byte address value (slice_index_or runs.old.items j no_run)) (slice_index_or runs.old.items j no_run)) }
{
    if first >= last {
        return Ok(());
    }
    for index in first..last {
        runs[index].set_byte(address, value)?;
    }
    Ok(())
}

/// One page of each checkpoint, kept once for checkpoints one after the other that have the same.
#[derive(Drop)]
pub struct PageRuns {
    runs: Vec<PageRun>,
}

impl Model for PageRuns {
    ghost use Rattle.std.specs.Prelude.{List, ℕ};
    ghost use Rattle.sv8_notes.specs.PageRuns.{expand};

    ghost Value = { List (List ℕ) };

    ghost view = { λ c. expand c.runs.items };
}

impl PageRuns {
    /// Of no checkpoints.
    pub fn new(alloc: Global) -> PageRuns
        ensures { result ≡ [] }
    {
        PageRuns {
            runs: Vec::new(alloc),
        }
    }

    /// The page of one checkpoint more.
    ///
    /// # Errors
    ///
    /// `AllocError` where memory for a run cannot be had.
    pub fn push(&mut self, page: Page) -> Result<(), AllocError>
        ensures { OnOk result (self.new ≡ self.old ++ page ∷ []) }
    {
        if extend_last(&mut self.runs, &page) {
            return Ok(());
        }
        self.runs.push(PageRun { page, count: 1 })?;
        Ok(())
    }

    /// A byte of the page of a checkpoint, by its address in RAM.
    pub fn byte(&self, index: usize, address: u32) -> u8
        requires { index < length self.now }
        ensures { result ≡ slice_index_or (slice_index_or self.now index []) (address % 4096) 0 }
    {
        let place = find(&self.runs, index);
        self.runs[place.run].page.byte(address)
    }

    /// Sets a byte in the pages of the checkpoints from `low` on and below `end`, once in each run. A page that nothing else shares
    /// is not copied.
    ///
    /// # Errors
    ///
    /// `AllocError` where memory for a page or a run cannot be had; some pages are then changed.
    pub fn set(&mut self, low: usize, end: usize, address: u32, value: u8) -> Result<(), AllocError>
        requires { end ≤ length self.old }
        ensures length { OnOk result (length self.new ≡ length self.old) }
        ensures set { OnOk result ((i : ℕ) → slice_index_or self.new i []
            ≡ cond (leb low i && ltb i end) (slice_set (slice_index_or self.old i []) (address % 4096) value) (slice_index_or self.old i [])) }
    {
        if low >= end {
            return Ok(());
        }
        let first = cut(&mut self.runs, low)?;
        let last = cut(&mut self.runs, end)?;
        set_in_runs(&mut self.runs, first, last, address, value)?;
        Ok(())
    }

    /// The page of each checkpoint by itself, shared where it was one. `count` is how many checkpoints there are, for which room is
    /// made at once.
    ///
    /// # Errors
    ///
    /// `AllocError` where memory for the pages cannot be had.
    pub fn into_column(self, alloc: Global, count: usize) -> Result<PageColumn, AllocError>
        ensures { IfOk result (λ c. c ≡ self) }
    {
        let mut pages = Vec::with_capacity(alloc, count)?;
        for run in self.runs {
            run.add_to(&mut pages)?;
        }
        Ok(PageColumn::new(pages))
    }
}
