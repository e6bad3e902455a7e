//! The checkpoints of a trace.

ghost use Rattle.std.specs.Prelude.{◌≡◌, ℕ, ◌/◌, ◌<◌, ◌≤◌, ◌++◌, ◌∷◌, [], map, take, length, slice_index_or, false, IfOk, OnOk, OnErr};
ghost use Rattle.sv8_phys.specs.Memory.{ram_size, page_of};
ghost use Rattle.sv8_trace.specs.Checkpoints.{IsCheckpoint};
ghost use Rattle.sv8_trace.specs.Recording.{blank};
ghost use Rattle.sv8_trace.specs.Placing.{AreSound};
ghost use Rattle.sv8_trace.specs.Columns.{overlaid, AreFull, AreColumns};

mod columns;
mod overlay;

use crate::checkpoint::Checkpoint;
use crate::points::columns::{copy_all, cut_all, put_all};
use crate::points::overlay::{byte_under, level_under, page_under, put_levels, put_pages};
use std::alloc::{AllocError, Global};
use std::marker::Model;
use std::rc::Rc;
use sv8_cpu::Machine;
use sv8_model::Level;
use sv8_notes::{LevelColumn, PAGE_SIZE, PageColumn, PageRuns, empty_places};
use sv8_phys::Page;

/// How many interrupt levels there are, with level 0, which is none.
pub(crate) const LEVELS: usize = 16;

/// The machines of steps 0, `K`, 2 `K` and so on.
///
/// A machine that was taken never changes, so copies share it. What edits make of the machines stands beside them, as a column for each
/// page and each level that was changed.
#[derive(Drop)]
pub(crate) struct Points<const NW: usize, const PAGES: usize> {
    machines: Vec<Rc<Machine<NW, PAGES>>>,
    pages: Vec<Option<PageColumn>>,
    levels: Vec<Option<LevelColumn>>,
    /// No column has anything for a checkpoint from this one on.
    idle: usize,
}

impl<const NW: usize, const PAGES: usize> Model for Points<NW, PAGES> {
    ghost use Rattle.std.specs.Prelude.{List, ◌≤◌};
    ghost use Rattle.sv8_cpu.specs.State.{State};
    ghost use Rattle.sv8_trace.specs.Columns.{AreIdleFrom};
    ghost use Rattle.sv8_trace.specs.Overlaid.{taken, all_overlaid, AreOverlaid};

    ghost Value = { List State };

    ghost view = { λ p. all_overlaid p.pages.items p.levels.items 0 (taken p.machines.items) };

    ghost invariant = { λ p. (2 ≤ NW) × (NW ≤ 32) × (PAGES ≤ 65536) × AreOverlaid PAGES p.pages.items p.levels.items (taken p.machines.items)
        × AreIdleFrom p.idle p.pages.items × AreIdleFrom p.idle p.levels.items };
}

impl<const NW: usize, const PAGES: usize> Points<NW, PAGES> {
    /// The checkpoint of step 0 alone.
    ///
    /// # Errors
    ///
    /// `AllocError` where memory for it cannot be had.
    pub(crate) fn new(alloc: Global, machine: Machine<NW, PAGES>) -> Result<Self, AllocError>
        requires some_windows { 2 ≤ NW }
        requires few_windows { NW ≤ 32 }
        requires few_pages { PAGES ≤ 65536 }
        ensures value { IfOk result (λ p. p ≡ machine.entry ∷ []) }
        ensures sound { IfOk result (λ p. AreSound PAGES p) }
    {
        let _size = machine.ram_size();
        let machine = Rc::new(alloc, machine)?;
        let mut machines = Vec::new(alloc);
        machines.push(machine)?;
        Ok(Points {
            machines,
            pages: empty_places(alloc, PAGES)?,
            levels: empty_places(alloc, LEVELS)?,
            idle: 0,
        })
    }

    /// The machine of a checkpoint.
    ///
    /// # Errors
    ///
    /// `AllocError` where memory for it cannot be had.
    pub(crate) fn snapshot(
        &self,
        alloc: Global,
        index: usize,
    ) -> Result<Machine<NW, PAGES>, AllocError>
        requires { index < length self.now }
        ensures { IfOk result (λ m. m ≡ slice_index_or self.now index blank) }
    {
        let taken = &*self.machines[index];
        let mut machine = taken.snapshot(alloc)?;
        if self.idle <= index {
            return Ok(machine);
        }
        put_pages(&mut machine, &self.pages, index)?;
        put_levels(&mut machine, &self.levels[1..], index);
        Ok(machine)
    }

    /// Adds a checkpoint.
    ///
    /// # Errors
    ///
    /// `AllocError` where memory for it cannot be had. The checkpoints are then as they were.
    pub(crate) fn push(
        &mut self,
        alloc: Global,
        machine: Machine<NW, PAGES>,
    ) -> Result<(), AllocError>
        ensures pushed { OnOk result (self.new ≡ self.old ++ machine.entry ∷ []) }
        ensures refused { OnErr result (self.new ≡ self.old) }
        ensures sound { AreSound PAGES self.new }
    {
        let _taken = &self.machines;
        let _size = machine.ram_size();
        let machine = Rc::new(alloc, machine)?;
        self.machines.push(machine)?;
        Ok(())
    }

    /// A byte of RAM in a checkpoint.
    pub(crate) fn byte(&self, index: usize, address: u32) -> u8
        requires index { index < length self.now }
        requires address { address < ram_size PAGES }
        ensures { result ≡ slice_index_or (slice_index_or self.now index blank).memory.ram address 0 }
    {
        let taken = &*self.machines[index];
        let column = &self.pages[(address / PAGE_SIZE) as usize];
        byte_under(column, index, taken, address)
    }

    /// What is read of a checkpoint where it is kept. Edits change nothing of that.
    pub(crate) fn checkpoint(&self, index: usize) -> Checkpoint
        requires { index < length self.now }
        ensures { IsCheckpoint (slice_index_or self.now index blank) result }
    {
        let taken = &*self.machines[index];
        Checkpoint {
            running: taken.is_running(),
            taken: taken.taken(),
            output_end: taken.output_end(),
        }
    }

    /// Whether a level is pending in a checkpoint.
    pub(crate) fn is_pending(&self, index: usize, level: Level) -> bool
        requires { index < length self.now }
        ensures { result ≡ slice_index_or (slice_index_or self.now index blank).memory.pending level false }
    {
        let taken = &*self.machines[index];
        let column = &self.levels[level.number() as usize];
        level_under(column, index, taken, level)
    }

    /// The page of an address in a checkpoint, shared.
    fn page(&self, index: usize, address: u32) -> Result<Page, AllocError>
        requires index { index < length self.now }
        requires address { address < ram_size PAGES }
        ensures { IfOk result (λ p. p ≡ page_of (slice_index_or self.now index blank).memory.ram (address / 4096)) }
    {
        let taken = &*self.machines[index];
        let column = &self.pages[(address / PAGE_SIZE) as usize];
        let page = page_under(column, index, taken, address)?;
        Ok(page)
    }

    /// The page of an address in each of the first checkpoints.
    ///
    /// # Errors
    ///
    /// `AllocError` where memory for the pages cannot be had.
    pub(crate) fn gather_pages(
        &self,
        alloc: Global,
        address: u32,
        count: usize,
    ) -> Result<PageRuns, AllocError>
        requires address { address < ram_size PAGES }
        requires count { count ≤ length self.now }
        ensures { IfOk result (λ c. c ≡ map (λ s. page_of s.memory.ram (address / 4096)) (take count self.now)) }
    {
        let mut runs = PageRuns::new(alloc);
        for index in 0..count {
            runs.push(self.page(index, address)?)?;
        }
        Ok(runs)
    }

    /// Whether a level is pending in each of the first checkpoints.
    ///
    /// # Errors
    ///
    /// `AllocError` where memory for the levels cannot be had.
    pub(crate) fn gather_levels(
        &self,
        alloc: Global,
        level: Level,
        count: usize,
    ) -> Result<LevelColumn, AllocError>
        requires { count ≤ length self.now }
        ensures { IfOk result (λ c. c ≡ map (λ s. slice_index_or s.memory.pending level false) (take count self.now)) }
    {
        let mut column = LevelColumn::new(alloc);
        for index in 0..count {
            column.push(self.is_pending(index, level))?;
        }
        Ok(column)
    }

    /// Drops the checkpoints behind the first `count`.
    pub(crate) fn truncate(&mut self, count: usize)
        ensures first { self.new ≡ take count self.old }
        ensures sound { AreSound PAGES self.new }
    {
        self.machines.truncate(count);
        cut_all(&mut self.pages, count);
        cut_all(&mut self.levels, count);
        self.idle = self.idle.min(count);
    }

    /// Puts other pages and levels in their places. It takes no memory.
    pub(crate) fn place(&mut self, pages: Vec<Option<PageColumn>>, levels: Vec<Option<LevelColumn>>)
        requires columns { AreColumns PAGES pages.items levels.items }
        requires full_pages { AreFull (length self.old) pages.items }
        requires full_levels { AreFull (length self.old) levels.items }
        ensures length { length self.new ≡ length self.old }
        ensures placed { (i : ℕ) → i < length self.old
            → slice_index_or self.new i blank ≡ overlaid pages.items levels.items i (slice_index_or self.old i blank) }
        ensures sound { AreSound PAGES self.new }
    {
        put_all(&mut self.pages, pages);
        put_all(&mut self.levels, levels);
        self.idle = self.machines.len();
    }

    /// The same checkpoints once more, which share the machines that were taken.
    ///
    /// # Errors
    ///
    /// `AllocError` where memory for the handles and the columns cannot be had.
    pub(crate) fn copy(&self, alloc: Global) -> Result<Self, AllocError>
        ensures same { IfOk result (λ p. p ≡ self.now) }
        ensures sound { IfOk result (λ p. AreSound PAGES p) }
    {
        let machines = self.machines.clone()?;
        let pages = copy_all(alloc, &self.pages)?;
        let levels = copy_all(alloc, &self.levels)?;
        Ok(Points {
            machines,
            pages,
            levels,
            idle: self.idle,
        })
    }
}
