//! What patches make of a trace, built in full before anything changes.

ghost use Rattle.std.specs.Prelude.{◌≡◌, ℕ, ◌+◌, ◌*◌, ◌<◌, ◌≤◌, ◌/◌, ◌%◌, ◌==◌, ◌&&◌, not, leb, length, slice_index_or, slice_set, option_map, Option, Some, None, IfOk, OnOk, IfSome};
ghost use Rattle.std.specs.List.{All};
ghost use Rattle.sv8_model.specs.Cells as model;
ghost use Rattle.sv8_model.specs.Cells.{ram_byte, byte, pending_level, held};
ghost use Rattle.sv8_phys.specs.Memory.{ram_size};
ghost use Rattle.sv8_history.specs.Trace.{Trace, Near};
ghost use Rattle.sv8_history.specs.Patches as history;
ghost use Rattle.sv8_history.specs.Patches.{set_poke, spread, uncover, kept_by_poke};
ghost use Rattle.sv8_notes.specs.Cells.{cell_of, content_of, IsCell};
ghost use Rattle.sv8_cpu.specs.Recorded.{machine, get};
ghost use Rattle.sv8_cpu.specs.Patches.{change_of, changes_of, IsPatch};
ghost use Rattle.sv8_trace.specs.Recording.{blank, recorded, trace_of};
ghost use Rattle.sv8_trace.specs.Prepared.{list_at, placed, prepared_trace, IsPreparedFor};
ghost use Rattle.sv8_history.specs.Patching.{IsFirstWrite, KeptPut, RaisedAt};
ghost use Rattle.sv8_trace.specs.Patching.{PointsSet};

use crate::points::LEVELS;
use crate::prepared::{Prepared, Staged};
use crate::trace::Trace;
use std::alloc::{AllocError, Global};
use sv8_notes::{
    Cause, Cell, Content, KeptList, NO_END, PAGE_SIZE, Patch, Sought, empty_places, level_numbered,
};

/// How far a change reaches: the step of its cause, the step of the next event of its cell, and the first step from its cause on that
/// writes the cell (`NO_END` where none does).
#[derive(Clone, Copy)]
struct Reach {
    from: u32,
    to: u32,
    wrote: u32,
}

impl<const NW: usize, const PAGES: usize, const K: u32> Trace<NW, PAGES, K> {
    /// The first step from `from` on that writes a cell, of those in front of a checkpoint, or `NO_END`.
    fn first_write(&self, cell: Cell, from: u32, checkpoint: usize) -> u32
        requires { checkpoint ≤ length self.now.intervals }
        ensures { IsFirstWrite (machine NW PAGES) (trace_of NW PAGES K self.now) (cell_of cell) from (K * checkpoint) result }
    {
        let _points = &self.points;
        self.first_from(Sought::Write(cell), from, K * checkpoint as u32)
            .unwrap_or(NO_END)
    }

    /// Nothing but a cut to so many checkpoints above that of step 0.
    fn stage(&self, alloc: Global, count: usize) -> Result<Staged, AllocError>
        requires { count ≤ length self.now.intervals }
        ensures fits { IfOk result (λ s. IsPreparedFor PAGES self.now s) }
        ensures near { IfOk result (λ s. Near (machine NW PAGES) K (prepared_trace NW PAGES K self.now s) (history.cut (machine NW PAGES) K (trace_of NW PAGES K self.now) count)) }
    {
        let _points = &self.points;
        Ok(Staged {
            count,
            pages: empty_places(alloc, PAGES)?,
            levels: empty_places(alloc, LEVELS)?,
            kept: empty_places(alloc, count)?,
        })
    }

    /// The value that is kept of a cell at a step.
    fn kept_value(&self, staged: &Staged, step: u32, cell: Cell) -> Option<Content>
        requires fits { IsPreparedFor PAGES self.now staged.now }
        ensures { option_map content_of result ≡ (prepared_trace NW PAGES K self.now staged.now).kept step (cell_of cell) }
    {
        let _points = &self.points;
        let index = (step / K) as usize;
        if index >= staged.count {
            return None;
        }
        match &staged.kept[index] {
            Some(list) => list.find(step % K, cell),
            None => self.intervals[index].kept().find(step % K, cell),
        }
    }

    /// The list of kept values of an interval, taken or copied.
    fn list(&self, staged: &mut Staged, index: usize) -> Result<KeptList, AllocError>
        requires fits { IsPreparedFor PAGES self.now staged.old }
        requires index { index < staged.old.count }
        ensures list { IfOk result (λ l. l ≡ list_at self.now staged.old index) }
        ensures kept { staged.new.kept.items ≡ slice_set staged.old.kept.items index None }
        ensures rest { staged.new ≡ record staged.old { kept = staged.new.kept } }
    {
        let _points = &self.points;
        match staged.kept[index].take() {
            Some(list) => Ok(list),
            None => self.intervals[index].kept().copy(),
        }
    }

    /// Keeps a value of a cell at a step, or none.
    fn keep(
        &self,
        staged: &mut Staged,
        step: u32,
        cell: Cell,
        content: Option<Content>,
    ) -> Result<(), AllocError>
        requires fits { IsPreparedFor PAGES self.now staged.old }
        requires step { step / K < staged.old.count }
        ensures fits { OnOk result (IsPreparedFor PAGES self.now staged.new) }
        ensures kept { OnOk result (KeptPut (machine NW PAGES) (prepared_trace NW PAGES K self.now staged.old) (prepared_trace NW PAGES K self.now staged.new) step (cell_of cell) (option_map content_of content)) }
        ensures rest { staged.new ≡ record staged.old { kept = staged.new.kept } }
    {
        let _points = &self.points;
        let index = (step / K) as usize;
        let mut list = self.list(staged, index)?;
        match content {
            Some(content) => list.insert(step % K, cell, content)?,
            None => list.remove(step % K, cell),
        }
        staged.kept[index] = Some(list);
        Ok(())
    }

    /// What stands in a cell of a checkpoint.
    fn content(&self, staged: &Staged, index: usize, cell: Cell) -> Content
        requires fits { IsPreparedFor PAGES self.now staged.now }
        requires index { index ≤ staged.now.count }
        requires cell { IsCell PAGES cell }
        ensures { content_of result ≡ get (cell_of cell) (placed staged.now index (slice_index_or self.now.points index blank)) }
    {
        let _points = &self.points;
        match cell {
            Cell::Byte(address) => match &staged.pages[(address / PAGE_SIZE) as usize] {
                Some(runs) => Content::Byte(runs.byte(index, address)),
                None => Content::Byte(self.points.byte(index, address)),
            },
            Cell::Level(level) => match &staged.levels[level as usize] {
                Some(column) => Content::Pending(column.is_pending(index)),
                None => Content::Pending(self.points.is_pending(index, level_numbered(level))),
            },
        }
    }

    /// Sets a byte in the checkpoints from `low` on and below `end`.
    fn set_byte(
        &self,
        alloc: Global,
        staged: &mut Staged,
        address: u32,
        value: u8,
        low: usize,
        end: usize,
    ) -> Result<(), AllocError>
        requires fits { IsPreparedFor PAGES self.now staged.old }
        requires address { address < ram_size PAGES }
        requires end { end ≤ staged.old.count + 1 }
        ensures fits { OnOk result (IsPreparedFor PAGES self.now staged.new) }
        ensures points { OnOk result (PointsSet self.now staged.old staged.new (ram_byte address) (byte value) low end) }
        ensures rest { staged.new ≡ record staged.old { pages = staged.new.pages } }
    {
        let _points = &self.points;
        let page = (address / PAGE_SIZE) as usize;
        let mut runs = match staged.pages[page].take() {
            Some(runs) => runs,
            None => self.points.gather_pages(alloc, address, staged.count + 1)?,
        };
        runs.set(low, end, address, value)?;
        staged.pages[page] = Some(runs);
        Ok(())
    }

    /// Makes a level pending, or not, in the checkpoints from `low` on and below `end`.
    fn set_level(
        &self,
        alloc: Global,
        staged: &mut Staged,
        level: u32,
        pending: bool,
        low: usize,
        end: usize,
    ) -> Result<(), AllocError>
        requires fits { IsPreparedFor PAGES self.now staged.old }
        requires some_level { 1 ≤ level }
        requires level { level ≤ 15 }
        requires end { end ≤ staged.old.count + 1 }
        ensures fits { OnOk result (IsPreparedFor PAGES self.now staged.new) }
        ensures points { OnOk result (PointsSet self.now staged.old staged.new (pending_level level) (held pending) low end) }
        ensures rest { staged.new ≡ record staged.old { levels = staged.new.levels } }
    {
        let _points = &self.points;
        let place = level as usize;
        let mut column = match staged.levels[place].take() {
            Some(column) => column,
            None => self
                .points
                .gather_levels(alloc, level_numbered(level), staged.count + 1)?,
        };
        column.set(low, end, pending);
        staged.levels[place] = Some(column);
        Ok(())
    }

    /// Gives a cell a content in the checkpoints from `low` on and below `end`.
    fn set_points(
        &self,
        alloc: Global,
        staged: &mut Staged,
        cell: Cell,
        content: Content,
        low: usize,
        end: usize,
    ) -> Result<(), AllocError>
        requires fits { IsPreparedFor PAGES self.now staged.old }
        requires cell { IsCell PAGES cell }
        requires end { end ≤ staged.old.count + 1 }
        ensures fits { OnOk result (IsPreparedFor PAGES self.now staged.new) }
        ensures points { OnOk result (PointsSet self.now staged.old staged.new (cell_of cell) (content_of content) low end) }
        ensures kept { staged.new.kept ≡ staged.old.kept }
        ensures count { staged.new.count ≡ staged.old.count }
    {
        let _points = &self.points;
        if low >= end {
            return Ok(());
        }
        match cell {
            Cell::Byte(address) => {
                self.set_byte(alloc, staged, address, content.as_byte(), low, end)
            }
            Cell::Level(level) => {
                self.set_level(alloc, staged, level, content.as_pending(), low, end)
            }
        }
    }

    /// The value to be kept below an event that is set: that of the event in whose place it comes, or of the first checkpoint that it
    /// patches, or that below the event that ends it.
    fn kept_below(&self, staged: &Staged, cell: Cell, reach: Reach) -> Option<Content>
        requires fits { IsPreparedFor PAGES self.now staged.now }
        requires cell { IsCell PAGES cell }
        requires first { IsFirstWrite (machine NW PAGES) (trace_of NW PAGES K self.now) (cell_of cell) reach.from (K * staged.now.count) reach.wrote }
        ensures kept { option_map content_of result ≡ kept_by_poke (machine NW PAGES) K (prepared_trace NW PAGES K self.now staged.now) (cell_of cell) reach.from reach.to }
        ensures inside { IfSome result (λ v. reach.from / K < staged.now.count) }
    {
        let _points = &self.points;
        let next = (reach.from / K) as usize + 1;
        if next > staged.count {
            return None;
        }
        match self.kept_value(staged, reach.from, cell) {
            Some(content) => return Some(content),
            None => {}
        }
        let step = next as u32 * K;
        if step <= reach.to && step <= reach.wrote {
            return Some(self.content(staged, next, cell));
        }
        if reach.to < step && reach.to <= reach.wrote && reach.from <= reach.to {
            return self.kept_value(staged, reach.to, cell);
        }
        None
    }

    /// Changes the value that is kept below the event at the end of a change that reaches it.
    fn raise(
        &self,
        staged: &mut Staged,
        cell: Cell,
        content: Content,
        reach: Reach,
    ) -> Result<(), AllocError>
        requires fits { IsPreparedFor PAGES self.now staged.old }
        ensures fits { OnOk result (IsPreparedFor PAGES self.now staged.new) }
        ensures kept { OnOk result (RaisedAt (machine NW PAGES) (prepared_trace NW PAGES K self.now staged.old) (prepared_trace NW PAGES K self.now staged.new) (cell_of cell) (content_of content) reach.to reach.wrote) }
        ensures rest { staged.new ≡ record staged.old { kept = staged.new.kept } }
    {
        let _points = &self.points;
        if reach.wrote < reach.to {
            return Ok(());
        }
        if (reach.to / K) as usize >= staged.count {
            return Ok(());
        }
        match self.kept_value(staged, reach.to, cell) {
            Some(_) => self.keep(staged, reach.to, cell, Some(content)),
            None => Ok(()),
        }
    }

    /// Spreads a content over what a change reaches: the checkpoints from `low` on, and the value that is kept at its end.
    fn spread_content(
        &self,
        alloc: Global,
        staged: &mut Staged,
        cell: Cell,
        content: Content,
        low: usize,
        reach: Reach,
    ) -> Result<(), AllocError>
        requires fits { IsPreparedFor PAGES self.now staged.old }
        requires cell { IsCell PAGES cell }
        requires first { IsFirstWrite (machine NW PAGES) (trace_of NW PAGES K self.now) (cell_of cell) reach.from (K * staged.old.count) reach.wrote }
        ensures fits { OnOk result (IsPreparedFor PAGES self.now staged.new) }
        ensures near { OnOk result ((first : ℕ) → ((i : ℕ) → leb first (K * i) ≡ leb low i)
            → Near (machine NW PAGES) K (prepared_trace NW PAGES K self.now staged.new) (spread (machine NW PAGES) (prepared_trace NW PAGES K self.now staged.old) (cell_of cell) (content_of content) reach.from first reach.to)) }
        ensures count { staged.new.count ≡ staged.old.count }
    {
        let _points = &self.points;
        let last = reach.to.min(reach.wrote);
        let end = ((last / K) as usize).min(staged.count) + 1;
        self.set_points(alloc, staged, cell, content, low, end)?;
        self.raise(staged, cell, content, reach)?;
        Ok(())
    }

    /// The source gives the cell another content, from the checkpoint of its step on.
    fn apply_source(
        &self,
        alloc: Global,
        staged: &mut Staged,
        cell: Cell,
        content: Content,
        reach: Reach,
    ) -> Result<(), AllocError>
        requires fits { IsPreparedFor PAGES self.now staged.old }
        requires cell { IsCell PAGES cell }
        requires first { IsFirstWrite (machine NW PAGES) (trace_of NW PAGES K self.now) (cell_of cell) reach.from (K * staged.old.count) reach.wrote }
        ensures fits { OnOk result (IsPreparedFor PAGES self.now staged.new) }
        ensures near { OnOk result (Near (machine NW PAGES) K (prepared_trace NW PAGES K self.now staged.new) (spread (machine NW PAGES) (prepared_trace NW PAGES K self.now staged.old) (cell_of cell) (content_of content) reach.from reach.from reach.to)) }
    {
        let _points = &self.points;
        let low = reach.from.div_ceil(K) as usize;
        self.spread_content(alloc, staged, cell, content, low, reach)?;
        Ok(())
    }

    /// An event sets the cell.
    fn apply_poke(
        &self,
        alloc: Global,
        staged: &mut Staged,
        cell: Cell,
        content: Content,
        reach: Reach,
    ) -> Result<(), AllocError>
        requires fits { IsPreparedFor PAGES self.now staged.old }
        requires cell { IsCell PAGES cell }
        requires first { IsFirstWrite (machine NW PAGES) (trace_of NW PAGES K self.now) (cell_of cell) reach.from (K * staged.old.count) reach.wrote }
        ensures fits { OnOk result (IsPreparedFor PAGES self.now staged.new) }
        ensures near { OnOk result (Near (machine NW PAGES) K (prepared_trace NW PAGES K self.now staged.new) (set_poke (machine NW PAGES) K (prepared_trace NW PAGES K self.now staged.old) (cell_of cell) (content_of content) reach.from reach.to)) }
    {
        let _points = &self.points;
        let below = self.kept_below(staged, cell, reach);
        let low = (reach.from / K) as usize + 1;
        self.spread_content(alloc, staged, cell, content, low, reach)?;
        match below {
            Some(kept) => {
                self.keep(staged, reach.from, cell, Some(kept))?;
                Ok(())
            }
            None => Ok(()),
        }
    }

    /// An event no longer sets the cell.
    fn uncover_cell(
        &self,
        alloc: Global,
        staged: &mut Staged,
        cell: Cell,
        reach: Reach,
    ) -> Result<(), AllocError>
        requires fits { IsPreparedFor PAGES self.now staged.old }
        requires cell { IsCell PAGES cell }
        requires first { IsFirstWrite (machine NW PAGES) (trace_of NW PAGES K self.now) (cell_of cell) reach.from (K * staged.old.count) reach.wrote }
        ensures fits { OnOk result (IsPreparedFor PAGES self.now staged.new) }
        ensures near { OnOk result (Near (machine NW PAGES) K (prepared_trace NW PAGES K self.now staged.new) (uncover (machine NW PAGES) (prepared_trace NW PAGES K self.now staged.old) (cell_of cell) reach.from reach.to ((prepared_trace NW PAGES K self.now staged.old).kept reach.from (cell_of cell)))) }
    {
        let _points = &self.points;
        match self.kept_value(staged, reach.from, cell) {
            None => Ok(()),
            Some(content) => {
                let low = (reach.from / K) as usize + 1;
                self.spread_content(alloc, staged, cell, content, low, reach)?;
                self.keep(staged, reach.from, cell, None)?;
                Ok(())
            }
        }
    }

    /// What one patch makes of the trace that is to be.
    fn apply(&self, alloc: Global, staged: &mut Staged, patch: Patch) -> Result<(), AllocError>
        requires fits { IsPreparedFor PAGES self.now staged.old }
        requires patch { IsPatch PAGES patch }
        ensures fits { OnOk result (IsPreparedFor PAGES self.now staged.new) }
        ensures near { OnOk result (Near (machine NW PAGES) K (prepared_trace NW PAGES K self.now staged.new) (history.patch (machine NW PAGES) K (prepared_trace NW PAGES K self.now staged.old) (change_of NW PAGES patch))) }
    {
        let cell = patch.cell;
        let reach = Reach {
            from: patch.from,
            to: patch.to,
            wrote: self.first_write(cell, patch.from, staged.count),
        };
        match patch.cause {
            Cause::Source(content) => self.apply_source(alloc, staged, cell, content, reach),
            Cause::Poke(content) => self.apply_poke(alloc, staged, cell, content, reach),
            Cause::Uncover => self.uncover_cell(alloc, staged, cell, reach),
        }
    }

    /// Builds what patches make of the trace, one after the other, once it is cut to `cut` recorded steps.
    ///
    /// # Errors
    ///
    /// `AllocError` where memory for what changes cannot be had.
    pub fn prepare(
        &self,
        alloc: Global,
        patches: &[Patch],
        cut: u32,
    ) -> Result<Prepared, AllocError>
        requires patches { All (IsPatch PAGES) patches.now }
        requires cut { cut ≤ recorded K self.now }
        requires whole { cut % K ≡ 0 }
        ensures fits { IfOk result (λ p. IsPreparedFor PAGES self.now p) }
        ensures prepared { IfOk result (λ p. Near (machine NW PAGES) K (prepared_trace NW PAGES K self.now p)
            (history.patch_all (machine NW PAGES) K (history.cut (machine NW PAGES) K (trace_of NW PAGES K self.now) (cut / K)) (changes_of NW PAGES patches.now))) }
    {
        let _points = &self.points;
        let mut staged = self.stage(alloc, (cut / K) as usize)?;
        for patch in patches {
            self.apply(alloc, &mut staged, *patch)?;
        }
        let prepared = staged.finish(alloc)?;
        Ok(prepared)
    }
}
