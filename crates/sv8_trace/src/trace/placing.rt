//! What was prepared is put in its place, which takes no memory.

ghost use Rattle.std.specs.Prelude.{◌≡◌, ℕ, ◌+◌, ◌<◌, ◌≤◌, ◌/◌, ◌%◌, [], length, slice_index_or, None, OnOk, OnErr};
ghost use Rattle.std.specs.List.{All};
ghost use Rattle.sv8_history.specs.Trace.{Agrees};
ghost use Rattle.sv8_history.specs.Patches.{cut, patch_all};
ghost use Rattle.sv8_cpu.specs.Recorded.{machine};
ghost use Rattle.sv8_cpu.specs.Patches.{changes_of, IsPatch};
ghost use Rattle.sv8_trace.specs.Recording.{no_interval, recorded, trace_of};
ghost use Rattle.sv8_trace.specs.Prepared.{IsPreparedFor, IsPlaced};
ghost use Rattle.sv8_trace.specs.Placing.{with_kept};

use crate::finished::Finished;
use crate::prepared::Prepared;
use crate::trace::Trace;
use std::alloc::{AllocError, Global};
use sv8_notes::{KeptList, Patch};

/// Puts a list of kept values in its place.
fn place_list(interval: &mut Finished, list: Option<KeptList>)
    ensures { interval.new ≡ with_kept list interval.old }
{
    if let Some(kept) = list {
        interval.set_kept(kept);
    }
}

/// Puts the lists of kept values in their places.
fn place_lists(intervals: &mut Vec<Finished>, lists: Vec<Option<KeptList>>)
    requires length { length lists.items ≡ length intervals.old.items }
    ensures length { length intervals.new.items ≡ length intervals.old.items }
    ensures lists { (i : ℕ) → i < length intervals.old.items → slice_index_or intervals.new.items i no_interval ≡ with_kept (slice_index_or lists.items i None) (slice_index_or intervals.old.items i no_interval) }
{
    let mut index = 0;
    for list in lists {
        place_list(&mut intervals[index], list);
        index += 1;
    }
}

impl<const NW: usize, const PAGES: usize, const K: u32> Trace<NW, PAGES, K> {
    /// Puts what was prepared in its place. It takes no memory.
    pub fn commit(&mut self, prepared: Prepared)
        requires { IsPreparedFor PAGES self.old prepared }
        ensures { IsPlaced NW PAGES K self.old prepared self.new }
    {
        let Prepared {
            count,
            pages,
            levels,
            kept,
        } = prepared;
        self.points.truncate(count + 1);
        self.intervals.truncate(count);
        self.points.place(pages, levels);
        place_lists(&mut self.intervals, kept);
    }

    /// Patches the trace.
    ///
    /// # Errors
    ///
    /// `AllocError` where memory for what changes cannot be had. The trace is then as it was.
    pub fn patch(&mut self, alloc: Global, patches: &[Patch]) -> Result<(), AllocError>
        requires patches { All (IsPatch PAGES) patches.now }
        ensures ok { OnOk result (Agrees (machine NW PAGES) K (patch_all (machine NW PAGES) K (trace_of NW PAGES K self.old) (changes_of NW PAGES patches.now)) (trace_of NW PAGES K self.new)) }
        ensures err { OnErr result (self.new ≡ self.old) }
    {
        let _points = &self.points;
        let recorded = self.recorded();
        let prepared = self.prepare(alloc, patches, recorded)?;
        self.commit(prepared);
        Ok(())
    }

    /// Cuts the trace to so many recorded steps, a multiple of `K` that is not above `recorded()`.
    ///
    /// # Errors
    ///
    /// `AllocError` where memory cannot be had. The trace is then as it was.
    pub fn cut(&mut self, alloc: Global, steps: u32) -> Result<(), AllocError>
        requires some { steps ≤ recorded K self.old }
        requires whole { steps % K ≡ 0 }
        ensures ok { OnOk result (Agrees (machine NW PAGES) K (cut (machine NW PAGES) K (trace_of NW PAGES K self.old) (steps / K)) (trace_of NW PAGES K self.new)) }
        ensures err { OnErr result (self.new ≡ self.old) }
    {
        let prepared = self.prepare(alloc, &[], steps)?;
        self.commit(prepared);
        Ok(())
    }
}
