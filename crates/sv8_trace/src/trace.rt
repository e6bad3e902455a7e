//! The recorded run.

ghost use Rattle.std.specs.Prelude.{◌≡◌, ◌+◌, ◌*◌, ◌<◌, ◌≤◌, ◌/◌, ◌++◌, ◌∷◌, [], length, IfOk, OnOk, OnErr};
ghost use Rattle.sv8_time.specs.Schedule.{Schedule, bytes_below};
ghost use Rattle.sv8_phys.specs.Memory.{ram_size};
ghost use Rattle.sv8_history.specs.Growing.{restored};
ghost use Rattle.sv8_trace.specs.Checkpoints.{IsCheckpoint};
ghost use Rattle.sv8_trace.specs.Recorder.{steps_on, IsRecorded, RaisedUpTo};
ghost use Rattle.sv8_cpu.specs.Work.{counted_by};
ghost use Rattle.sv8_trace.specs.Recording.{fresh, last_point, recorded, trace_of, IsExtended};

mod copying;
mod edits;
mod intervals;
mod placing;
mod preparing;
mod search;

use crate::checkpoint::Checkpoint;
use crate::finished::Finished;
use crate::interval::Interval;
use crate::open_interval::OpenInterval;
use crate::points::Points;
use crate::recorder::record;
use std::alloc::{AllocError, Global};
use std::marker::Model;
use sv8_cpu::{Machine, Work};
use sv8_notes::Marks;
use sv8_time::Timeline;

/// The recorded run of a machine with `NW` register windows (2 to 32) and `PAGES` pages of RAM (1 to 65,536): a checkpoint of every
/// `K`th step (1 to 1,000,000) from step 0 on, and of the steps between what each touched.
pub struct Trace<const NW: usize, const PAGES: usize, const K: u32> {
    points: Points<NW, PAGES>,
    intervals: Vec<Finished>,
    marks: Marks,
    /// A place for the interval under way.
    open: OpenInterval,
}

// Written out, so that crates above prove no drop of its parts.
impl<const NW: usize, const PAGES: usize, const K: u32> Drop for Trace<NW, PAGES, K> {
    fn drop(self) {
        let Trace {
            points: _,
            intervals: _,
            marks: _,
            open: _,
        } = self;
    }
}

impl<const NW: usize, const PAGES: usize, const K: u32> Model for Trace<NW, PAGES, K> {
    ghost use Rattle.std.specs.Prelude.{◌≡◌, ◌+◌, ◌*◌, ◌≤◌, length};
    ghost use Rattle.sv8_trace.specs.Recording.{Recording};
    ghost use Rattle.sv8_trace.specs.Marks.{AreMarked};
    ghost use Rattle.sv8_trace.specs.Placing.{AreSound};

    ghost Value = { Recording };

    ghost view = { λ t. record { points = t.points; intervals = t.intervals.items } };

    ghost invariant = { λ t. (2 ≤ NW) × (NW ≤ 32) × (PAGES ≤ 65536) × (1 ≤ K) × (K ≤ 1000000)
        × (length t.points ≡ length t.intervals.items + 1) × (K * length t.intervals.items ≤ 1000000)
        × AreSound PAGES t.points
        × AreMarked t.marks t.intervals.items };
}

impl<const NW: usize, const PAGES: usize, const K: u32> Trace<NW, PAGES, K> {
    /// A trace in which nothing is recorded but the state of step 0, which is that of a machine.
    ///
    /// # Errors
    ///
    /// `AllocError` where memory for it cannot be had; the machine is then given up.
    pub fn new(alloc: Global, machine: Machine<NW, PAGES>) -> Result<Self, AllocError>
        requires some_windows { 2 ≤ NW }
        requires few_windows { NW ≤ 32 }
        requires few_pages { PAGES ≤ 65536 }
        requires some_steps { 1 ≤ K }
        requires few_steps { K ≤ 1000000 }
        ensures { IfOk result (λ t. t ≡ fresh machine.entry) }
    {
        let points = Points::new(alloc, machine)?;
        Ok(Trace {
            points,
            intervals: Vec::new(alloc),
            marks: Marks::new(alloc),
            open: OpenInterval::new(alloc),
        })
    }

    /// The number of recorded steps, a multiple of `K`: that many steps from step 0 on have notes, and each multiple of `K` up to it
    /// has a checkpoint.
    pub fn recorded(&self) -> u32
        ensures steps { result ≡ recorded K self.now }
        ensures bound { result ≤ 1000000 }
    {
        let _points = &self.points;
        K * self.intervals.len() as u32
    }

    /// The machine of the last checkpoint that is not above a step.
    ///
    /// # Errors
    ///
    /// `AllocError` where memory for it cannot be had.
    pub fn restore(&self, alloc: Global, step: u32) -> Result<Machine<NW, PAGES>, AllocError>
        ensures { IfOk result (λ m. m ≡ (trace_of NW PAGES K self.now).point (restored K (length self.now.intervals) step)) }
    {
        let count = self.intervals.len();
        let index = count.min((step / K) as usize);
        let machine = self.points.snapshot(alloc, index)?;
        Ok(machine)
    }

    /// What is read of the last checkpoint that is not above a step.
    pub fn checkpoint(&self, step: u32) -> Checkpoint
        ensures { IsCheckpoint ((trace_of NW PAGES K self.now).point (restored K (length self.now.intervals) step)) result }
    {
        let count = self.intervals.len();
        let index = count.min((step / K) as usize);
        self.points.checkpoint(index)
    }

    /// Makes the next `K` steps from the last checkpoint, under a timeline, and records them. `work` counts them.
    ///
    /// # Errors
    ///
    /// `AllocError` where memory for the steps or their record cannot be had. The trace is then as it was, and `work` counts the
    /// steps that were made.
    pub fn extend(
        &mut self,
        alloc: Global,
        timeline: &Timeline,
        work: &mut Work,
    ) -> Result<(), AllocError>
        requires limit { timeline.now.limit ≡ ram_size PAGES }
        requires room { recorded K self.old + K ≤ 1000000 }
        requires delivered { (last_point self.old).memory.taken ≤ bytes_below (recorded K self.old) timeline.now.inputs }
        ensures longer { OnOk result (length self.new.intervals ≡ length self.old.intervals + 1) }
        ensures extended { OnOk result (IsExtended NW PAGES K timeline.now self.old self.new) }
        ensures delivered { OnOk result ((last_point self.new).memory.taken ≤ bytes_below (recorded K self.new) timeline.now.inputs) }
        ensures counted { OnOk result (work.new ≡ counted_by K work.old) }
        ensures raised { RaisedUpTo K work.old work.new }
        ensures refused { OnErr result (self.new ≡ self.old) }
    {
        let count = self.intervals.len();
        let machine = self.points.snapshot(alloc, count)?;
        let n = K * count as u32;
        let (machine, interval) = record(machine, timeline, n, K, &mut self.open, work)?;
        self.add(alloc, machine, interval)?;
        Ok(())
    }

    /// Adds a checkpoint and the interval in front of it. The record goes on with the run where these are the machine that the
    /// next `K` steps lead to from the last checkpoint, and what is recorded of these steps.
    ///
    /// # Errors
    ///
    /// `AllocError` where memory for it cannot be had. The trace is then as it was.
    pub fn add(
        &mut self,
        alloc: Global,
        machine: Machine<NW, PAGES>,
        interval: Interval,
    ) -> Result<(), AllocError>
        requires room { recorded K self.old + K ≤ 1000000 }
        ensures points { OnOk result (self.new.points ≡ self.old.points ++ machine.entry ∷ []) }
        ensures intervals { OnOk result (self.new.intervals ≡ self.old.intervals ++ interval ∷ []) }
        ensures longer { OnOk result (length self.new.intervals ≡ length self.old.intervals + 1) }
        ensures last { OnOk result (last_point self.new ≡ machine.entry) }
        ensures extended { OnOk result ((schedule : Schedule) → machine.entry ≡ steps_on NW PAGES schedule (recorded K self.old) (last_point self.old) K
            → IsRecorded NW PAGES schedule (recorded K self.old) (last_point self.old) K interval → IsExtended NW PAGES K schedule self.old self.new) }
        ensures refused { OnErr result (self.new ≡ self.old) }
    {
        let count = self.intervals.len() as u32 + 1;
        interval.notes.mark_words(alloc, &mut self.marks, count)?;
        let finished = Finished::new(alloc, interval)?;
        self.intervals.push(finished)?;
        match self.points.push(alloc, machine) {
            Ok(()) => Ok(()),
            Err(failed) => {
                self.intervals.pop();
                Err(failed)
            }
        }
    }
}
