//! What a crate above has recorded of a workbench's run.

ghost use Rattle.std.specs.Prelude.{◌≡◌, ◌+◌, ◌≤◌, OnOk, OnErr};
ghost use Rattle.sv8_trace.specs.Recorder.{steps_on, IsRecorded};
ghost use Rattle.sv8_trace.specs.Recording.{last_point, recorded};
ghost use Rattle.sv8_bench.specs.Workbench.{checkpoints};

use crate::bench::Bench;
use std::alloc::AllocError;
use sv8_cpu::Machine;
use sv8_trace::Interval;

impl<const NW: usize, const PAGES: usize, const K: u32> Bench<NW, PAGES, K> {
    /// Adds the next checkpoint to the recorded run: the machine that the next `K` steps lead to from the last one, and what is
    /// recorded of these steps. The steps are counted where they are made (`count_step`).
    ///
    /// # Errors
    ///
    /// `AllocError` where memory for it cannot be had. The workbench is then as it was.
    pub fn add_interval(
        &mut self,
        machine: Machine<NW, PAGES>,
        interval: Interval,
    ) -> Result<(), AllocError>
        requires room { recorded K self.old.recording + K ≤ 1000000 }
        requires state { machine ≡ steps_on NW PAGES self.old.kept.timeline (recorded K self.old.recording) (last_point self.old.recording) K }
        requires steps { IsRecorded NW PAGES self.old.kept.timeline (recorded K self.old.recording) (last_point self.old.recording) K interval }
        ensures kept { self.new.kept ≡ self.old.kept }
        ensures worked { self.new.worked ≡ self.old.worked }
        ensures longer { OnOk result (checkpoints self.new ≡ checkpoints self.old + 1) }
        ensures last { OnOk result (last_point self.new.recording ≡ machine.entry) }
        ensures refused { OnErr result (self.new ≡ self.old) }
    {
        self.trace.add(self.alloc, machine, interval)
    }
}
