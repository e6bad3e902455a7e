//! Steps beyond the last checkpoint that are recorded one at a time, so that each can be watched.

ghost use Rattle.std.specs.Prelude.{◌≡◌, ◌+◌, ◌<◌, ◌≤◌, OnOk, OnErr};
ghost use Rattle.sv8_cpu.specs.Run.{footprint, observed};
ghost use Rattle.sv8_trace.specs.Recorder.{steps_on, IsRecorded};
ghost use Rattle.sv8_trace.specs.Recording.{last_point, no_interval, recorded};
ghost use Rattle.sv8_workbench.specs.Shown.{machine_state};
ghost use Rattle.sv8_bench.specs.Workbench.{checkpoints};
ghost use Rattle.sv8_walks.specs.Drafts.{Drafted, IsDraft};
ghost use Rattle.sv8_walks.specs.Made.{HasRoom, IsMade, IsUnmade};

use std::alloc::{AllocError, Global};
use std::marker::Model;
use sv8_bench::Bench;
use sv8_cpu::Machine;
use sv8_touches::Watch;
use sv8_trace::{OpenInterval, record_watched};

/// A machine beyond the last checkpoint of a workbench's run, with what is recorded of the steps since.
#[derive(Drop)]
pub struct Draft<const NW: usize, const PAGES: usize> {
    machine: Machine<NW, PAGES>,
    interval: OpenInterval,
    count: u32,
}

impl<const NW: usize, const PAGES: usize> Model for Draft<NW, PAGES> {
    ghost use Rattle.sv8_walks.specs.Drafts.{Drafted};
    ghost use Rattle.sv8_trace.specs.Recorder.{so_far};

    ghost Value = { Drafted };

    ghost view = { λ d. record { state = d.machine; interval = so_far d.interval; count = d.count } };
}

impl<const NW: usize, const PAGES: usize> Draft<NW, PAGES> {
    /// A draft of no steps, from the machine of the last checkpoint.
    pub(crate) fn new(alloc: Global, machine: Machine<NW, PAGES>) -> Self
        requires { NW ≤ 32 }
        ensures { result ≡ record { state = machine.entry; interval = no_interval; count = 0 } }
    {
        Draft {
            machine,
            interval: OpenInterval::new(alloc),
            count: 0,
        }
    }

    /// The machine after the steps of the draft.
    pub(crate) fn machine(&self) -> &Machine<NW, PAGES>
        ensures { result.now ≡ self.now.state }
    {
        &self.machine
    }

    /// Records the steps of the draft, which have led to the next checkpoint. The draft begins anew there.
    fn finish<const K: u32>(&mut self, bench: &mut Bench<NW, PAGES, K>) -> Result<(), AllocError>
        requires room { HasRoom K bench.old.recording }
        requires state { self.old.state ≡ steps_on NW PAGES bench.old.kept.timeline (recorded K bench.old.recording) (last_point bench.old.recording) K }
        requires steps { IsRecorded NW PAGES bench.old.kept.timeline (recorded K bench.old.recording) (last_point bench.old.recording) K self.old.interval }
        ensures kept { bench.new.kept ≡ bench.old.kept }
        ensures worked { bench.new.worked ≡ bench.old.worked }
        ensures longer { OnOk result (checkpoints bench.new ≡ checkpoints bench.old + 1) }
        ensures last { OnOk result (last_point bench.new.recording ≡ self.old.state) }
        ensures fresh { OnOk result (self.new ≡ record { state = self.old.state; interval = no_interval; count = 0 }) }
        ensures refused { OnErr result (bench.new ≡ bench.old) }
    {
        bench.sizes();
        let reached = self.machine.snapshot(bench.alloc())?;
        let interval = self.interval.copy()?;
        bench.add_interval(reached, interval)?;
        self.interval.clear();
        self.count = 0;
        Ok(())
    }

    /// Makes the next step. `watch` has afterwards what the step touches, and what an observer sees of it. If it leads to the
    /// next checkpoint, it is recorded with those since the last one.
    ///
    /// # Errors
    ///
    /// `AllocError` where memory for the step or its record cannot be had. What the draft is then is not said. The recorded
    /// run is as it was.
    pub(crate) fn step<const K: u32>(
        &mut self,
        bench: &mut Bench<NW, PAGES, K>,
        step: u32,
        watch: &mut Watch,
    ) -> Result<(), AllocError>
        requires within { step < 1000000 }
        requires state { self.old.state ≡ machine_state bench.old.kept step }
        requires room { HasRoom K bench.old.recording }
        requires draft { IsDraft bench.old.kept.windows bench.old.kept.pages K bench.old.kept.timeline bench.old.recording self.old }
        requires step { step ≡ recorded K bench.old.recording + self.old.count }
        ensures state { OnOk result (self.new.state ≡ machine_state bench.new.kept (step + 1)) }
        ensures draft { OnOk result (IsDraft bench.new.kept.windows bench.new.kept.pages K bench.new.kept.timeline bench.new.recording self.new) }
        ensures step { OnOk result (step + 1 ≡ recorded K bench.new.recording + self.new.count) }
        ensures touches { OnOk result (watch.new.touches
            ≡ footprint bench.old.kept.windows bench.old.kept.pages bench.old.kept.timeline step (machine_state bench.old.kept step)) }
        ensures observations { OnOk result (watch.new.observations
            ≡ observed bench.old.kept.windows bench.old.kept.pages bench.old.kept.timeline step (machine_state bench.old.kept step)) }
        ensures made { OnOk result (IsMade K step bench.old bench.new) }
        ensures unmade { OnErr result (IsUnmade bench.old bench.new) }
    {
        bench.sizes();
        record_watched(
            &mut self.machine,
            bench.timeline(),
            step,
            self.count,
            &mut self.interval,
            watch,
        )?;
        bench.count_step();
        self.count += 1;
        if self.count < K {
            return Ok(());
        }
        self.finish(bench)?;
        Ok(())
    }
}
