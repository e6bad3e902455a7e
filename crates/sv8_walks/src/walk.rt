//! A walk through the steps of a workbench's run, one by one, so that each can be watched.

ghost use Rattle.std.specs.Prelude.{◌≡◌, ◌+◌, ◌-◌, ◌/◌, ◌%◌, ◌<◌, ◌≤◌, ◌⊎◌, true, IfOk, OnOk, OnErr};
ghost use Rattle.sv8_cpu.specs.Run.{footprint, observed};
ghost use Rattle.sv8_trace.specs.Recorder.{RaisedUpTo};
ghost use Rattle.sv8_cpu.specs.Work.{counted_by};
ghost use Rattle.sv8_trace.specs.Recording.{recorded};
ghost use Rattle.sv8_walks.specs.Made.{IsMade, IsUnmade};
ghost use Rattle.sv8_workbench.specs.Shown.{machine_state};
ghost use Rattle.sv8_bench.specs.Workbench.{checkpoints, IsAnswered, IsGivenUp};
ghost use Rattle.sv8_walks.specs.Walks.{state_in, IsReady, IsWalk};

use crate::draft::Draft;
use std::alloc::AllocError;
use sv8_bench::{Bench, LAST_STEP};
use sv8_cpu::Machine;
use sv8_touches::Watch;

/// Where a walk stands.
#[derive(Drop)]
pub enum Place<const NW: usize, const PAGES: usize> {
    /// Not above the last checkpoint, or where no checkpoint can follow: its steps are not recorded.
    Restored(Machine<NW, PAGES>),
    /// Above the last checkpoint: its steps are recorded once they lead to the next one.
    Drafted(Draft<NW, PAGES>),
}

/// A walk that has come to a step of a workbench's run. An edit of the workbench ends it: what a walk has to be is a condition of each
/// call (`IsWalk`).
#[derive(Drop)]
pub struct Walk<const NW: usize, const PAGES: usize> {
    pub step: u32,
    pub place: Place<NW, PAGES>,
}

impl<const NW: usize, const PAGES: usize> Place<NW, PAGES> {
    fn machine(&self) -> &Machine<NW, PAGES>
        ensures { result.now ≡ state_in self.now }
    {
        match self {
            Place::Restored(machine) => machine,
            Place::Drafted(draft) => draft.machine(),
        }
    }
}

impl<const NW: usize, const PAGES: usize> Walk<NW, PAGES> {
    /// The step that it has come to.
    pub fn step(&self) -> u32
        ensures { result ≡ self.now.step }
    {
        self.step
    }

    /// The machine at that step.
    pub fn machine(&self) -> &Machine<NW, PAGES>
        ensures { result.now ≡ state_in self.now.place }
    {
        self.place.machine()
    }

    /// Begins a walk at a step. What is not recorded up to the last checkpoint that is not above the step is recorded.
    /// `watch` is a place for notes, which mean nothing afterwards.
    ///
    /// # Errors
    ///
    /// `AllocError` where memory for it cannot be had.
    pub fn begin<const K: u32>(
        bench: &mut Bench<NW, PAGES, K>,
        step: u32,
        watch: &mut Watch,
    ) -> Result<Walk<NW, PAGES>, AllocError>
        requires step { step ≤ 1000000 }
        ensures walk { IfOk result (λ w. IsWalk K bench.new w) }
        ensures step { IfOk result (λ w. w.step ≡ step) }
        ensures answered { OnOk result (IsAnswered K step bench.old bench.new) }
        ensures given_up { IsGivenUp K step bench.old bench.new }
    {
        bench.sizes();
        bench.record_below(step)?;
        let mut walk = restored(bench, step)?;
        walk.go_to(bench, step, watch)?;
        Ok(walk)
    }

    /// Makes the next step. `watch` has afterwards what the step touches, and what an observer sees of it. A step that leads to
    /// the next checkpoint is recorded, with those of the walk since the last one.
    ///
    /// # Errors
    ///
    /// `AllocError` where memory for the step or its record cannot be had. The walk is given up: where it stands is not
    /// said. The recorded run is as it was.
    #[inline(always)]
    pub fn go_on<const K: u32>(
        &mut self,
        bench: &mut Bench<NW, PAGES, K>,
        watch: &mut Watch,
    ) -> Result<(), AllocError>
        requires walk { IsWalk K bench.old self.old }
        requires within { self.old.step < 1000000 }
        ensures walk { OnOk result (IsWalk K bench.new self.new) }
        ensures step { OnOk result (self.new.step ≡ self.old.step + 1) }
        ensures touches { OnOk result (watch.new.touches
            ≡ footprint bench.old.kept.windows bench.old.kept.pages bench.old.kept.timeline self.old.step (machine_state bench.old.kept self.old.step)) }
        ensures observations { OnOk result (watch.new.observations
            ≡ observed bench.old.kept.windows bench.old.kept.pages bench.old.kept.timeline self.old.step (machine_state bench.old.kept self.old.step)) }
        ensures made { OnOk result (IsMade K self.old.step bench.old bench.new) }
        ensures unmade { OnErr result (IsUnmade bench.old bench.new) }
    {
        self.make_ready(bench)?;
        self.make_next::<K, true, 0>(bench, watch)
    }

    /// The same with nothing seen of the step, which takes less time. `watch` is a place for notes, which mean nothing
    /// afterwards.
    ///
    /// `SITE` tells the places apart that make steps in a loop, and means nothing but to the built program: a site has a
    /// step of its own, which the compiler puts into the loop, since nothing else calls it. 0 stands for all other places,
    /// and 1 for `go_to`.
    ///
    /// # Errors
    ///
    /// Those of `go_on`.
    #[inline(always)]
    pub fn pass<const K: u32, const SITE: usize>(
        &mut self,
        bench: &mut Bench<NW, PAGES, K>,
        watch: &mut Watch,
    ) -> Result<(), AllocError>
        requires walk { IsWalk K bench.old self.old }
        requires within { self.old.step < 1000000 }
        ensures walk { OnOk result (IsWalk K bench.new self.new) }
        ensures step { OnOk result (self.new.step ≡ self.old.step + 1) }
        ensures made { OnOk result (IsMade K self.old.step bench.old bench.new) }
        ensures unmade { OnErr result (IsUnmade bench.old bench.new) }
    {
        self.make_ready(bench)?;
        self.make_next::<K, false, SITE>(bench, watch)
    }

    /// Makes the steps up to another one, which is recorded up to its last checkpoint, with nothing seen of them. `watch` is a
    /// place for notes, which mean nothing afterwards.
    ///
    /// # Errors
    ///
    /// Those of `go_on`.
    pub fn go_to<const K: u32>(
        &mut self,
        bench: &mut Bench<NW, PAGES, K>,
        step: u32,
        watch: &mut Watch,
    ) -> Result<(), AllocError>
        requires walk { IsWalk K bench.old self.old }
        requires ordered { self.old.step ≤ step }
        requires within { step ≤ 1000000 }
        requires recorded { step / K ≤ checkpoints bench.old }
        ensures walk { OnOk result (IsWalk K bench.new self.new) }
        ensures step { OnOk result (self.new.step ≡ step) }
        ensures kept { bench.new.kept ≡ bench.old.kept }
        ensures recorded { checkpoints bench.new ≡ checkpoints bench.old }
        ensures counted { OnOk result (bench.new.worked ≡ counted_by (step - self.old.step) bench.old.worked) }
        ensures raised { RaisedUpTo (step - self.old.step) bench.old.worked bench.new.worked }
    {
        bench.sizes();
        let recorded = bench.recorded();
        let begun = self.step;
        if let Place::Restored(machine) = &mut self.place {
            if step <= recorded {
                pass_recorded(bench, machine, begun, step, watch)?;
                self.step = step;
                return Ok(());
            }
        }
        while self.step() < step {
            self.pass::<K, 0>(bench, watch)?;
        }
        Ok(())
    }

    /// Whether it stands where its next step can be made: on the record of the steps since the last checkpoint, where the step is
    /// above that and another checkpoint can follow, else on the machine alone.
    #[inline(always)]
    fn is_ready<const K: u32>(&self, bench: &Bench<NW, PAGES, K>) -> bool
        requires walk { IsWalk K bench.now self.now }
        ensures { result ≡ true → IsReady K bench.now self.now.step self.now.place }
    {
        let recorded = bench.recorded();
        let has_room = recorded + K <= LAST_STEP;
        match &self.place {
            Place::Restored(_) => self.step < recorded || !has_room,
            Place::Drafted(_) => has_room,
        }
    }

    /// Has it stand there. Few steps need it.
    #[inline(never)]
    fn take_place<const K: u32>(&mut self, bench: &Bench<NW, PAGES, K>) -> Result<(), AllocError>
        requires walk { IsWalk K bench.now self.old }
        ensures walk { OnOk result (IsWalk K bench.now self.new) }
        ensures step { OnOk result (self.new.step ≡ self.old.step) }
        ensures ready { OnOk result (IsReady K bench.now self.new.step self.new.place) }
    {
        bench.sizes();
        let recorded = bench.recorded();
        let has_room = recorded + K <= LAST_STEP;
        match &self.place {
            Place::Restored(_) => {
                if self.step < recorded || !has_room {
                    return Ok(());
                }
                let machine = self.machine().snapshot(bench.alloc())?;
                self.place = Place::Drafted(Draft::new(bench.alloc(), machine));
            }
            Place::Drafted(draft) => {
                if has_room {
                    return Ok(());
                }
                let machine = draft.machine().snapshot(bench.alloc())?;
                self.place = Place::Restored(machine);
            }
        }
        Ok(())
    }

    /// The same, where it does not stand there.
    #[inline(always)]
    fn make_ready<const K: u32>(&mut self, bench: &Bench<NW, PAGES, K>) -> Result<(), AllocError>
        requires walk { IsWalk K bench.now self.old }
        ensures walk { OnOk result (IsWalk K bench.now self.new) }
        ensures step { OnOk result (self.new.step ≡ self.old.step) }
        ensures ready { OnOk result (IsReady K bench.now self.new.step self.new.place) }
    {
        if self.is_ready(bench) {
            return Ok(());
        }
        self.take_place(bench)?;
        Ok(())
    }

    /// Makes the next step, where it stands so that it can be made.
    #[inline(always)]
    fn make_next<const K: u32, const SEEN: bool, const SITE: usize>(
        &mut self,
        bench: &mut Bench<NW, PAGES, K>,
        watch: &mut Watch,
    ) -> Result<(), AllocError>
        requires walk { IsWalk K bench.old self.old }
        requires within { self.old.step < 1000000 }
        requires ready { IsReady K bench.old self.old.step self.old.place }
        ensures walk { OnOk result (IsWalk K bench.new self.new) }
        ensures step { OnOk result (self.new.step ≡ self.old.step + 1) }
        ensures touches { OnOk result (SEEN ≡ true → watch.new.touches
            ≡ footprint bench.old.kept.windows bench.old.kept.pages bench.old.kept.timeline self.old.step (machine_state bench.old.kept self.old.step)) }
        ensures observations { OnOk result (SEEN ≡ true → watch.new.observations
            ≡ observed bench.old.kept.windows bench.old.kept.pages bench.old.kept.timeline self.old.step (machine_state bench.old.kept self.old.step)) }
        ensures made { OnOk result (IsMade K self.old.step bench.old bench.new) }
        ensures unmade { OnErr result (IsUnmade bench.old bench.new) }
    {
        let step = self.step;
        match &mut self.place {
            Place::Restored(machine) => {
                step_restored::<NW, PAGES, K, SEEN, SITE>(bench, machine, step, watch)?;
            }
            Place::Drafted(draft) => draft.step(bench, step, watch)?,
        }
        self.step = step + 1;
        Ok(())
    }
}

/// A walk at the last checkpoint that is not above a step.
fn restored<const NW: usize, const PAGES: usize, const K: u32>(
    bench: &Bench<NW, PAGES, K>,
    step: u32,
) -> Result<Walk<NW, PAGES>, AllocError>
    requires step { step ≤ 1000000 }
    requires recorded { step / K ≤ checkpoints bench.now }
    ensures walk { IfOk result (λ w. IsWalk K bench.now w) }
    ensures step { IfOk result (λ w. w.step ≡ step - step % K) }
{
    bench.sizes();
    let _recorded = bench.recorded();
    let machine = bench.trace().restore(bench.alloc(), step)?;
    Ok(Walk {
        step: step - step % K,
        place: Place::Restored(machine),
    })
}

/// Makes a step of which nothing is recorded, since it is recorded already or no checkpoint can follow.
#[inline(always)]
fn step_restored<
    const NW: usize,
    const PAGES: usize,
    const K: u32,
    const SEEN: bool,
    const SITE: usize,
>(
    bench: &mut Bench<NW, PAGES, K>,
    machine: &mut Machine<NW, PAGES>,
    step: u32,
    watch: &mut Watch,
) -> Result<(), AllocError>
    requires within { step < 1000000 }
    requires state { machine.old ≡ machine_state bench.old.kept step }
    requires placed { (step < recorded K bench.old.recording) ⊎ (1000000 < recorded K bench.old.recording + K) }
    ensures state { OnOk result (machine.new ≡ machine_state bench.new.kept (step + 1)) }
    ensures placed { OnOk result ((step + 1 ≤ recorded K bench.new.recording) ⊎ (1000000 < recorded K bench.new.recording + K)) }
    ensures touches { OnOk result (SEEN ≡ true → watch.new.touches
        ≡ footprint bench.old.kept.windows bench.old.kept.pages bench.old.kept.timeline step (machine_state bench.old.kept step)) }
    ensures observations { OnOk result (SEEN ≡ true → watch.new.observations
        ≡ observed bench.old.kept.windows bench.old.kept.pages bench.old.kept.timeline step (machine_state bench.old.kept step)) }
    ensures made { OnOk result (IsMade K step bench.old bench.new) }
    ensures unmade { OnErr result (bench.new ≡ bench.old) }
{
    bench.sizes();
    if SEEN {
        watch.clear();
        machine.watch(step, bench.timeline(), watch)?;
    } else {
        machine.pass(step, bench.timeline())?;
    }
    bench.count_step();
    Ok(())
}

/// Makes recorded steps of a machine, with nothing seen of them. `watch` is a place for notes, which mean nothing
/// afterwards.
#[inline(always)]
fn pass_recorded<const NW: usize, const PAGES: usize, const K: u32>(
    bench: &mut Bench<NW, PAGES, K>,
    machine: &mut Machine<NW, PAGES>,
    from: u32,
    to: u32,
    watch: &mut Watch,
) -> Result<(), AllocError>
    requires ordered { from ≤ to }
    requires within { to ≤ 1000000 }
    requires state { machine.old ≡ machine_state bench.old.kept from }
    requires recorded { to ≤ recorded K bench.old.recording }
    ensures state { OnOk result (machine.new ≡ machine_state bench.new.kept to) }
    ensures kept { bench.new.kept ≡ bench.old.kept }
    ensures recorded { checkpoints bench.new ≡ checkpoints bench.old }
    ensures counted { OnOk result (bench.new.worked ≡ counted_by (to - from) bench.old.worked) }
    ensures raised { RaisedUpTo (to - from) bench.old.worked bench.new.worked }
{
    bench.sizes();
    // A range would be taken apart and put together again at each step.
    let mut n = from;
    while n < to {
        step_restored::<NW, PAGES, K, false, 1>(bench, machine, n, watch)?;
        n += 1;
    }
    Ok(())
}
