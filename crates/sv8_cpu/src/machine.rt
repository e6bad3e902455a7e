//! The machine, one step at a time.

ghost use Rattle.std.specs.Prelude.{◌≡◌, ◌+◌, ◌<◌, ◌≤◌, ◌/◌, [], IfOk, OnOk, OnErr};
ghost use Rattle.sv8_model.specs.Does.{noting};
ghost use Rattle.sv8_cpu.specs.Run.{acted_on, seen, step, step_action, footprint, observed, touched};
ghost use Rattle.sv8_time.specs.Schedule.{arrived, bytes_below, pokes_of_step, requests_of_step};
ghost use Rattle.sv8_trap.specs.Table.{taken};
ghost use Rattle.sv8_phys.specs.Memory.{ram_size};
ghost use Rattle.sv8_cpu.specs.Step.{instruction};
ghost use Rattle.sv8_cpu.specs.State.{reset_over};
ghost use Rattle.sv8_cpu.specs.Work.{counted};
ghost use Rattle.sv8_cpu.specs.Whole.{state_of};

use crate::parts::Parts;
use crate::work::Work;
use std::alloc::{AllocError, Global};
use std::marker::Model;
use sv8_memory::{Feed, Memory};
use sv8_phys::{NoTouches, Phys, Touches};
use sv8_time::Timeline;
use sv8_trap::Processor;

/// What step n does behind its events. All that it touches, and what is to be seen of it, is noted as it comes.
#[inline(always)]
fn act_in_step<const NW: usize, const PAGES: usize, T: Touches>(
    parts: &mut Parts<NW, PAGES>,
    n: u32,
    timeline: &Timeline,
    notes: &mut T,
) -> Result<(), AllocError>
    requires few_windows { NW ≤ 32 }
    requires delivered { parts.old.memory.phys.taken ≤ bytes_below n timeline.now.inputs }
    ensures ok { OnOk result (state_of parts.new ≡ acted_on (arrived (n + 1) timeline.now) (state_of parts.old) (step_action NW PAGES (state_of parts.old))) }
    ensures taken { OnOk result (parts.new.memory.phys.taken ≤ bytes_below (n + 1) timeline.now.inputs) }
    ensures noted { OnOk result (T.noted notes.new ≡ noting T.NOTING (T.noted notes.old)
        (touched NW PAGES (arrived (n + 1) timeline.now) (state_of parts.old)) (seen NW PAGES (arrived (n + 1) timeline.now) (state_of parts.old))) }
{
    parts.act(Feed::of_step(n, timeline), notes)?;
    Ok(())
}

/// Step n: its events, and then what it does.
#[inline(always)]
#[tactic(auto, unfolding(crate::specs::Run::step, crate::specs::Run::footprint, crate::specs::Run::observed))]
fn make_step<const NW: usize, const PAGES: usize, T: Touches>(
    parts: &mut Parts<NW, PAGES>,
    n: u32,
    timeline: &Timeline,
    notes: &mut T,
) -> Result<(), AllocError>
    requires few_windows { NW ≤ 32 }
    requires limit { timeline.now.limit ≡ ram_size PAGES }
    requires delivered { parts.old.memory.phys.taken ≤ bytes_below n timeline.now.inputs }
    ensures ok { OnOk result (state_of parts.new ≡ step NW PAGES timeline.now n (state_of parts.old)) }
    ensures taken { OnOk result (parts.new.memory.phys.taken ≤ bytes_below (n + 1) timeline.now.inputs) }
    ensures noted { OnOk result (T.noted notes.new ≡ noting T.NOTING (T.noted notes.old)
        (footprint NW PAGES timeline.now n (state_of parts.old)) (observed NW PAGES timeline.now n (state_of parts.old))) }
{
    parts.memory.happen(n, timeline)?;
    act_in_step(parts, n, timeline, notes)?;
    Ok(())
}

/// Step n, at which the timeline has neither pokes nor requests.
#[inline(always)]
#[tactic(auto, using(sv8_memory::proofs::Poking::quiet), unfolding(crate::specs::Run::step, crate::specs::Run::footprint, crate::specs::Run::observed))]
fn make_quiet_step<const NW: usize, const PAGES: usize, T: Touches>(
    parts: &mut Parts<NW, PAGES>,
    n: u32,
    timeline: &Timeline,
    notes: &mut T,
) -> Result<(), AllocError>
    requires few_windows { NW ≤ 32 }
    requires delivered { parts.old.memory.phys.taken ≤ bytes_below n timeline.now.inputs }
    requires no_pokes { pokes_of_step n timeline.now.pokes ≡ [] }
    requires no_requests { requests_of_step n timeline.now.requests ≡ [] }
    ensures ok { OnOk result (state_of parts.new ≡ step NW PAGES timeline.now n (state_of parts.old)) }
    ensures taken { OnOk result (parts.new.memory.phys.taken ≤ bytes_below (n + 1) timeline.now.inputs) }
    ensures noted { OnOk result (T.noted notes.new ≡ noting T.NOTING (T.noted notes.old)
        (footprint NW PAGES timeline.now n (state_of parts.old)) (observed NW PAGES timeline.now n (state_of parts.old))) }
{
    act_in_step(parts, n, timeline, notes)?;
    Ok(())
}

/// A machine with `NW` register windows (2 to 32) and `PAGES` pages of 4,096 bytes of RAM (1 to 65,536).
///
/// Its state is on the heap, so a machine moves at the cost of a pointer. Its parts are open to crates that make its steps in
/// another way.
pub struct Machine<const NW: usize, const PAGES: usize> {
    pub parts: Box<Parts<NW, PAGES>>,
}

// Written out, so that crates above prove no drop of its parts.
impl<const NW: usize, const PAGES: usize> Drop for Machine<NW, PAGES> {
    fn drop(self) {
        let Machine { parts: _ } = self;
    }
}

impl<const NW: usize, const PAGES: usize> Model for Machine<NW, PAGES> {
    ghost use Rattle.std.specs.Prelude.{◌≤◌};
    ghost use Rattle.sv8_cpu.specs.State.{State};
    ghost use Rattle.sv8_cpu.specs.Work.{counted};
    ghost use Rattle.sv8_cpu.specs.Whole.{state_of};

    ghost Value = { State };

    ghost view = { λ m. state_of m.parts.value };

    ghost invariant = { λ m. (2 ≤ NW) × (NW ≤ 32) × (PAGES ≤ 65536) };
}

impl<const NW: usize, const PAGES: usize> Machine<NW, PAGES> {
    /// The machine after reset (chapter 7) over a physical memory: PC 0, nPC 4, S = 1 and ET = 0, and every other register 0.
    ///
    /// # Errors
    ///
    /// `AllocError` where memory for the state cannot be had.
    pub fn new(alloc: Global, phys: Phys<PAGES>) -> Result<Self, AllocError>
        requires some_windows { 2 ≤ NW }
        requires few_windows { NW ≤ 32 }
        requires few_pages { PAGES ≤ 65536 }
        ensures { IfOk result (λ m. m ≡ reset_over NW phys.entry) }
    {
        let parts = Parts {
            processor: Processor::new(),
            memory: Memory::new(alloc, phys),
        };
        let parts = Box::new(alloc, parts)?;
        Ok(Machine { parts })
    }

    /// Step n (section 5.1.2 for the order of PC and nPC, chapter 7 for traps and interrupts): the events of n in the
    /// timeline, and then the timer, and an interrupt, an annulled slot or one instruction. In error mode only the events
    /// happen. `work` counts the step.
    ///
    /// # Errors
    ///
    /// `AllocError` where memory for a page or for the output cannot be had. The machine is given up with it, and a caller
    /// that wants to go on must go back to an earlier state; `work` stays.
    #[inline]
    pub fn step(self, n: u32, timeline: &Timeline, work: &mut Work) -> Result<Self, AllocError>
        requires limit { timeline.now.limit ≡ ram_size PAGES }
        requires delivered { self.memory.taken ≤ bytes_below n timeline.now.inputs }
        ensures ok { IfOk result (λ m. m ≡ step NW PAGES timeline.now n self.entry) }
        ensures delivered { IfOk result (λ m. m.memory.taken ≤ bytes_below (n + 1) timeline.now.inputs) }
        ensures counted { OnOk result (work.new ≡ counted work.old) }
        ensures uncounted { OnErr result (work.new ≡ work.old) }
    {
        let mut machine = self;
        machine.pass(n, timeline)?;
        work.raise();
        Ok(machine)
    }

    /// Step n, as `step` makes it, for an observer: `notes` takes each touch as it comes, and what is to be seen of the
    /// step. The machine is changed where it stands. Who calls it counts the step.
    ///
    /// # Errors
    ///
    /// Those of `step`, and `AllocError` where memory for a note cannot be had. What the machine is then is not said, and a
    /// caller that wants to go on must go back to an earlier state.
    #[inline(always)]
    pub fn watch<T: Touches>(
        &mut self,
        n: u32,
        timeline: &Timeline,
        notes: &mut T,
    ) -> Result<(), AllocError>
        requires limit { timeline.now.limit ≡ ram_size PAGES }
        requires delivered { self.old.memory.taken ≤ bytes_below n timeline.now.inputs }
        ensures ok { OnOk result (self.new ≡ step NW PAGES timeline.now n self.old) }
        ensures delivered { OnOk result (self.new.memory.taken ≤ bytes_below (n + 1) timeline.now.inputs) }
        ensures noted { OnOk result (T.noted notes.new ≡ noting T.NOTING (T.noted notes.old)
            (footprint NW PAGES timeline.now n self.old) (observed NW PAGES timeline.now n self.old)) }
    {
        make_step(&mut self.parts, n, timeline, notes)?;
        Ok(())
    }

    /// The same of a step at which the timeline has neither pokes nor requests, so that it looks for none.
    ///
    /// # Errors
    ///
    /// Those of `watch`.
    #[inline(always)]
    pub fn watch_quiet<T: Touches>(
        &mut self,
        n: u32,
        timeline: &Timeline,
        notes: &mut T,
    ) -> Result<(), AllocError>
        requires delivered { self.old.memory.taken ≤ bytes_below n timeline.now.inputs }
        requires no_pokes { pokes_of_step n timeline.now.pokes ≡ [] }
        requires no_requests { requests_of_step n timeline.now.requests ≡ [] }
        ensures ok { OnOk result (self.new ≡ step NW PAGES timeline.now n self.old) }
        ensures delivered { OnOk result (self.new.memory.taken ≤ bytes_below (n + 1) timeline.now.inputs) }
        ensures noted { OnOk result (T.noted notes.new ≡ noting T.NOTING (T.noted notes.old)
            (footprint NW PAGES timeline.now n self.old) (observed NW PAGES timeline.now n self.old)) }
    {
        make_quiet_step(&mut self.parts, n, timeline, notes)?;
        Ok(())
    }

    /// Step n, as `watch` makes it, with no notes.
    ///
    /// # Errors
    ///
    /// Those of `watch`.
    #[inline(always)]
    pub fn pass(&mut self, n: u32, timeline: &Timeline) -> Result<(), AllocError>
        requires limit { timeline.now.limit ≡ ram_size PAGES }
        requires delivered { self.old.memory.taken ≤ bytes_below n timeline.now.inputs }
        ensures ok { OnOk result (self.new ≡ step NW PAGES timeline.now n self.old) }
        ensures delivered { OnOk result (self.new.memory.taken ≤ bytes_below (n + 1) timeline.now.inputs) }
    {
        make_step(&mut self.parts, n, timeline, &mut NoTouches)?;
        Ok(())
    }
}
