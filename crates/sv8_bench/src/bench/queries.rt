//! Queries of the machine at a step.

ghost use Rattle.std.specs.Prelude.{◌≡◌, ◌+◌, ◌-◌, ◌*◌, ◌/◌, ◌<◌, ◌≤◌, [], ◌∷◌, length, max, true, None, Some, IfOk, IfErr, OnOk, OnErr, IfSome};
ghost use Rattle.sv8_model.specs.Refused.{IsRefused};
ghost use Rattle.sv8_time.specs.Schedule.{bytes_below};
ghost use Rattle.sv8_phys.specs.Memory.{ram_size};
ghost use Rattle.sv8_cpu.specs.State.{State};
ghost use Rattle.sv8_cpu.specs.Recorded.{event_at, AreEvents};
ghost use Rattle.sv8_trace.specs.Recorder.{steps_on, RaisedUpTo};
ghost use Rattle.sv8_cpu.specs.Work.{counted_by};
ghost use Rattle.sv8_trace.specs.Recording.{last_point, recorded};
ghost use Rattle.sv8_workbench.specs.Faults.{are_words, step_refusal, words_refusal};
ghost use Rattle.sv8_workbench.specs.Shown.{machine_state, shown_at, words_in, words_shown, output_shown};
ghost use Rattle.sv8_bench.specs.Workbench.{checkpoints, IsAnswered, IsGivenUp, IsRecordOf};

use crate::bench::Bench;
use std::alloc::{AllocError, Global};
use sv8_cpu::{Machine, Work};
use sv8_model::Refused;
use sv8_time::Timeline;
use sv8_trace::Trace;
use sv8_workbench::{BAD_ADDRESS, BenchFault, STEP_TOO_LARGE, Shown};

/// The last step that is shown.
pub const LAST_STEP: u32 = 1_000_000;

/// Whether so many words from an address on lie in a RAM of that size; of none the one at the address.
fn are_words(address: u32, count: u32, size: u64) -> bool
    ensures { result ≡ are_words address count size }
{
    address % 4 == 0 && address as u64 + 4 * (count.max(1) as u64) <= size
}

/// So many words of a machine's RAM from an address on.
#[tactic(auto, using(crate::proofs::ShownWords::no_words, crate::proofs::ShownWords::words_more))]
fn words_of<const NW: usize, const PAGES: usize>(
    alloc: Global,
    machine: &Machine<NW, PAGES>,
    address: u32,
    count: u32,
) -> Result<Vec<u32>, AllocError>
    requires few_windows { NW ≤ 32 }
    requires few_pages { PAGES ≤ 65536 }
    requires within { are_words address count (4096 * PAGES) ≡ true }
    ensures value { IfOk result (λ v. v.items ≡ words_in machine.now.memory.ram address count) }
    ensures inside { IfOk result (λ v. address + 4 * length v.items ≤ 0x1_0000_0000) }
{
    let mut words = Vec::with_capacity(alloc, count as usize)?;
    for index in 0..count {
        words.push(machine.word(address + 4 * index))?;
    }
    Ok(words)
}

/// Records the run under a timeline up to the last checkpoint that is not above a step, where it is not recorded so far.
///
/// # Errors
///
/// `AllocError` where memory for it cannot be had; what was recorded by then stays.
pub(crate) fn record_up_to<const NW: usize, const PAGES: usize, const K: u32>(
    alloc: Global,
    trace: &mut Trace<NW, PAGES, K>,
    timeline: &Timeline,
    work: &mut Work,
    step: u32,
) -> Result<(), AllocError>
    requires some_steps { 1 ≤ K }
    requires few_steps { K ≤ 1000000 }
    requires step { step ≤ 1000000 }
    requires limit { timeline.now.limit ≡ ram_size PAGES }
    requires delivered { (last_point trace.old).memory.taken ≤ bytes_below (recorded K trace.old) timeline.now.inputs }
    ensures recorded { OnOk result (length trace.new.intervals ≡ max (length trace.old.intervals) (step / K)) }
    ensures counted { OnOk result (work.new ≡ counted_by (K * (step / K - length trace.old.intervals)) work.old) }
    ensures fewest { length trace.old.intervals ≤ length trace.new.intervals }
    ensures most { length trace.new.intervals ≤ max (length trace.old.intervals) (step / K) }
    ensures raised { RaisedUpTo (K * (step / K - length trace.old.intervals)) work.old work.new }
    ensures run { (start : State) (valid : AreEvents PAGES timeline.now)
        → IsRecordOf NW PAGES K (record { start = start; events = event_at timeline.now; valid = valid }) trace.old
        → IsRecordOf NW PAGES K (record { start = start; events = event_at timeline.now; valid = valid }) trace.new }
{
    while trace.recorded() + K <= step {
        trace.extend(alloc, timeline, work)?;
    }
    Ok(())
}

/// The machine that the steps from one on and below another lead to, under a timeline.
fn run_on<const NW: usize, const PAGES: usize>(
    machine: Machine<NW, PAGES>,
    from: u32,
    step: u32,
    timeline: &Timeline,
    work: &mut Work,
) -> Result<Machine<NW, PAGES>, AllocError>
    requires few_windows { NW ≤ 32 }
    requires few_pages { PAGES ≤ 65536 }
    requires ordered { from ≤ step }
    requires limit { timeline.now.limit ≡ ram_size PAGES }
    requires delivered { machine.memory.taken ≤ bytes_below from timeline.now.inputs }
    ensures state { IfOk result (λ m. m ≡ steps_on NW PAGES timeline.now from machine.entry (step - from)) }
    ensures delivered { IfOk result (λ m. m.memory.taken ≤ bytes_below step timeline.now.inputs) }
    ensures counted { OnOk result (work.new ≡ counted_by (step - from) work.old) }
    ensures raised { RaisedUpTo (step - from) work.old work.new }
{
    let mut machine = machine;
    for n in from..step {
        machine = machine.step(n, timeline, work)?;
    }
    Ok(machine)
}

impl<const NW: usize, const PAGES: usize, const K: u32> Bench<NW, PAGES, K> {
    /// The machine at a step, which is the machine after so many steps from reset, for questions that no other query asks.
    ///
    /// # Errors
    ///
    /// `StepTooLarge` for a step above 1,000,000, else `OutOfMemory`.
    #[tactic(auto, unfolding(sv8_workbench::specs::Faults::step_refusal))]
    pub fn machine(&mut self, step: u32) -> Result<Machine<NW, PAGES>, Refused<BenchFault>>
        ensures state { IfOk result (λ m. m ≡ machine_state self.old.kept step) }
        ensures within { OnOk result (step_refusal step ≡ None) }
        ensures answered { OnOk result (IsAnswered K step self.old self.new) }
        ensures refused { IfErr result (IsRefused (step_refusal step)) }
        ensures untouched { IfSome (step_refusal step) (λ e. self.new ≡ self.old) }
        ensures given_up { OnErr result (IsGivenUp K step self.old self.new) }
    {
        if LAST_STEP < step {
            return Err(STEP_TOO_LARGE);
        }
        let machine = self.machine_at(step)?;
        Ok(machine)
    }

    /// What is shown of the machine at a step. Step 0 is the machine just reset.
    ///
    /// # Errors
    ///
    /// `StepTooLarge` for a step above 1,000,000, else `OutOfMemory`.
    #[tactic(auto, unfolding(sv8_workbench::specs::Faults::step_refusal))]
    pub fn regs_at(&mut self, step: u32) -> Result<Shown, Refused<BenchFault>>
        ensures shown { IfOk result (λ s. s ≡ shown_at self.old.kept step) }
        ensures within { OnOk result (step_refusal step ≡ None) }
        ensures answered { OnOk result (IsAnswered K step self.old self.new) }
        ensures refused { IfErr result (IsRefused (step_refusal step)) }
        ensures untouched { IfSome (step_refusal step) (λ e. self.new ≡ self.old) }
        ensures given_up { OnErr result (IsGivenUp K step self.old self.new) }
    {
        if LAST_STEP < step {
            return Err(STEP_TOO_LARGE);
        }
        let machine = self.machine_at(step)?;
        Ok(Shown::of(&machine, step, &self.timeline))
    }

    /// So many words of RAM from an address on, as the machine has them at a step; of no words the address is looked at all the same.
    ///
    /// # Errors
    ///
    /// `StepTooLarge` for a step above 1,000,000, `BadAddress` where the words, or with none the word at the address, are no words
    /// of RAM, else `OutOfMemory`.
    #[tactic(auto, unfolding(sv8_workbench::specs::Faults::words_refusal))]
    pub fn words_at(
        &mut self,
        step: u32,
        address: u32,
        count: u32,
    ) -> Result<Vec<u32>, Refused<BenchFault>>
        ensures shown { IfOk result (λ v. v.items ≡ words_shown self.old.kept step address count) }
        ensures inside { IfOk result (λ v. address + 4 * length v.items ≤ 0x1_0000_0000) }
        ensures within { OnOk result (words_refusal step address count self.old.kept ≡ None) }
        ensures answered { OnOk result (IsAnswered K step self.old self.new) }
        ensures refused { IfErr result (IsRefused (words_refusal step address count self.old.kept)) }
        ensures untouched { IfSome (words_refusal step address count self.old.kept) (λ e. self.new ≡ self.old) }
        ensures given_up { OnErr result (IsGivenUp K step self.old self.new) }
    {
        if LAST_STEP < step {
            return Err(STEP_TOO_LARGE);
        }
        let _source = &self.source;
        if !are_words(address, count, 4096 * PAGES as u64) {
            return Err(BAD_ADDRESS);
        }
        let machine = self.machine_at(step)?;
        let words = words_of(self.alloc, &machine, address, count)?;
        Ok(words)
    }

    /// The word of RAM at an address, as the machine has it at a step: what `words_at` gives for one word.
    ///
    /// # Errors
    ///
    /// Those of `words_at`.
    #[tactic(auto, unfolding(sv8_workbench::specs::Faults::words_refusal))]
    pub fn word_at(&mut self, step: u32, address: u32) -> Result<u32, Refused<BenchFault>>
        ensures shown { IfOk result (λ w. w ∷ [] ≡ words_shown self.old.kept step address 1) }
        ensures within { OnOk result (words_refusal step address 1 self.old.kept ≡ None) }
        ensures answered { OnOk result (IsAnswered K step self.old self.new) }
        ensures refused { IfErr result (IsRefused (words_refusal step address 1 self.old.kept)) }
        ensures untouched { IfSome (words_refusal step address 1 self.old.kept) (λ e. self.new ≡ self.old) }
        ensures given_up { OnErr result (IsGivenUp K step self.old self.new) }
    {
        if LAST_STEP < step {
            return Err(STEP_TOO_LARGE);
        }
        let _source = &self.source;
        if !are_words(address, 1, 4096 * PAGES as u64) {
            return Err(BAD_ADDRESS);
        }
        let machine = self.machine_at(step)?;
        Ok(machine.word(address))
    }

    /// The bytes put out at the console by the steps below a step.
    ///
    /// # Errors
    ///
    /// `StepTooLarge` for a step above 1,000,000, else `OutOfMemory`.
    #[tactic(auto, unfolding(sv8_workbench::specs::Faults::step_refusal))]
    pub fn output_at(&mut self, step: u32) -> Result<Vec<u8>, Refused<BenchFault>>
        ensures shown { IfOk result (λ v. v.items ≡ output_shown self.old.kept step) }
        ensures within { OnOk result (step_refusal step ≡ None) }
        ensures answered { OnOk result (IsAnswered K step self.old self.new) }
        ensures refused { IfErr result (IsRefused (step_refusal step)) }
        ensures untouched { IfSome (step_refusal step) (λ e. self.new ≡ self.old) }
        ensures given_up { OnErr result (IsGivenUp K step self.old self.new) }
    {
        if LAST_STEP < step {
            return Err(STEP_TOO_LARGE);
        }
        let machine = self.machine_at(step)?;
        let bytes = machine.output(self.alloc)?;
        Ok(bytes)
    }

    /// The machine at a step, by the last checkpoint that is not above it; what is not recorded up to there is recorded.
    fn machine_at(&mut self, step: u32) -> Result<Machine<NW, PAGES>, AllocError>
        requires step { step ≤ 1000000 }
        ensures state { IfOk result (λ m. m ≡ machine_state self.old.kept step) }
        ensures delivered { IfOk result (λ m. m.memory.taken ≤ bytes_below step self.old.kept.timeline.inputs) }
        ensures answered { OnOk result (IsAnswered K step self.old self.new) }
        ensures given_up { IsGivenUp K step self.old self.new }
    {
        record_up_to(
            self.alloc,
            &mut self.trace,
            &self.timeline,
            &mut self.work,
            step,
        )?;
        let machine = self.trace.restore(self.alloc, step)?;
        let from = step - step % K;
        let machine = run_on(machine, from, step, &self.timeline, &mut self.work)?;
        Ok(machine)
    }

    /// Records the run up to the last checkpoint that is not above a step, where it is not recorded so far.
    ///
    /// # Errors
    ///
    /// `AllocError` where memory for it cannot be had; what was recorded by then stays.
    pub fn record_below(&mut self, step: u32) -> Result<(), AllocError>
        requires step { step ≤ 1000000 }
        ensures kept { self.new.kept ≡ self.old.kept }
        ensures recorded { OnOk result (checkpoints self.new ≡ max (checkpoints self.old) (step / K)) }
        ensures counted { OnOk result (self.new.worked ≡ counted_by (K * (step / K - checkpoints self.old)) self.old.worked) }
        ensures fewest { checkpoints self.old ≤ checkpoints self.new }
        ensures most { checkpoints self.new ≤ max (checkpoints self.old) (step / K) }
        ensures raised { RaisedUpTo (K * (step / K - checkpoints self.old)) self.old.worked self.new.worked }
    {
        record_up_to(
            self.alloc,
            &mut self.trace,
            &self.timeline,
            &mut self.work,
            step,
        )
    }
}
