//! What differs between a workbench and the one that was kept.

ghost use Rattle.std.specs.Prelude.{◌≡◌, MatchBool, true, ℕ, ◌+◌, ◌-◌, ◌/◌, ◌<◌, ◌≤◌, ◌⊎◌, max, IfOk, IfErr, IfSome, OnOk, OnErr, None, Some};
ghost use Rattle.sv8_model.specs.Refused.{IsRefused};
ghost use Rattle.sv8_phys.specs.Memory.{ram_size};
ghost use Rattle.sv8_bench.specs.Alike.{AreAlikeUpTo};
ghost use Rattle.sv8_workbench.specs.Shown.{machine_state};
ghost use Rattle.sv8_bench.specs.Workbench.{checkpoints, IsAnswered, IsGivenUp};
ghost use Rattle.sv8_cpu.specs.Sameness.{IsSameProcessor};
ghost use Rattle.sv8_walks.specs.Walks.{state_in};
ghost use Rattle.sv8_search.specs.Search.{IsSearched, IsWalked, IsStopped, IsAbandoned};
ghost use Rattle.sv8_search.specs.Comparing.{range_refusal, AreAlike, AreSameOutside, AreWalks, IsParted, parting, differences};

use crate::difference::Difference;
use std::alloc::{AllocError, Global};
use sv8_bench::{Bench, BenchFault, LAST_STEP, STEP_TOO_LARGE};
use sv8_cpu::Machine;
use sv8_model::Refused;
use sv8_touches::Watch;
use sv8_walks::{Walk, walk_in_lockstep};

/// The sites of the steps of both runs (see `Walk::pass`).
const NOW: usize = 2;

const BEFORE: usize = 3;

/// The first step from one on up to another, which is looked at too, at which the processors of two workbenches differ. Up to `common`,
/// that step included, they are known to be the same, so it begins no lower.
///
/// # Errors
///
/// `StepTooLarge` where one of both steps is above 1,000,000, else `OutOfMemory`.
pub fn part<const NW: usize, const PAGES: usize, const K: u32>(
    now: &mut Bench<NW, PAGES, K>,
    before: &mut Bench<NW, PAGES, K>,
    common: u32,
    from: u32,
    to: u32,
) -> Result<Option<u32>, Refused<BenchFault>>
    requires alike { AreAlikeUpTo common before.old.kept now.old.kept }
    ensures parted { IfOk result (IsParted before.old.kept now.old.kept from to) }
    ensures within { OnOk result (range_refusal from to ≡ None) }
    ensures idle { OnOk result ((to < from) ⊎ (to ≤ common) → (now.new ≡ now.old) × (before.new ≡ before.old)) }
    ensures now_looked { IfOk result (λ parted. from ≤ to → common < to → IsSearched K (max from common) (parting to parted) now.old now.new) }
    ensures before_looked { IfOk result (λ parted. from ≤ to → common < to → IsSearched K (max from common) (parting to parted) before.old before.new) }
    ensures refused { IfErr result (IsRefused (range_refusal from to)) }
    ensures untouched { IfSome (range_refusal from to) (λ e. (now.new ≡ now.old) × (before.new ≡ before.old)) }
    ensures now_given_up { OnErr result (IsAbandoned K (max from common) to now.old now.new) }
    ensures before_given_up { OnErr result (IsAbandoned K (max from common) to before.old before.new) }
    ensures kept { (now.new.kept ≡ now.old.kept) × (before.new.kept ≡ before.old.kept) }
{
    if LAST_STEP < from || LAST_STEP < to {
        return Err(STEP_TOO_LARGE);
    }
    if to < from || to <= common {
        return Ok(None);
    }
    let parted = part_within(now, before, from.max(common), to)?;
    Ok(parted)
}

/// Walks through the runs of both, which have come to the same step.
#[derive(Drop)]
struct Both<const NW: usize, const PAGES: usize> {
    walk: Walk<NW, PAGES>,
    other: Walk<NW, PAGES>,
}

impl<const NW: usize, const PAGES: usize> Both<NW, PAGES> {
    /// Whether both machines have the same processor.
    fn are_alike(&self) -> bool
        ensures { MatchBool result (IsSameProcessor (state_in self.now.other.place) (state_in self.now.walk.place))
            (IsSameProcessor (state_in self.now.other.place) (state_in self.now.walk.place) → ⊥) }
    {
        self.other.machine().has_same_processor(self.walk.machine())
    }

    /// The current window of the first machine.
    #[inline(always)]
    fn window(&self) -> u32
        requires few_windows { NW ≤ 32 }
        ensures value { result ≡ (state_in self.now.walk.place).processor.registers.cwp }
        ensures in_range { result < NW }
    {
        self.walk.machine().registers().cwp()
    }

    /// Whether both machines have the same processor, behind a step in front of which they had. `window` was the current one
    /// there. Where it still is, the step wrote no register outside it, and none is compared.
    #[inline(always)]
    fn are_alike_after(&self, window: u32) -> bool
        requires few_windows { NW ≤ 32 }
        ensures { MatchBool result
            (AreSameOutside NW window (state_in self.now.other.place) (state_in self.now.walk.place) → IsSameProcessor (state_in self.now.other.place) (state_in self.now.walk.place))
            (IsSameProcessor (state_in self.now.other.place) (state_in self.now.walk.place) → ⊥) }
    {
        let own = self.walk.machine();
        let other = self.other.machine();
        if own.registers().cwp() == window && other.registers().cwp() == window {
            other.has_same_processor_in_window(own)
        } else {
            other.has_same_processor(own)
        }
    }
}

/// Goes on with both walks, below another step: together, as long as they can, and then by one step of each. Tells whether
/// both machines have the same processor at the step that they come to; at those in front of it they have.
#[inline(always)]
fn go_on<const NW: usize, const PAGES: usize, const K: u32>(
    now: &mut Bench<NW, PAGES, K>,
    before: &mut Bench<NW, PAGES, K>,
    both: &mut Both<NW, PAGES>,
    to: u32,
    watch: &mut Watch,
) -> Result<bool, AllocError>
    requires walks { AreWalks K now.old before.old both.old.walk.step both.old }
    requires below { both.old.walk.step < to }
    requires within { to ≤ 1000000 }
    requires alike { AreAlike before.old.kept now.old.kept both.old.walk.step }
    requires now_recorded { both.old.walk.step / K ≤ checkpoints now.old }
    requires before_recorded { both.old.walk.step / K ≤ checkpoints before.old }
    ensures walks { OnOk result (AreWalks K now.new before.new both.new.walk.step both.new) }
    ensures further { OnOk result (both.old.walk.step < both.new.walk.step) }
    ensures ended { OnOk result (both.new.walk.step ≤ to) }
    ensures front { OnOk result ((m : ℕ) → both.old.walk.step ≤ m → m < both.new.walk.step → AreAlike before.old.kept now.old.kept m) }
    ensures alike { IfOk result (λ same. MatchBool same (AreAlike before.old.kept now.old.kept both.new.walk.step) (AreAlike before.old.kept now.old.kept both.new.walk.step → ⊥)) }
    ensures walked { OnOk result (IsWalked K both.old.walk.step both.new.walk.step now.old now.new × IsWalked K both.old.walk.step both.new.walk.step before.old before.new) }
    ensures stopped { OnErr result (IsStopped K both.old.walk.step to now.old now.new × IsStopped K both.old.walk.step to before.old before.new) }
{
    now.sizes();
    before.sizes();
    walk_in_lockstep(now, before, &mut both.walk, &mut both.other, to)?;
    if to <= both.walk.step() {
        return Ok(true);
    }
    let window = both.window();
    both.walk.pass::<K, NOW>(now, watch)?;
    both.other.pass::<K, BEFORE>(before, watch)?;
    Ok(both.are_alike_after(window))
}

fn part_within<const NW: usize, const PAGES: usize, const K: u32>(
    now: &mut Bench<NW, PAGES, K>,
    before: &mut Bench<NW, PAGES, K>,
    from: u32,
    to: u32,
) -> Result<Option<u32>, AllocError>
    requires ordered { from ≤ to }
    requires within { to ≤ 1000000 }
    ensures parted { IfOk result (IsParted before.old.kept now.old.kept from to) }
    ensures looked { IfOk result (λ parted. IsSearched K from (parting to parted) now.old now.new × IsSearched K from (parting to parted) before.old before.new) }
    ensures given_up { IsAbandoned K from to now.old now.new × IsAbandoned K from to before.old before.new }
{
    now.sizes();
    before.sizes();
    let mut watch = Watch::new(now.alloc());
    let walk = Walk::begin(now, from, &mut watch)?;
    let other = Walk::begin(before, from, &mut watch)?;
    let mut both = Both { walk, other };
    if !both.are_alike() {
        return Ok(Some(both.walk.step()));
    }
    while both.walk.step() < to {
        let alike = go_on(now, before, &mut both, to, &mut watch)?;
        if !alike {
            return Ok(Some(both.walk.step()));
        }
    }
    Ok(None)
}

/// The words of RAM that differ between two machines, rising, and at most so many.
///
/// # Errors
///
/// `AllocError` where memory for them cannot be had.
pub fn differences<const NW: usize, const PAGES: usize>(
    alloc: Global,
    before: &Machine<NW, PAGES>,
    now: &Machine<NW, PAGES>,
    most: u32,
) -> Result<Vec<Difference>, AllocError>
    requires few_windows { NW ≤ 32 }
    requires few_pages { PAGES ≤ 65536 }
    ensures { IfOk result (λ v. v.items ≡ differences (ram_size PAGES) before.now.memory.ram now.now.memory.ram most) }
{
    let mut found = Vec::new(alloc);
    let mut from = 0;
    let mut left = most;
    while left > 0 {
        let Some(address) = now.next_difference(before, from) else {
            return Ok(found);
        };
        found.push(Difference {
            address,
            old: before.word(address),
            new: now.word(address),
        })?;
        left -= 1;
        from = address + 4;
    }
    Ok(found)
}

/// The words of RAM that differ between before at one step and now at another, rising, and at most so many.
///
/// # Errors
///
/// `StepTooLarge` where one of both steps is above 1,000,000, else `OutOfMemory`.
pub fn differ<const NW: usize, const PAGES: usize, const K: u32>(
    now: &mut Bench<NW, PAGES, K>,
    before: &mut Bench<NW, PAGES, K>,
    at_now: u32,
    at_before: u32,
    most: u32,
) -> Result<Vec<Difference>, Refused<BenchFault>>
    ensures found { IfOk result (λ v. v.items ≡ differences (ram_size PAGES) (machine_state before.old.kept at_before).memory.ram (machine_state now.old.kept at_now).memory.ram most) }
    ensures within { OnOk result (range_refusal at_now at_before ≡ None) }
    ensures now_answered { OnOk result (IsAnswered K at_now now.old now.new) }
    ensures before_answered { OnOk result (IsAnswered K at_before before.old before.new) }
    ensures refused { IfErr result (IsRefused (range_refusal at_now at_before)) }
    ensures untouched { IfSome (range_refusal at_now at_before) (λ e. (now.new ≡ now.old) × (before.new ≡ before.old)) }
    ensures now_given_up { OnErr result (IsGivenUp K at_now now.old now.new) }
    ensures before_given_up { OnErr result (IsGivenUp K at_before before.old before.new) }
{
    if LAST_STEP < at_now || LAST_STEP < at_before {
        return Err(STEP_TOO_LARGE);
    }
    now.sizes();
    let alloc = now.alloc();
    let shown = match now.machine(at_now) {
        Ok(machine) => machine,
        Err(fault) => return Err(fault),
    };
    let other = match before.machine(at_before) {
        Ok(machine) => machine,
        Err(fault) => return Err(fault),
    };
    let found = differences(alloc, &other, &shown, most)?;
    Ok(found)
}
