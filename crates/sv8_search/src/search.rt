//! Searches for the steps of a run that meet a condition.

ghost use Rattle.std.specs.Prelude.{◌≡◌, ◌⊎◌, ◌+◌, ◌-◌, ◌*◌, ◌/◌, ◌<◌, ◌≤◌, ◌++◌, ◌∷◌, [], length, true, false, map, None, IfOk, IfErr, IfSome, OnOk, OnErr};
ghost use Rattle.std.specs.List.{list_any};
ghost use Rattle.sv8_model.specs.Refused.{IsRefused};
ghost use Rattle.sv8_model.specs.Footprint.{expires};
ghost use Rattle.sv8_phys.specs.Memory.{ram_size};
ghost use Rattle.sv8_cpu.specs.State.{State};
ghost use Rattle.sv8_watch.specs.declared.condition.Condition.TheVariants as condition;
ghost use Rattle.sv8_watch.specs.Conditions.{is_met, meets, meets_any};
ghost use Rattle.sv8_watch.specs.Happening.{happened};
ghost use Rattle.sv8_watch.specs.Watched.{IsBefore, IsStepFrom, happening_of};
ghost use Rattle.sv8_workbench.specs.Shown.{machine_state};
ghost use Rattle.sv8_walks.specs.Made.{IsMade};
ghost use Rattle.sv8_walks.specs.Walks.{IsWalk};
ghost use Rattle.sv8_search.specs.Plans.{IsPlan};
ghost use Rattle.sv8_search.specs.Search.{olds_of, old_count, olds_count, is_inside, are_inside, any_met, found_at, found_if, is_wanted, wanted_found, rising, looked_to, sought_to, steps_refusal, steps_told, IsSearched, IsAdded, IsSought, IsTried, IsWalked, IsStopped, IsAbandoned};

use crate::descent::search_down;
use crate::found::Found;
use crate::old_bytes::{look_again, look_at_old, old_count};
use crate::plan::Plan;
use crate::room::Room;
use std::alloc::AllocError;
use sv8_bench::{BAD_ADDRESS, Bench, BenchFault, LAST_STEP, STEP_TOO_LARGE};
use sv8_cpu::Machine;
use sv8_model::Refused;
use sv8_time::Timeline;
use sv8_touches::Watch;
use sv8_walks::Walk;
use sv8_watch::{Before, Condition, MadeStep};

/// Whether a step meets one of some conditions. `old` are the bytes that they compare with those of the machine behind it.
#[inline(always)]
fn is_any_met<const NW: usize, const PAGES: usize>(
    step: &MadeStep<'_, NW, PAGES>,
    conditions: &[Condition],
    old: &[u8],
) -> bool
    requires few_windows { NW ≤ 32 }
    requires few_pages { PAGES ≤ 65536 }
    requires inside { are_inside (ram_size PAGES) conditions.now ≡ true }
    requires count { length old.now ≡ olds_count conditions.now }
    ensures { (before : State) → IsBefore before step.now.before → old.now ≡ olds_of conditions.now before.memory.ram
        → result ≡ list_any (is_met step.now.n before step.now.after.now (happening_of before step.now) step.now.watch.now.touches) conditions.now }
{
    let mut rest = conditions;
    let mut bytes = old;
    while let [first, others @ ..] = rest {
        let (own, next) = bytes.split_at(old_count(*first) as usize);
        if first.is_met(step, own) {
            return true;
        }
        rest = others;
        bytes = next;
    }
    false
}

/// The same, and also where there is no condition.
#[inline(always)]
fn is_wanted<const NW: usize, const PAGES: usize>(
    step: &MadeStep<'_, NW, PAGES>,
    conditions: &[Condition],
    old: &[u8],
) -> bool
    requires few_windows { NW ≤ 32 }
    requires few_pages { PAGES ≤ 65536 }
    requires inside { are_inside (ram_size PAGES) conditions.now ≡ true }
    requires count { length old.now ≡ olds_count conditions.now }
    ensures { (before : State) → IsBefore before step.now.before → old.now ≡ olds_of conditions.now before.memory.ram
        → result ≡ any_met step.now.n before step.now.after.now (happening_of before step.now) step.now.watch.now.touches conditions.now }
{
    match conditions {
        [] => true,
        [_, ..] => is_any_met(step, conditions, old),
    }
}

/// Adds a step with what happened in it.
#[inline(never)]
fn add<const NW: usize, const PAGES: usize>(
    found: &mut Vec<Found>,
    step: MadeStep<'_, NW, PAGES>,
) -> Result<(), AllocError>
    ensures { OnOk result ((before : State) → IsBefore before step.entry.before
        → found.new.items ≡ found.old.items ++ (record { step = step.entry.n; happening = happening_of before step.entry }) ∷ []) }
{
    found.push(Found {
        step: step.n,
        happening: step.happening(),
    })?;
    Ok(())
}

/// The same, where it is wanted; answers how many more may follow, of so many. Step n was made under the timeline from the
/// machine of which `before` was kept, led to the machine `after`, and has its notes in `watch`.
///
/// It is a function of its own, and the step is put together in it, so that no large value stands in the loop of a search.
#[inline(never)]
fn add_wanted<const NW: usize, const PAGES: usize>(
    found: &mut Vec<Found>,
    n: u32,
    timeline: &Timeline,
    before: &Before,
    after: &Machine<NW, PAGES>,
    watch: &Watch,
    conditions: &[Condition],
    old: &[u8],
    left: u32,
) -> Result<u32, AllocError>
    requires few_windows { NW ≤ 32 }
    requires few_pages { PAGES ≤ 65536 }
    requires some { 0 < left }
    requires inside { are_inside (ram_size PAGES) conditions.now ≡ true }
    requires count { length old.now ≡ olds_count conditions.now }
    ensures { IfOk result (λ rest. (s : State) → IsBefore s before.now → old.now ≡ olds_of conditions.now s.memory.ram
        → IsAdded (found_if (any_met n s after.now (happened timeline.now n s after.now watch.now.observations (expires watch.now.touches)) watch.now.touches conditions.now)
        (record { step = n; happening = happened timeline.now n s after.now watch.now.observations (expires watch.now.touches) })) left found.old.items found.new.items rest) }
{
    let step = MadeStep {
        n,
        timeline,
        before: *before,
        after,
        watch,
    };
    if !is_wanted(&step, conditions, old) {
        return Ok(left);
    }
    add(found, step)?;
    Ok(left - 1)
}

/// Whether a step may meet one of some conditions, by the machines before and after it and by its notes. `old` are the bytes
/// that they compare with those of the machine behind it.
#[inline(always)]
fn may_meet_any<const NW: usize, const PAGES: usize>(
    n: u32,
    timeline: &Timeline,
    before: &Before,
    after: &Machine<NW, PAGES>,
    watch: &Watch,
    conditions: &[Condition],
    old: &[u8],
) -> bool
    requires few_windows { NW ≤ 32 }
    requires few_pages { PAGES ≤ 65536 }
    requires inside { are_inside (ram_size PAGES) conditions.now ≡ true }
    requires count { length old.now ≡ olds_count conditions.now }
    ensures { (s : State) → IsStepFrom NW PAGES timeline.now n s before.now after.now watch.now → old.now ≡ olds_of conditions.now s.memory.ram
        → result ≡ false → list_any (meets NW PAGES timeline.now n s) conditions.now ≡ false }
{
    let mut rest = conditions;
    let mut bytes = old;
    while let [first, others @ ..] = rest {
        let (own, next) = bytes.split_at(old_count(*first) as usize);
        if first.may_be_met(n, timeline, before, after, watch, own) {
            return true;
        }
        rest = others;
        bytes = next;
    }
    false
}

/// The same, and also where there is no condition. A step that meets none leaves the bytes that conditions compare as they are.
#[inline(always)]
fn may_be_wanted<const NW: usize, const PAGES: usize>(
    n: u32,
    timeline: &Timeline,
    before: &Before,
    after: &Machine<NW, PAGES>,
    watch: &Watch,
    conditions: &[Condition],
    old: &[u8],
) -> bool
    requires few_windows { NW ≤ 32 }
    requires few_pages { PAGES ≤ 65536 }
    requires inside { are_inside (ram_size PAGES) conditions.now ≡ true }
    requires count { length old.now ≡ olds_count conditions.now }
    ensures wanted { (s : State) → IsStepFrom NW PAGES timeline.now n s before.now after.now watch.now → old.now ≡ olds_of conditions.now s.memory.ram
        → result ≡ false → meets_any NW PAGES timeline.now n s conditions.now ≡ false }
    ensures bytes { (s : State) → IsStepFrom NW PAGES timeline.now n s before.now after.now watch.now → old.now ≡ olds_of conditions.now s.memory.ram
        → length s.memory.ram ≡ ram_size PAGES → result ≡ false → olds_of conditions.now s.memory.ram ≡ olds_of conditions.now after.now.memory.ram }
{
    let _size = after.ram_size();
    match conditions {
        [] => true,
        [_, ..] => may_meet_any(n, timeline, before, after, watch, conditions, old),
    }
}

/// Makes the next step of a walk, and adds it where it is wanted; answers how many more may follow, of so many. `old` are the
/// bytes that the conditions compare, before and afterwards; a step that is not wanted leaves them.
#[inline(always)]
fn look<const NW: usize, const PAGES: usize, const K: u32>(
    bench: &mut Bench<NW, PAGES, K>,
    walk: &mut Walk<NW, PAGES>,
    watch: &mut Watch,
    conditions: &[Condition],
    old: &mut Vec<u8>,
    found: &mut Vec<Found>,
    left: u32,
) -> Result<u32, AllocError>
    requires few_windows { NW ≤ 32 }
    requires few_pages { PAGES ≤ 65536 }
    requires walk { IsWalk K bench.old walk.old }
    requires within { walk.old.step < 1000000 }
    requires some { 0 < left }
    requires inside { are_inside (ram_size PAGES) conditions.now ≡ true }
    requires bytes { old.old.items ≡ olds_of conditions.now (machine_state bench.old.kept walk.old.step).memory.ram }
    requires count { length old.old.items ≡ olds_count conditions.now }
    ensures walk { OnOk result (IsWalk K bench.new walk.new) }
    ensures step { OnOk result (walk.new.step ≡ walk.old.step + 1) }
    ensures added { IfOk result (λ rest. IsAdded (wanted_found bench.old.kept conditions.now walk.old.step) left found.old.items found.new.items rest) }
    ensures made { OnOk result (IsMade K walk.old.step bench.old bench.new) }
    ensures bytes { OnOk result (old.new.items ≡ olds_of conditions.now (machine_state bench.old.kept (walk.old.step + 1)).memory.ram) }
    ensures count { OnOk result (length old.new.items ≡ olds_count conditions.now) }
    ensures unmade { OnErr result (IsTried K walk.old.step bench.old bench.new) }
{
    bench.sizes();
    let n = walk.step();
    let before = Before::of(walk.machine());
    let _size = walk.machine().ram_size();
    walk.go_on(bench, watch)?;
    let after = walk.machine();
    let bytes = old.as_slice();
    if !may_be_wanted(
        n,
        bench.timeline(),
        &before,
        after,
        watch,
        conditions,
        bytes,
    ) {
        return Ok(left);
    }
    let rest = add_wanted(
        found,
        n,
        bench.timeline(),
        &before,
        walk.machine(),
        watch,
        conditions,
        bytes,
        left,
    )?;
    if rest == left {
        return Ok(rest);
    }
    look_again(old, conditions, walk.machine())?;
    Ok(rest)
}

/// Makes the next step of a walk below another step, and adds it where it is wanted, or passes over steps that are not by
/// the plan; answers how many more may follow, of so many. `old` are the bytes that the conditions compare, before and
/// afterwards.
///
/// # Errors
///
/// `AllocError` where memory for it cannot be had.
#[inline(always)]
fn go_on<const NW: usize, const PAGES: usize, const K: u32>(
    bench: &mut Bench<NW, PAGES, K>,
    walk: &mut Walk<NW, PAGES>,
    watch: &mut Watch,
    plan: &mut Plan,
    conditions: &[Condition],
    old: &mut Vec<u8>,
    found: &mut Vec<Found>,
    to: u32,
    left: u32,
) -> Result<u32, AllocError>
    requires few_windows { NW ≤ 32 }
    requires few_pages { PAGES ≤ 65536 }
    requires walk { IsWalk K bench.old walk.old }
    requires below { walk.old.step < to }
    requires within { to ≤ 1000000 }
    requires some { 0 < left }
    requires inside { are_inside (ram_size PAGES) conditions.now ≡ true }
    requires bytes { old.old.items ≡ olds_of conditions.now (machine_state bench.old.kept walk.old.step).memory.ram }
    requires count { length old.old.items ≡ olds_count conditions.now }
    requires plan { IsPlan K bench.old conditions.now plan.old.start plan.old.flags.items }
    requires planned { plan.old.start ≤ walk.old.step }
    requires low { plan.old.start + length plan.old.flags.items ≤ 1000000 }
    ensures walk { OnOk result (IsWalk K bench.new walk.new) }
    ensures further { OnOk result (walk.old.step < walk.new.step) }
    ensures end { OnOk result (walk.new.step ≤ to) }
    ensures walked { OnOk result (IsWalked K walk.old.step walk.new.step bench.old bench.new) }
    ensures found { IfOk result (λ rest. found.new.items ++ map (found_at bench.old.kept) (rising (is_wanted bench.old.kept conditions.now) walk.new.step (to - walk.new.step) rest)
        ≡ found.old.items ++ map (found_at bench.old.kept) (rising (is_wanted bench.old.kept conditions.now) walk.old.step (to - walk.old.step) left)) }
    ensures looked { IfOk result (λ rest. looked_to (is_wanted bench.old.kept conditions.now) walk.new.step (to - walk.new.step) rest
        ≡ looked_to (is_wanted bench.old.kept conditions.now) walk.old.step (to - walk.old.step) left) }
    ensures bytes { OnOk result (old.new.items ≡ olds_of conditions.now (machine_state bench.old.kept walk.new.step).memory.ram) }
    ensures count { OnOk result (length old.new.items ≡ olds_count conditions.now) }
    ensures plan { OnOk result (IsPlan K bench.new conditions.now plan.new.start plan.new.flags.items) }
    ensures planned { OnOk result (plan.new.start ≤ walk.new.step) }
    ensures low { OnOk result (plan.new.start + length plan.new.flags.items ≤ 1000000) }
    ensures stopped { OnErr result (IsStopped K walk.old.step to bench.old bench.new) }
{
    bench.sizes();
    let step = walk.step();
    let _size = walk.machine().ram_size();
    let end = plan.passable(bench, conditions, step, to)?;
    if step < end {
        walk.go_to(bench, end, watch)?;
        return Ok(left);
    }
    let rest = look(bench, walk, watch, conditions, old, found, left)?;
    Ok(rest)
}

/// Adds the steps from one on and below another that meet a condition, and at most so many of them. It looks at no step
/// behind the last one that it adds, if it adds so many.
///
/// # Errors
///
/// `AllocError` where memory for it cannot be had.
pub(crate) fn search_up<const NW: usize, const PAGES: usize, const K: u32>(
    bench: &mut Bench<NW, PAGES, K>,
    conditions: &[Condition],
    from: u32,
    to: u32,
    most: u32,
    found: &mut Vec<Found>,
    room: &mut Room,
) -> Result<(), AllocError>
    requires ordered { from ≤ to }
    requires within { to ≤ 1000000 }
    requires inside { are_inside (ram_size PAGES) conditions.now ≡ true }
    ensures found { OnOk result (found.new.items ≡ found.old.items
        ++ map (found_at bench.old.kept) (rising (is_wanted bench.old.kept conditions.now) from (to - from) most)) }
    ensures searched { OnOk result (IsSearched K from (looked_to (is_wanted bench.old.kept conditions.now) from (to - from) most) bench.old bench.new) }
    ensures given_up { IsAbandoned K from to bench.old bench.new }
{
    bench.sizes();
    let mut walk = Walk::begin(bench, from, &mut room.watch)?;
    look_at_old(&mut room.old, conditions, walk.machine())?;
    room.plan.forget();
    let mut left = most;
    while walk.step() < to && left > 0 {
        left = go_on(
            bench,
            &mut walk,
            &mut room.watch,
            &mut room.plan,
            conditions,
            &mut room.old,
            found,
            to,
            left,
        )?;
    }
    Ok(())
}

/// Whether the bytes of conditions lie in RAM, and their words.
fn are_inside<const PAGES: usize>(conditions: &[Condition]) -> bool
    requires few_pages { PAGES ≤ 65536 }
    ensures { result ≡ are_inside (ram_size PAGES) conditions.now }
{
    let mut rest = conditions;
    while let [first, after @ ..] = rest {
        if !is_inside(*first, 4_096 * PAGES as u64) {
            return false;
        }
        rest = after;
    }
    true
}

/// Whether the bytes of a condition lie in RAM of a size, or its word.
fn is_inside(condition: Condition, size: u64) -> bool
    ensures { result ≡ is_inside size condition }
{
    match condition {
        Condition::Load { address, count }
        | Condition::Store { address, count }
        | Condition::Change { address, count } => u64::from(address) + u64::from(count) <= size,
        Condition::Touch(address) => address % 4 == 0 && u64::from(address) + 4 <= size,
        _ => true,
    }
}

/// What `steps` finds of steps and conditions that it does not refuse.
fn search<const NW: usize, const PAGES: usize, const K: u32>(
    bench: &mut Bench<NW, PAGES, K>,
    from: u32,
    to: u32,
    most: u32,
    conditions: &[Condition],
) -> Result<Vec<Found>, AllocError>
    requires from_within { from ≤ 1000000 }
    requires to_within { to ≤ 1000000 }
    requires inside { are_inside (ram_size PAGES) conditions.now ≡ true }
    ensures found { IfOk result (λ v. v.items ≡ map (found_at bench.old.kept) (steps_told bench.old.kept from to most conditions.now)) }
    ensures idle { OnOk result ((from ≡ to) ⊎ (most ≡ 0) → bench.new ≡ bench.old) }
    ensures risen { OnOk result (from < to → 0 < most
        → IsSearched K from (looked_to (is_wanted bench.old.kept conditions.now) from (to - from) most) bench.old bench.new) }
    ensures fallen { OnOk result (to < from → 0 < most
        → IsSought K from (sought_to (is_wanted bench.old.kept conditions.now) to (from - to) most) bench.old bench.new) }
    ensures rising_given_up { OnErr result (from ≤ to → IsAbandoned K from to bench.old bench.new) }
    ensures falling_given_up { OnErr result (to < from → IsSought K from to bench.old bench.new) }
{
    let mut found = Vec::new(bench.alloc());
    if from == to || most == 0 {
        return Ok(found);
    }
    if from < to {
        let mut room = Room::new(bench.alloc());
        search_up(bench, conditions, from, to, most, &mut found, &mut room)?;
        return Ok(found);
    }
    search_down(bench, conditions, from, to, most, &mut found)?;
    Ok(found)
}

/// The steps from one on up to another, which is not looked at, or from below the one down to the other, that meet a
/// condition, and at most so many of them.
///
/// # Errors
///
/// `StepTooLarge` where one of both steps is above 1,000,000, `BadAddress` where bytes or a word of a condition do not lie in
/// RAM, else `OutOfMemory`.
pub fn steps<const NW: usize, const PAGES: usize, const K: u32>(
    bench: &mut Bench<NW, PAGES, K>,
    from: u32,
    to: u32,
    most: u32,
    conditions: &[Condition],
) -> Result<Vec<Found>, Refused<BenchFault>>
    ensures found { IfOk result (λ v. v.items ≡ map (found_at bench.old.kept) (steps_told bench.old.kept from to most conditions.now)) }
    ensures within { OnOk result (steps_refusal from to conditions.now bench.old.kept ≡ None) }
    ensures idle { OnOk result ((from ≡ to) ⊎ (most ≡ 0) → bench.new ≡ bench.old) }
    ensures risen { OnOk result (from < to → 0 < most
        → IsSearched K from (looked_to (is_wanted bench.old.kept conditions.now) from (to - from) most) bench.old bench.new) }
    ensures fallen { OnOk result (to < from → 0 < most
        → IsSought K from (sought_to (is_wanted bench.old.kept conditions.now) to (from - to) most) bench.old bench.new) }
    ensures refused { IfErr result (IsRefused (steps_refusal from to conditions.now bench.old.kept)) }
    ensures untouched { IfSome (steps_refusal from to conditions.now bench.old.kept) (λ e. bench.new ≡ bench.old) }
    ensures rising_given_up { OnErr result (from ≤ to → IsAbandoned K from to bench.old bench.new) }
    ensures falling_given_up { OnErr result (to < from → IsSought K from to bench.old bench.new) }
{
    if LAST_STEP < from || LAST_STEP < to {
        return Err(STEP_TOO_LARGE);
    }
    bench.sizes();
    if !are_inside::<PAGES>(conditions) {
        return Err(BAD_ADDRESS);
    }
    let found = search(bench, from, to, most, conditions)?;
    Ok(found)
}
