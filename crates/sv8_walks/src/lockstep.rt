//! Walks through the runs of two workbenches that go on together, as long as both do the same.

ghost use Rattle.std.specs.Prelude.{◌≡◌, ◌+◌, ◌-◌, ◌/◌, ◌<◌, ◌≤◌, MatchBool, IfOk, OnOk, OnErr};
ghost use Rattle.sv8_cpu.specs.Sameness.{IsSameProcessor};
ghost use Rattle.sv8_trace.specs.Recorder.{RaisedUpTo};
ghost use Rattle.sv8_cpu.specs.Work.{counted_by};
ghost use Rattle.sv8_trace.specs.Recording.{recorded};
ghost use Rattle.sv8_walks.specs.Made.{IsMade};
ghost use Rattle.sv8_walks.specs.Walks.{IsWalk, state_in};
ghost use Rattle.sv8_bench.specs.Workbench.{checkpoints};
ghost use Rattle.sv8_walks.specs.Together.{AreAlikeBetween, AreInLockstep};

use crate::machines::{copy_processor, pass_in_lockstep};
use crate::walk::{Place, Walk};
use std::alloc::AllocError;
use sv8_bench::Bench;
use sv8_cpu::Machine;

/// Makes a recorded step of two machines as one, where they can. Tells whether it has.
#[inline(always)]
fn step_both<const NW: usize, const PAGES: usize, const K: u32>(
    now: &mut Bench<NW, PAGES, K>,
    before: &mut Bench<NW, PAGES, K>,
    machine: &mut Machine<NW, PAGES>,
    other: &mut Machine<NW, PAGES>,
    step: u32,
) -> Result<bool, AllocError>
    requires within { step < 1000000 }
    requires in_lockstep { AreInLockstep now.old.kept before.old.kept step machine.old other.old }
    requires recorded { step < recorded K now.old.recording }
    requires others_recorded { step < recorded K before.old.recording }
    ensures in_lockstep { IfOk result (λ made. MatchBool made (AreInLockstep now.old.kept before.old.kept (step + 1) machine.new other.new)
        ((machine.new ≡ machine.old) × (other.new ≡ other.old))) }
    ensures made { IfOk result (λ made. MatchBool made (IsMade K step now.old now.new) (now.new ≡ now.old)) }
    ensures others_made { IfOk result (λ made. MatchBool made (IsMade K step before.old before.new) (before.new ≡ before.old)) }
    ensures unmade { OnErr result ((now.new ≡ now.old) × (before.new ≡ before.old)) }
{
    now.sizes();
    before.sizes();
    let made = pass_in_lockstep(machine, other, step, now.timeline(), before.timeline())?;
    if made {
        now.count_step();
        before.count_step();
    }
    Ok(made)
}

/// Makes recorded steps of two machines as one, as long as they can. Gives the step that they come to.
#[inline(always)]
fn pass_both<const NW: usize, const PAGES: usize, const K: u32>(
    now: &mut Bench<NW, PAGES, K>,
    before: &mut Bench<NW, PAGES, K>,
    machine: &mut Machine<NW, PAGES>,
    other: &mut Machine<NW, PAGES>,
    from: u32,
    to: u32,
) -> Result<u32, AllocError>
    requires ordered { from ≤ to }
    requires within { to ≤ 1000000 }
    requires in_lockstep { AreInLockstep now.old.kept before.old.kept from machine.old other.old }
    requires recorded { to ≤ recorded K now.old.recording }
    requires others_recorded { to ≤ recorded K before.old.recording }
    ensures begun { IfOk result (λ n. from ≤ n) }
    ensures ended { IfOk result (λ n. n ≤ to) }
    ensures in_lockstep { IfOk result (λ n. AreInLockstep now.old.kept before.old.kept n machine.new other.new) }
    ensures idle { IfOk result (λ n. n ≤ from → (machine.new ≡ machine.old) × (other.new ≡ other.old)) }
    ensures alike { IfOk result (λ n. AreAlikeBetween from n before.old.kept now.old.kept) }
    ensures kept { (now.new.kept ≡ now.old.kept) × (before.new.kept ≡ before.old.kept) }
    ensures recorded { (checkpoints now.new ≡ checkpoints now.old) × (checkpoints before.new ≡ checkpoints before.old) }
    ensures counted { IfOk result (λ n. now.new.worked ≡ counted_by (n - from) now.old.worked) }
    ensures others_counted { IfOk result (λ n. before.new.worked ≡ counted_by (n - from) before.old.worked) }
    ensures raised { RaisedUpTo (to - from) now.old.worked now.new.worked }
    ensures others_raised { RaisedUpTo (to - from) before.old.worked before.new.worked }
{
    now.sizes();
    let mut n = from;
    while n < to {
        let made = step_both(now, before, machine, other, n)?;
        if !made {
            return Ok(n);
        }
        n += 1;
    }
    Ok(n)
}

/// Makes the next steps of two walks, of two workbenches, together, as long as they are recorded, below another step, and the
/// same in both: an event is in neither, and both pass over an annulled slot, carry out the same instruction or take its trap, or are
/// in error mode. It may make none.
///
/// # Errors
///
/// Those of `Walk::go_on`, for both walks.
pub fn walk_in_lockstep<const NW: usize, const PAGES: usize, const K: u32>(
    now: &mut Bench<NW, PAGES, K>,
    before: &mut Bench<NW, PAGES, K>,
    walk: &mut Walk<NW, PAGES>,
    other_walk: &mut Walk<NW, PAGES>,
    to: u32,
) -> Result<(), AllocError>
    requires walk { IsWalk K now.old walk.old }
    requires others_walk { IsWalk K before.old other_walk.old }
    requires together { other_walk.old.step ≡ walk.old.step }
    requires alike { IsSameProcessor (state_in other_walk.old.place) (state_in walk.old.place) }
    requires ordered { walk.old.step ≤ to }
    requires within { to ≤ 1000000 }
    requires recorded { walk.old.step / K ≤ checkpoints now.old }
    requires others_recorded { walk.old.step / K ≤ checkpoints before.old }
    ensures walk { OnOk result (IsWalk K now.new walk.new) }
    ensures others_walk { OnOk result (IsWalk K before.new other_walk.new) }
    ensures together { OnOk result (other_walk.new.step ≡ walk.new.step) }
    ensures begun { OnOk result (walk.old.step ≤ walk.new.step) }
    ensures ended { OnOk result (walk.new.step ≤ to) }
    ensures alike { OnOk result (AreAlikeBetween walk.old.step walk.new.step before.old.kept now.old.kept) }
    ensures kept { (now.new.kept ≡ now.old.kept) × (before.new.kept ≡ before.old.kept) }
    ensures recorded { (checkpoints now.new ≡ checkpoints now.old) × (checkpoints before.new ≡ checkpoints before.old) }
    ensures within { OnOk result ((walk.new.step / K ≤ checkpoints now.old) × (walk.new.step / K ≤ checkpoints before.old)) }
    ensures counted { OnOk result (now.new.worked ≡ counted_by (walk.new.step - walk.old.step) now.old.worked) }
    ensures others_counted { OnOk result (before.new.worked ≡ counted_by (walk.new.step - walk.old.step) before.old.worked) }
    ensures raised { RaisedUpTo (to - walk.old.step) now.old.worked now.new.worked }
    ensures others_raised { RaisedUpTo (to - walk.old.step) before.old.worked before.new.worked }
{
    now.sizes();
    let from = walk.step;
    let end = to.min(now.recorded()).min(before.recorded());
    if end <= from {
        return Ok(());
    }
    if let Place::Restored(machine) = &mut walk.place {
        if let Place::Restored(other) = &mut other_walk.place {
            let step = pass_both(now, before, machine, other, from, end)?;
            if from < step {
                copy_processor(other, machine);
            }
            walk.step = step;
            other_walk.step = step;
        }
    }
    Ok(())
}
