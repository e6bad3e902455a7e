//! Records a run, copies, patches and cuts it: each call that is refused memory leaves the recorded run as it was, and each other one does what it
//! should.

ghost use Rattle.std.specs.Prelude.{◌≡◌, ◌<◌, ◌≤◌};
ghost use Rattle.std.specs.List.{All};
ghost use Rattle.sv8_time.specs.Schedule.{bytes_below};
ghost use Rattle.sv8_cpu.specs.Patches.{IsPatch};
ghost use Rattle.sv8_trace.specs.Recording.{last_point, recorded};

use crate::recorded::{Point, Small, copied, fresh, lengthen, source_of};
use std::alloc::{AllocError, Global};
use sv8_model::Refused;
use sv8_source::Source;
use sv8_time::{TimeFault, Timeline};
use sv8_trace::{Cause, Cell, Content, NO_END, Patch};

/// A program that takes a byte at step 1, puts one out at step 3, stores it at step 4 and reads another word at step 5.
const LINES: &[&[u8]] = &[
    b"sethi 0x200000, %g1",
    b"ld [%g1], %g3",
    b"mov 0x48, %g2",
    b"st %g2, [%g1+8]",
    b"st %g2, [0x100]",
    b"ld [0x104], %g4",
    b"end: ba end",
    b"nop",
];

/// What is done to the recorded run.
#[derive(Drop, Clone, Copy)]
enum Deed {
    /// The poke has another value, and one more level is requested.
    Patch,
    /// The poke and the first request are cleared.
    Clear,
    /// It is cut to 12 steps.
    Cut,
    /// The source places a word, and the run is cut to 8 steps.
    Place,
    /// The word that step 5 reads is poked at step 3.
    PokeRead,
    /// The input of step 1 changes.
    Feed,
}

/// What a recorded run is to show.
#[derive(Drop, Clone, Copy)]
struct Due {
    recorded: u32,
    /// The word at 0x104, from step 4 on.
    read: u32,
    /// The word at 0x108, from step 4 on.
    poked: u32,
    /// The word at 0x10C.
    placed: u32,
    /// The pending levels, from step 8 on.
    pending: u32,
}

/// The run with its events, before anything is recorded.
const FIRST: Due = Due {
    recorded: 0,
    read: 0,
    poked: 7,
    placed: 0,
    pending: 0x08,
};

/// Each deed, and what the run shows once it is done.
const DEEDS: [(Deed, Due); 6] = [
    (
        Deed::Patch,
        Due {
            recorded: 16,
            poked: 9,
            pending: 0x18,
            ..FIRST
        },
    ),
    (
        Deed::Clear,
        Due {
            recorded: 16,
            poked: 0,
            pending: 0x10,
            ..FIRST
        },
    ),
    (
        Deed::Cut,
        Due {
            recorded: 12,
            poked: 0,
            pending: 0x10,
            ..FIRST
        },
    ),
    (
        Deed::Place,
        Due {
            recorded: 8,
            poked: 0,
            placed: 5,
            pending: 0x10,
            ..FIRST
        },
    ),
    (
        Deed::PokeRead,
        Due {
            recorded: 4,
            read: 6,
            poked: 0,
            placed: 5,
            pending: 0x10,
        },
    ),
    (
        Deed::Feed,
        Due {
            recorded: 0,
            read: 6,
            poked: 0,
            placed: 5,
            pending: 0x10,
        },
    ),
];

/// The machine of a checkpoint, at the second try where memory was refused at the first.
fn restored(alloc: Global, trace: &Small, step: u32) -> Result<Point, AllocError> {
    match trace.restore(alloc, step) {
        Ok(point) => Ok(point),
        Err(_) => trace.restore(alloc, step),
    }
}

/// Whether a checkpoint shows what is due.
fn is_point(point: &Point, step: u32, due: Due) -> bool {
    let pc = match step {
        0 => 0,
        4 => 0x10,
        _ => 0x18,
    };
    let (taken, read, poked) = if step < 4 {
        (0, 0, 0)
    } else {
        (0x41, due.read, due.poked)
    };
    let (stored, pending) = if step < 8 {
        (0, 0)
    } else {
        (0x48, due.pending)
    };
    point.pc() == pc
        && point.registers().get(3) == taken
        && point.word(0x100) == stored
        && point.word(0x104) == read
        && point.word(0x108) == poked
        && point.word(0x10c) == due.placed
        && point.pending() == pending
}

/// Whether a recorded run shows what is due.
fn is_as(alloc: Global, trace: &Small, due: Due) -> bool {
    let mut holds = trace.recorded() == due.recorded;
    for step in 0..24u32 {
        let checkpoint = due.recorded.min(step - step % 4);
        holds = holds
            && match restored(alloc, trace, step) {
                Ok(point) => is_point(&point, checkpoint, due),
                Err(_) => false,
            };
    }
    holds
}

fn poke(step: u32, address: u32, value: u8) -> Patch
    requires { address < 8192 }
    ensures { IsPatch 2 result }
{
    Patch {
        cell: Cell::Byte(address),
        from: step,
        to: NO_END,
        cause: Cause::Poke(Content::Byte(value)),
    }
}

fn unpoke(step: u32, address: u32) -> Patch
    requires { address < 8192 }
    ensures { IsPatch 2 result }
{
    Patch {
        cell: Cell::Byte(address),
        from: step,
        to: NO_END,
        cause: Cause::Uncover,
    }
}

fn image(address: u32, value: u8) -> Patch
    requires { address < 8192 }
    ensures { IsPatch 2 result }
{
    Patch {
        cell: Cell::Byte(address),
        from: 0,
        to: NO_END,
        cause: Cause::Source(Content::Byte(value)),
    }
}

fn request(step: u32, level: u32) -> Patch
    requires some { 1 ≤ level }
    requires level { level ≤ 15 }
    ensures { IsPatch 2 result }
{
    Patch {
        cell: Cell::Level(level),
        from: step,
        to: NO_END,
        cause: Cause::Poke(Content::Pending(true)),
    }
}

fn unrequest(step: u32, level: u32) -> Patch
    requires some { 1 ≤ level }
    requires level { level ≤ 15 }
    ensures { IsPatch 2 result }
{
    Patch {
        cell: Cell::Level(level),
        from: step,
        to: NO_END,
        cause: Cause::Uncover,
    }
}

/// Builds what an edit makes of a recorded run, and places it.
fn edit(alloc: Global, trace: &mut Small, patches: &[Patch]) -> Result<(), AllocError>
    requires { All (IsPatch 2) patches.now }
{
    let prepared = trace.prepare_edit(alloc, patches)?;
    trace.commit(prepared);
    Ok(())
}

/// Patches a recorded run and cuts it to 8 steps.
fn place(alloc: Global, trace: &mut Small, patch: Patch) -> Result<(), AllocError>
    requires { IsPatch 2 patch }
{
    if trace.recorded() < 8 {
        return Err(AllocError);
    }
    let prepared = trace.prepare(alloc, &[patch], 8)?;
    trace.commit(prepared);
    Ok(())
}

/// Cuts a recorded run to 12 steps.
fn cut(alloc: Global, trace: &mut Small) -> Result<(), AllocError> {
    if trace.recorded() < 12 {
        return Err(AllocError);
    }
    trace.cut(alloc, 12)
}

/// Builds what other input makes of a recorded run, and places it.
fn feed(alloc: Global, trace: &mut Small) -> Result<(), AllocError> {
    let prepared = trace.prepare_input(alloc, 1)?;
    trace.commit(prepared);
    Ok(())
}

fn carry_out(alloc: Global, trace: &mut Small, deed: Deed) -> Result<(), AllocError> {
    match deed {
        Deed::Patch => trace.patch(alloc, &[poke(2, 0x10b, 9), request(6, 4)]),
        Deed::Clear => edit(alloc, trace, &[unpoke(2, 0x10b), unrequest(6, 3)]),
        Deed::Cut => cut(alloc, trace),
        Deed::Place => place(alloc, trace, image(0x10f, 5)),
        Deed::PokeRead => edit(alloc, trace, &[poke(3, 0x107, 6)]),
        Deed::Feed => feed(alloc, trace),
    }
}

/// Whether a deed, at the second try where memory was refused at the first, leads from one view to another, and a refused one to none.
fn is_done(alloc: Global, trace: &mut Small, deed: Deed, before: Due, after: Due) -> bool {
    match carry_out(alloc, trace, deed) {
        Ok(()) => is_as(alloc, trace, after),
        Err(_) => {
            let kept = is_as(alloc, trace, before);
            kept && carry_out(alloc, trace, deed).is_ok() && is_as(alloc, trace, after)
        }
    }
}

/// Whether four steps more are recorded behind so many, at the second try where memory was refused at the first.
fn is_longer(alloc: Global, trace: &mut Small, timeline: &Timeline, steps: u32) -> bool
    requires limit { timeline.now.limit ≡ 8192 }
    requires delivered { (last_point trace.old).memory.taken ≤ bytes_below (recorded 4 trace.old) timeline.now.inputs }
    ensures delivered { (last_point trace.new).memory.taken ≤ bytes_below (recorded 4 trace.new) timeline.now.inputs }
{
    let before = Due {
        recorded: steps,
        ..FIRST
    };
    let after = Due {
        recorded: steps.saturating_add(4),
        ..FIRST
    };
    match lengthen(alloc, trace, timeline) {
        Ok(made) => made == 4 && is_as(alloc, trace, after),
        Err(_) => {
            let kept = is_as(alloc, trace, before);
            let made = lengthen(alloc, trace, timeline);
            kept && made == Ok(4) && is_as(alloc, trace, after)
        }
    }
}

/// Whether each deed leads to what is due.
fn are_done(alloc: Global, trace: &mut Small) -> bool {
    let mut holds = true;
    let mut before = Due {
        recorded: 16,
        ..FIRST
    };
    for (deed, after) in DEEDS {
        holds = is_done(alloc, trace, deed, before, after) && holds;
        before = after;
    }
    holds
}

/// Sets the run's events.
fn schedule(alloc: Global, timeline: &mut Timeline) -> Result<(), Refused<TimeFault>>
    ensures { timeline.new.limit ≡ timeline.old.limit }
{
    timeline.set_input(alloc, 0, b"A")?;
    timeline.set_poke(alloc, 2, 0x108, 7)?;
    timeline.set_request(alloc, 6, 3)?;
    Ok(())
}

/// Whether each deed leads to what is due, and leaves a copy of the recorded run.
fn leave_a_copy(alloc: Global, trace: &mut Small) -> bool {
    let kept = Due {
        recorded: 16,
        ..FIRST
    };
    match copied(alloc, trace) {
        Ok(copy) => {
            let alike = is_as(alloc, &copy, kept) && is_as(alloc, trace, kept);
            alike && are_done(alloc, trace) && is_as(alloc, &copy, kept)
        }
        Err(_) => false,
    }
}

/// Whether each call is as it should be.
fn are_kept(alloc: Global, trace: &mut Small, timeline: &Timeline) -> bool
    requires limit { timeline.now.limit ≡ 8192 }
    requires delivered { (last_point trace.old).memory.taken ≤ bytes_below (recorded 4 trace.old) timeline.now.inputs }
{
    let fresh = is_as(alloc, trace, FIRST);
    let first = is_longer(alloc, trace, timeline, 0);
    let second = is_longer(alloc, trace, timeline, 4);
    let third = is_longer(alloc, trace, timeline, 8);
    let fourth = is_longer(alloc, trace, timeline, 12);
    fresh && first && second && third && fourth && leave_a_copy(alloc, trace)
}

/// Whether each call is as it should be, of a run of which nothing is recorded.
fn is_kept(alloc: Global, source: &Source, timeline: &Timeline) -> Result<bool, AllocError>
    requires limit { timeline.now.limit ≡ 8192 }
{
    let mut trace = fresh(alloc, source, timeline)?;
    Ok(are_kept(alloc, &mut trace, timeline))
}

pub fn keeps(alloc: Global) -> Result<bool, AllocError> {
    let source = source_of(alloc, LINES)?;
    let mut timeline = Timeline::new(alloc, 8_192);
    if schedule(alloc, &mut timeline).is_err() {
        return Err(AllocError);
    }
    is_kept(alloc, &source, &timeline)
}
