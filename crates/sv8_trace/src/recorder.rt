//! Steps that are made and recorded.

ghost use Rattle.std.specs.Prelude.{◌≡◌, ℕ, ◌+◌, ◌≤◌, ◌<◌, ◌&&◌, ◌==◌, ◌++◌, [], true, cond, None, Some, is_some, IfOk, OnOk};
ghost use Rattle.sv8_model.specs.Cells as model;
ghost use Rattle.sv8_model.specs.Footprint.{data_touches};
ghost use Rattle.sv8_time.specs.Schedule.{bytes_below};
ghost use Rattle.sv8_phys.specs.Memory.{ram_size};
ghost use Rattle.sv8_touches.specs.Told.{told};
ghost use Rattle.sv8_notes.specs.Kept.{kept_in};
ghost use Rattle.sv8_notes.specs.Touched.{is_touched};
ghost use Rattle.sv8_notes.specs.Steps.{Gains};
ghost use Rattle.sv8_memory.specs.WordPokes.{AreInside};
ghost use Rattle.sv8_cpu.specs.Run.{step, footprint, observed};
ghost use Rattle.sv8_cpu.specs.Recorded.{event_at, poke_of, get};
ghost use Rattle.sv8_cpu.specs.Work.{counted_by};
ghost use Rattle.sv8_trace.specs.Recorder.{below_byte, below_word, below_words, below_requests, so_far, steps_on, IsQuiet, IsRecorded, HasOneMore, RaisedUpTo};

use crate::interval::Interval;
use crate::open_interval::OpenInterval;
use std::alloc::AllocError;
use sv8_cpu::{Machine, Work};
use sv8_notes::{Cell, Content, KeptList, Recorder};
use sv8_phys::Touch;
use sv8_time::{Request, Timeline, WordPoke};
use sv8_touches::Watch;

/// Keeps what stands in a byte, if it is about to be poked.
fn keep_byte<const NW: usize, const PAGES: usize>(
    kept: &mut KeptList,
    machine: &Machine<NW, PAGES>,
    offset: u32,
    address: u32,
    poked: Option<u8>,
) -> Result<(), AllocError>
    requires few_windows { NW ≤ 32 }
    requires few_pages { PAGES ≤ 65536 }
    requires within { address < ram_size PAGES }
    ensures { OnOk result (kept.new ≡ kept.old ++ below_byte offset machine.now address poked) }
{
    match poked {
        None => Ok(()),
        Some(_) => {
            let content = Content::Byte(machine.byte(address));
            kept.push(offset, Cell::Byte(address), content)?;
            Ok(())
        }
    }
}

/// Keeps what stands in the bytes of a word that are about to be poked.
fn keep_word<const NW: usize, const PAGES: usize>(
    kept: &mut KeptList,
    machine: &Machine<NW, PAGES>,
    offset: u32,
    word: &WordPoke,
) -> Result<(), AllocError>
    requires few_windows { NW ≤ 32 }
    requires few_pages { PAGES ≤ 65536 }
    requires within { word.now.address + 4 ≤ ram_size PAGES }
    ensures { OnOk result (kept.new ≡ kept.old ++ below_word offset machine.now word.now) }
{
    let at = word.address;
    keep_byte(kept, machine, offset, at, word.bytes[0])?;
    keep_byte(kept, machine, offset, at + 1, word.bytes[1])?;
    keep_byte(kept, machine, offset, at + 2, word.bytes[2])?;
    keep_byte(kept, machine, offset, at + 3, word.bytes[3])?;
    Ok(())
}

/// Keeps what stands in the bytes of several words that are about to be poked.
fn keep_words<const NW: usize, const PAGES: usize>(
    kept: &mut KeptList,
    machine: &Machine<NW, PAGES>,
    offset: u32,
    words: &[WordPoke],
) -> Result<(), AllocError>
    requires few_windows { NW ≤ 32 }
    requires few_pages { PAGES ≤ 65536 }
    requires within { AreInside (ram_size PAGES) words.now }
    ensures { OnOk result (kept.new ≡ kept.old ++ below_words offset machine.now words.now) }
{
    let mut rest = words;
    while let [word, after @ ..] = rest {
        keep_word(kept, machine, offset, word)?;
        rest = after;
    }
    Ok(())
}

/// Keeps whether levels are pending that are about to be requested.
fn keep_levels<const NW: usize, const PAGES: usize>(
    kept: &mut KeptList,
    machine: &Machine<NW, PAGES>,
    offset: u32,
    requests: &[Request],
) -> Result<(), AllocError>
    requires { NW ≤ 32 }
    ensures { OnOk result (kept.new ≡ kept.old ++ below_requests offset machine.now requests.now) }
{
    let mut rest = requests;
    while let [request, after @ ..] = rest {
        let content = Content::Pending(machine.is_pending(request.level));
        kept.push(offset, Cell::Level(request.level.number()), content)?;
        rest = after;
    }
    Ok(())
}

/// Keeps what stands in the cells that the events of step n are about to set, where there may be some.
#[inline(never)]
#[tactic(auto, using(sv8_cpu::proofs::Common::are_inside))]
fn keep_events<const NW: usize, const PAGES: usize>(
    kept: &mut KeptList,
    machine: &Machine<NW, PAGES>,
    timeline: &Timeline,
    n: u32,
    offset: u32,
) -> Result<(), AllocError>
    requires few_windows { NW ≤ 32 }
    requires few_pages { PAGES ≤ 65536 }
    requires limit { timeline.now.limit ≡ ram_size PAGES }
    requires free { (c : model.Cell) → kept_in offset c kept.old ≡ None }
    ensures { OnOk result ((j : ℕ) (c : model.Cell) → kept_in j c kept.new
        ≡ cond (j == offset && is_some (poke_of c (event_at timeline.now n))) (Some (get c machine.now)) (kept_in j c kept.old)) }
{
    let events = timeline.events(n);
    keep_words(kept, machine, offset, events.pokes)?;
    keep_levels(kept, machine, offset, events.requests)?;
    Ok(())
}

/// Keeps what stands in the cells that the events of step n are about to set.
#[inline(always)]
fn keep_below<const NW: usize, const PAGES: usize>(
    kept: &mut KeptList,
    machine: &Machine<NW, PAGES>,
    timeline: &Timeline,
    n: u32,
    offset: u32,
) -> Result<(), AllocError>
    requires few_windows { NW ≤ 32 }
    requires few_pages { PAGES ≤ 65536 }
    requires limit { timeline.now.limit ≡ ram_size PAGES }
    requires free { (c : model.Cell) → kept_in offset c kept.old ≡ None }
    ensures { OnOk result ((j : ℕ) (c : model.Cell) → kept_in j c kept.new
        ≡ cond (j == offset && is_some (poke_of c (event_at timeline.now n))) (Some (get c machine.now)) (kept_in j c kept.old)) }
{
    if !timeline.may_have_events(n) {
        return Ok(());
    }
    keep_events(kept, machine, timeline, n, offset)?;
    Ok(())
}

/// Takes the notes of a step, the one with this offset, from the list of all that it touched, and lets go what is kept of
/// cells that it touched.
fn record_touches(
    recorder: &mut Recorder,
    kept: &mut KeptList,
    touches: &[Touch],
    offset: u32,
) -> Result<(), AllocError>
    requires { offset < 1000000 }
    ensures gained { OnOk result (Gains offset (told touches.now) (data_touches touches.now) recorder.old.notes recorder.new.notes) }
    ensures kept { OnOk result ((j : ℕ) (c : model.Cell) → kept_in j c kept.new ≡ cond (is_touched (told touches.now) c) None (kept_in j c kept.old)) }
{
    kept.forget(touches);
    recorder.record(offset, touches)?;
    Ok(())
}

/// Makes step n and records it, as the step with this offset in its interval. Where something happens from outside, what
/// stood in cells before is kept, until a step touches them.
#[inline(never)]
fn record_eventful_step<const NW: usize, const PAGES: usize>(
    machine: &mut Machine<NW, PAGES>,
    timeline: &Timeline,
    n: u32,
    offset: u32,
    interval: &mut OpenInterval,
) -> Result<(), AllocError>
    requires few_windows { NW ≤ 32 }
    requires few_pages { PAGES ≤ 65536 }
    requires limit { timeline.now.limit ≡ ram_size PAGES }
    requires delivered { machine.old.memory.taken ≤ bytes_below n timeline.now.inputs }
    requires offset { offset < 1000000 }
    requires free { (c : model.Cell) → kept_in offset c interval.old.kept ≡ None }
    ensures state { OnOk result (machine.new ≡ step NW PAGES timeline.now n machine.old) }
    ensures delivered { OnOk result (machine.new.memory.taken ≤ bytes_below (n + 1) timeline.now.inputs) }
    ensures recorded { OnOk result (HasOneMore NW PAGES timeline.now n offset machine.old machine.new (so_far interval.old) (so_far interval.new)) }
{
    interval.touches.clear();
    let ran = machine.is_running();
    interval.signs.note_before(machine);
    keep_below(&mut interval.kept, machine, timeline, n, offset)?;
    machine.watch(n, timeline, &mut interval.touches)?;
    interval.signs.note_after(offset, ran, machine)?;
    let touches = interval.touches.touches();
    record_touches(&mut interval.recorder, &mut interval.kept, touches, offset)?;
    Ok(())
}

/// The same of a step at which the timeline has neither pokes nor requests, in an interval that keeps nothing. Its notes go
/// straight into those of the interval.
#[inline(always)]
fn record_quiet_step<const NW: usize, const PAGES: usize>(
    machine: &mut Machine<NW, PAGES>,
    timeline: &Timeline,
    n: u32,
    offset: u32,
    interval: &mut OpenInterval,
) -> Result<(), AllocError>
    requires few_windows { NW ≤ 32 }
    requires few_pages { PAGES ≤ 65536 }
    requires delivered { machine.old.memory.taken ≤ bytes_below n timeline.now.inputs }
    requires offset { offset < 1000000 }
    requires quiet { IsQuiet timeline.now n }
    requires nothing_kept { interval.old.kept ≡ [] }
    ensures state { OnOk result (machine.new ≡ step NW PAGES timeline.now n machine.old) }
    ensures delivered { OnOk result (machine.new.memory.taken ≤ bytes_below (n + 1) timeline.now.inputs) }
    ensures recorded { OnOk result (HasOneMore NW PAGES timeline.now n offset machine.old machine.new (so_far interval.old) (so_far interval.new)) }
    ensures nothing_kept { interval.new.kept ≡ [] }
{
    interval.recorder.begin(offset);
    if !machine.is_running() || machine.mmu().translates() {
        record_listed_step(machine, timeline, n, offset, interval)?;
        return Ok(());
    }
    machine.watch_quiet(n, timeline, &mut interval.recorder)?;
    interval.recorder.end()?;
    interval.signs.note_after(offset, true, machine)?;
    Ok(())
}

/// The same where addresses are translated, or the machine is in error mode. Where they are translated a step touches the
/// entries of its walks too, and most go through the list.
#[inline(never)]
fn record_listed_step<const NW: usize, const PAGES: usize>(
    machine: &mut Machine<NW, PAGES>,
    timeline: &Timeline,
    n: u32,
    offset: u32,
    interval: &mut OpenInterval,
) -> Result<(), AllocError>
    requires few_windows { NW ≤ 32 }
    requires few_pages { PAGES ≤ 65536 }
    requires delivered { machine.old.memory.taken ≤ bytes_below n timeline.now.inputs }
    requires offset { offset < 1000000 }
    requires quiet { IsQuiet timeline.now n }
    requires nothing_kept { interval.old.kept ≡ [] }
    ensures state { OnOk result (machine.new ≡ step NW PAGES timeline.now n machine.old) }
    ensures delivered { OnOk result (machine.new.memory.taken ≤ bytes_below (n + 1) timeline.now.inputs) }
    ensures recorded { OnOk result (HasOneMore NW PAGES timeline.now n offset machine.old machine.new (so_far interval.old) (so_far interval.new)) }
    ensures nothing_kept { interval.new.kept ≡ [] }
{
    interval.touches.clear();
    let ran = machine.is_running();
    interval.signs.note_before(machine);
    machine.watch_quiet(n, timeline, &mut interval.touches)?;
    let touches = interval.touches.touches();
    interval.recorder.record(offset, touches)?;
    interval.signs.note_after(offset, ran, machine)?;
    Ok(())
}

/// Makes step n and records it, as the step with this offset in its interval. `quiet` says that the timeline has neither
/// pokes nor requests at any step of the interval.
#[inline(always)]
fn record_step<const NW: usize, const PAGES: usize>(
    machine: &mut Machine<NW, PAGES>,
    timeline: &Timeline,
    n: u32,
    offset: u32,
    quiet: bool,
    interval: &mut OpenInterval,
) -> Result<(), AllocError>
    requires few_windows { NW ≤ 32 }
    requires few_pages { PAGES ≤ 65536 }
    requires limit { timeline.now.limit ≡ ram_size PAGES }
    requires delivered { machine.old.memory.taken ≤ bytes_below n timeline.now.inputs }
    requires offset { offset < 1000000 }
    requires free { (c : model.Cell) → kept_in offset c interval.old.kept ≡ None }
    requires quiet { quiet ≡ true → IsQuiet timeline.now n × (interval.old.kept ≡ []) }
    ensures state { OnOk result (machine.new ≡ step NW PAGES timeline.now n machine.old) }
    ensures delivered { OnOk result (machine.new.memory.taken ≤ bytes_below (n + 1) timeline.now.inputs) }
    ensures recorded { OnOk result (HasOneMore NW PAGES timeline.now n offset machine.old machine.new (so_far interval.old) (so_far interval.new)) }
    ensures nothing_kept { OnOk result (quiet ≡ true → interval.new.kept ≡ []) }
{
    if !quiet {
        record_eventful_step(machine, timeline, n, offset, interval)?;
    } else {
        record_quiet_step(machine, timeline, n, offset, interval)?;
    }
    Ok(())
}

/// Makes step n and records it, as the step with this offset in an interval under way. `watch` has afterwards what the step
/// touches, and what an observer sees of it. Who calls it counts the step.
///
/// # Errors
///
/// `AllocError` where memory for the step or its notes cannot be had. What the machine and the interval are then is not said.
pub fn record_watched<const NW: usize, const PAGES: usize>(
    machine: &mut Machine<NW, PAGES>,
    timeline: &Timeline,
    n: u32,
    offset: u32,
    interval: &mut OpenInterval,
    watch: &mut Watch,
) -> Result<(), AllocError>
    requires few_windows { NW ≤ 32 }
    requires few_pages { PAGES ≤ 65536 }
    requires limit { timeline.now.limit ≡ ram_size PAGES }
    requires delivered { machine.old.memory.taken ≤ bytes_below n timeline.now.inputs }
    requires offset { offset < 1000000 }
    requires free { (c : model.Cell) → kept_in offset c (so_far interval.old).kept ≡ None }
    ensures state { OnOk result (machine.new ≡ step NW PAGES timeline.now n machine.old) }
    ensures delivered { OnOk result (machine.new.memory.taken ≤ bytes_below (n + 1) timeline.now.inputs) }
    ensures watched { OnOk result (watch.new ≡ record { touches = footprint NW PAGES timeline.now n machine.old; observations = observed NW PAGES timeline.now n machine.old }) }
    ensures recorded { OnOk result (HasOneMore NW PAGES timeline.now n offset machine.old machine.new (so_far interval.old) (so_far interval.new)) }
{
    watch.clear();
    let ran = machine.is_running();
    interval.signs.note_before(machine);
    keep_below(&mut interval.kept, machine, timeline, n, offset)?;
    machine.watch(n, timeline, watch)?;
    interval.signs.note_after(offset, ran, machine)?;
    record_touches(
        &mut interval.recorder,
        &mut interval.kept,
        watch.touches(),
        offset,
    )?;
    Ok(())
}

/// Makes so many steps from the machine of step n on, and records them. `interval` is a place for what is recorded
/// meanwhile.
///
/// # Errors
///
/// `AllocError` where memory for a step or its notes cannot be had. The machine is given up with it; `work` counts the steps that
/// were made.
// A function of its own, so that its loop has all registers.
#[inline(never)]
pub(crate) fn record<const NW: usize, const PAGES: usize>(
    machine: Machine<NW, PAGES>,
    timeline: &Timeline,
    n: u32,
    count: u32,
    interval: &mut OpenInterval,
    work: &mut Work,
) -> Result<(Machine<NW, PAGES>, Interval), AllocError>
    requires few_windows { NW ≤ 32 }
    requires few_pages { PAGES ≤ 65536 }
    requires limit { timeline.now.limit ≡ ram_size PAGES }
    requires steps { n + count ≤ 1000000 }
    requires delivered { machine.memory.taken ≤ bytes_below n timeline.now.inputs }
    ensures state { IfOk result (λ r. r.0 ≡ steps_on NW PAGES timeline.now n machine.entry count) }
    ensures delivered { IfOk result (λ r. r.0.memory.taken ≤ bytes_below (n + count) timeline.now.inputs) }
    ensures recorded { IfOk result (λ r. IsRecorded NW PAGES timeline.now n machine.entry count r.1) }
    ensures counted { OnOk result (work.new ≡ counted_by count work.old) }
    ensures raised { RaisedUpTo count work.old work.new }
{
    interval.clear();
    let mut machine = machine;
    let quiet = !timeline.may_have_events_between(n, n + count);
    // A range would be taken apart and put together again at each step.
    let mut offset = 0;
    while offset < count {
        match record_step(&mut machine, timeline, n + offset, offset, quiet, interval) {
            Ok(()) => offset += 1,
            Err(fault) => {
                work.raise_by(offset);
                return Err(fault);
            }
        }
    }
    work.raise_by(count);
    Ok((machine, interval.copy()?))
}
