//! Recorded runs of two pages of RAM, with a checkpoint every four steps, for the parts that refuse them memory.

ghost use Rattle.std.specs.Prelude.{◌≡◌, ◌≤◌, IfOk};
ghost use Rattle.sv8_time.specs.Schedule.{bytes_below};
ghost use Rattle.sv8_trace.specs.Recording.{last_point, recorded};

use std::alloc::{AllocError, Global};
use sv8_cpu::{Machine, Work};
use sv8_reset::reset;
use sv8_source::Source;
use sv8_time::Timeline;
use sv8_trace::Trace;

pub(crate) type Point = Machine<8, 2>;

/// A checkpoint every four steps.
pub(crate) type Small = Trace<8, 2, 4>;

/// The source of some lines, which are assembled with no fault.
pub(crate) fn source_of(alloc: Global, texts: &[&[u8]]) -> Result<Source, AllocError> {
    let mut lines = Vec::new(alloc);
    for text in texts {
        lines.push(text.to_vec(alloc)?)?;
    }
    let mut source = Source::new(alloc, 8_192);
    match source.replace(alloc, 1, 0, &lines) {
        Ok(_) => Ok(source),
        Err(_) => Err(AllocError),
    }
}

/// A trace that has nothing recorded, at the second try where memory was refused at the first.
pub(crate) fn fresh(
    alloc: Global,
    source: &Source,
    timeline: &Timeline,
) -> Result<Small, AllocError>
    ensures { IfOk result (λ t. (last_point t).memory.taken ≤ bytes_below (recorded 4 t) timeline.now.inputs) }
{
    match begun(alloc, source, timeline) {
        Ok(trace) => Ok(trace),
        Err(_) => begun(alloc, source, timeline),
    }
}

fn begun(alloc: Global, source: &Source, timeline: &Timeline) -> Result<Small, AllocError>
    ensures { IfOk result (λ t. (last_point t).memory.taken ≤ bytes_below (recorded 4 t) timeline.now.inputs) }
{
    let machine: Point = reset(alloc, source)?;
    if timeline.delivered(0) < machine.taken() {
        return Err(AllocError);
    }
    let trace = Small::new(alloc, machine)?;
    Ok(trace)
}

/// A copy of a recorded run, at the second try where memory was refused at the first.
pub(crate) fn copied(alloc: Global, trace: &Small) -> Result<Small, AllocError> {
    match trace.copy(alloc) {
        Ok(copy) => Ok(copy),
        Err(_) => trace.copy(alloc),
    }
}

/// Records the next four steps, and counts them.
pub(crate) fn lengthen(
    alloc: Global,
    trace: &mut Small,
    timeline: &Timeline,
) -> Result<u64, AllocError>
    requires limit { timeline.now.limit ≡ 8192 }
    requires delivered { (last_point trace.old).memory.taken ≤ bytes_below (recorded 4 trace.old) timeline.now.inputs }
    ensures delivered { (last_point trace.new).memory.taken ≤ bytes_below (recorded 4 trace.new) timeline.now.inputs }
{
    if 1_000 < trace.recorded() {
        return Err(AllocError);
    }
    let mut work = Work::new();
    match trace.extend(alloc, timeline, &mut work) {
        Ok(()) => Ok(work.done()),
        Err(fault) => Err(fault),
    }
}
