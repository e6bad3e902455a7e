//! Records a run that traps: its trap is noted, and a copy of the run has the note, also where memory was refused at first.

ghost use Rattle.std.specs.Prelude.{◌≡◌, ◌≤◌};
ghost use Rattle.sv8_time.specs.Schedule.{bytes_below};
ghost use Rattle.sv8_trace.specs.Recording.{last_point, recorded};

use crate::recorded::{Small, copied, fresh, lengthen, source_of};
use std::alloc::{AllocError, Global};
use sv8_evidence::{Sign, shows_none};
use sv8_source::Source;
use sv8_time::Timeline;

/// A program that traps at step 2. Traps are disabled then, so error mode begins.
const LINES: &[&[u8]] = &[b"nop", b"nop", b"ta 0"];

/// Whether four steps are recorded, of which step 2 alone has a trap.
fn has_its_trap(trace: &Small) -> bool {
    if trace.recorded() < 4 {
        return false;
    }
    let others = shows_none(trace, Sign::Trap, 0, 2) && shows_none(trace, Sign::Trap, 3, 4);
    others && !shows_none(trace, Sign::Trap, 2, 3)
}

/// Whether a copy of a recorded run has its trap.
fn is_noted_in_a_copy(alloc: Global, trace: &Small) -> bool {
    match copied(alloc, trace) {
        Ok(copy) => has_its_trap(&copy),
        Err(_) => false,
    }
}

/// Whether the trap of four steps that are recorded is noted, at the second try where memory was refused at the first.
fn is_noted(alloc: Global, trace: &mut Small, timeline: &Timeline) -> bool
    requires limit { timeline.now.limit ≡ 8192 }
    requires delivered { (last_point trace.old).memory.taken ≤ bytes_below (recorded 4 trace.old) timeline.now.inputs }
{
    let made = match lengthen(alloc, trace, timeline) {
        Ok(made) => Ok(made),
        Err(_) => lengthen(alloc, trace, timeline),
    };
    made == Ok(4) && has_its_trap(trace) && is_noted_in_a_copy(alloc, trace)
}

fn notes_recorded(alloc: Global, source: &Source, timeline: &Timeline) -> Result<bool, AllocError>
    requires limit { timeline.now.limit ≡ 8192 }
{
    let mut trace = fresh(alloc, source, timeline)?;
    Ok(is_noted(alloc, &mut trace, timeline))
}

pub fn keeps(alloc: Global) -> Result<bool, AllocError> {
    let source = source_of(alloc, LINES)?;
    let timeline = Timeline::new(alloc, 8_192);
    notes_recorded(alloc, &source, &timeline)
}
