//! What an edit of past inputs makes of a trace: a cut by the first step that reads what was changed, and patches.

ghost use Rattle.std.specs.Prelude.{◌≡◌, ◌*◌, ◌<◌, [], length, ⊤, true, MatchOption, IfOk};
ghost use Rattle.std.specs.List.{All};
ghost use Rattle.sv8_history.specs.Reads.{first_of_change, first_of_each, earlier};
ghost use Rattle.sv8_history.specs.Patches.{count_after, edited};
ghost use Rattle.sv8_history.specs.Input.{edited_input};
ghost use Rattle.sv8_cpu.specs.Recorded.{machine};
ghost use Rattle.sv8_cpu.specs.Patches.{change_of, changes_of, IsPatch};
ghost use Rattle.sv8_trace.specs.Patch.{AreReadAlike, BeginAlike};
ghost use Rattle.sv8_trace.specs.Recording.{recorded, trace_of};
ghost use Rattle.sv8_history.specs.Trace.{Near};
ghost use Rattle.sv8_trace.specs.Prepared.{prepared_trace, IsPreparedFor};

use crate::prepared::Prepared;
use crate::trace::Trace;
use std::alloc::{AllocError, Global};
use sv8_notes::{Cell, Patch};

/// The earlier of two steps, where there are any.
fn earlier(first: Option<u32>, second: Option<u32>) -> Option<u32>
    ensures { result ≡ earlier first second }
{
    match (first, second) {
        (None, step) => step,
        (Some(step), None) => Some(step),
        (Some(step), Some(other)) => Some(step.min(other)),
    }
}

/// Whether the same steps read what two patches have changed, as both are of one word from one step on and below another.
fn is_read_alike(one: Patch, other: Patch) -> bool
    ensures { result ≡ true → AreReadAlike one other }
{
    match (one.cell, other.cell) {
        (Cell::Byte(address), Cell::Byte(next)) => {
            address / 4 == next / 4 && one.from == other.from && one.to == other.to
        }
        _ => false,
    }
}

/// Whether the first two of some patches are read by the same steps.
fn begins_alike(patches: &[Patch]) -> bool
    ensures { result ≡ true → BeginAlike patches.now }
{
    match patches {
        [one, other, ..] => is_read_alike(*one, *other),
        _ => false,
    }
}

impl<const NW: usize, const PAGES: usize, const K: u32> Trace<NW, PAGES, K> {
    /// The first recorded step that reads what a patch has changed.
    fn first_of(&self, patch: Patch) -> Option<u32>
        ensures { result ≡ first_of_change (machine NW PAGES) K (trace_of NW PAGES K self.now) (change_of NW PAGES patch) }
    {
        match patch.cell {
            Cell::Byte(address) => self.first_read(address, patch.from, patch.to),
            Cell::Level(level) => self.first_level(level, patch.from, patch.to),
        }
    }

    /// The first recorded step that reads what one of the patches has changed.
    fn first_of_all(&self, patches: &[Patch]) -> Option<u32>
        ensures { result ≡ first_of_each (machine NW PAGES) K (trace_of NW PAGES K self.now) (changes_of NW PAGES patches.now) }
    {
        let mut first = None;
        let mut rest = patches;
        while let [patch, after @ ..] = rest {
            if !begins_alike(rest) {
                first = earlier(first, self.first_of(*patch));
            }
            rest = after;
        }
        first
    }

    /// How many steps stay recorded where a recorded step is the first to read what was changed, or none is.
    fn steps_left(&self, first: Option<u32>) -> u32
        requires recorded { MatchOption first ⊤ (λ s. s < recorded K self.now) }
        ensures { result ≡ K * count_after K (length self.now.intervals) first }
    {
        match first {
            None => self.recorded(),
            Some(step) => step - step % K,
        }
    }

    /// Builds what an edit makes of the trace, of the cells that it changes: it is cut to the last checkpoint that is not above the first
    /// step that reads one of the changes, and then patched by each.
    ///
    /// # Errors
    ///
    /// `AllocError` where memory for what changes cannot be had.
    pub fn prepare_edit(&self, alloc: Global, patches: &[Patch]) -> Result<Prepared, AllocError>
        requires patches { All (IsPatch PAGES) patches.now }
        ensures fits { IfOk result (λ p. IsPreparedFor PAGES self.now p) }
        ensures prepared { IfOk result (λ p. Near (machine NW PAGES) K (prepared_trace NW PAGES K self.now p)
            (edited (machine NW PAGES) K (trace_of NW PAGES K self.now) (changes_of NW PAGES patches.now))) }
    {
        let _points = &self.points;
        let first = self.first_of_all(patches);
        self.prepare(alloc, patches, self.steps_left(first))
    }

    /// Builds what an edit of the console's input at a step makes of the trace: it is cut to the last checkpoint that is not above the
    /// first step from there on that takes or counts the bytes that wait.
    ///
    /// # Errors
    ///
    /// `AllocError` where memory for what changes cannot be had.
    pub fn prepare_input(&self, alloc: Global, step: u32) -> Result<Prepared, AllocError>
        ensures fits { IfOk result (λ p. IsPreparedFor PAGES self.now p) }
        ensures prepared { IfOk result (λ p. Near (machine NW PAGES) K (prepared_trace NW PAGES K self.now p)
            (edited_input (machine NW PAGES) K (trace_of NW PAGES K self.now) step)) }
    {
        let _points = &self.points;
        let first = self.first_input(step);
        self.prepare(alloc, &[], self.steps_left(first))
    }
}
