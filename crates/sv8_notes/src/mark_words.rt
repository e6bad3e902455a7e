//! Marks of the words that notes are of.

ghost use Rattle.std.specs.Prelude.{◌≡◌, ℕ, ◌≤◌, ◌<◌, false, length, OnOk};
ghost use Rattle.sv8_notes.specs.Marks.{mark_of, AreMarkedFrom};
ghost use Rattle.sv8_notes.specs.Steps.{has_word};
ghost use Rattle.sv8_notes.specs.WordRuns.{words_of, AreMarkedBelow};

use crate::marks::Marks;
use crate::notes::WordNote;
use crate::word_run::WordRun;
use std::alloc::{AllocError, Global};

/// Marks the words of notes with a number, unless their marks are greater.
pub(crate) fn mark_all(
    alloc: Global,
    marks: &mut Marks,
    notes: &[WordNote],
    mark: u32,
) -> Result<(), AllocError>
    ensures grows { (a : ℕ) → mark_of marks.old a ≤ mark_of marks.new a }
    ensures marked { OnOk result ((a : ℕ) → mark_of marks.new a < mark → (j : ℕ) → has_word notes.now a j ≡ false) }
{
    for note in notes {
        marks.raise(alloc, note.address, mark)?;
    }
    Ok(())
}

/// How many runs are remembered as marked, each in a place that its address gives. A loop has few.
const PLACES: usize = 16;

/// Marks the words of a run with a number, unless their marks are greater. A run whose like is remembered has them.
#[inline(always)]
fn mark_run(
    alloc: Global,
    marks: &mut Marks,
    remembered: &mut [WordRun],
    run: &WordRun,
    mark: u32,
) -> Result<(), AllocError>
    requires places { length remembered.old ≡ 16 }
    requires remembered { AreMarkedBelow marks.old mark remembered.old 16 }
    ensures grows { (a : ℕ) → mark_of marks.old a ≤ mark_of marks.new a }
    ensures places { length remembered.new ≡ 16 }
    ensures remembered { OnOk result (AreMarkedBelow marks.new mark remembered.new 16) }
    ensures marked { OnOk result (AreMarkedFrom marks.new run.now.address mark run.now.count) }
{
    let place = (run.start() / 4) as usize % PLACES;
    if !run.has_words_of(&remembered[place]) {
        marks.raise_words(alloc, run.start(), run.count(), mark)?;
        remembered[place] = *run;
    }
    Ok(())
}

/// Marks the words of runs with a number, unless their marks are greater.
pub(crate) fn mark_runs(
    alloc: Global,
    marks: &mut Marks,
    runs: &[WordRun],
    mark: u32,
) -> Result<(), AllocError>
    ensures grows { (a : ℕ) → mark_of marks.old a ≤ mark_of marks.new a }
    ensures marked { OnOk result ((a : ℕ) → mark_of marks.new a < mark → (j : ℕ) → has_word (words_of runs.now) a j ≡ false) }
{
    let mut remembered = [WordRun::empty(); PLACES];
    for index in 0..runs.len() {
        mark_run(alloc, marks, &mut remembered, &runs[index], mark)?;
    }
    Ok(())
}
