//! Lists of runs of words.

ghost use Rattle.std.specs.Prelude.{◌≡◌, ◌+◌};
ghost use Rattle.sv8_notes.specs.Flags.{IsFlagged};
ghost use Rattle.sv8_notes.specs.Steps.{IsFirstBelow, has_word};
ghost use Rattle.sv8_notes.specs.Touching.{are_notes_in};
ghost use Rattle.sv8_notes.specs.WordRuns.{words_of};

use crate::offsets::lesser;
use crate::word_run::WordRun;

/// The first step from one offset on and below another that reads a word of some runs.
pub(crate) fn first_of_runs(runs: &[WordRun], address: u32, from: u32, end: u32) -> Option<u32>
    ensures { IsFirstBelow (has_word (words_of runs.now) address) from end result }
{
    let mut found = None;
    for run in runs {
        found = lesser(found, run.first_of(address, from, end));
    }
    found
}

/// Whether one of the notes of some runs is.
pub(crate) fn are_in_runs(runs: &[WordRun], low: u32, last: u32, from: u32, end: u32) -> bool
    ensures { result ≡ are_notes_in low last from end (words_of runs.now) }
{
    let mut rest = runs;
    while let [run, after @ ..] = rest {
        if run.is_any_in(low, last, from, end) {
            return true;
        }
        rest = after;
    }
    false
}

/// Sets the flags of the steps of some runs.
pub(crate) fn flag_runs(runs: &[WordRun], low: u32, last: u32, from: u32, flags: &mut [bool])
    ensures { IsFlagged (λ i. are_notes_in low last (from + i) (from + i + 1) (words_of runs.now)) flags.old flags.new }
{
    let mut rest = runs;
    while let [run, after @ ..] = rest {
        run.flag(low, last, from, flags);
        rest = after;
    }
}
