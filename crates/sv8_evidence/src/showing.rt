//! What recorded steps show.

ghost use Rattle.std.specs.Prelude.{◌+◌, ◌%◌, ◌≤◌, length, MatchBool};
ghost use Rattle.sv8_notes.specs.Flags.{IsFlaggedUnless};
ghost use Rattle.sv8_trace.specs.Recording.{recorded};
ghost use Rattle.sv8_evidence.specs.Showing.{NoneShows};

use crate::signs::{Sign, any_between, flag_signs};
use sv8_trace::Trace;

/// Whether no step from `from` on and below `to` has a sign; `Sign::Translation` is that of all steps of an interval
/// together. These steps have to be recorded. It looks at the notes of traps of one interval after the other, at no step.
pub fn shows_none<const NW: usize, const PAGES: usize, const K: u32>(
    trace: &Trace<NW, PAGES, K>,
    sign: Sign,
    from: u32,
    to: u32,
) -> bool
    requires recorded { to ≤ recorded K trace.now }
    ensures { MatchBool result (NoneShows sign K trace.now from to) (NoneShows sign K trace.now from to → ⊥) }
{
    trace.sizes();
    let mut start = from;
    while start < to {
        let base = K * (start / K);
        let stop = K.min(to - base);
        let signs = trace.signs(start);
        if any_between(signs, sign, start % K, stop) {
            return false;
        }
        start = base + stop;
    }
    true
}

/// Sets the flag of each step of one interval that has a sign; `Sign::Translation` is that of all steps of the interval
/// together. Flag number i is that of step `from + i`. These steps have to be recorded. It looks at each note of a trap
/// once.
pub fn flag_shown<const NW: usize, const PAGES: usize, const K: u32>(
    trace: &Trace<NW, PAGES, K>,
    sign: Sign,
    from: u32,
    flags: &mut [bool],
)
    requires recorded { from + length flags.old ≤ recorded K trace.now }
    requires interval { from % K + length flags.old ≤ K }
    ensures { IsFlaggedUnless (λ i. NoneShows sign K trace.now (from + i) (from + i + 1)) flags.old flags.new }
{
    trace.sizes();
    if flags.is_empty() {
        return;
    }
    let signs = trace.signs(from);
    flag_signs(signs, sign, from % K, flags);
}
