//! What comes in from outside by a step.

ghost use Rattle.std.specs.Prelude.{◌≡◌, ◌+◌, ◌≤◌};
ghost use Rattle.sv8_time.specs.Schedule.{arrived, bytes_below};
ghost use Rattle.sv8_phys.specs.Contents.{Contents};
ghost use Rattle.sv8_memory.specs.Feeding.{bytes_fed, IsFed};

use sv8_time::Timeline;

/// The input of a step: the bytes of the timeline that come in at the console at that step and at those below it.
#[derive(Drop, Clone, Copy)]
pub struct Feed<'a> {
    pub(crate) step: u32,
    pub(crate) timeline: &'a Timeline,
}

impl<'a> Feed<'a> {
    /// The input of step n.
    #[inline(always)]
    pub fn of_step(n: u32, timeline: &'a Timeline) -> Feed<'a>
        ensures arrived { bytes_fed result ≡ arrived (n + 1) timeline.now }
        ensures begins { (m : Contents) → m.taken ≤ bytes_below n timeline.now.inputs → IsFed result m }
        ensures ends { (m : Contents) → IsFed result m → m.taken ≤ bytes_below (n + 1) timeline.now.inputs }
    {
        Feed { step: n, timeline }
    }

    /// A step below which all of it comes in, and nothing else.
    pub(crate) fn end_step(self) -> u32
        ensures { arrived result self.entry.timeline.now ≡ bytes_fed self.entry }
    {
        self.timeline.bounds();
        if self.step < u32::MAX {
            self.step + 1
        } else {
            self.step
        }
    }
}
