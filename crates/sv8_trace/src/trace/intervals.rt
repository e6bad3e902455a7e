//! What is kept of the interval in which a recorded step lies.

ghost use Rattle.std.specs.Prelude.{◌≡◌, ◌/◌, ◌<◌, ◌≤◌, slice_index_or};
ghost use Rattle.sv8_trace.specs.Recording.{no_interval, notes_of, recorded, signs_of};

use crate::finished::Finished;
use crate::signs::Signs;
use crate::trace::Trace;
use sv8_notes::Notes;

impl<const NW: usize, const PAGES: usize, const K: u32> Trace<NW, PAGES, K> {
    /// Nothing is done, but what is known of the sizes of every trace is known of this one.
    pub fn sizes(&self)
        ensures some_steps { 1 ≤ K }
        ensures few_steps { recorded K self.now ≤ 1000000 }
    {
        let _points = &self.points;
    }

    /// The interval in which a recorded step lies.
    fn interval(&self, step: u32) -> &Finished
        requires { step < recorded K self.now }
        ensures { result.now ≡ slice_index_or self.now.intervals (step / K) no_interval }
    {
        &self.intervals[(step / K) as usize]
    }

    /// What each step of the interval touches in which a recorded step lies. A step is named by its offset: that of step n is
    /// `n % K`.
    pub fn notes(&self, step: u32) -> &Notes
        requires { step < recorded K self.now }
        ensures { result.now ≡ notes_of self.now (step / K) }
    {
        self.interval(step).notes()
    }

    /// Which signs the steps of this interval have.
    pub fn signs(&self, step: u32) -> &Signs
        requires { step < recorded K self.now }
        ensures { result.now ≡ signs_of self.now (step / K) }
    {
        self.interval(step).signs()
    }
}
