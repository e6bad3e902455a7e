//! The interval under way, of which more steps are to be recorded.

ghost use Rattle.std.specs.Prelude.{◌≡◌, IfOk};
ghost use Rattle.sv8_trace.specs.Recorder.{so_far};
ghost use Rattle.sv8_trace.specs.Recording.{no_interval};

use crate::interval::Interval;
use crate::signs::Signs;
use std::alloc::{AllocError, Global};
use sv8_notes::{KeptList, Recorder};
use sv8_touches::StepTouches;

/// What is recorded so far of the steps since the last checkpoint. Its memory serves one interval after the other.
#[derive(Drop)]
pub struct OpenInterval {
    pub(crate) recorder: Recorder,
    pub(crate) kept: KeptList,
    pub(crate) signs: Signs,
    /// A place for what a step touches, where more is asked of that than its notes.
    pub(crate) touches: StepTouches,
}

impl OpenInterval {
    /// Of no steps. It takes no memory.
    pub fn new(alloc: Global) -> OpenInterval
        ensures { so_far result ≡ no_interval }
    {
        OpenInterval {
            recorder: Recorder::new(alloc),
            kept: KeptList::new(alloc),
            signs: Signs::new(alloc),
            touches: StepTouches::new(alloc),
        }
    }

    /// Lets all go; the memory stays.
    pub fn clear(&mut self)
        ensures { so_far self.new ≡ no_interval }
    {
        self.recorder.clear();
        self.kept.clear();
        self.signs.clear();
    }

    /// What is recorded so far once more, in no more memory than it needs.
    ///
    /// # Errors
    ///
    /// `AllocError` where that memory cannot be had.
    pub fn copy(&self) -> Result<Interval, AllocError>
        ensures { IfOk result (λ i. i ≡ so_far self.now) }
    {
        Ok(Interval {
            notes: self.recorder.copy_notes()?,
            kept: self.kept.copy()?,
            signs: self.signs.copy()?,
        })
    }
}
