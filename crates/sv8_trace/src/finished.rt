//! What is kept of the steps from a checkpoint to the next one, once all of them are made.

ghost use Rattle.std.specs.Prelude.{◌≡◌, IfOk};

use crate::interval::Interval;
use crate::signs::Signs;
use std::alloc::{AllocError, Global};
use std::marker::Model;
use std::rc::Rc;
use sv8_notes::{KeptList, Notes};

/// What no edit changes of an interval.
#[derive(Drop)]
struct Lasting {
    notes: Notes,
    signs: Signs,
}

/// An interval whose steps are all made. Its notes and signs never change, so copies of a trace share them.
#[derive(Drop)]
pub(crate) struct Finished {
    lasting: Rc<Lasting>,
    kept: KeptList,
}

impl Model for Finished {
    ghost use Rattle.sv8_trace.specs.declared.interval.Interval.{Interval};

    ghost Value = { Interval };

    ghost view = { λ f. record { notes = f.lasting.value.notes; kept = f.kept; signs = f.lasting.value.signs } };
}

impl Finished {
    /// The interval, whose notes and signs can be shared from now on.
    ///
    /// # Errors
    ///
    /// `AllocError` where memory for their handle cannot be had.
    pub(crate) fn new(alloc: Global, interval: Interval) -> Result<Finished, AllocError>
        ensures { IfOk result (λ f. f ≡ interval) }
    {
        let Interval { notes, kept, signs } = interval;
        let lasting = Rc::new(alloc, Lasting { notes, signs })?;
        Ok(Finished { lasting, kept })
    }

    /// What each of the steps touches.
    pub(crate) fn notes(&self) -> &Notes
        ensures { result.now ≡ self.now.notes }
    {
        &self.lasting.notes
    }

    /// What stood in cells before events set them.
    pub(crate) fn kept(&self) -> &KeptList
        ensures { result.now ≡ self.now.kept }
    {
        &self.kept
    }

    /// The signs of the steps.
    pub(crate) fn signs(&self) -> &Signs
        ensures { result.now ≡ self.now.signs }
    {
        &self.lasting.signs
    }

    /// Puts a list of kept values in the place of that of the interval.
    pub(crate) fn set_kept(&mut self, kept: KeptList)
        ensures { self.new ≡ record self.old { kept = kept } }
    {
        self.kept = kept;
    }

    /// The same interval once more, which shares its notes and signs.
    ///
    /// # Errors
    ///
    /// `AllocError` where memory for the kept values cannot be had, or the rest is shared as often as can be counted.
    pub(crate) fn share(&self) -> Result<Finished, AllocError>
        ensures { IfOk result (λ f. f ≡ self.now) }
    {
        let lasting = self.lasting.clone()?;
        let kept = self.kept.copy()?;
        Ok(Finished { lasting, kept })
    }
}
