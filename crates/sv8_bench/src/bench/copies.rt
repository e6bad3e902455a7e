//! A workbench that is kept while the one that it was copied from goes on.

ghost use Rattle.std.specs.Prelude.{◌≡◌, IfOk};

use crate::bench::Bench;
use std::alloc::{AllocError, Global};

impl<const NW: usize, const PAGES: usize, const K: u32> Bench<NW, PAGES, K> {
    /// The same workbench once more, with its source, its timeline, its recorded run and its count of steps. The two share what was
    /// recorded, and neither sees what is done to the other.
    ///
    /// # Errors
    ///
    /// `AllocError` where memory for it cannot be had.
    pub fn copy(&self, alloc: Global) -> Result<Self, AllocError>
        ensures { IfOk result (λ b. b ≡ self.now) }
    {
        Ok(Bench {
            alloc,
            source: self.source.copy(alloc)?,
            timeline: self.timeline.copy(alloc)?,
            trace: self.trace.copy(alloc)?,
            work: self.work.copy(),
        })
    }
}
