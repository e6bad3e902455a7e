//! A trace that is kept while the one that it was copied from goes on.

ghost use Rattle.std.specs.Prelude.{◌≡◌, IfOk};

use crate::finished::Finished;
use crate::open_interval::OpenInterval;
use crate::trace::Trace;
use std::alloc::{AllocError, Global};

/// The same intervals once more, which share their notes and signs.
fn share_all(alloc: Global, intervals: &[Finished]) -> Result<Vec<Finished>, AllocError>
    ensures { IfOk result (λ v. v.items ≡ intervals.now) }
{
    let mut shared = Vec::with_capacity(alloc, intervals.len())?;
    for interval in intervals {
        shared.push(interval.share()?)?;
    }
    Ok(shared)
}

impl<const NW: usize, const PAGES: usize, const K: u32> Trace<NW, PAGES, K> {
    /// The same recorded run once more. What was recorded is shared, and neither trace sees what is done to the other.
    ///
    /// # Errors
    ///
    /// `AllocError` where memory for it cannot be had.
    pub fn copy(&self, alloc: Global) -> Result<Self, AllocError>
        ensures { IfOk result (λ t. t ≡ self.now) }
    {
        Ok(Trace {
            points: self.points.copy(alloc)?,
            intervals: share_all(alloc, &self.intervals)?,
            marks: self.marks.copy(alloc)?,
            open: OpenInterval::new(alloc),
        })
    }
}
