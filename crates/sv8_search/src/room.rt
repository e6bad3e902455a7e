//! What a search has its notes in, so that one search after the other uses the same memory.

use crate::plan::Plan;
use std::alloc::Global;
use sv8_touches::Watch;

/// Places for what a search sees and plans. What stands there between two searches means nothing.
#[derive(Drop)]
pub(crate) struct Room {
    /// The notes of a step.
    pub watch: Watch,
    /// The bytes that conditions compare.
    pub old: Vec<u8>,
    pub plan: Plan,
}

impl Room {
    /// It takes no memory.
    pub(crate) fn new(alloc: Global) -> Room {
        Room {
            watch: Watch::new(alloc),
            old: Vec::new(alloc),
            plan: Plan::new(alloc),
        }
    }
}
