//! What is kept of the steps from a checkpoint to the next one.

use crate::signs::Signs;
use sv8_notes::{KeptList, Notes};

/// What is kept of the steps from a checkpoint to the next one: what each touches, what stood in cells before events set
/// them, and which signs the steps have.
#[derive(Drop)]
pub struct Interval {
    pub notes: Notes,
    pub kept: KeptList,
    pub signs: Signs,
}
