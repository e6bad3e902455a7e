//! What an edit of past inputs does to one cell.

use crate::cell::{Cell, Content};

/// In place of a step: there is no end.
pub const NO_END: u32 = u32::MAX;

/// What changes a cell.
#[derive(Clone, Copy)]
pub enum Cause {
    /// The source is edited: the cell has this content after reset.
    Source(Content),
    /// An event now sets the cell to this, where there was none that did or in the place of another.
    Poke(Content),
    /// The event no longer sets the cell, which uncovers what stood there.
    Uncover,
}

/// A change of one cell: from the step of its cause (0 for the source) to the next step whose event sets the cell anyway, which is
/// `NO_END` where there is none.
#[derive(Clone, Copy)]
pub struct Patch {
    pub cell: Cell,
    pub from: u32,
    pub to: u32,
    pub cause: Cause,
}
