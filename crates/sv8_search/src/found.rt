//! A step that a search has found.

use sv8_watch::Happening;

/// A step, and what happened in it.
#[derive(Clone, Copy)]
pub struct Found {
    pub step: u32,
    pub happening: Happening,
}
