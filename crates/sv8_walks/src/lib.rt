//! Walks through the steps of a workbench's run, one by one, and through two runs in lockstep.
//!
//! The monitor watches the steps of one run, and compares the run as it is with the run as it was so. A recorded step that is the same
//! in both is made once, by one processor over two memories: `machines` makes one step of two machines so, `lockstep` the steps of two
//! walks.
#![tactic(auto)]

mod draft;
mod lockstep;
mod machines;
mod walk;

pub use draft::Draft;
pub use lockstep::walk_in_lockstep;
pub use walk::{Place, Walk};
