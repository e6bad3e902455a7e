//! The recorded run of a machine: a checkpoint every `K` steps, what each step touched, and what edits of past inputs make of them.
//!
//! `docs/HISTORY.md` explains the theory (`sv8_history`) of which this is the code.
#![tactic(auto)]

mod checkpoint;
mod finished;
mod interval;
mod open_interval;
mod points;
mod prepared;
mod recorder;
mod signs;
mod trace;

pub use checkpoint::Checkpoint;
pub use interval::Interval;
pub use open_interval::OpenInterval;
pub use prepared::Prepared;
pub use recorder::record_watched;
pub use signs::{Signs, TrapNote};
pub use sv8_notes::{Cause, Cell, Content, NO_END, Patch};
pub use trace::Trace;
