//! What a recorded run has that needs no machine: what its steps touched, what stood in cells below their events, and parts of checkpoints.
//!
//! `docs/HISTORY.md` explains the theory (`sv8_history`) of which this and `sv8_trace` are the code.
#![tactic(auto)]

mod cell;
mod column;
mod flags;
mod kept;
pub mod laws;
mod level_run;
mod mark_words;
mod marks;
mod notes;
mod offsets;
mod patch;
mod recorder;
mod runs;
mod step_notes;
mod word_run;
mod word_runs;

pub use cell::{Cell, Content, level_numbered};
pub use column::{LevelColumn, PageColumn, empty_places};
pub use flags::flag_step;
pub use kept::{Kept, KeptList};
pub use marks::{Marks, PAGE_SIZE};
pub use notes::{Notes, Sought};
pub use patch::{Cause, NO_END, Patch};
pub use recorder::Recorder;
pub use runs::PageRuns;
