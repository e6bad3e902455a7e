//! What the programs share: their words, the run of a script on a new state, how they end, and their whole run from words to answers.
#![tactic(auto)]

mod end;
mod help;
pub mod laws;
mod program;
mod serving;
mod words;

pub use end::{End, end_of, status_of, tell_end};
pub use program::{Program, obey, refuse_bytes, run_program};
pub use serving::{CHECKPOINT_STEPS, PAGES, serve};
pub use words::{Description, Settings, settings};
