//! What takes the notes of one step: `StepTouches` what it touches, to be told at its end, and `Watch` all that it
//! touches and what is seen of it.
#![tactic(auto)]

pub mod laws;
mod step_touches;
mod watch;

pub use step_touches::{StepTouches, is_told, levels_of};
pub use watch::Watch;
