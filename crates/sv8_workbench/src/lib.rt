//! A workbench as its answers see it: what it keeps, what it shows of a step, and why it refuses.
//!
//! `specs/` says so from a source and a timeline alone, whatever a workbench records. `Workbench` is what answers ask of one,
//! and `sv8_bench` has it.
#![tactic(auto)]

mod fault;
mod shown;
mod workbench;

pub use fault::{BAD_ADDRESS, BenchFault, NO_SUCH_LINE, STEP_TOO_LARGE, of_source, of_time};
pub use shown::Shown;
pub use workbench::Workbench;
