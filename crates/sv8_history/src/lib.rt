//! The theory of a recorded run whose past inputs may be changed: checkpoints, notes, first reads, cuts and patches.
//!
//! It is stated and proved for every machine that obeys the frame law of one cell. The definitions stand in `specs/`; the functions
//! of `laws` state laws about them and do nothing.
#![tactic(auto)]

pub mod laws;
