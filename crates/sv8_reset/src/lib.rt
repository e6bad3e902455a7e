//! The machine after reset, with the image of a source in its RAM.
#![tactic(auto)]

mod loading;
mod machine;

pub use machine::reset;
