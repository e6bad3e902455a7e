//! Tests of commands: their texts, scripts and their answers, refusals, events, and readers and writers that fail; and of the words, the help and the ends
//! of the program. These stand here, and not in the crates that they test, as each crate with tests is proved twice.
#![tactic(auto)]

#[cfg(test)]
mod commands;
pub mod ends;
#[cfg(test)]
mod events;
#[cfg(test)]
mod faults;
#[cfg(test)]
mod program;
#[cfg(test)]
mod refusals;
#[cfg(test)]
mod scripts;
