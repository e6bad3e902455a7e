//! Tests of the parts of a machine: instruction words, registers, arithmetic, the choice among traps, timelines,
//! physical memory, translation and what is recorded of steps. They stand here, and not in the crates that they test, as each crate with tests is proved twice.
#![tactic(auto)]

#[cfg(test)]
mod arithmetic;
#[cfg(test)]
mod instructions;
#[cfg(test)]
mod memory;
#[cfg(test)]
mod recorder;
#[cfg(test)]
mod registers;
#[cfg(test)]
mod table;
#[cfg(test)]
mod timeline;
#[cfg(test)]
mod told;
#[cfg(test)]
mod translation;
#[cfg(test)]
mod traps;
