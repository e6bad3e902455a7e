//! The machine: its state, and one step of it (The SPARC Architecture Manual, Version 8).
#![tactic(auto)]

mod machine;
mod parts;
mod readers;
mod transfer;
mod work;

pub use machine::Machine;
pub use parts::Parts;
pub use sv8_mmu::{AccessPermissions, Fault, Mmu, PagePlace, Place, TableLevel};
pub use work::Work;
