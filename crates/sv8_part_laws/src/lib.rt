//! Laws of the definitions of the machine's parts: traps, arithmetic, timelines, memory, translation and devices. No code
//! stands on them, so they stand apart from the crates that carry the definitions out. Examples are worked out beside
//! them.
#![tactic(auto)]

pub mod arithmetic;
pub mod devices;
pub mod memory;
pub mod timelines;
pub mod translation;
pub mod traps;
