//! Memory as the processor reaches it: accesses by address space, with translation, RAM, devices and the registers of the memory
//! management unit; and the events of a step that write memory.
#![tactic(auto)]

mod at_once;
mod events;
mod feed;
mod in_place;
mod locating;
mod memory;
mod physical;
mod spaces;
mod stores;

pub use feed::Feed;
pub use memory::Memory;
