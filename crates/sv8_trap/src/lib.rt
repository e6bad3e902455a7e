//! The processor and its traps: the table of traps, and what a trap or an interrupt makes of the registers and counters,
//! and what a processor asks of memory and is answered.
//! The SPARC Architecture Manual, Version 8, chapter 7.
#![tactic(auto)]

mod entry;
mod processor;
mod request;
mod table;

pub use entry::highest_level;
pub use processor::Processor;
pub use request::{AccessRequest, Response, Space, space_of};
pub use table::{Row, Trap, select};
