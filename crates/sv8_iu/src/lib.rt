//! The integer unit without its memory: what each instruction raises, the access that it asks for, and what it makes of the processor.
//! The SPARC Architecture Manual, Version 8, chapter 5 and Appendix B.
#![tactic(auto)]

mod arithmetic;
mod control;
mod instruction;
mod memory;
mod operands;
mod seen;
mod state_registers;
mod unaided;
mod windows;

pub use instruction::{asked, complete, data_space, raised_by, take_trap};
pub use memory::{Transfer, TransferKind, finish_access, memory_trap};
pub use operands::sum_of_sources;
pub use seen::show_trap;
pub use unaided::carry_out_unaided;
