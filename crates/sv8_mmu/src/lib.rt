//! The reference memory management unit (The SPARC Architecture Manual, Version 8, Appendix H).
#![tactic(auto)]

mod access_type;
mod buffer;
mod fault_type;
mod faulting;
mod kept_walks;
mod memo;
mod place;
mod probing;
mod registers;
mod table_level;
mod translation;
mod walk;

pub use access_type::AccessType;
pub use buffer::{Buffer, Key, Purpose};
pub use fault_type::FaultType;
pub use faulting::translate;
pub use place::{AccessPermissions, PagePlace, Place, place_of};
pub use probing::{ProbeKind, probe, probe_by_address};
pub use registers::{Fault, Mmu};
pub use table_level::TableLevel;
pub use translation::{
    Reach, Translated, VirtualAccess, address_in_ram, is_device, resolve, resolve_by_memo,
};
