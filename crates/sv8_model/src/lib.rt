//! The definitions that the crates share: words, what is outside the processor, what the processor does with it, what of it a step
//! touches, and why a call that takes memory is refused.
//!
//! The definitions stand in `specs/`; the functions of `laws` state laws about them and do nothing.
#![tactic(auto)]

mod arrivals;
mod devices;
pub mod laws;
mod level;
mod observation;
mod refused;
mod size;
mod table_memory;
mod touch;
mod touches;
mod words;

pub use arrivals::Arrivals;
pub use devices::{INPUT, OUTPUT, PENDING, TIMER_COUNT, TIMER_RELOAD, WAITING};
pub use level::Level;
pub use observation::{AccessKind, Observation};
pub use refused::Refused;
pub use size::Size;
pub use table_memory::TableMemory;
pub use touch::{Touch, TouchKind};
pub use touches::{NoTouches, Touches};
pub use words::low_word;
