//! Physical memory: RAM in pages that snapshots share, the console, the timer and the pending interrupt levels.
#![tactic(auto)]

mod block;
mod chunk;
mod directory;
mod fault;
mod group;
mod half_page;
mod halves;
mod levels;
mod output;
mod page;
mod phys;
mod ram;
mod timer;

pub use fault::BusError;
pub use output::OutputPlace;
pub use page::Page;
pub use phys::Phys;
pub use sv8_model::{
    AccessKind, Arrivals, INPUT, NoTouches, OUTPUT, Observation, PENDING, Size, TIMER_COUNT,
    TIMER_RELOAD, Touch, TouchKind, Touches, WAITING,
};
pub use timer::Timer;
