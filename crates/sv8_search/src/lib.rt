//! Searches of the run of a workbench for the steps that meet a condition, and what differs between two runs.
#![tactic(auto)]

mod compare;
mod descent;
mod difference;
mod evidence;
mod found;
mod old_bytes;
mod plan;
mod room;
mod search;
mod touching;

pub use compare::{differ, part};
pub use difference::Difference;
pub use found::Found;
pub use search::steps;
pub use touching::{checkpoint, flag_shown, is_unreached, is_untouched, shows_none};
