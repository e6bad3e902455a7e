//! What happened in a step, and conditions on it.
#![tactic(auto)]

mod condition;
mod happening;
pub mod laws;
mod span;
mod watched;

pub use condition::{Condition, is_touched};
pub use happening::{Access, Fetch, Happening, Outcome};
pub use span::Span;
pub use watched::{Before, MadeStep, stands_at};
