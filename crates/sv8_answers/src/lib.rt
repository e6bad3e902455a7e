//! What a workbench answers to each command of a script, and the texts of its answers.
//!
//! `specs/` says what a session of commands comes to, from what a workbench keeps alone. The code asks any `Workbench`.
#![tactic(auto)]

mod answers;
mod effect;
pub mod laws;
mod lines;
pub mod listing;
mod refusal;
mod script_line;
mod tell;
mod texts;

pub use answers::answer_query;
pub use effect::{Effect, with_effect};
pub use refusal::refusal_of;
pub use script_line::{answer_line, begins, lose_lines, refuse_line};
pub use tell::{tell_edit, tell_output, tell_regs, tell_words};
