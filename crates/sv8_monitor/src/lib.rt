//! The monitor: questions about runs as the commands of a session, and the texts that answer them. The program over it.
#![tactic(auto)]

mod answers;
mod conditions;
mod driver;
mod event_lines;
pub mod laws;
mod lines;
mod monitor;
mod piece;
mod program;
mod question;
mod step_lines;
mod window_lines;

pub use conditions::Conditions;
pub use driver::run;
pub use monitor::{Monitor, Monitoring};
pub use program::Sparc8Monitor;
pub use question::{Query, Question, parse_question};
