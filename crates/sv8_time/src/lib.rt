//! The timeline of the outside events of a machine: pokes, input bytes and interrupt requests by step.
#![tactic(auto)]

mod arrivals;
mod block;
mod edit;
mod fault;
mod inputs;
mod marks;
mod order;
mod ordered;
mod pokes;
mod refusal;
mod requests;
mod starts;
mod timeline;
mod words;

pub use edit::{InputBytes, TimelineEdit};
pub use fault::TimeFault;
pub use requests::Request;
pub use timeline::{Events, LAST_STEP, MOST_BYTES, MOST_EVENTS, Timeline};
pub use words::WordPoke;
