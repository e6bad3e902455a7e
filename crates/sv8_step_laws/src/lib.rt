//! Laws of the machine's definitions: what a step leaves, what it touches, and where a trap leads.
#![tactic(auto)]

pub mod laws;
