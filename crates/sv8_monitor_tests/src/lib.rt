//! Tests of the monitor's calls: how many steps questions make. These stand here, and not in the crate that they test,
//! as each crate with tests is proved twice.
#![tactic(auto)]

#[cfg(test)]
mod parting;
