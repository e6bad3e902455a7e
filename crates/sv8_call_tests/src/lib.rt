//! Tests of the calls of crates below the commands: lines, statements and sources, translations and probes, what a
//! machine has put out and what is seen of its steps, where addresses lie, in what two machines differ, and the
//! workbench with its edits, its recorded run and its copies. These stand here, and not in the crates that they test, as
//! each crate with tests is proved twice.
#![tactic(auto)]

#[cfg(test)]
mod copies;
#[cfg(test)]
mod differences;
#[cfg(test)]
mod lines;
#[cfg(test)]
mod names;
#[cfg(test)]
mod output;
#[cfg(test)]
mod places;
#[cfg(test)]
mod processors;
#[cfg(test)]
mod recorded;
#[cfg(test)]
mod sources;
#[cfg(test)]
mod statements;
#[cfg(test)]
mod timelines;
#[cfg(test)]
mod translation;
#[cfg(test)]
mod trapless;
#[cfg(test)]
mod unreached;
#[cfg(test)]
mod untouched;
#[cfg(test)]
mod walks;
#[cfg(test)]
mod watching;
#[cfg(test)]
mod workbench;
