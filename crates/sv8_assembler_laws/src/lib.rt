//! Laws of the assembler's definitions, whatever the text: what words and instructions, lines and the grammar, statements
//! and their bytes, and the lines and names of sources are to each other. No code stands on them, so they stand apart
//! from the crates that carry the definitions out. Examples are worked out beside them.
#![tactic(auto)]

pub mod lines;
pub mod sources;
pub mod statements;
pub mod words;
