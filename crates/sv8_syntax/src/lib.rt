//! One line of assembler text to a statement.
//!
//! A line is `[label:] [statement] [! comment]`. A statement is a mnemonic and, with commas between them, its operands
//! (The SPARC Architecture Manual, Version 8, Appendix A).
#![tactic(auto)]

mod line;

pub use line::parse_line;
