//! The bytes of one statement: the names of a source and their values, how far a statement moves the location, and
//! what it places there.
//!
//! `size_of` is for a first pass over a source, in which names get their values, and `assemble` for a second one, in
//! which all of them are known. The encodings are those of The SPARC Architecture Manual, Version 8, Appendix B, by
//! `sv8_isa`.
#![tactic(auto)]

mod code;
mod instruction;
mod marks;
mod operand;
mod size;
mod symbols;
mod used;
mod value;

pub use code::assemble;
pub use size::{constant, size_of};
pub use symbols::Symbols;
pub use used::{agree, exprs, uses};
