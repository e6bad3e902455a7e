//! The statement of each mnemonic with its operands.
//!
//! The instructions and synthetic instructions are those of The SPARC Architecture Manual, Version 8, Appendix A, and
//! beside them there are directives. Synthetic instructions are read as what they stand for, but `set`, which is one
//! instruction or two. Values that rest on names stay expressions here.
#![tactic(auto)]

mod directive;
mod format3;
mod forms;
mod instruction;
mod mnemonic;
mod take;
mod text;

pub use forms::{annulled, form};
pub use mnemonic::{Directive, Shape, shape_of};
