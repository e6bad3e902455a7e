//! Edits of a source and of a timeline, as edits of the run that they make.
//!
//! `specs/Changes` says what each edit changes of the recorded run, cell by cell, and the code makes the patches for it. The laws
//! say that these changes are those of the edit: the functions of `laws` state them and do nothing.
#![tactic(auto)]

mod affected;
pub mod laws;
mod patches;

pub use affected::{Affected, affected_by};
pub use patches::image_patches;
