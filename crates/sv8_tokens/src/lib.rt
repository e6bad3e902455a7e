//! A line's text to tokens, and the tokens between two commas to an operand.
//!
//! What tokens there are, and which texts spell each, is in `specs/Spelling.antt`.
#![tactic(auto)]

mod lexer;
mod number;
mod percent;
mod reader;
mod token;

pub use lexer::tokens;
pub use reader::operand_of;
pub use token::{Mark, Percent, Token};
