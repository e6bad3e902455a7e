//! The commands of a script as their lines give them, and the texts that answer them: what of the shell needs no workbench.
#![tactic(auto)]

mod command;
mod hex_bytes;
pub mod memory;
mod operands;
pub mod put;
mod refusal;
pub mod text;
pub mod texts;
mod words;

pub use command::{Command, Query, parse_command, read_query};
pub use hex_bytes::HexBytes;
pub use operands::{
    BadCommand, read_alone, read_hex, read_hex_byte, read_number, read_number_address,
    read_one_number, read_three_numbers, read_two_numbers,
};
pub use refusal::{Refusal, bad_command};
pub use words::next_word;
