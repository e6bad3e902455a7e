//! Instructions of SPARC V8 (The SPARC Architecture Manual, Version 8, Appendices B and F): what a
//! word stands for, and the word of an instruction.
#![tactic(auto)]

mod decoding;
mod encoding;
mod instr;
mod opcodes;
mod word;

pub use decoding::{
    decode, decode_arithmetic, decode_call, decode_control, decode_format_2, decode_memory,
    decode_shift, group, is_queue_store,
};
pub use encoding::encode;
pub use instr::{ArithOp, Cond, Group, Instr, MemoryOp, Operand, ShiftOp, StateRegister, TaggedOp};
