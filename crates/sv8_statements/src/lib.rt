//! What a line of assembler text says: statements, the operands that they are read from, and why a line is refused.
//!
//! `sv8_tokens` reads operands, `sv8_forms` has the statement of each mnemonic with its operands, and `sv8_syntax` reads
//! whole lines. What assembles statements needs none of these.
#![tactic(auto)]

mod fault;
mod name;
mod operand;
mod register;
mod statement;
mod table;
mod value;

pub use fault::{LineFault, Read, SYNTAX};
pub use name::{is_digit, is_reference};
pub use operand::{Address, ExprRef, ImmRef, Operand, RegOrImmRef};
pub use register::Register;
pub use statement::{Instruction, Label, Motion, Operation, Statement, Stmt, Width};
pub use table::{Entry, find_named};
pub use value::{Expr, Exprs, Imm, Name, RegOrImm, Text, Upper};
