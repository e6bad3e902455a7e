//! Statements, as they are read.

use crate::register::Register;
use crate::value::{Expr, Exprs, Name, RegOrImm, Text, Upper};
use sv8_isa::{ArithOp, Cond, MemoryOp, ShiftOp, StateRegister, TaggedOp};

/// What an instruction of format 3 does, by the names of Appendix B. `Trap` is Ticc, `Read` and `Write` are RDY to RDTBR
/// and WRY to WRTBR, and `Memory` is a load or store, in the address space that the processor's mode gives.
#[derive(Clone, Copy)]
pub enum Operation {
    Arith { op: ArithOp, cc: bool },
    Tagged(TaggedOp),
    Mulscc,
    Save,
    Restore,
    Shift(ShiftOp),
    Memory(MemoryOp),
    Jmpl,
    Rett,
    Flush,
    Trap(Cond),
    Read(StateRegister),
    Write(StateRegister),
    Stbar,
}

/// One instruction, with synthetic ones written out.
#[derive(Drop)]
pub enum Instruction {
    /// An instruction of format 3 (section 5.1). What it does not name of rd, rs1 and the second source is `%g0`.
    Format3 {
        op: Operation,
        rd: Register,
        rs1: Register,
        source: RegOrImm,
    },
    /// A load or store in an alternate space (Appendix B.1 to B.8).
    Alternate {
        op: MemoryOp,
        rd: Register,
        rs1: Register,
        rs2: Register,
        asi: u32,
    },
    /// A branch on integer condition codes (Appendix B.21). The target is an address.
    Branch {
        cond: Cond,
        annul: bool,
        target: Expr,
    },
    /// CALL (Appendix B.24). The target is an address.
    Call(Expr),
    /// SETHI (Appendix B.9); `nop` is one of 0 to `%g0` (Appendix B.10).
    Sethi {
        value: Upper,
        rd: Register,
    },
    /// UNIMP (Appendix B.31).
    Unimp(u32),
}

/// The size of a value in memory.
#[derive(Clone, Copy)]
pub enum Width {
    Byte,
    Half,
    Word,
}

/// A directive that moves the location: to a number, by a number of bytes, or to the next multiple of one.
#[derive(Clone, Copy)]
pub enum Motion {
    Org,
    Skip,
    Align,
}

/// A statement.
#[derive(Drop)]
pub enum Statement {
    Instruction(Instruction),
    /// `set`, which is one instruction or two.
    Set { value: Expr, rd: Register },
    /// A value in memory for each expression.
    Data { width: Width, values: Exprs },
    /// The bytes of a text in memory.
    Ascii(Text),
    /// The location moves.
    Motion { motion: Motion, number: u32 },
    /// A name is given a value: a number or its negative.
    Equ { name: Name, value: Expr },
}

/// The label of a line: a name, or a digit below 10, which any number of lines may have.
#[derive(Drop)]
pub enum Label {
    Name(Name),
    Local(u8),
}

/// A line: its label, if any, and its statement, if any.
#[derive(Drop)]
pub struct Stmt {
    pub label: Option<Label>,
    pub statement: Option<Statement>,
}
