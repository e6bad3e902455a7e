//! The instructions of SPARC V8, with their operands, by the names of Appendix B.

/// A test of the integer condition codes, as Bicc and Ticc make it, in the order of its code.
#[derive(Clone, Copy)]
pub enum Cond {
    Never,
    Equal,
    LessOrEqual,
    Less,
    LessOrEqualUnsigned,
    CarrySet,
    Negative,
    OverflowSet,
    Always,
    NotEqual,
    Greater,
    GreaterOrEqual,
    GreaterUnsigned,
    CarryClear,
    Positive,
    OverflowClear,
}

/// Where a word stands in the opcode table: by op, and for op 2 by the first bits of op3 (Appendix F).
#[derive(Clone, Copy)]
pub enum Group {
    /// Op 0: branches and SETHI.
    Format2,
    /// Op 1: CALL.
    Call,
    /// Op 2, lower half: arithmetic and logic.
    Arithmetic,
    /// Op 2, op3 20 to 27 (hexadecimal): tagged arithmetic, MULScc and shifts.
    Shift,
    /// Op 2, the rest of the higher half: state registers and control transfer.
    Control,
    /// Op 3: loads and stores.
    Memory,
}

/// The second source of an instruction: a register, or a number that stands in the word.
#[derive(Clone, Copy)]
pub enum Operand {
    Register(u8),
    Immediate(i32),
}

/// An operation that has a form which also sets the condition codes.
#[derive(Clone, Copy)]
pub enum ArithOp {
    Add,
    And,
    Or,
    Xor,
    Sub,
    Andn,
    Orn,
    Xnor,
    Addx,
    Umul,
    Smul,
    Subx,
    Udiv,
    Sdiv,
}

/// An operation on tagged numbers; the `Tv` forms trap on tag overflow.
#[derive(Clone, Copy)]
pub enum TaggedOp {
    TaddCc,
    TsubCc,
    TaddCcTv,
    TsubCcTv,
}

/// A shift: left, right, or right with the sign kept.
#[derive(Clone, Copy)]
pub enum ShiftOp {
    Sll,
    Srl,
    Sra,
}

/// A register that the instructions RDY, RDPSR, RDWIM, RDTBR read and WRY to WRTBR write.
#[derive(Clone, Copy)]
pub enum StateRegister {
    Y,
    Psr,
    Wim,
    Tbr,
}

/// A load, a store, or both at once; the alternate space forms have the same operations.
#[derive(Clone, Copy)]
pub enum MemoryOp {
    Ld,
    Ldub,
    Lduh,
    Ldd,
    St,
    Stb,
    Sth,
    Std,
    Ldsb,
    Ldsh,
    Ldstub,
    Swap,
}

/// An instruction.
///
/// Registers are numbers below 32, and a displacement counts words. `Fp` and `Cp` keep the whole
/// word of a floating-point or coprocessor instruction, `AltImm` is an alternate space form with
/// i = 1, and `Illegal` is every word that the manual gives no meaning.
#[derive(Clone, Copy)]
pub enum Instr {
    Unimp(u32),
    Bicc {
        cond: Cond,
        annul: bool,
        disp22: i32,
    },
    Sethi {
        imm22: u32,
        rd: u8,
    },
    Call {
        disp30: i32,
    },
    Arith {
        op: ArithOp,
        cc: bool,
        rd: u8,
        rs1: u8,
        operand: Operand,
    },
    Tagged {
        op: TaggedOp,
        rd: u8,
        rs1: u8,
        operand: Operand,
    },
    Mulscc {
        rd: u8,
        rs1: u8,
        operand: Operand,
    },
    Shift {
        op: ShiftOp,
        rd: u8,
        rs1: u8,
        count: Operand,
    },
    ReadState {
        register: StateRegister,
        rd: u8,
    },
    Stbar,
    WriteState {
        register: StateRegister,
        rs1: u8,
        operand: Operand,
    },
    Jmpl {
        rd: u8,
        rs1: u8,
        operand: Operand,
    },
    Rett {
        rs1: u8,
        operand: Operand,
    },
    Ticc {
        cond: Cond,
        rs1: u8,
        operand: Operand,
    },
    Flush {
        rs1: u8,
        operand: Operand,
    },
    Save {
        rd: u8,
        rs1: u8,
        operand: Operand,
    },
    Restore {
        rd: u8,
        rs1: u8,
        operand: Operand,
    },
    Memory {
        op: MemoryOp,
        rd: u8,
        rs1: u8,
        operand: Operand,
    },
    Alternate {
        op: MemoryOp,
        rd: u8,
        rs1: u8,
        rs2: u8,
        asi: u8,
    },
    Fp(u32),
    Cp(u32),
    AltImm,
    Illegal,
}
