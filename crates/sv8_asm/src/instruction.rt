//! The instructions that a statement stands for.

ghost use Rattle.std.specs.Prelude.{◌≡◌, false};
ghost use Rattle.sv8_asm.specs.Code.{below, on_ok, format_3, instruction_of, set_long, set_instructions};
ghost use Rattle.sv8_asm.specs.Coded.{listed};
ghost use Rattle.sv8_asm.specs.Size.{plain};
ghost use Rattle.sv8_asm.specs.Value.{word_of};
ghost use Rattle.sv8_statements.specs.Registers.{number_of_register};

use crate::operand::{below, second_source, upper_bits};
use crate::size::{fits_simm13, has_no_low_bits, plain};
use crate::symbols::Symbols;
use crate::value::{call_displacement, displacement, word};
use sv8_isa::{ArithOp, Cond, Instr, MemoryOp, Operand};
use sv8_statements::{Expr, Instruction, LineFault, Operation, Register};

/// One instruction, or two.
#[derive(Clone, Copy)]
pub(crate) enum Coded {
    One(Instr),
    Two(Instr, Instr),
}

/// Arithmetic or logic, with condition codes or without.
fn arith(op: ArithOp, cc: bool, rd: u8, rs1: u8, operand: Operand) -> Instr
    ensures { result ≡ Instr.Arith op cc rd rs1 operand }
{
    Instr::Arith {
        op,
        cc,
        rd,
        rs1,
        operand,
    }
}

/// Bicc.
fn branch(cond: Cond, annul: bool, disp22: i32) -> Instr
    ensures { result ≡ Instr.Bicc cond annul disp22 }
{
    Instr::Bicc {
        cond,
        annul,
        disp22,
    }
}

/// SETHI.
fn sethi(imm22: u32, rd: u8) -> Instr
    ensures { result ≡ Instr.Sethi imm22 rd }
{
    Instr::Sethi { imm22, rd }
}

/// A load or a store in an address space that the instruction names.
fn alternate(
    op: MemoryOp,
    rd: Register,
    rs1: Register,
    rs2: Register,
    asi: u32,
) -> Result<Instr, LineFault>
    ensures { result ≡ on_ok (below 256 asi) (Instr.Alternate op (number_of_register rd) (number_of_register rs1) (number_of_register rs2)) }
{
    match below(256, asi) {
        Ok(asi) => Ok(Instr::Alternate {
            op,
            rd: rd.number(),
            rs1: rs1.number(),
            rs2: rs2.number(),
            asi: asi as u8,
        }),
        Err(fault) => Err(fault),
    }
}

/// An instruction of format 3, by its registers and its second source.
fn format_3(operation: Operation, rd: u8, rs1: u8, operand: Operand) -> Instr
    ensures { result ≡ format_3 operation rd rs1 operand }
{
    match operation {
        Operation::Arith { op, cc } => arith(op, cc, rd, rs1, operand),
        Operation::Tagged(op) => Instr::Tagged {
            op,
            rd,
            rs1,
            operand,
        },
        Operation::Mulscc => Instr::Mulscc { rd, rs1, operand },
        Operation::Save => Instr::Save { rd, rs1, operand },
        Operation::Restore => Instr::Restore { rd, rs1, operand },
        Operation::Shift(op) => Instr::Shift {
            op,
            rd,
            rs1,
            count: operand,
        },
        Operation::Memory(op) => Instr::Memory {
            op,
            rd,
            rs1,
            operand,
        },
        Operation::Jmpl => Instr::Jmpl { rd, rs1, operand },
        Operation::Rett => Instr::Rett { rs1, operand },
        Operation::Flush => Instr::Flush { rs1, operand },
        Operation::Trap(cond) => Instr::Ticc { cond, rs1, operand },
        Operation::Read(register) => Instr::ReadState { register, rd },
        Operation::Write(register) => Instr::WriteState {
            register,
            rs1,
            operand,
        },
        Operation::Stbar => Instr::Stbar,
    }
}

/// The instruction in a line at a location.
pub(crate) fn instruction_of(
    instruction: &Instruction,
    line: u32,
    at: u32,
    names: &Symbols,
) -> Result<Instr, LineFault>
    ensures { result ≡ instruction_of names.now line at instruction.now }
{
    match instruction {
        Instruction::Format3 {
            op,
            rd,
            rs1,
            source,
        } => match second_source(*op, source, line, names) {
            Ok(operand) => Ok(format_3(*op, rd.number(), rs1.number(), operand)),
            Err(fault) => Err(fault),
        },
        Instruction::Alternate {
            op,
            rd,
            rs1,
            rs2,
            asi,
        } => alternate(*op, *rd, *rs1, *rs2, *asi),
        Instruction::Branch {
            cond,
            annul,
            target,
        } => match displacement(at, target, line, names) {
            Ok(disp22) => Ok(branch(*cond, *annul, disp22)),
            Err(fault) => Err(fault),
        },
        Instruction::Call(target) => match call_displacement(at, target, line, names) {
            Ok(disp30) => Ok(Instr::Call { disp30 }),
            Err(fault) => Err(fault),
        },
        Instruction::Sethi { value, rd } => match upper_bits(value, line, names) {
            Ok(imm22) => Ok(sethi(imm22, rd.number())),
            Err(fault) => Err(fault),
        },
        Instruction::Unimp(number) => match below(0x40_0000, *number) {
            Ok(number) => Ok(Instr::Unimp(number)),
            Err(fault) => Err(fault),
        },
    }
}

/// `or`, without condition codes, of a register and a number.
fn or(rd: u8, rs1: u8, number: i32) -> Instr
    ensures { result ≡ Instr.Arith ArithOp.Or false rd rs1 (Operand.Immediate number) }
{
    arith(ArithOp::Or, false, rd, rs1, Operand::Immediate(number))
}

/// The instructions that set a register to a word: its upper bits, and its lower ones unless those are 0.
fn set_long(alone: bool, rd: u8, word: u32) -> Coded
    ensures { listed result ≡ set_long alone rd word }
{
    let high = sethi(word / 1024, rd);
    if alone {
        Coded::One(high)
    } else {
        Coded::Two(high, or(rd, rd, (word % 1024) as i32))
    }
}

/// The instructions that set a register to the word of a value.
fn set_word(
    value: &Expr,
    alone: bool,
    rd: Register,
    line: u32,
    names: &Symbols,
) -> Result<Coded, LineFault>
    ensures { on_ok result listed ≡ on_ok (word_of names.now line value.now) (set_long alone (number_of_register rd)) }
{
    match word(value, line, names) {
        Ok(word) => Ok(set_long(alone, rd.number(), word)),
        Err(fault) => Err(fault),
    }
}

/// The instructions of `set`.
pub(crate) fn set_instructions(
    value: &Expr,
    rd: Register,
    line: u32,
    names: &Symbols,
) -> Result<Coded, LineFault>
    ensures { on_ok result listed ≡ set_instructions (plain value.now) (word_of names.now line value.now) (number_of_register rd) }
{
    match plain(value) {
        None => set_word(value, false, rd, line, names),
        Some(number) => {
            if fits_simm13(number) {
                Ok(Coded::One(or(rd.number(), 0, number as i32)))
            } else {
                set_word(value, has_no_low_bits(number), rd, line, names)
            }
        }
    }
}
