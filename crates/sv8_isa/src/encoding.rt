//! From instructions to words, by the list of opcodes.

ghost use Rattle.std.specs.Prelude.{◌≡◌, ◌+◌, ◌<◌};
ghost use Rattle.sv8_isa.specs.Encoding.{encoding, arith_code, cc_code, tagged_code, shift_code, read_code, write_code, memory_code};

use crate::decoding::decode;
use crate::instr::{ArithOp, Instr, MemoryOp, ShiftOp, StateRegister, TaggedOp};
use crate::opcodes::opcodes;
use crate::word::{
    alternate_source, branch_field, condition_code, format_2, format_3, format_call,
    natural_source, signed_bits, source_bits, unsigned_bits,
};

/// A `match` on an operation, or a register, that gives its op3, from the group that is named.
macro_rules! codes {
    ([$op:ident $cc:ident arith] arith { $($name:ident $plain:literal $with_cc:literal),* } $($later:tt)*) => {
        match ($op, $cc) {
            $(
                (ArithOp::$name, false) => $plain,
                (ArithOp::$name, true) => $with_cc,
            )*
        }
    };
    ([$op:ident tagged] tagged { $($name:ident $code:literal),* } $($later:tt)*) => {
        match $op { $(TaggedOp::$name => $code,)* }
    };
    ([$op:ident shift] shift { $($name:ident $code:literal),* } $($later:tt)*) => {
        match $op { $(ShiftOp::$name => $code,)* }
    };
    (
        [$register:ident read]
        read_y { ReadState $y:literal $y_rs1:literal, Stbar $stbar:literal $stbar_rs1:literal }
        read { $($name:ident $code:literal),* }
        $($later:tt)*
    ) => {
        match $register { StateRegister::Y => $y, $(StateRegister::$name => $code,)* }
    };
    (
        [$register:ident write]
        write_y { WriteState $y:literal $y_rd:literal }
        write { $($name:ident $code:literal),* }
        $($later:tt)*
    ) => {
        match $register { StateRegister::Y => $y, $(StateRegister::$name => $code,)* }
    };
    ([$op:ident memory] memory { $($name:ident $normal:literal $alternate:literal),* } $($later:tt)*) => {
        match $op { $(MemoryOp::$name => $normal,)* }
    };
    ([$op:ident alternate] memory { $($name:ident $normal:literal $alternate:literal),* } $($later:tt)*) => {
        match $op { $(MemoryOp::$name => $alternate,)* }
    };
    ([$($with:ident)*] $group:ident $rows:tt $($later:tt)*) => {
        codes!([$($with)*] $($later)*)
    };
}

/// op3 of arithmetic and logic, with or without setting the condition codes (B.11, B.13, B.15, B.18, B.19).
fn arithmetic_code(op: ArithOp, cc: bool) -> u32
    ensures value { result ≡ arith_code op + cc_code cc }
    ensures small { result < 64 }
{
    opcodes!(codes!(op cc arith))
}

/// op3 of tagged arithmetic (B.14, B.16).
fn tagged_code(op: TaggedOp) -> u32
    ensures value { result ≡ tagged_code op }
    ensures small { result < 64 }
{
    opcodes!(codes!(op tagged))
}

/// op3 of a shift (B.12).
fn shift_code(op: ShiftOp) -> u32
    ensures value { result ≡ shift_code op }
    ensures small { result < 64 }
{
    opcodes!(codes!(op shift))
}

/// op3 of RDY to RDTBR (B.28).
fn read_code(register: StateRegister) -> u32
    ensures value { result ≡ read_code register }
    ensures small { result < 64 }
{
    opcodes!(codes!(register read))
}

/// op3 of WRY to WRTBR (B.29).
fn write_code(register: StateRegister) -> u32
    ensures value { result ≡ write_code register }
    ensures small { result < 64 }
{
    opcodes!(codes!(register write))
}

/// op3 of a load or a store (B.1, B.4, B.7, B.8).
fn memory_code(op: MemoryOp) -> u32
    ensures value { result ≡ memory_code op }
    ensures small { result < 64 }
{
    opcodes!(codes!(op memory))
}

/// op3 of the same with an alternate space.
fn alternate_code(op: MemoryOp) -> u32
    ensures value { result ≡ memory_code op + 0x10 }
    ensures small { result < 64 }
{
    opcodes!(codes!(op alternate))
}

/// A `match` on an instruction, from every group.
macro_rules! encode_rows {
    (
        [$instr:ident]
        call $call:literal
        format_2 { Unimp $unimp:literal, Bicc $bicc:literal, Sethi $sethi:literal }
        format_2_whole $near:tt
        arith $arith:tt
        tagged $tagged:tt
        three_fields { $($three:ident $three_code:literal),* }
        two_fields { $($two:ident $two_code:literal),* }
        shift $shift:tt
        trap { Ticc $ticc:literal }
        read_y { ReadState $rdy:literal $rdy_rs1:literal, Stbar $stbar:literal $stbar_rs1:literal }
        $($later:tt)*
    ) => {
        match *$instr {
            Instr::Unimp(imm22) => format_2(0, $unimp, unsigned_bits(imm22, 22)),
            Instr::Bicc { cond, annul, disp22 } => {
                format_2(branch_field(annul, cond), $bicc, signed_bits(disp22, 22))
            }
            Instr::Sethi { imm22, rd } => format_2(rd, $sethi, unsigned_bits(imm22, 22)),
            Instr::Call { disp30 } => format_call($call, signed_bits(disp30, 30)),
            Instr::Arith { op, cc, rd, rs1, operand } => {
                format_3(2, rd, arithmetic_code(op, cc), rs1, source_bits(operand))
            }
            Instr::Tagged { op, rd, rs1, operand } => {
                format_3(2, rd, tagged_code(op), rs1, source_bits(operand))
            }
            $(
                Instr::$three { rd, rs1, operand } => {
                    format_3(2, rd, $three_code, rs1, source_bits(operand))
                }
            )*
            $(
                Instr::$two { rs1, operand } => {
                    format_3(2, 0, $two_code, rs1, source_bits(operand))
                }
            )*
            Instr::Shift { op, rd, rs1, count } => {
                format_3(2, rd, shift_code(op), rs1, natural_source(5, count))
            }
            Instr::Ticc { cond, rs1, operand } => {
                format_3(2, condition_code(cond), $ticc, rs1, natural_source(7, operand))
            }
            Instr::ReadState { register, rd } => {
                format_3(2, rd, read_code(register), $rdy_rs1, Some(0))
            }
            Instr::Stbar => format_3(2, 0, $stbar, $stbar_rs1, Some(0)),
            Instr::WriteState { register, rs1, operand } => {
                format_3(2, 0, write_code(register), rs1, source_bits(operand))
            }
            Instr::Memory { op, rd, rs1, operand } => {
                format_3(3, rd, memory_code(op), rs1, source_bits(operand))
            }
            Instr::Alternate { op, rd, rs1, rs2, asi } => {
                format_3(3, rd, alternate_code(op), rs1, alternate_source(asi, rs2))
            }
            Instr::Fp(word) => match decode(word) {
                Instr::Fp(decoded) if decoded == word => Some(word),
                _ => None,
            },
            Instr::Cp(word) => match decode(word) {
                Instr::Cp(decoded) if decoded == word => Some(word),
                _ => None,
            },
            Instr::AltImm | Instr::Illegal => None,
        }
    };
}

/// The word of an instruction, with its reserved bits 0.
///
/// That the word means the instruction again is the law `encodings_decode` of `sv8_assembler_laws`.
///
/// # Errors
///
/// `None` where a field is out of range, where the word of an `Fp` or `Cp` is no such
/// instruction, and for `AltImm` and `Illegal`.
#[tactic(auto, unfolding(crate::specs::Encoding::encoding))]
pub fn encode(instr: &Instr) -> Option<u32>
    ensures { result ≡ encoding instr.now }
{
    opcodes!(encode_rows!(instr))
}
