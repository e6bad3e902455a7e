//! From words to instructions, by the list of opcodes.

ghost use Rattle.std.specs.Prelude.{◌≡◌, ◌≢◌, ◌<◌, ◌≤◌, false};
ghost use Rattle.sv8_isa.specs.Accesses.{makes_access};
ghost use Rattle.sv8_isa.specs.Registers.{HasRegisters};
ghost use Rattle.sv8_isa.specs.Table.{instr_at, row_at, meaning, is_queue_store, group_of};

use crate::instr::{ArithOp, Group, Instr, MemoryOp, ShiftOp, StateRegister, TaggedOp};
use crate::opcodes::opcodes;
use crate::word::{bits, branch, call, condition, count, operand, register, trap_number};

/// A `match` on op2, from the groups of op 0.
macro_rules! format_2_rows {
    (
        [$word:ident]
        format_2 { Unimp $unimp:literal, Bicc $bicc:literal, Sethi $sethi:literal }
        format_2_whole { $($near:ident $near_code:literal),* }
        $($later:tt)*
    ) => {
        match bits($word, 24, 22) {
            $unimp => Instr::Unimp(bits($word, 21, 0)),
            $bicc => branch($word),
            $sethi => Instr::Sethi { imm22: bits($word, 21, 0), rd: register($word, 25) },
            $($near_code => Instr::$near($word),)*
            _ => Instr::Illegal,
        }
    };
    ([$word:ident] $group:ident $rows:tt $($later:tt)*) => {
        format_2_rows!([$word] $($later)*)
    };
}

/// A `match` on op3, from the group of arithmetic and logic.
macro_rules! arithmetic_rows {
    ([$word:ident $op3:ident] arith { $($arith:ident $plain:literal $cc:literal),* } $($later:tt)*) => {{
        let rd = register($word, 25);
        let rs1 = register($word, 14);
        let operand = operand($word);
        match $op3 {
            $(
                $plain => Instr::Arith { op: ArithOp::$arith, cc: false, rd, rs1, operand },
                $cc => Instr::Arith { op: ArithOp::$arith, cc: true, rd, rs1, operand },
            )*
            _ => Instr::Illegal,
        }
    }};
    ([$($with:ident)*] $group:ident $rows:tt $($later:tt)*) => {
        arithmetic_rows!([$($with)*] $($later)*)
    };
}

/// A `match` on op3, from the groups of op 2 behind those of arithmetic and logic.
macro_rules! control_rows {
    (
        [$word:ident $op3:ident]
        tagged { $($tagged:ident $tagged_code:literal),* }
        three_fields { $($three:ident $three_code:literal),* }
        two_fields { $($two:ident $two_code:literal),* }
        shift { $($shift:ident $shift_code:literal),* }
        trap { Ticc $ticc:literal }
        read_y { ReadState $rdy:literal $rdy_rs1:literal, Stbar $stbar:literal $stbar_rs1:literal }
        read { $($from:ident $read_code:literal),* }
        write_y { WriteState $wry:literal $wry_rd:literal }
        write { $($to:ident $write_code:literal),* }
        whole { $($whole:ident $whole_code:literal),* }
        $($later:tt)*
    ) => {{
        let rd = register($word, 25);
        let rs1 = register($word, 14);
        let operand = operand($word);
        match $op3 {
            $($tagged_code => Instr::Tagged { op: TaggedOp::$tagged, rd, rs1, operand },)*
            $($three_code => Instr::$three { rd, rs1, operand },)*
            $($two_code => Instr::$two { rs1, operand },)*
            $($shift_code => Instr::Shift { op: ShiftOp::$shift, rd, rs1, count: count($word) },)*
            $ticc => Instr::Ticc { cond: condition($word), rs1, operand: trap_number($word) },
            $rdy => match (rs1, rd) {
                ($rdy_rs1, _) => Instr::ReadState { register: StateRegister::Y, rd },
                ($stbar_rs1, 0) => Instr::Stbar,
                _ => Instr::Illegal,
            },
            $($read_code => Instr::ReadState { register: StateRegister::$from, rd },)*
            $wry if rd == $wry_rd => Instr::WriteState { register: StateRegister::Y, rs1, operand },
            $wry => Instr::Illegal,
            $($write_code => Instr::WriteState { register: StateRegister::$to, rs1, operand },)*
            $($whole_code => Instr::$whole($word),)*
            _ => Instr::Illegal,
        }
    }};
    ([$($with:ident)*] $group:ident $rows:tt $($later:tt)*) => {
        control_rows!([$($with)*] $($later)*)
    };
}

/// A `match` on op3, from the groups of op 3.
macro_rules! memory_rows {
    (
        [$word:ident $op3:ident]
        memory { $($memory:ident $normal:literal $alternate:literal),* }
        memory_whole { $($far:ident $far_code:literal),* }
        queue_whole { $($queue:ident $queue_code:literal),* }
    ) => {{
        let rd = register($word, 25);
        let rs1 = register($word, 14);
        let operand = operand($word);
        let immediate = bits($word, 13, 13);
        match $op3 {
            $(
                $normal => Instr::Memory { op: MemoryOp::$memory, rd, rs1, operand },
                $alternate if immediate == 0 => Instr::Alternate {
                    op: MemoryOp::$memory,
                    rd,
                    rs1,
                    rs2: register($word, 0),
                    asi: bits($word, 12, 5) as u8,
                },
                $alternate => Instr::AltImm,
            )*
            $($far_code => Instr::$far($word),)*
            $($queue_code => Instr::$queue($word),)*
            _ => Instr::Illegal,
        }
    }};
    ([$($with:ident)*] $group:ident $rows:tt $($later:tt)*) => {
        memory_rows!([$($with)*] $($later)*)
    };
}

/// Where a word stands in the opcode table.
#[tactic(auto, unfolding(crate::specs::Table::group_of))]
#[inline(always)]
pub fn group(word: u32) -> Group
    ensures { result ≡ group_of word }
{
    match bits(word, 31, 30) {
        0 => Group::Format2,
        1 => Group::Call,
        3 => Group::Memory,
        _ if bits(word, 24, 19) < 0x20 => Group::Arithmetic,
        _ if bits(word, 24, 19) < 0x28 => Group::Shift,
        _ => Group::Control,
    }
}

/// The instruction of a word of op 2 that has this op3, below 32.
#[inline(always)]
fn arithmetic_at(word: u32, op3: u32) -> Instr
    requires { op3 < 0x20 }
    ensures value { result ≡ instr_at (row_at 2 op3 word) word }
    ensures registers { HasRegisters result }
    ensures unaided { makes_access result ≡ false }
{
    opcodes!(arithmetic_rows!(word op3))
}

/// The instruction of a word of op 2 that has this op3, from 32 on.
#[inline(always)]
fn control_at(word: u32, op3: u32) -> Instr
    requires from { 0x20 ≤ op3 }
    requires below { op3 < 0x40 }
    ensures value { result ≡ instr_at (row_at 2 op3 word) word }
    ensures registers { HasRegisters result }
    ensures unaided { makes_access result ≡ false }
{
    opcodes!(control_rows!(word op3))
}

/// The instruction of a word of op 3 that has this op3.
#[inline(always)]
fn memory_at(word: u32, op3: u32) -> Instr
    requires { op3 < 0x40 }
    ensures value { result ≡ instr_at (row_at 3 op3 word) word }
    ensures registers { HasRegisters result }
{
    opcodes!(memory_rows!(word op3))
}

/// The instruction of a word of the group of op 0 (B.31, B.21, B.9, B.22, B.23).
#[tactic(auto, using(crate::proofs::Groups::format_2), unfolding(crate::specs::Table::meaning))]
#[inline(always)]
pub fn decode_format_2(word: u32) -> Instr
    requires { group_of word ≡ Group.Format2 }
    ensures value { result ≡ meaning word }
    ensures registers { HasRegisters result }
    ensures unaided { makes_access result ≡ false }
{
    opcodes!(format_2_rows!(word))
}

/// The instruction of a word of op 1, which is CALL (B.24).
#[tactic(auto, using(crate::proofs::Groups::call), unfolding(crate::specs::Table::meaning))]
#[inline(always)]
pub fn decode_call(word: u32) -> Instr
    requires { group_of word ≡ Group.Call }
    ensures value { result ≡ meaning word }
    ensures registers { HasRegisters result }
    ensures unaided { makes_access result ≡ false }
{
    call(word)
}

/// The instruction of a word of the group of arithmetic and logic (B.11, B.13, B.18, B.19).
#[inline(always)]
pub fn decode_arithmetic(word: u32) -> Instr
    requires { group_of word ≡ Group.Arithmetic }
    ensures value { result ≡ meaning word }
    ensures registers { HasRegisters result }
    ensures unaided { makes_access result ≡ false }
{
    arithmetic_at(word, bits(word, 24, 19))
}

/// The instruction of a word of the group of shifts, tagged arithmetic and MULScc (B.12, B.14, B.16, B.17).
#[inline(always)]
pub fn decode_shift(word: u32) -> Instr
    requires { group_of word ≡ Group.Shift }
    ensures value { result ≡ meaning word }
    ensures registers { HasRegisters result }
    ensures unaided { makes_access result ≡ false }
{
    control_at(word, bits(word, 24, 19))
}

/// The instruction of a word of the group of state registers, jumps, traps and windows (B.20, B.25 to B.30, B.32 to B.34).
#[inline(always)]
pub fn decode_control(word: u32) -> Instr
    requires { group_of word ≡ Group.Control }
    ensures value { result ≡ meaning word }
    ensures registers { HasRegisters result }
    ensures unaided { makes_access result ≡ false }
{
    control_at(word, bits(word, 24, 19))
}

/// The instruction of a word of op 3 (B.1 to B.8).
#[inline(always)]
pub fn decode_memory(word: u32) -> Instr
    requires { group_of word ≡ Group.Memory }
    ensures value { result ≡ meaning word }
    ensures registers { HasRegisters result }
{
    memory_at(word, bits(word, 24, 19))
}

/// The instruction that a word stands for (Appendices B and F). Each word has one, `Illegal` where
/// the manual gives it no meaning.
///
/// Reserved bits are ignored: words that differ in them alone give the same instruction.
#[inline(always)]
pub fn decode(word: u32) -> Instr
    ensures value { result ≡ meaning word }
    ensures registers { HasRegisters result }
    ensures unaided { group_of word ≢ Group.Memory → makes_access result ≡ false }
{
    match group(word) {
        Group::Format2 => decode_format_2(word),
        Group::Call => decode_call(word),
        Group::Arithmetic => decode_arithmetic(word),
        Group::Shift => decode_shift(word),
        Group::Control => decode_control(word),
        Group::Memory => decode_memory(word),
    }
}

/// A test of a word, from the group of the queue stores, which is the last of the list.
macro_rules! queue_rows {
    ([$word:ident] queue_whole { $($queue:ident $queue_code:literal),* }) => {
        bits($word, 31, 30) == 3 && ($(bits($word, 24, 19) == $queue_code)||*)
    };
    ([$word:ident] $group:ident $rows:tt $($later:tt)*) => {
        queue_rows!([$word] $($later)*)
    };
}

/// Whether a word is STDFQ or STDCQ, which store the queue of a unit (B.5, B.6).
///
/// In user mode these trap as privileged instructions, and not as ones of a unit that the machine does not have.
pub fn is_queue_store(word: u32) -> bool
    ensures { result ≡ is_queue_store word }
{
    opcodes!(queue_rows!(word))
}
