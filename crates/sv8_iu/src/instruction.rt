//! The three parts of each instruction: what it raises, the access that it asks for, and its end.

ghost use Rattle.std.specs.Prelude.{◌≡◌, ◌<◌, ◌⊎◌, None};
ghost use Rattle.sv8_isa.specs.Registers.{HasRegisters};
ghost use Rattle.sv8_trap.specs.Table.{taken};
ghost use Rattle.sv8_isa.specs.Table.{is_queue_store};
ghost use Rattle.sv8_iu.specs.Operands.{sum_of_sources};
ghost use Rattle.sv8_iu.specs.Instruction.{disabled_traps, immediate_traps, raised, trapped, data_space, asked, complete};
ghost use Rattle.sv8_trap.specs.Requests.{space_of, IsAligned};

use crate::arithmetic::{
    arithmetic, arithmetic_trap, multiply_step, set_upper, shift, tagged, tagged_trap,
};
use crate::control::{branch, call, go_back, jump, jump_trap, number_trap, return_trap};
use crate::memory::{access_of, alternate_trap, finish_access, memory_trap};
use crate::operands::sum_of_sources;
use crate::state_registers::{read_state, read_trap, write_state, write_trap};
use crate::windows::{restore, restore_trap, save, save_trap};
use sv8_isa::{Instr, Operand, is_queue_store};
use sv8_trap::{AccessRequest, Processor, Space, Trap};

/// The trap of an instruction of a unit that is not there.
#[tactic(auto, using(crate::proofs::Choices::privileged_choice), unfolding(crate::specs::Instruction::disabled_traps))]
fn disabled_trap<const NW: usize>(p: &Processor<NW>, word: u32, disabled: Trap) -> Option<Trap>
    requires { (disabled ≡ Trap.FpDisabled) ⊎ ((disabled ≡ Trap.CpDisabled) ⊎ (disabled ≡ Trap.IllegalInstruction)) }
    ensures { result ≡ taken (disabled_traps p.now word disabled) }
{
    if is_queue_store(word) && !p.registers().psr().s {
        Some(Trap::PrivilegedInstruction)
    } else {
        Some(disabled)
    }
}

/// The trap of an alternate space form with i = 1.
#[tactic(auto, using(crate::proofs::Choices::privileged_choice), unfolding(crate::specs::Instruction::immediate_traps))]
fn immediate_trap<const NW: usize>(p: &Processor<NW>) -> Option<Trap>
    ensures { result ≡ taken (immediate_traps p.now) }
{
    if p.registers().psr().s {
        Some(Trap::IllegalInstruction)
    } else {
        Some(Trap::PrivilegedInstruction)
    }
}

/// The trap that an instruction raises before its access, the one that is taken of several.
#[inline(always)]
pub fn raised_by<const NW: usize>(p: &Processor<NW>, instr: Instr) -> Option<Trap>
    requires { HasRegisters instr }
    ensures { result ≡ taken (raised NW p.now instr) }
{
    match instr {
        Instr::Arith { op, operand, .. } => arithmetic_trap(p, op, operand),
        Instr::Tagged {
            op,
            rs1,
            operand,
            ..
        } => tagged_trap(p, op, rs1, operand),
        Instr::ReadState { register, .. } => read_trap(p, register),
        Instr::WriteState {
            register,
            rs1,
            operand,
        } => write_trap(p, register, rs1, operand),
        Instr::Jmpl { rs1, operand, .. } => jump_trap(p, rs1, operand),
        Instr::Rett { rs1, operand } => return_trap(p, rs1, operand),
        Instr::Ticc { cond, rs1, operand } => number_trap(p, cond, rs1, operand),
        Instr::Save { .. } => save_trap(p),
        Instr::Restore { .. } => restore_trap(p),
        Instr::Memory {
            op,
            rd,
            rs1,
            operand,
        } => memory_trap(op, rd, sum_of_sources(p, rs1, operand)),
        Instr::Alternate {
            op,
            rd,
            rs1,
            rs2,
            ..
        } => alternate_trap(p, op, rd, sum_of_sources(p, rs1, Operand::Register(rs2))),
        Instr::Fp(word) => disabled_trap(p, word, Trap::FpDisabled),
        Instr::Cp(word) => disabled_trap(p, word, Trap::CpDisabled),
        Instr::AltImm => immediate_trap(p),
        Instr::Unimp(_) | Instr::Illegal => Some(Trap::IllegalInstruction),
        _ => None,
    }
}

/// Takes a trap that an instruction raises; RETT's are special.
pub fn take_trap<const NW: usize>(p: &mut Processor<NW>, instr: Instr, trap: Trap)
    ensures { p.new ≡ trapped NW p.old instr trap }
{
    match instr {
        Instr::Rett { .. } => p.take_in_return(trap),
        _ => p.take(trap),
    }
}

/// The address space of plain loads and stores.
#[inline(always)]
#[tactic(auto, unfolding(sv8_trap::specs::Requests::space_of))]
pub fn data_space<const NW: usize>(p: &Processor<NW>) -> u8
    ensures value { result ≡ data_space p.now }
    ensures space { space_of result ≡ Space.Virtual }
{
    if p.registers().psr().s { 0x0b } else { 0x0a }
}

/// The access that an instruction asks for where it raises no trap.
#[inline(always)]
#[tactic(auto, using(crate::proofs::Choices::aligned_request, crate::proofs::Choices::aligned_alternate))]
pub fn asked<const NW: usize>(p: &Processor<NW>, instr: Instr) -> AccessRequest
    requires registers { HasRegisters instr }
    requires no_trap { taken (raised NW p.now instr) ≡ None }
    ensures value { result ≡ asked NW p.now instr }
    ensures aligned { IsAligned result }
{
    match instr {
        Instr::Memory {
            op,
            rd,
            rs1,
            operand,
        } => access_of(p, op, data_space(p), rd, sum_of_sources(p, rs1, operand)),
        Instr::Alternate {
            op,
            rd,
            rs1,
            rs2,
            asi,
        } => access_of(
            p,
            op,
            asi,
            rd,
            sum_of_sources(p, rs1, Operand::Register(rs2)),
        ),
        _ => AccessRequest::Nothing,
    }
}

/// The end of an instruction that raised no trap, with the number that its access gave.
#[inline(always)]
pub fn complete<const NW: usize>(p: &mut Processor<NW>, instr: Instr, value: u64)
    requires registers { HasRegisters instr }
    requires no_trap { taken (raised NW p.old instr) ≡ None }
    ensures { p.new ≡ complete NW p.old instr value }
{
    match instr {
        Instr::Bicc {
            cond,
            annul,
            disp22,
        } => branch(p, cond, annul, disp22),
        Instr::Sethi { imm22, rd } => set_upper(p, rd, imm22),
        Instr::Call { disp30 } => call(p, disp30),
        Instr::Arith {
            op,
            cc,
            rd,
            rs1,
            operand,
        } => arithmetic(p, op, cc, rd, rs1, operand),
        Instr::Tagged {
            op,
            rd,
            rs1,
            operand,
        } => tagged(p, op, rd, rs1, operand),
        Instr::Mulscc { rd, rs1, operand } => multiply_step(p, rd, rs1, operand),
        Instr::Shift { op, rd, rs1, count } => shift(p, op, rd, rs1, count),
        Instr::ReadState { register, rd } => read_state(p, register, rd),
        Instr::WriteState {
            register,
            rs1,
            operand,
        } => write_state(p, register, rs1, operand),
        Instr::Jmpl { rd, rs1, operand } => jump(p, rd, rs1, operand),
        Instr::Rett { rs1, operand } => go_back(p, rs1, operand),
        Instr::Save { rd, rs1, operand } => save(p, rd, rs1, operand),
        Instr::Restore { rd, rs1, operand } => restore(p, rd, rs1, operand),
        Instr::Memory { op, rd, .. } | Instr::Alternate { op, rd, .. } => finish_access(
            p, op, rd, value,
        ),
        Instr::Stbar | Instr::Ticc { .. } | Instr::Flush { .. } => p.advance(),
        // These always trap.
        Instr::Unimp(_) | Instr::Fp(_) | Instr::Cp(_) | Instr::AltImm | Instr::Illegal => {}
    }
}
