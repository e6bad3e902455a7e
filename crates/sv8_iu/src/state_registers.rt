//! Reads and writes of Y, PSR, WIM and TBR (Appendices B.28 and B.29).

ghost use Rattle.std.specs.Prelude.{◌≡◌, ◌<◌, false, not, ◌&&◌, None};
ghost use Rattle.sv8_isa.specs.Registers.{OperandHasRegister};
ghost use Rattle.sv8_trap.specs.Table.{taken};
ghost use Rattle.sv8_iu.specs.StateRegisters.{is_privileged, privilege_traps, state_word, state_read, written_word, names_no_window, write_traps, with_state, state_written};

use crate::operands::operand_value;
use sv8_isa::{Operand, StateRegister};
use sv8_regs::Regs;
use sv8_trap::{Processor, Trap};

#[inline(always)]
fn is_privileged(register: StateRegister) -> bool
    ensures { result ≡ is_privileged register }
{
    !matches!(register, StateRegister::Y)
}

/// Whether user mode keeps a program from a register.
#[inline(always)]
fn is_kept_from<const NW: usize>(p: &Processor<NW>, register: StateRegister) -> bool
    ensures { result ≡ is_privileged register && not p.now.registers.psr.s }
{
    is_privileged(register) && !p.registers().psr().s
}

/// The trap of a read.
#[inline(always)]
pub fn read_trap<const NW: usize>(p: &Processor<NW>, register: StateRegister) -> Option<Trap>
    ensures { result ≡ taken (privilege_traps p.now register) }
{
    if is_kept_from(p, register) {
        Some(Trap::PrivilegedInstruction)
    } else {
        None
    }
}

/// The word of a register.
#[inline(always)]
fn state_word<const NW: usize>(registers: &Regs<NW>, register: StateRegister) -> u32
    ensures { result ≡ state_word registers.now register }
{
    match register {
        StateRegister::Y => registers.y(),
        StateRegister::Psr => registers.psr_word(),
        StateRegister::Wim => registers.wim(),
        StateRegister::Tbr => registers.tbr(),
    }
}

/// RDY, RDPSR, RDWIM, RDTBR.
#[inline(never)]
#[tactic(auto, unfolding(crate::specs::StateRegisters::state_read))]
pub fn read_state<const NW: usize>(p: &mut Processor<NW>, register: StateRegister, rd: u8)
    requires { rd < 32 }
    ensures { p.new ≡ state_read NW p.old register rd }
{
    let word = state_word(p.registers(), register);
    p.finish_with(rd, word);
}

/// The word that is written: the exclusive or of both sources.
#[inline(always)]
#[tactic(auto, unfolding(crate::specs::StateRegisters::written_word))]
pub fn written_word<const NW: usize>(p: &Processor<NW>, rs1: u8, operand: Operand) -> u32
    requires rs1 { rs1 < 32 }
    requires operand { OperandHasRegister operand }
    ensures { result ≡ written_word NW p.now rs1 operand }
{
    p.registers().get(u32::from(rs1)) ^ operand_value(p, operand)
}

/// Whether a write names a window that is not there.
#[inline(always)]
fn names_no_window<const NW: usize>(p: &Processor<NW>, register: StateRegister, word: u32) -> bool
    ensures { result ≡ names_no_window NW register word }
{
    matches!(register, StateRegister::Psr) && p.windows() <= word % 32
}

/// The trap of a write.
#[inline(always)]
#[tactic(auto, using(crate::proofs::Choices::write_choice))]
pub fn write_trap<const NW: usize>(
    p: &Processor<NW>,
    register: StateRegister,
    rs1: u8,
    operand: Operand,
) -> Option<Trap>
    requires rs1 { rs1 < 32 }
    requires operand { OperandHasRegister operand }
    ensures { result ≡ taken (write_traps NW p.now register rs1 operand) }
{
    if is_kept_from(p, register) {
        Some(Trap::PrivilegedInstruction)
    } else if names_no_window(p, register, written_word(p, rs1, operand)) {
        Some(Trap::IllegalInstruction)
    } else {
        None
    }
}

/// A register with a word written to it.
#[inline(always)]
fn set_state<const NW: usize>(p: &mut Processor<NW>, register: StateRegister, word: u32)
    requires { names_no_window NW register word ≡ false }
    ensures { p.new ≡ with_state NW p.old register word }
{
    match register {
        StateRegister::Y => p.set_y(word),
        StateRegister::Psr => p.set_psr_word(word),
        StateRegister::Wim => p.set_wim(word),
        StateRegister::Tbr => p.set_tba(word),
    }
}

/// WRY, WRPSR, WRWIM, WRTBR, where they raise no trap.
#[inline(never)]
#[tactic(auto, using(crate::proofs::Choices::present_window), unfolding(crate::specs::StateRegisters::state_written))]
pub fn write_state<const NW: usize>(
    p: &mut Processor<NW>,
    register: StateRegister,
    rs1: u8,
    operand: Operand,
)
    requires rs1 { rs1 < 32 }
    requires operand { OperandHasRegister operand }
    requires no_trap { taken (write_traps NW p.old register rs1 operand) ≡ None }
    ensures { p.new ≡ state_written NW p.old register (written_word NW p.old rs1 operand) }
{
    let word = written_word(p, rs1, operand);
    set_state(p, register, word);
    p.advance();
}
