//! Control transfer (Appendices B.21 and B.24 to B.27).

ghost use Rattle.std.specs.Prelude.{◌≡◌, ◌<◌, ◌%◌, true, None};
ghost use Rattle.sv8_isa.specs.Registers.{OperandHasRegister};
ghost use Rattle.sv8_trap.specs.Table.{taken};
ghost use Rattle.sv8_trap.specs.Entry.{returned};
ghost use Rattle.sv8_iu.specs.Operands.{sum_of_sources};
ghost use Rattle.sv8_iu.specs.Control.{is_less, holds, is_always, distance, branched, called, is_misaligned, jump_traps, jumped, return_traps, number_traps};

use crate::operands::{sum_of_sources, word_of};
use sv8_isa::{Cond, Operand};
use sv8_regs::Psr;
use sv8_trap::{Processor, Trap};

/// Whether N and V differ.
#[inline(always)]
fn is_less(psr: Psr) -> bool
    ensures { result ≡ is_less psr }
{
    if psr.n { !psr.v } else { psr.v }
}

/// Whether a condition holds for the condition codes.
#[inline(always)]
#[tactic(auto, unfolding(crate::specs::Control::holds))]
fn holds(cond: Cond, psr: Psr) -> bool
    ensures { result ≡ holds cond psr }
{
    match cond {
        Cond::Never => false,
        Cond::Equal => psr.z,
        Cond::LessOrEqual => psr.z || is_less(psr),
        Cond::Less => is_less(psr),
        Cond::LessOrEqualUnsigned => psr.c || psr.z,
        Cond::CarrySet => psr.c,
        Cond::Negative => psr.n,
        Cond::OverflowSet => psr.v,
        Cond::Always => true,
        Cond::NotEqual => !psr.z,
        Cond::Greater => !(psr.z || is_less(psr)),
        Cond::GreaterOrEqual => !is_less(psr),
        Cond::GreaterUnsigned => !(psr.c || psr.z),
        Cond::CarryClear => !psr.c,
        Cond::Positive => !psr.n,
        Cond::OverflowClear => !psr.v,
    }
}

#[inline(always)]
fn is_always(cond: Cond) -> bool
    ensures { result ≡ is_always cond }
{
    matches!(cond, Cond::Always)
}

/// The distance in bytes of a displacement in words.
#[inline(always)]
fn distance(displacement: i32) -> u32
    ensures value { result ≡ distance displacement }
    ensures aligned { result % 4 ≡ 0 }
{
    word_of(displacement).wrapping_mul(4)
}

/// Bicc.
#[inline(always)]
#[tactic(auto, unfolding(crate::specs::Control::branched))]
pub fn branch<const NW: usize>(p: &mut Processor<NW>, cond: Cond, annul: bool, disp22: i32)
    ensures { p.new ≡ branched p.old cond annul disp22 }
{
    if holds(cond, p.registers().psr()) {
        let target = p.pc().wrapping_add(distance(disp22));
        p.transfer(target, annul && is_always(cond));
    } else {
        let target = p.npc().wrapping_add(4);
        p.transfer(target, annul);
    }
}

/// CALL.
#[inline(always)]
#[tactic(auto, unfolding(crate::specs::Control::called))]
pub fn call<const NW: usize>(p: &mut Processor<NW>, disp30: i32)
    ensures { p.new ≡ called NW p.old disp30 }
{
    let pc = p.pc();
    p.set_register(15, pc);
    p.transfer(pc.wrapping_add(distance(disp30)), false);
}

#[inline(always)]
fn is_misaligned(address: u32) -> bool
    ensures { result ≡ is_misaligned address }
{
    address % 4 != 0
}

/// The trap of a jump.
#[inline(always)]
pub fn jump_trap<const NW: usize>(p: &Processor<NW>, rs1: u8, operand: Operand) -> Option<Trap>
    requires rs1 { rs1 < 32 }
    requires operand { OperandHasRegister operand }
    ensures { result ≡ taken (jump_traps NW p.now rs1 operand) }
{
    if is_misaligned(sum_of_sources(p, rs1, operand)) {
        Some(Trap::MemAddressNotAligned)
    } else {
        None
    }
}

/// JMPL to a target.
#[inline(always)]
#[tactic(auto, unfolding(crate::specs::Control::jumped))]
fn jump_to<const NW: usize>(p: &mut Processor<NW>, rd: u8, target: u32)
    requires rd { rd < 32 }
    requires aligned { target % 4 ≡ 0 }
    ensures { p.new ≡ jumped NW p.old rd target }
{
    let pc = p.pc();
    p.set_register(rd, pc);
    p.transfer(target, false);
}

/// JMPL, where it raises no trap.
#[inline(always)]
#[tactic(auto, using(crate::proofs::Choices::aligned_jump))]
pub fn jump<const NW: usize>(p: &mut Processor<NW>, rd: u8, rs1: u8, operand: Operand)
    requires rd { rd < 32 }
    requires rs1 { rs1 < 32 }
    requires operand { OperandHasRegister operand }
    requires no_trap { taken (jump_traps NW p.old rs1 operand) ≡ None }
    ensures { p.new ≡ jumped NW p.old rd (sum_of_sources NW p.old rs1 operand) }
{
    let target = sum_of_sources(p, rs1, operand);
    jump_to(p, rd, target);
}

/// The trap of RETT.
#[tactic(auto, using(crate::proofs::Choices::return_choice), unfolding(crate::specs::Control::return_traps))]
pub fn return_trap<const NW: usize>(p: &Processor<NW>, rs1: u8, operand: Operand) -> Option<Trap>
    requires rs1 { rs1 < 32 }
    requires operand { OperandHasRegister operand }
    ensures { result ≡ taken (return_traps NW p.now rs1 operand) }
{
    let psr = p.registers().psr();
    if psr.et {
        return if psr.s {
            Some(Trap::IllegalInstruction)
        } else {
            Some(Trap::PrivilegedInstruction)
        };
    }
    let window = p.registers().window_above();
    if !psr.s {
        Some(Trap::PrivilegedInstruction)
    } else if p.registers().is_invalid(window) {
        Some(Trap::WindowUnderflow)
    } else if is_misaligned(sum_of_sources(p, rs1, operand)) {
        Some(Trap::MemAddressNotAligned)
    } else {
        None
    }
}

/// RETT, where it raises no trap.
#[inline(never)]
#[tactic(auto, using(crate::proofs::Choices::aligned_return))]
pub fn go_back<const NW: usize>(p: &mut Processor<NW>, rs1: u8, operand: Operand)
    requires rs1 { rs1 < 32 }
    requires operand { OperandHasRegister operand }
    requires no_trap { taken (return_traps NW p.old rs1 operand) ≡ None }
    ensures { p.new ≡ returned NW p.old (sum_of_sources NW p.old rs1 operand) }
{
    let target = sum_of_sources(p, rs1, operand);
    p.return_to(target);
}

/// The trap of Ticc.
#[inline(always)]
#[tactic(auto, unfolding(crate::specs::Control::number_traps))]
pub fn number_trap<const NW: usize>(
    p: &Processor<NW>,
    cond: Cond,
    rs1: u8,
    operand: Operand,
) -> Option<Trap>
    requires rs1 { rs1 < 32 }
    requires operand { OperandHasRegister operand }
    ensures { result ≡ taken (number_traps NW p.now cond rs1 operand) }
{
    if holds(cond, p.registers().psr()) {
        let number = (sum_of_sources(p, rs1, operand) % 128) as u8;
        Some(Trap::TrapInstruction(number))
    } else {
        None
    }
}
