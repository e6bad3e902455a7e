//! SAVE and RESTORE (Appendix B.20).

ghost use Rattle.std.specs.Prelude.{◌≡◌, ◌<◌};
ghost use Rattle.sv8_isa.specs.Registers.{OperandHasRegister};
ghost use Rattle.sv8_trap.specs.Table.{taken};
ghost use Rattle.sv8_iu.specs.Windows.{save_traps, restore_traps, moved, saved, restored};

use crate::operands::sum_of_sources;
use sv8_isa::Operand;
use sv8_trap::{Processor, Trap};

/// The trap of SAVE.
#[inline(always)]
pub fn save_trap<const NW: usize>(p: &Processor<NW>) -> Option<Trap>
    ensures { result ≡ taken (save_traps NW p.now) }
{
    let window_of_save = p.registers().window_below();
    if p.registers().is_invalid(window_of_save) {
        Some(Trap::WindowOverflow)
    } else {
        None
    }
}

/// The trap of RESTORE.
#[inline(always)]
pub fn restore_trap<const NW: usize>(p: &Processor<NW>) -> Option<Trap>
    ensures { result ≡ taken (restore_traps NW p.now) }
{
    let window = p.registers().window_above();
    if p.registers().is_invalid(window) {
        Some(Trap::WindowUnderflow)
    } else {
        None
    }
}

/// Writes the sum of sources of this window to a register of another one, which becomes the current one.
#[inline(always)]
#[tactic(auto, unfolding(crate::specs::Windows::moved))]
fn move_to<const NW: usize>(p: &mut Processor<NW>, window: u32, rd: u8, rs1: u8, operand: Operand)
    requires window { window < NW }
    requires rd { rd < 32 }
    requires rs1 { rs1 < 32 }
    requires operand { OperandHasRegister operand }
    ensures { p.new ≡ moved NW p.old window rd rs1 operand }
{
    let sum = sum_of_sources(p, rs1, operand);
    p.set_window(window);
    p.finish_with(rd, sum);
}

#[inline(always)]
pub fn save<const NW: usize>(p: &mut Processor<NW>, rd: u8, rs1: u8, operand: Operand)
    requires rd { rd < 32 }
    requires rs1 { rs1 < 32 }
    requires operand { OperandHasRegister operand }
    ensures { p.new ≡ saved NW p.old rd rs1 operand }
{
    let window = p.registers().window_below();
    move_to(p, window, rd, rs1, operand);
}

#[inline(always)]
pub fn restore<const NW: usize>(p: &mut Processor<NW>, rd: u8, rs1: u8, operand: Operand)
    requires rd { rd < 32 }
    requires rs1 { rs1 < 32 }
    requires operand { OperandHasRegister operand }
    ensures { p.new ≡ restored NW p.old rd rs1 operand }
{
    let window = p.registers().window_above();
    move_to(p, window, rd, rs1, operand);
}
