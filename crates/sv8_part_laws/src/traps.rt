//! Laws of the definitions, each a function that does nothing and whose contract is the law.

ghost use Rattle.std.specs.Prelude.{◌≡◌, [], ◌∷◌, Some, true, false};
ghost use Rattle.sv8_regs.specs.Control.{packed_psr};
ghost use Rattle.sv8_regs.specs.Ring.{read};
ghost use Rattle.sv8_trap.specs.Table.{row, row_of, taken};
ghost use Rattle.sv8_trap.specs.Entry.{with_trap, with_return_trap, interrupted};
ghost use Rattle.sv8_trap.specs.Interrupt.{unmasked, highest};
ghost use Rattle.sv8_part_laws.specs.TrapLaws.{TheFirstIsTaken};
ghost use Rattle.sv8_part_laws.specs.TrapExamples.{user};

use sv8_trap::Trap;

/// The trap that is taken is one of those raised, and none of them comes before it.
pub fn the_first_is_taken()
    ensures { TheFirstIsTaken }
{}

/// Rows of table 7-1 and choices among traps (the numbers are decimal).
///
/// - `fetch`: instruction_access_exception has priority 5 and type 01.
/// - `coprocessor`: cp_disabled has priority 8 and type 24 (hexadecimal).
/// - `number`: trap instruction 3 has type 83 (hexadecimal).
/// - `lowest_level` and `highest_level`: interrupt levels 1 and 15 have priorities 31 and 17, and types 11 and 1F (hexadecimal).
/// - `memory`: of a misaligned address, an odd register and user mode, user mode is told.
#[tactic(auto, unfolding(sv8_trap::specs::Table::row_of))]
pub fn worked_table()
    ensures fetch { row_of Trap.InstructionAccessException ≡ row 5 0x01 }
    ensures coprocessor { row_of Trap.CpDisabled ≡ row 8 0x24 }
    ensures number { row_of (Trap.TrapInstruction 3) ≡ row 16 0x83 }
    ensures lowest_level { row_of (Trap.Interrupt 1) ≡ row 31 0x11 }
    ensures highest_level { row_of (Trap.Interrupt 15) ≡ row 17 0x1f }
    ensures memory { taken (Trap.MemAddressNotAligned ∷ Trap.IllegalInstruction ∷ Trap.PrivilegedInstruction ∷ []) ≡ Some Trap.PrivilegedInstruction }
{}

/// What a trap makes of a user program at PC 100 and nPC 200, in window 0 of eight with PIL 3, Z and ET set and TBR
/// 00004000, computed from the definition (chapter 7; the numbers are hexadecimal).
///
/// - `handler`: the handler of illegal_instruction begins at 4020.
/// - `follows`: nPC is 4024.
/// - `base`: so is TBR 4020.
/// - `state`: the PSR is 00400387: Z and PIL 3 stay, S = 1, PS = 0, ET = 0, window 7.
/// - `saved_pc` and `saved_npc`: local 1 and local 2 of window 7 are 100 and 200.
/// - `fetch`: the handler of instruction_access_exception begins at 4010.
#[tactic(auto, unfolding(sv8_trap::specs::Entry::with_trap, sv8_trap::specs::Entry::entered_from, sv8_trap::specs::Entry::trap_registers, sv8_trap::specs::Table::row_of))]
pub fn worked_traps()
    ensures handler { (with_trap 8 user Trap.IllegalInstruction).pc ≡ 0x4020 }
    ensures follows { (with_trap 8 user Trap.IllegalInstruction).npc ≡ 0x4024 }
    ensures base { (with_trap 8 user Trap.IllegalInstruction).registers.tbr ≡ 0x4020 }
    ensures state { packed_psr (with_trap 8 user Trap.IllegalInstruction).registers.psr (with_trap 8 user Trap.IllegalInstruction).registers.cwp ≡ 0x0040_0387 }
    ensures saved_pc { read 8 (with_trap 8 user Trap.IllegalInstruction).registers 17 ≡ 0x100 }
    ensures saved_npc { read 8 (with_trap 8 user Trap.IllegalInstruction).registers 18 ≡ 0x200 }
    ensures fetch { (with_trap 8 user Trap.InstructionAccessException).pc ≡ 0x4010 }
{}

/// What an interrupt of level 15 makes of that program, and which levels are masked (the numbers are hexadecimal).
///
/// - `handler`: its handler begins at 41F0.
/// - `behind_slot`: in front of an annulled slot, local 1 keeps nPC, 200.
/// - `after_that`: and local 2 the address behind it, 204.
/// - `slot`: the annul flag is cleared.
/// - `levels`: with PIL 3 the levels 4 to 15 are not masked.
/// - `only_highest`: with PIL F level 15 alone is not masked.
/// - `highest`: of the levels 1, 4 and 9 the highest is 9.
/// - `return_trap`: a trap of RETT with ET = 0 stops the processor.
/// - `return_type`: and writes its type, 06 for window_underflow.
#[tactic(auto, unfolding(sv8_trap::specs::Entry::interrupted, sv8_trap::specs::Entry::with_return_trap, sv8_trap::specs::Entry::entered_from, sv8_trap::specs::Entry::trap_registers, sv8_trap::specs::Interrupt::unmasked, sv8_trap::specs::Table::row_of))]
pub fn worked_interrupts()
    ensures handler { (interrupted 8 user 15).pc ≡ 0x41f0 }
    ensures behind_slot { read 8 (interrupted 8 (record user { annul = true }) 15).registers 17 ≡ 0x200 }
    ensures after_that { read 8 (interrupted 8 (record user { annul = true }) 15).registers 18 ≡ 0x204 }
    ensures slot { (interrupted 8 (record user { annul = true }) 15).annul ≡ false }
    ensures levels { unmasked 3 ≡ 0xfff0 }
    ensures only_highest { unmasked 15 ≡ 0x8000 }
    ensures highest { highest 0x0212 ≡ 9 }
    ensures return_trap { (with_return_trap 8 (record user { registers = record user.registers { psr = record user.registers.psr { et = false } } }) Trap.WindowUnderflow).running ≡ false }
    ensures return_type { (with_return_trap 8 (record user { registers = record user.registers { psr = record user.registers.psr { et = false } } }) Trap.WindowUnderflow).registers.tbr ≡ 0x4060 }
{}
