//! How traps and interrupts are entered, and returned from.

ghost use Rattle.std.specs.Prelude.{◌≡◌, ◌<◌, ◌≤◌, ◌%◌};
ghost use Rattle.sv8_model.specs.Words.{bit};
ghost use Rattle.sv8_model.specs.Levels.{level_of};
ghost use Rattle.sv8_trap.specs.Entry.{trap_registers, entered_from, entered, interrupted, stopped, with_trap, with_return_trap, returned};
ghost use Rattle.sv8_trap.specs.Interrupt.{unmasked, highest};

use crate::processor::Processor;
use crate::table::Trap;
use sv8_model::Level;
use sv8_regs::{Pil, Psr};

impl<const NW: usize> Processor<NW> {
    /// Traps off, supervisor mode with the mode before it in PS, the window below, and the trap's type.
    #[tactic(auto, unfolding(crate::specs::Entry::trap_registers))]
    fn prepare_handler(&mut self, trap: Trap)
        ensures { self.new ≡ record self.old { registers = trap_registers NW self.old.registers trap } }
    {
        let psr = self.registers.psr();
        self.registers.set_psr(Psr {
            s: true,
            ps: psr.s,
            et: false,
            ..psr
        });
        self.registers.set_cwp(self.registers.window_below());
        self.registers.set_trap_type(trap.row().trap_type);
    }

    /// Enters the handler of a trap, which goes back to these addresses.
    #[tactic(auto, unfolding(crate::specs::Entry::entered_from))]
    fn enter_from(&mut self, trap: Trap, pc: u32, npc: u32)
        ensures { self.new ≡ entered_from NW self.old trap pc npc }
    {
        self.prepare_handler(trap);
        self.registers.set(17, pc);
        self.registers.set(18, npc);
        self.pc = self.registers.tbr();
        self.npc = self.pc.wrapping_add(4);
        self.annul = false;
    }

    /// Enters the handler of a trap: in supervisor mode, in the window below and with traps off. Locals 1 and 2 of
    /// that window keep PC and nPC (section 7.3).
    pub fn enter(&mut self, trap: Trap)
        ensures { self.new ≡ entered NW self.old trap }
    {
        self.enter_from(trap, self.pc, self.npc);
    }

    /// Enters the handler of an interrupt of a level. In front of an annulled slot locals 1 and 2 keep the
    /// addresses behind the slot.
    #[tactic(auto, unfolding(crate::specs::Entry::interrupted))]
    pub fn interrupt(&mut self, level: Level)
        ensures { self.new ≡ interrupted NW self.old level }
    {
        let trap = Trap::Interrupt(level.number() as u8);
        if self.annul {
            self.enter_from(trap, self.npc, self.npc.wrapping_add(4));
        } else {
            self.enter(trap);
        }
    }

    /// Enters error mode, in which no instruction is carried out any more (section 7.2).
    pub fn to_error(&mut self)
        ensures { self.new ≡ stopped self.old }
    {
        self.running = false;
    }

    /// Takes a trap: enters its handler where traps are enabled, and error mode where they are not (section 7.3).
    #[tactic(auto, unfolding(crate::specs::Entry::with_trap))]
    pub fn take(&mut self, trap: Trap)
        ensures { self.new ≡ with_trap NW self.old trap }
    {
        if self.registers.psr().et {
            self.enter(trap);
        } else {
            self.to_error();
        }
    }

    /// Takes a trap of RETT, which writes its type also where it leads to error mode (B.26).
    #[tactic(auto, unfolding(crate::specs::Entry::with_return_trap))]
    pub fn take_in_return(&mut self, trap: Trap)
        ensures { self.new ≡ with_return_trap NW self.old trap }
    {
        if self.registers.psr().et {
            self.enter(trap);
        } else {
            self.registers.set_trap_type(trap.row().trap_type);
            self.to_error();
        }
    }

    /// Returns from a handler to a target, a multiple of 4: traps on, the mode before the trap, and the window above (B.26).
    #[tactic(auto, unfolding(crate::specs::Entry::returned))]
    pub fn return_to(&mut self, target: u32)
        requires { target % 4 ≡ 0 }
        ensures { self.new ≡ returned NW self.old target }
    {
        let psr = self.registers.psr();
        self.registers.set_psr(Psr {
            s: psr.ps,
            et: true,
            ..psr
        });
        self.registers.set_cwp(self.registers.window_above());
        self.transfer(target, false);
    }

    /// The levels that are not masked, bit l for level l: those above PIL, and 15 always (section 7.5).
    #[inline(always)]
    pub fn unmasked_levels(&self) -> u16
        ensures { result ≡ unmasked self.now.registers.psr.pil }
    {
        unmasked(self.registers.psr().pil)
    }
}

/// The levels that a PIL does not mask.
#[inline(always)]
#[tactic(auto, using(crate::proofs::Levels::unmasked_below), unfolding(crate::specs::Interrupt::unmasked))]
fn unmasked(pil: Pil) -> u16
    ensures { result ≡ unmasked pil }
{
    let level = pil.number();
    if level == 15 {
        0x8000
    } else {
        (0x1_0000u32 - (2 << level)) as u16
    }
}

/// Whether a level is one of a word's.
fn has_level(word: u32, level: u32) -> bool
    requires { level ≤ 15 }
    ensures { result ≡ bit word level }
{
    (word >> level) % 2 == 1
}

/// The highest of the levels of a word, bit l for level l from 1 to 15; `None` where there is none (section 7.5).
#[inline(always)]
#[tactic(auto, using(crate::proofs::Levels::no_level))]
pub fn highest_level(word: u32) -> Option<Level>
    ensures { result ≡ level_of (highest word) }
{
    if word == 0 {
        None
    } else {
        Level::new(highest_of(word))
    }
}

/// The highest of the levels of a word, looked for one after the other. Nearly every step asks a word that has none.
#[inline(never)]
fn highest_of(word: u32) -> u32
    ensures { result ≡ highest word }
{
    let mut highest = 0;
    for below in 0..15 {
        if has_level(word, below + 1) {
            highest = below + 1;
        }
    }
    highest
}
