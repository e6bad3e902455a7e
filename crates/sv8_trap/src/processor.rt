//! The registers and counters, and how an instruction leaves them.

ghost use Rattle.std.specs.Prelude.{◌≡◌, ◌≢◌, ◌<◌, ◌≤◌, ◌%◌, MatchBool};
ghost use Rattle.sv8_regs.specs.Control.{unpacked_psr, window_field, kept_mask, with_base};
ghost use Rattle.sv8_regs.specs.Current.{other_windows};
ghost use Rattle.sv8_trap.specs.Processor.{reset_processor, advanced, transferred, slot_skipped, with_register, with_result, with_codes, with_y, in_window};

use std::marker::Model;
use sv8_regs::{ConditionCodes, Regs};

/// The registers and counters of a processor with `NW` windows (2 to 32).
#[derive(Drop)]
pub struct Processor<const NW: usize> {
    pub(crate) registers: Regs<NW>,
    pub(crate) pc: u32,
    pub(crate) npc: u32,
    pub(crate) annul: bool,
    pub(crate) running: bool,
}

impl<const NW: usize> Model for Processor<NW> {
    ghost use Rattle.std.specs.Prelude.{◌≡◌, ◌≤◌, ◌%◌};
    ghost use Rattle.sv8_trap.specs.Processor.{Processor};

    ghost Value = { Processor };

    ghost view = { λ p. record {
      registers = p.registers;
      pc = p.pc;
      npc = p.npc;
      annul = p.annul;
      running = p.running;
    } };

    ghost invariant = { λ p. (p.pc % 4 ≡ 0) × (p.npc % 4 ≡ 0) × (2 ≤ NW) × (NW ≤ 32) };
}

impl<const NW: usize> Processor<NW> {
    /// The processor after reset: PC 0, nPC 4, S = 1, ET = 0 and every other register 0 (chapter 7).
    pub fn new() -> Self
        requires some { 2 ≤ NW }
        requires few { NW ≤ 32 }
        ensures { result ≡ reset_processor NW }
    {
        Processor {
            registers: Regs::new(),
            pc: 0,
            npc: 4,
            annul: false,
            running: true,
        }
    }

    /// The same processor once more. It takes no memory.
    pub fn copy(&self) -> Self
        ensures { result ≡ self.now }
    {
        Processor {
            registers: self.registers.copy(),
            pc: self.pc,
            npc: self.npc,
            annul: self.annul,
            running: self.running,
        }
    }

    /// Whether two processors are the same: their registers, PC, nPC, the annul flag, and whether they run.
    pub fn is_same(&self, other: &Processor<NW>) -> bool
        ensures { MatchBool result (self.now ≡ other.now) (self.now ≢ other.now) }
    {
        self.has_same_counters(other) && self.registers.is_same(&other.registers)
    }

    /// The same of processors whose registers outside the current window are known to be the same: these are not compared.
    #[inline(always)]
    pub fn is_same_in_window(&self, other: &Processor<NW>) -> bool
        ensures { MatchBool result (other_windows NW self.now.registers ≡ other_windows NW other.now.registers → self.now ≡ other.now) (self.now ≢ other.now) }
    {
        self.has_same_counters(other) && self.registers.is_same_in_window(&other.registers)
    }

    /// Whether PC, nPC, the annul flag, and whether they run are the same.
    #[inline(always)]
    fn has_same_counters(&self, other: &Processor<NW>) -> bool
        ensures { MatchBool result (self.now ≡ record other.now { registers = self.now.registers }) (self.now ≢ record other.now { registers = self.now.registers }) }
    {
        if self.pc != other.pc || self.npc != other.npc {
            return false;
        }
        self.annul == other.annul && self.running == other.running
    }

    /// The number of windows, `NW`.
    #[inline(always)]
    pub fn windows(&self) -> u32
        ensures value { result ≡ NW }
        ensures some { 2 ≤ result }
        ensures few { result ≤ 32 }
    {
        let _pc = self.pc;
        NW as u32
    }

    /// The registers (chapter 4).
    #[inline(always)]
    pub fn registers(&self) -> &Regs<NW>
        ensures { result.now ≡ self.now.registers }
    {
        &self.registers
    }

    /// PC, the address of the instruction that is carried out next (section 4.2).
    #[inline(always)]
    pub fn pc(&self) -> u32
        ensures value { result ≡ self.now.pc }
        ensures aligned { result % 4 ≡ 0 }
    {
        self.pc
    }

    /// nPC, the address of the instruction behind it (section 4.2).
    #[inline(always)]
    pub fn npc(&self) -> u32
        ensures value { result ≡ self.now.npc }
        ensures aligned { result % 4 ≡ 0 }
    {
        self.npc
    }

    /// Whether the instruction at PC is left out, as a transfer of control asked for (section 5.1.2).
    #[inline(always)]
    pub fn annul(&self) -> bool
        ensures { result ≡ self.now.annul }
    {
        self.annul
    }

    /// Whether the processor runs, and is not in error mode (chapter 7).
    #[inline(always)]
    pub fn is_running(&self) -> bool
        ensures { result ≡ self.now.running }
    {
        self.running
    }

    /// On to the next instruction.
    #[inline(always)]
    #[tactic(auto, unfolding(crate::specs::Processor::advanced))]
    pub fn advance(&mut self)
        ensures { self.new ≡ advanced self.old }
    {
        self.pc = self.npc;
        self.npc = self.npc.wrapping_add(4);
    }

    /// A transfer of control to a target, a multiple of 4, behind the delay slot, which is annulled or not (section 5.1.2).
    #[inline(always)]
    #[tactic(auto, unfolding(crate::specs::Processor::transferred))]
    pub fn transfer(&mut self, target: u32, annul: bool)
        requires { target % 4 ≡ 0 }
        ensures { self.new ≡ transferred self.old target annul }
    {
        self.pc = self.npc;
        self.npc = target;
        self.annul = annul;
    }

    /// Passes over the slot that a transfer of control annulled.
    #[tactic(auto, unfolding(crate::specs::Processor::slot_skipped))]
    pub fn skip_slot(&mut self)
        ensures { self.new ≡ slot_skipped self.old }
    {
        self.annul = false;
        self.advance();
    }

    /// Writes a register of the current window.
    #[inline(always)]
    pub fn set_register(&mut self, rd: u8, value: u32)
        requires { rd < 32 }
        ensures { self.new ≡ with_register NW self.old rd value }
    {
        self.registers.set(u32::from(rd), value);
    }

    /// Writes a register of the current window, and goes on.
    #[inline(always)]
    #[tactic(auto, unfolding(crate::specs::Processor::with_result))]
    pub fn finish_with(&mut self, rd: u8, value: u32)
        requires { rd < 32 }
        ensures { self.new ≡ with_result NW self.old rd value }
    {
        self.set_register(rd, value);
        self.advance();
    }

    /// Writes the condition codes.
    #[inline(always)]
    pub fn set_codes(&mut self, codes: ConditionCodes)
        ensures { self.new ≡ with_codes self.old codes }
    {
        self.registers.set_condition_codes(codes);
    }

    /// Writes Y.
    #[inline(always)]
    pub fn set_y(&mut self, y: u32)
        ensures { self.new ≡ with_y self.old y }
    {
        self.registers.set_y(y);
    }

    /// Makes a window the current one.
    #[inline(always)]
    pub fn set_window(&mut self, window: u32)
        requires { window < NW }
        ensures { self.new ≡ in_window self.old window }
    {
        self.registers.set_cwp(window);
    }

    /// Writes the whole PSR, as WRPSR does with a word whose CWP is a window's number (B.29).
    pub fn set_psr_word(&mut self, word: u32)
        requires { window_field word < NW }
        ensures { self.new ≡ record self.old { registers = record self.old.registers { psr = unpacked_psr word; cwp = window_field word } } }
    {
        self.registers.set_psr_word(word);
    }

    /// Writes WIM, as WRWIM does (B.29).
    pub fn set_wim(&mut self, word: u32)
        ensures { self.new ≡ record self.old { registers = record self.old.registers { wim = kept_mask NW word } } }
    {
        self.registers.set_wim(word);
    }

    /// Writes TBA, as WRTBR does (B.29).
    pub fn set_tba(&mut self, word: u32)
        ensures { self.new ≡ record self.old { registers = record self.old.registers { tbr = with_base self.old.registers.tbr word } } }
    {
        self.registers.set_tba(word);
    }
}
