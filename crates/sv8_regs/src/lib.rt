//! The registers of the integer unit of a SPARC V8 processor: the globals, the ring of windows, and the
//! control and status registers. The SPARC Architecture Manual, Version 8, chapter 4.
#![tactic(auto)]

mod laws;
mod pil;
mod words;

ghost use Rattle.std.specs.Prelude.{◌≡◌, ◌≢◌, ◌<◌, ◌≤◌, ◌^◌, MatchBool};
ghost use Rattle.sv8_model.specs.Words.{bit, digit};
ghost use Rattle.sv8_regs.specs.Control.{packed_psr, unpacked_psr, kept_mask};

pub use laws::{
    a_write_is_read, a_write_keeps_others, outs_are_ins_above, packing_keeps_fields,
    worked_examples,
};
pub use pil::Pil;
use std::marker::Model;
use words::{change_window, same_rows, same_words};

/// The fields of the Processor State Register, but for the current window. Section 4.2.
///
/// The implementation and version numbers, EC, EF and the reserved bits always read 0, so they are no fields.
#[derive(Clone, Copy, PartialEq, Eq)]
pub struct Psr {
    /// The result was negative.
    pub n: bool,
    /// The result was zero.
    pub z: bool,
    /// The result was out of range.
    pub v: bool,
    /// Carry or borrow.
    pub c: bool,
    /// The processor interrupt level.
    pub pil: Pil,
    /// Supervisor mode.
    pub s: bool,
    /// The value of S at the time of the most recent trap.
    pub ps: bool,
    /// Traps are enabled.
    pub et: bool,
}

/// The integer condition codes, the icc field of the PSR. Section 4.2.
#[derive(Clone, Copy)]
pub struct ConditionCodes {
    /// The result was negative.
    pub n: bool,
    /// The result was zero.
    pub z: bool,
    /// The result was out of range.
    pub v: bool,
    /// Carry or borrow.
    pub c: bool,
}

/// The registers of a processor with `NW` windows. Sections 4.1 and 4.2.
///
/// Register 0 reads 0, 1 to 7 are global, 8 to 15 the outs, 16 to 23 the locals and 24 to 31 the ins of the
/// current window. The ins of a window are the outs of the window above it.
#[derive(Drop)]
pub struct Regs<const NW: usize> {
    // The registers of the current window, as they are numbered. That of register 0 is 0.
    current: [u32; 32],
    // The outs and locals of each window, but zeros in the places of the current window.
    // With the zeros, registers that are the same have the same rows.
    rows: [[u32; 16]; NW],
    window: usize,
    psr: Psr,
    wim: u32,
    tbr: u32,
    y: u32,
}

impl<const NW: usize> Model for Regs<NW> {
    ghost use Rattle.std.specs.Prelude.{◌≡◌, ◌<◌, ◌≤◌, ◌^◌, ◌%◌, length, slice_index, take};
    ghost use Rattle.sv8_regs.specs.Current.{ring_of, IsVacant};
    ghost use Rattle.sv8_regs.specs.Ring.{Registers, flat};

    ghost Value = { Registers };

    ghost view = { λ r. record {
      globals = take 8 r.current;
      ring = ring_of NW r.window r.current (flat NW r.rows);
      cwp = r.window;
      psr = r.psr;
      wim = r.wim;
      tbr = r.tbr;
      y = r.y;
    } };

    ghost invariant = { λ r. (r.window < NW) × (2 ≤ NW) × (NW ≤ 32) × (r.wim < 2 ^ NW) × (r.tbr % 2 ^ 4 ≡ 0)
        × (length r.current ≡ 32) × (slice_index r.current 0 ≡ 0) × IsVacant NW r.window (flat NW r.rows) };
}

impl<const NW: usize> Regs<NW> {
    ghost use Rattle.std.specs.Prelude.{◌≡◌, ◌≢◌, ◌<◌, ◌≤◌, ◌^◌, ◌%◌, MatchBool};
    ghost use Rattle.sv8_regs.specs.Current.{other_windows};
    ghost use Rattle.sv8_regs.specs.Ring.{read, write, reset};
    ghost use Rattle.sv8_model.specs.Words.{bit};
    ghost use Rattle.sv8_regs.specs.Control.{packed_psr, unpacked_psr, window_field, kept_mask, with_base, with_trap_type, below, above, condition_codes, with_condition_codes};

    /// The registers as they are after a reset: S is set and all else is 0. The manual fixes S = 1 and ET = 0
    /// alone (chapter 7); the other zeros are this project's.
    pub fn new() -> Self
        requires some { 2 ≤ NW }
        requires few { NW ≤ 32 }
        ensures { result ≡ reset NW }
    {
        Regs {
            current: [0; 32],
            rows: [[0; 16]; NW],
            window: 0,
            psr: Psr {
                n: false,
                z: false,
                v: false,
                c: false,
                pil: Pil::of_reset(),
                s: true,
                ps: false,
                et: false,
            },
            wim: 0,
            tbr: 0,
            y: 0,
        }
    }

    /// The same registers once more. It takes no memory.
    pub fn copy(&self) -> Self
        ensures { result ≡ self.now }
    {
        Regs {
            current: self.current,
            rows: self.rows,
            window: self.window,
            psr: self.psr,
            wim: self.wim,
            tbr: self.tbr,
            y: self.y,
        }
    }

    /// Whether two sets of registers are the same: the globals, the registers of all windows, and the control and status
    /// registers with the current window. Sections 4.1 and 4.2.
    pub fn is_same(&self, other: &Regs<NW>) -> bool
        ensures { MatchBool result (self.now ≡ other.now) (self.now ≢ other.now) }
    {
        self.has_same_fields(other) && self.has_same_windows(other)
    }

    /// Whether two sets of registers are the same where those outside the current window are known to be. The globals, the
    /// registers of that window, and the control and status registers are compared. Sections 4.1 and 4.2.
    #[inline(always)]
    pub fn is_same_in_window(&self, other: &Regs<NW>) -> bool
        ensures { MatchBool result (other_windows NW self.now ≡ other_windows NW other.now → self.now ≡ other.now) (self.now ≢ other.now) }
    {
        self.has_same_fields(other) && same_words(&self.current, &other.current)
    }

    /// Whether the control and status registers are the same, with the current window.
    fn has_same_fields(&self, other: &Regs<NW>) -> bool
        ensures { MatchBool result (self.now ≡ record other.now { globals = self.now.globals; ring = self.now.ring }) (self.now ≢ record other.now { globals = self.now.globals; ring = self.now.ring }) }
    {
        if self.psr != other.psr {
            return false;
        }
        if self.window != other.window || self.wim != other.wim {
            return false;
        }
        self.tbr == other.tbr && self.y == other.y
    }

    /// Whether the globals and the registers of all windows are the same, where all else is.
    fn has_same_windows(&self, other: &Regs<NW>) -> bool
        ensures { self.now ≡ record other.now { globals = self.now.globals; ring = self.now.ring } → MatchBool result (self.now ≡ other.now) (self.now ≢ other.now) }
    {
        same_words(&self.current, &other.current) && same_rows(&self.rows, &other.rows)
    }

    /// Register `r` of the current window. Section 4.1.
    #[inline(always)]
    pub fn get(&self, r: u32) -> u32
        requires { r < 32 }
        ensures { result ≡ read NW self.now r }
    {
        self.current[r as usize]
    }

    /// Writes register `r` of the current window. Section 4.1. A write of register 0 changes nothing.
    #[inline(always)]
    pub fn set(&mut self, r: u32, value: u32)
        requires { r < 32 }
        ensures { self.new ≡ write NW self.old r value }
    {
        if r != 0 {
            self.current[r as usize] = value;
        }
    }

    /// The current window, CWP of the PSR. Section 4.2.
    #[inline(always)]
    pub fn cwp(&self) -> u32
        ensures value { result ≡ self.now.cwp }
        ensures in_range { result < NW }
    {
        self.window as u32
    }

    /// Makes `window` the current window. Section 4.2.
    #[inline]
    pub fn set_cwp(&mut self, window: u32)
        requires { window < NW }
        ensures { self.new ≡ record self.old { cwp = window } }
    {
        change_window(
            &mut self.rows,
            &mut self.current,
            self.window,
            window as usize,
        );
        self.window = window as usize;
    }

    /// The window that SAVE and a trap go to. Appendix B.20 and chapter 7.
    #[inline(always)]
    pub fn window_below(&self) -> u32
        ensures value { result ≡ below NW self.now.cwp }
        ensures in_range { result < NW }
    {
        if self.window == 0 {
            NW as u32 - 1
        } else {
            self.cwp() - 1
        }
    }

    /// The window that RESTORE and RETT go to. Appendix B.20 and B.26.
    #[inline(always)]
    pub fn window_above(&self) -> u32
        ensures value { result ≡ above NW self.now.cwp }
        ensures in_range { result < NW }
    {
        if self.window + 1 == NW {
            0
        } else {
            self.cwp() + 1
        }
    }

    /// The fields of the PSR, but for CWP. Section 4.2.
    #[inline(always)]
    pub fn psr(&self) -> Psr
        ensures { result ≡ self.now.psr }
    {
        // One field after another: as a whole it is loaded as one number, which waits for each store of a field just before.
        Psr {
            n: self.psr.n,
            z: self.psr.z,
            v: self.psr.v,
            c: self.psr.c,
            pil: self.psr.pil,
            s: self.psr.s,
            ps: self.psr.ps,
            et: self.psr.et,
        }
    }

    /// Writes the fields of the PSR, but for CWP. Section 4.2.
    #[inline(always)]
    pub fn set_psr(&mut self, psr: Psr)
        ensures { self.new ≡ record self.old { psr = psr } }
    {
        self.psr = psr;
    }

    /// The condition codes. Section 4.2.
    #[inline(always)]
    pub fn condition_codes(&self) -> ConditionCodes
        ensures { result ≡ condition_codes self.now.psr }
    {
        let Psr { n, z, v, c, .. } = self.psr;
        ConditionCodes { n, z, v, c }
    }

    /// Writes the condition codes; the rest of the PSR stays. Section 4.2.
    #[inline(always)]
    pub fn set_condition_codes(&mut self, codes: ConditionCodes)
        ensures { self.new ≡ record self.old { psr = with_condition_codes codes self.old.psr } }
    {
        let ConditionCodes { n, z, v, c } = codes;
        self.psr = Psr {
            n,
            z,
            v,
            c,
            ..self.psr
        };
    }

    /// The PSR as a word, as RDPSR reads it. Section 4.2 and Appendix B.28.
    pub fn psr_word(&self) -> u32
        ensures { result ≡ packed_psr self.now.psr self.now.cwp }
    {
        packed(self.psr, self.cwp())
    }

    /// Writes the whole PSR, CWP with it, as WRPSR does. Section 4.2 and Appendix B.29.
    ///
    /// A word whose CWP is not the number of a window must not be written; WRPSR raises illegal_instruction
    /// there, and the caller makes that test.
    pub fn set_psr_word(&mut self, word: u32)
        requires window { window_field word < NW }
        ensures { self.new ≡ record self.old { psr = unpacked_psr word; cwp = window_field word } }
    {
        self.set_cwp(word % 32);
        self.psr = unpacked(word);
    }

    /// The Window Invalid Mask: bit w is set where window w is invalid. Section 4.2.
    /// The bits of windows that the processor does not have read 0.
    #[inline(always)]
    pub fn wim(&self) -> u32
        ensures value { result ≡ self.now.wim }
        ensures in_range { result < 2 ^ NW }
    {
        self.wim
    }

    /// Writes the bits of WIM that stand for a window, and drops the others. Section 4.2.
    #[inline]
    pub fn set_wim(&mut self, word: u32)
        ensures { self.new ≡ record self.old { wim = kept_mask NW word } }
    {
        self.wim = masked(word, self.windows());
    }

    /// The number of windows, `NW`.
    #[inline(always)]
    fn windows(&self) -> u32
        ensures value { result ≡ NW }
        ensures some { 2 ≤ result }
        ensures few { result ≤ 32 }
    {
        let _window = self.window;
        NW as u32
    }

    /// Whether window `window` is marked invalid in WIM, so that SAVE, RESTORE and RETT into it trap. Section 4.2.
    #[inline(always)]
    pub fn is_invalid(&self, window: u32) -> bool
        requires { window < NW }
        ensures { result ≡ bit self.now.wim window }
    {
        is_set(self.wim, window)
    }

    /// The Trap Base Register: TBA in bits 31:12, the trap type in bits 11:4, and zeros. Section 4.2.
    #[inline(always)]
    pub fn tbr(&self) -> u32
        ensures value { result ≡ self.now.tbr }
        ensures aligned { result % 2 ^ 4 ≡ 0 }
    {
        self.tbr
    }

    /// Writes TBA, bits 31:12 of the TBR, from the same bits of `word`, as WRTBR does. Section 4.2.
    #[inline]
    pub fn set_tba(&mut self, word: u32)
        ensures { self.new ≡ record self.old { tbr = with_base self.old.tbr word } }
    {
        self.tbr = word / 0x1000 * 0x1000 + self.tbr % 0x1000;
    }

    /// Writes the trap type, bits 11:4 of the TBR, as a trap does. Section 4.2 and chapter 7.
    #[inline]
    pub fn set_trap_type(&mut self, trap_type: u8)
        ensures { self.new ≡ record self.old { tbr = with_trap_type self.old.tbr trap_type } }
    {
        self.tbr = self.tbr / 0x1000 * 0x1000 + trap_type as u32 * 0x10;
    }

    /// The Y register. Section 4.2.
    #[inline(always)]
    pub fn y(&self) -> u32
        ensures { result ≡ self.now.y }
    {
        self.y
    }

    /// Writes the Y register. Section 4.2.
    #[inline(always)]
    pub fn set_y(&mut self, y: u32)
        ensures { self.new ≡ record self.old { y = y } }
    {
        self.y = y;
    }
}

/// Bit `k` of the word.
#[inline(always)]
fn is_set(word: u32, k: u32) -> bool
    requires { k < 32 }
    ensures { result ≡ bit word k }
{
    (word >> k) % 2 == 1
}

#[inline(always)]
fn one_bit(b: bool) -> u32
    ensures value { result ≡ digit b }
    ensures small { result ≤ 1 }
{
    if b { 1 } else { 0 }
}

/// The fields of the PSR as a word.
fn packed(psr: Psr, window: u32) -> u32
    requires { window < 32 }
    ensures { result ≡ packed_psr psr window }
{
    one_bit(psr.n) * 0x0080_0000
        + one_bit(psr.z) * 0x0040_0000
        + one_bit(psr.v) * 0x0020_0000
        + one_bit(psr.c) * 0x0010_0000
        + psr.pil.number() * 0x100
        + one_bit(psr.s) * 0x80
        + one_bit(psr.ps) * 0x40
        + one_bit(psr.et) * 0x20
        + window
}

/// The fields of a PSR word, but for CWP.
fn unpacked(word: u32) -> Psr
    ensures { result ≡ unpacked_psr word }
{
    Psr {
        n: is_set(word, 23),
        z: is_set(word, 22),
        v: is_set(word, 21),
        c: is_set(word, 20),
        pil: Pil::of_word(word),
        s: is_set(word, 7),
        ps: is_set(word, 6),
        et: is_set(word, 5),
    }
}

/// The low `count` bits of the word.
#[inline(always)]
fn masked(word: u32, count: u32) -> u32
    requires some { 2 ≤ count }
    requires few { count ≤ 32 }
    ensures value { result ≡ kept_mask count word }
    ensures in_range { result < 2 ^ count }
{
    if count == 32 {
        word
    } else {
        word % (1 << count)
    }
}
