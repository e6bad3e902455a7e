//! Laws of the definitions, each a function that does nothing and whose contract is the law.

ghost use Rattle.std.specs.Prelude.{◌≡◌, ◌<◌, ◌≤◌, ◌^◌, ◌+◌, ◌≢◌, true};
ghost use Rattle.sv8_regs.specs.Control.{packed_psr, unpacked_psr, window_field, kept_mask, with_base, with_trap_type, with_condition_codes, above, below};
ghost use Rattle.sv8_regs.specs.Ring.{read, write, reset};

use crate::{Psr, Regs};

/// What is packed into a PSR word is read from it again, and fits a word. Section 4.2.
pub fn packing_keeps_fields(psr: Psr, window: u32)
    requires { window < 32 }
    ensures fields { unpacked_psr (packed_psr psr window) ≡ psr }
    ensures current_window { window_field (packed_psr psr window) ≡ window }
    ensures word { packed_psr psr window < 2 ^ 32 }
{
    let _level = psr.pil.number();
    let _window = window;
}

/// The outs of the window above are the ins of a window. Section 4.1.
pub fn outs_are_ins_above<const NW: usize>(regs: &Regs<NW>, window: u32, r: u32)
    requires window { window < NW }
    requires from_out { 8 ≤ r }
    requires to_out { r < 16 }
    ensures { read NW (record regs.now { cwp = above NW window }) r ≡ read NW (record regs.now { cwp = window }) (r + 16) }
{
    let _current = regs.window;
    let _window = window;
    let _r = r;
}

/// A register other than 0 reads what was written to it. Section 4.1.
pub fn a_write_is_read<const NW: usize>(regs: &Regs<NW>, r: u32, value: u32)
    requires not_zero { 0 < r }
    requires register { r < 32 }
    ensures { read NW (write NW regs.now r value) r ≡ value }
{
    let _window = regs.window;
    let _r = r;
    let _value = value;
}

/// A write leaves every other register of the window as it was. Section 4.1.
pub fn a_write_keeps_others<const NW: usize>(regs: &Regs<NW>, r: u32, other: u32, value: u32)
    requires register { r < 32 }
    requires register_read { other < 32 }
    requires apart { r ≢ other }
    ensures { read NW (write NW regs.now r value) other ≡ read NW regs.now other }
{
    let _window = regs.window;
    let _r = r;
    let _other = other;
    let _value = value;
}

/// The definitions, computed on numbers that are worked out by hand.
///
/// - `reset`: the PSR after a reset is 00000080.
/// - `fields`: the PSR word 00F00FFF has every field set, and window 31.
/// - `locals`: with two windows, local 0 of window 0 keeps 7 while local 0 of window 1, the one below, is set
///   to 9; two steps down lead to window 0 again.
/// - `wrap`: with three windows the ins of the last one are the outs of window 0.
/// - `mask`: with three windows WIM keeps three bits.
/// - `codes`: with all condition codes set the PSR after a reset is 00F00080.
/// - `base` and `trap_type`: a write of TBA and one of the trap type leave each other's bits.
pub fn worked_examples()
    ensures reset { packed_psr (reset 2).psr (reset 2).cwp ≡ 128 }
    ensures fields { packed_psr (unpacked_psr 15732735) (window_field 15732735) ≡ 15732735 }
    ensures locals { read 2 (record (write 2 (record (write 2 (reset 2) 16 7) { cwp = below 2 0 }) 16 9) { cwp = below 2 1 }) 16 ≡ 7 }
    ensures wrap { read 3 (record (write 3 (reset 3) 8 5) { cwp = 2 }) 24 ≡ 5 }
    ensures mask { kept_mask 3 4294967295 ≡ 7 }
    ensures codes { packed_psr (with_condition_codes (record { n = true; z = true; v = true; c = true }) (reset 2).psr) 0 ≡ 15728768 }
    ensures base { with_base 1296 4294967295 ≡ 4294964496 }
    ensures trap_type { with_trap_type 4294964496 255 ≡ 4294967280 }
{}
