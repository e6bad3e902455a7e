//! The rules of chapter 4 on numbers that are worked out by hand.

ghost use Rattle.std.specs.Prelude.{◌<◌, ◌≤◌};

use sv8_regs::{Pil, Psr, Regs};

/// Whether each in is the out of the window above, once every out and local holds a number of its own.
fn ring_overlaps<const NW: usize>() -> bool
    requires some { 2 ≤ NW }
    requires few { NW ≤ 32 }
{
    let windows = NW as u32;
    let mut regs = Regs::<NW>::new();
    for window in 0..windows {
        regs.set_cwp(window);
        for r in 8..24 {
            regs.set(r, 100 * window + r);
        }
    }
    let mut holds = true;
    for window in 0..windows {
        regs.set_cwp(window);
        let above = if window + 1 == windows { 0 } else { window + 1 };
        for r in 8..24 {
            holds = holds && regs.get(r) == 100 * window + r;
        }
        for r in 8..16 {
            holds = holds && regs.get(r + 16) == 100 * above + r;
        }
    }
    holds
}

#[test]
fn ins_are_the_outs_of_the_window_above(rt: HostRuntime) {
    assert!(rt; ring_overlaps::<2>());
    assert!(rt; ring_overlaps::<3>());
    assert!(rt; ring_overlaps::<8>());
    assert!(rt; ring_overlaps::<32>());
}

/// The windows below and above the first and the last window.
fn neighbours<const NW: usize>() -> [u32; 4]
    requires some { 2 ≤ NW }
    requires few { NW ≤ 32 }
{
    let mut regs = Regs::<NW>::new();
    let below_first = regs.window_below();
    let above_first = regs.window_above();
    regs.set_cwp(NW as u32 - 1);
    [
        below_first,
        above_first,
        regs.window_below(),
        regs.window_above(),
    ]
}

#[test]
fn windows_go_round(rt: HostRuntime) {
    assert_eq!(rt; neighbours::<2>(), [1, 1, 0, 0]);
    assert_eq!(rt; neighbours::<3>(), [2, 1, 1, 0]);
    assert_eq!(rt; neighbours::<8>(), [7, 1, 6, 0]);
    assert_eq!(rt; neighbours::<32>(), [31, 1, 30, 0]);
}

#[test]
fn two_steps_down_of_two_windows_lead_back(rt: HostRuntime) {
    let mut regs = Regs::<2>::new();
    regs.set(16, 7);
    regs.set(8, 5);
    regs.set_cwp(regs.window_below());
    assert_eq!(rt; regs.cwp(), 1);
    assert_eq!(rt; regs.get(24), 5);
    regs.set(16, 9);
    regs.set_cwp(regs.window_below());
    assert_eq!(rt; regs.cwp(), 0);
    assert_eq!(rt; regs.get(16), 7);
}

#[test]
fn globals_are_shared_and_register_0_reads_0(rt: HostRuntime) {
    let mut regs = Regs::<8>::new();
    for r in 0..8 {
        regs.set(r, 10 + r);
    }
    regs.set_cwp(5);
    assert_eq!(rt; regs.get(0), 0);
    for r in 1..8 {
        assert_eq!(rt; regs.get(r), 10 + r, "global {r}");
    }
}

/// The flags of the PSR, from left to right.
fn flags(psr: Psr) -> [bool; 7] {
    [psr.n, psr.z, psr.v, psr.c, psr.s, psr.ps, psr.et]
}

#[test]
fn psr_word_has_each_field_in_its_place(rt: HostRuntime) {
    let mut regs = Regs::<32>::new();
    assert_eq!(rt; regs.psr_word(), 0x0000_0080);
    let words = [
        0x0080_0000,
        0x0040_0000,
        0x0020_0000,
        0x0010_0000,
        0x0000_0080,
        0x0000_0040,
        0x0000_0020,
    ];
    for (i, word) in words.iter().enumerate() {
        regs.set_psr_word(*word);
        let mut want = [false; 7];
        want[i] = true;
        assert_eq!(rt; flags(regs.psr()), want, "{word}");
        assert_eq!(rt; regs.psr_word(), *word);
    }
    regs.set_psr_word(0xFFFF_FFFF);
    assert_eq!(rt; regs.psr_word(), 0x00F0_0FFF);
    regs.set_psr_word(0x0000_0B11);
    assert_eq!(rt; regs.psr().pil.number(), 11);
    assert_eq!(rt; regs.cwp(), 17);
    assert_eq!(rt; regs.psr_word(), 0x0000_0B11);
}

#[test]
fn psr_fields_leave_the_window(rt: HostRuntime) {
    let mut regs = Regs::<8>::new();
    regs.set_psr_word(0x00F0_0FE7);
    let psr = Psr {
        pil: Pil::new(3).unwrap_or(regs.psr().pil),
        s: false,
        ..regs.psr()
    };
    regs.set_psr(psr);
    assert_eq!(rt; regs.psr().pil.number(), 3);
    assert_eq!(rt;
        flags(regs.psr()),
        [true, true, true, true, false, true, true]
    );
    assert_eq!(rt; regs.psr_word(), 0x00F0_0367);
}

/// WIM after all its bits were written, and whether the first and the last window are then invalid.
fn full_mask<const NW: usize>() -> (u32, bool, bool)
    requires some { 2 ≤ NW }
    requires few { NW ≤ 32 }
{
    let mut regs = Regs::<NW>::new();
    regs.set_wim(0xFFFF_FFFF);
    (
        regs.wim(),
        regs.is_invalid(0),
        regs.is_invalid(NW as u32 - 1),
    )
}

#[test]
fn wim_has_a_bit_for_each_window(rt: HostRuntime) {
    assert_eq!(rt; full_mask::<2>(), (0x3, true, true));
    assert_eq!(rt; full_mask::<3>(), (0x7, true, true));
    assert_eq!(rt; full_mask::<8>(), (0xFF, true, true));
    assert_eq!(rt; full_mask::<32>(), (0xFFFF_FFFF, true, true));
    let mut regs = Regs::<8>::new();
    regs.set_wim(0x104);
    assert_eq!(rt; regs.wim(), 4);
    for window in 0..8 {
        assert_eq!(rt; regs.is_invalid(window), window == 2, "window {window}");
    }
}

#[test]
fn tbr_keeps_base_and_trap_type_apart(rt: HostRuntime) {
    let mut regs = Regs::<2>::new();
    regs.set_tba(0xFFFF_FFFF);
    assert_eq!(rt; regs.tbr(), 0xFFFF_F000);
    regs.set_trap_type(0x2A);
    assert_eq!(rt; regs.tbr(), 0xFFFF_F2A0);
    regs.set_tba(0x1234_5FFF);
    assert_eq!(rt; regs.tbr(), 0x1234_52A0);
    regs.set_trap_type(0xFF);
    assert_eq!(rt; regs.tbr(), 0x1234_5FF0);
}

#[test]
fn y_holds_a_word(rt: HostRuntime) {
    let mut regs = Regs::<2>::new();
    assert_eq!(rt; regs.y(), 0);
    regs.set_y(0xDEAD_BEEF);
    assert_eq!(rt; regs.y(), 0xDEAD_BEEF);
    assert_eq!(rt; regs.get(1), 0);
}

/// Whether registers differ from others that a change of one register has made of them, and those are the same as a copy.
fn is_seen(base: &Regs<3>, changed: &Regs<3>) -> bool {
    !base.is_same(changed) && !changed.is_same(base) && changed.is_same(&changed.copy())
}

/// Whether they differ from them in the current window alone, too.
fn is_seen_in_window(base: &Regs<3>, changed: &Regs<3>) -> bool {
    is_seen(base, changed)
        && !base.is_same_in_window(changed)
        && changed.is_same_in_window(&changed.copy())
}

/// Whether a change of a register is seen in each window.
fn each_register_counts(base: &Regs<3>, r: u32) -> bool
    requires { r < 32 }
{
    let mut holds = true;
    for window in 0..3 {
        let mut changed = base.copy();
        changed.set_cwp(window);
        changed.set(r, 0x8000_0000);
        changed.set_cwp(0);
        holds = holds && is_seen(base, &changed);
    }
    holds
}

/// Whether a change of each control register is seen.
fn each_control_register_counts(base: &Regs<3>) -> bool {
    let mut holds = true;
    let mut changed = base.copy();
    changed.set_cwp(2);
    holds = holds && is_seen_in_window(base, &changed);
    changed = base.copy();
    changed.set_wim(4);
    holds = holds && is_seen_in_window(base, &changed);
    changed = base.copy();
    changed.set_tba(0x1000);
    holds = holds && is_seen_in_window(base, &changed);
    changed = base.copy();
    changed.set_trap_type(0xff);
    holds = holds && is_seen_in_window(base, &changed);
    changed = base.copy();
    changed.set_y(1);
    holds && is_seen_in_window(base, &changed)
}

/// Whether a change of each field of the PSR is seen, whose word after the reset is 80 (hexadecimal).
fn each_field_counts(base: &Regs<3>) -> bool {
    let words: [u32; 8] = [
        0x80_0080, 0x40_0080, 0x20_0080, 0x10_0080, 0x180, 0, 0xc0, 0xa0,
    ];
    let mut holds = true;
    for word in words {
        let mut changed = base.copy();
        changed.set_psr_word(word);
        holds = holds && is_seen_in_window(base, &changed);
    }
    holds
}

#[test]
fn registers_that_differ_in_one_place(rt: HostRuntime) {
    let base = Regs::<3>::new();
    assert!(rt; base.is_same(&base.copy()));
    for r in 1..32 {
        assert!(rt; each_register_counts(&base, r));
    }
    assert!(rt; each_control_register_counts(&base));
    assert!(rt; each_field_counts(&base));
}

#[test]
fn registers_outside_the_window_are_not_compared(rt: HostRuntime) {
    let base = Regs::<3>::new();
    let mut changed = base.copy();
    changed.set_cwp(1);
    changed.set(16, 1);
    changed.set_cwp(0);
    assert!(rt; is_seen(&base, &changed));
    assert!(rt; base.is_same_in_window(&changed));
    changed.set(16, 1);
    assert!(rt; is_seen_in_window(&base, &changed));
}
