//! Ranges of recorded steps that reach no instruction at an address, worked out by hand.

use crate::untouched::{STORES, Small, TRANSLATES, workbench};
use std::alloc::{AllocError, Global};
use std::test::Fail;
use sv8_bench::BenchFault;
use sv8_model::Refused;
use sv8_search::is_unreached;
use sv8_touches::Watch;
use sv8_walks::Walk;

/// A program that turns translation on in step 7, the last one of its interval, and off in step 8. One entry, at 400
/// (hexadecimal), maps each address to itself.
const TURNS: &[&[u8]] = &[
    b"mov 0x40, %g1",
    b"mov 0x100, %g2",
    b"sta %g1, [%g2]4",
    b"mov 1, %g3",
    b"nop",
    b"nop",
    b"nop",
    b"sta %g3, [%g0]4",
    b"sta %g0, [%g0]4",
    b"end: ba end",
    b"nop",
    b".org 0x400",
    b".word 0xe",
];

/// An address, a range of steps, and whether the record shows that the steps reach no instruction there.
type Range = (u16, u32, u32, bool);

/// Ranges of the first eight steps of `STORES`, which translates no address: it touches 100 in step 3, and reaches no
/// instruction there.
const PLAIN: [Range; 13] = [
    (0, 0, 8, false),
    (0, 1, 8, true),
    (0x10, 0, 4, true),
    (0x10, 0, 5, false),
    (0x10, 5, 6, true),
    (0x14, 5, 6, false),
    (0x14, 0, 5, true),
    (0x100, 0, 3, true),
    (0x100, 0, 4, false),
    (0x18, 0, 8, true),
    (0x18, 0, 9, false),
    (0x18, 8, 8, true),
    (0xffc, 0, 8, true),
];

/// Ranges of the first eight steps of `TRANSLATES`, whose last three are translated: so is their interval, from step 4 on.
const TRANSLATED: [Range; 7] = [
    (0x200, 0, 4, true),
    (0x200, 0, 5, false),
    (0x200, 4, 5, false),
    (0x200, 7, 8, false),
    (0x200, 4, 4, true),
    (0xc, 0, 3, true),
    (0xc, 3, 4, false),
];

/// Ranges of the first sixteen steps of `TURNS`, of which step 8 is translated and no other one.
const TURNED: [Range; 8] = [
    (0x200, 0, 8, true),
    (0x20, 0, 8, true),
    (0x1c, 7, 8, false),
    (0x200, 8, 9, false),
    (0x200, 9, 12, false),
    (0x200, 7, 9, false),
    (0x200, 12, 16, true),
    (0x200, 0, 16, false),
];

/// The same once the byte at 301 is poked in step 13.
const POKED: [Range; 4] = [
    (0x300, 12, 13, true),
    (0x300, 12, 16, false),
    (0x300, 14, 16, true),
    (0x304, 12, 16, true),
];

/// Ranges of `TURNS` once an edit has left four steps recorded.
const CUT: [Range; 2] = [(0x200, 0, 4, true), (0x200, 4, 8, false)];

/// Ranges of the first sixteen steps of `TURNS` where step 7 does nothing, so that no step is translated.
const NEVER_TURNED: [Range; 2] = [(0x200, 0, 16, true), (0x20, 0, 9, false)];

/// Whether each of these ranges has its answer.
fn answers(bench: &Small, ranges: &[Range]) -> bool {
    let mut holds = true;
    for &(address, from, to, due) in ranges {
        let told = is_unreached(bench, u32::from(address), from, to);
        holds = holds && told == due;
    }
    holds
}

/// Whether each has, once so many steps are recorded.
fn tells(bench: &mut Small, steps: u32, ranges: &[Range]) -> Result<bool, Refused<BenchFault>> {
    bench.regs_at(steps)?;
    Ok(answers(bench, ranges))
}

/// Whether each has, once a walk has recorded the interval of steps 8 to 11 and the one behind it.
fn tells_walked(alloc: Global, bench: &mut Small, ranges: &[Range]) -> Result<bool, AllocError> {
    let mut watch = Watch::new(alloc);
    let mut walk = Walk::begin(bench, 11, &mut watch)?;
    walk.go_on(bench, &mut watch)?;
    walk.go_on(bench, &mut watch)?;
    walk.go_on(bench, &mut watch)?;
    walk.go_on(bench, &mut watch)?;
    walk.go_on(bench, &mut watch)?;
    Ok(bench.recorded() == 16 && answers(bench, ranges))
}

/// Puts `nop` in the place of a line.
fn empty(alloc: Global, bench: &mut Small, line: u32) -> Result<(), Fail> {
    let mut lines = Vec::new(alloc);
    lines.push(b"nop".to_vec(alloc)?)?;
    bench.replace_lines(line, line, &lines)?;
    Ok(())
}

/// Whether the ranges of `TURNS` have their answers, and have them still once a poke that no step reads has left all steps
/// recorded.
fn tells_pokes(bench: &mut Small) -> Result<bool, Refused<BenchFault>> {
    let turned = tells(bench, 16, &TURNED)?;
    bench.set_poke_byte(13, 0x301, 7)?;
    let kept = (bench.recorded(), bench.worked()) == (16, 16);
    Ok(turned && kept && answers(bench, &TURNED) && answers(bench, &POKED))
}

/// Whether an edit of the instruction that step 7 carries out cuts the ranges, and they have the answers of another run
/// once it is recorded.
fn tells_cuts(alloc: Global, bench: &mut Small) -> Result<bool, Fail> {
    let turned = tells(bench, 16, &TURNED)?;
    empty(alloc, bench, 8)?;
    let cut = bench.recorded() == 4 && answers(bench, &CUT);
    let never = tells(bench, 16, &NEVER_TURNED)?;
    Ok(turned && cut && never)
}

#[test]
fn fetches_and_stores_touch_their_words(rt: HostRuntime) -> Result<(), Fail> {
    let mut bench = workbench(rt.alloc(), STORES)?;
    assert!(rt; tells(&mut bench, 8, &PLAIN)?);
    Ok(())
}

#[test]
fn nothing_is_said_of_translated_intervals(rt: HostRuntime) -> Result<(), Fail> {
    let mut bench = workbench(rt.alloc(), TRANSLATES)?;
    assert!(rt; tells(&mut bench, 8, &TRANSLATED)?);
    Ok(())
}

#[test]
fn pokes_leave_flags(rt: HostRuntime) -> Result<(), Fail> {
    let mut bench = workbench(rt.alloc(), TURNS)?;
    assert!(rt; tells_pokes(&mut bench)?);
    Ok(())
}

#[test]
fn flags_are_those_of_the_run(rt: HostRuntime) -> Result<(), Fail> {
    let mut bench = workbench(rt.alloc(), TURNS)?;
    assert!(rt; tells_cuts(rt.alloc(), &mut bench)?);
    Ok(())
}

#[test]
fn walks_flag_their_intervals(rt: HostRuntime) -> Result<(), Fail> {
    let mut bench = workbench(rt.alloc(), TURNS)?;
    assert!(rt; tells_walked(rt.alloc(), &mut bench, &TURNED)?);
    Ok(())
}
