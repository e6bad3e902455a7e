//! Ranges of recorded steps that leave bytes of RAM alone, worked out by hand.

use std::alloc::Global;
use std::test::Fail;
use sv8_bench::{Bench, BenchFault};
use sv8_model::Refused;
use sv8_phys::TouchKind;
use sv8_search::is_untouched;

/// A machine with one page of RAM, and a checkpoint every four steps.
pub(crate) type Small = Bench<8, 1, 4>;

/// A program that stores a word at 100 (hexadecimal) in step 3, and then stays in a loop.
pub(crate) const STORES: &[&[u8]] = &[
    b"sethi 0x200000, %g1",
    b"mov 0x48, %g2",
    b"st %g2, [%g1+8]",
    b"st %g2, [0x100]",
    b"end: ba end",
    b"nop",
];

/// A program that turns translation on in step 4, with one entry for all addresses, at 400 (hexadecimal).
pub(crate) const TRANSLATES: &[&[u8]] = &[
    b"mov 0x40, %g1",
    b"mov 0x100, %g2",
    b"sta %g1, [%g2]4",
    b"mov 1, %g3",
    b"sta %g3, [%g0]4",
    b"end: ba end",
    b"nop",
    b".org 0x400",
    b".word 0xe",
];

/// So many bytes from an address on, a range of steps, and whether the steps leave the bytes alone.
type Range = (u16, u16, u32, u32, bool);

/// Ranges of the first eight steps of `STORES`, which are recorded.
const RANGES: [Range; 17] = [
    (0x100, 4, 0, 3, true),
    (0x100, 4, 0, 4, false),
    (0x100, 4, 4, 8, true),
    (0x103, 1, 3, 4, false),
    (0x104, 4, 0, 8, true),
    (0xfc, 4, 0, 8, true),
    (0xfc, 5, 0, 8, false),
    (0, 4, 0, 1, false),
    (0, 4, 1, 8, true),
    (0x10, 4, 0, 4, true),
    (0x10, 4, 4, 5, false),
    (0x14, 1, 5, 6, false),
    (0x100, 4, 0, 9, false),
    (0x104, 4, 0, 9, false),
    (0x100, 0, 0, 8, true),
    (0x100, 4, 3, 3, true),
    (0x104, 0xefc, 0, 8, true),
];

/// The same once the byte at 201 is poked in step 6.
const POKED: [Range; 6] = [
    (0x200, 4, 0, 8, false),
    (0x200, 1, 0, 8, true),
    (0x201, 1, 0, 6, true),
    (0x201, 1, 6, 7, false),
    (0x201, 1, 7, 8, true),
    (0x202, 2, 0, 8, true),
];

/// Ranges of `STORES` by their data: what is fetched is none.
const STORED: [Range; 8] = [
    (0, 4, 0, 8, true),
    (0x10, 4, 0, 8, true),
    (0x100, 4, 0, 3, true),
    (0x100, 4, 3, 4, false),
    (0x103, 1, 3, 4, false),
    (0x100, 4, 4, 8, true),
    (0xfc, 4, 0, 8, true),
    (0xfc, 5, 0, 8, false),
];

/// A program that stores over an instruction while it is carried out, and loads a byte of the next one in it.
const OWN: &[&[u8]] = &[b"st %g2, [0]", b"ldub [5], %g3", b"end: ba end", b"nop"];

/// Ranges of `OWN` by their data.
const OWN_WORDS: [Range; 7] = [
    (0, 4, 0, 1, false),
    (0, 4, 1, 8, true),
    (4, 4, 0, 1, true),
    (4, 1, 1, 2, false),
    (5, 1, 1, 2, false),
    (4, 4, 2, 8, true),
    (8, 8, 0, 8, true),
];

/// Ranges of `TRANSLATES`: from step 5 on each fetch reads the entry.
const WALKED: [Range; 5] = [
    (0x400, 4, 0, 5, true),
    (0x400, 4, 5, 6, false),
    (0x402, 1, 6, 7, false),
    (0x404, 4, 0, 8, true),
    (0x3fc, 4, 0, 8, true),
];

/// A workbench over a source of these lines.
pub(crate) fn workbench(alloc: Global, texts: &[&[u8]]) -> Result<Small, Fail> {
    let mut lines = Vec::new(alloc);
    for text in texts {
        lines.push(text.to_vec(alloc)?)?;
    }
    let mut bench = Small::new(alloc)?;
    bench.replace_lines(1, 0, &lines)?;
    Ok(bench)
}

/// Whether each of these ranges has its answer, by the touches that count.
fn answers(bench: &Small, kind: TouchKind, ranges: &[Range]) -> bool {
    let mut holds = true;
    for &(address, count, from, to, due) in ranges {
        let told = is_untouched(bench, kind, u32::from(address), u32::from(count), from, to);
        holds = holds && told == due;
    }
    holds
}

/// Whether each has, once eight steps are recorded.
fn tells(
    bench: &mut Small,
    kind: TouchKind,
    ranges: &[Range],
) -> Result<bool, Refused<BenchFault>> {
    bench.regs_at(8)?;
    Ok(answers(bench, kind, ranges))
}

/// Whether the ranges of `STORES` have their answers, and those with a poke once it is set, for which no step is made.
fn tells_pokes(bench: &mut Small) -> Result<bool, Refused<BenchFault>> {
    let stores = tells(bench, TouchKind::Any, &RANGES)?;
    bench.set_poke_byte(6, 0x201, 7)?;
    let poked = answers(bench, TouchKind::Any, &POKED) && answers(bench, TouchKind::Data, &POKED);
    Ok(stores && poked && (bench.recorded(), bench.worked()) == (8, 8))
}

#[test]
fn stores_and_pokes_touch_their_words(rt: HostRuntime) -> Result<(), Fail> {
    let mut bench = workbench(rt.alloc(), STORES)?;
    assert!(rt; tells_pokes(&mut bench)?);
    Ok(())
}

#[test]
fn walks_touch_the_tables(rt: HostRuntime) -> Result<(), Fail> {
    let mut bench = workbench(rt.alloc(), TRANSLATES)?;
    assert!(rt; tells(&mut bench, TouchKind::Any, &WALKED)?);
    Ok(())
}

#[test]
fn what_is_fetched_is_no_data(rt: HostRuntime) -> Result<(), Fail> {
    let mut bench = workbench(rt.alloc(), STORES)?;
    assert!(rt; tells(&mut bench, TouchKind::Data, &STORED)?);
    Ok(())
}

#[test]
fn an_access_to_the_own_word_is_to_data(rt: HostRuntime) -> Result<(), Fail> {
    let mut bench = workbench(rt.alloc(), OWN)?;
    assert!(rt; tells(&mut bench, TouchKind::Data, &OWN_WORDS)?);
    Ok(())
}
