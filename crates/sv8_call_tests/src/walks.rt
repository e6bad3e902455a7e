//! A walk through the steps of a workbench's run.

ghost use Rattle.std.specs.Prelude.{◌<◌};

use std::alloc::{AllocError, Global};
use std::test::Fail;
use sv8_bench::Bench;
use sv8_touches::Watch;
use sv8_walks::{Walk, walk_in_lockstep};

/// A machine with one page of RAM, and a checkpoint every 256 steps.
type Small = Bench<8, 1, 256>;

/// A loop of two steps that counts in %g1, the second of them at address 4.
const COUNT: &[&[u8]] = &[b"again: ba again", b"inc %g1"];

/// How many steps are recorded, and how many were made.
fn steps(bench: &Small) -> (u32, u64) {
    (bench.recorded(), bench.worked())
}

/// A workbench over some lines.
fn with_lines(alloc: Global, texts: &[&[u8]]) -> Result<Small, Fail> {
    let mut lines = Vec::new(alloc);
    for text in texts {
        lines.push(text.to_vec(alloc)?)?;
    }
    let mut bench = Small::new(alloc)?;
    bench.replace_lines(1, 0, &lines)?;
    Ok(bench)
}

/// Whether a walk leads from step 511 over the next checkpoint, counts each step once and records them there, and a second
/// one from step 255 records none again.
fn leads_on(alloc: Global, bench: &mut Small) -> Result<bool, AllocError> {
    let mut watch = Watch::new(alloc);
    let mut walk = Walk::begin(bench, 511, &mut watch)?;
    let begun = steps(bench) == (256, 511) && walk.machine().registers().get(1) == 255;
    walk.go_on(bench, &mut watch)?;
    let recorded = steps(bench) == (512, 512) && walk.machine().registers().get(1) == 256;
    let seen = watch.touches().len() == 1 && watch.observations().len() == 1;
    walk.pass::<256, 0>(bench, &mut watch)?;
    let behind = steps(bench) == (512, 513) && walk.step() == 513 && walk.machine().pc() == 4;
    let mut again = Walk::begin(bench, 255, &mut watch)?;
    again.go_on(bench, &mut watch)?;
    let kept = steps(bench) == (512, 769) && again.machine().registers().get(1) == 128;
    Ok(begun && recorded && seen && behind && kept)
}

#[test]
fn a_walk_is_recorded_as_it_goes(rt: HostRuntime) -> Result<(), Fail> {
    let mut bench = with_lines(rt.alloc(), COUNT)?;
    assert!(rt; leads_on(rt.alloc(), &mut bench)?);
    Ok(())
}

/// Where a walk over each of two workbenches comes to, which go on together from a step as long as they can, below step 600.
fn together(
    alloc: Global,
    bench: &mut Small,
    other: &mut Small,
    from: u32,
) -> Result<u32, AllocError>
    requires { from < 600 }
{
    let mut watch = Watch::new(alloc);
    let mut walk = Walk::begin(bench, from, &mut watch)?;
    let mut other_walk = Walk::begin(other, from, &mut watch)?;
    if !other_walk.machine().has_same_processor(walk.machine()) {
        return Ok(600);
    }
    walk_in_lockstep(bench, other, &mut walk, &mut other_walk, 600)?;
    if !other_walk.machine().has_same_processor(walk.machine()) {
        return Ok(600);
    }
    Ok(other_walk.step())
}

/// The same from step 0 on, of a workbench over some lines and of another one over others, of which 512 steps are recorded; and
/// how many steps were made for the second one.
fn come_to(alloc: Global, own: &[&[u8]], others: &[&[u8]]) -> Result<(u32, u64), Fail> {
    let mut bench = with_lines(alloc, own)?;
    let mut other = with_lines(alloc, others)?;
    let mut watch = Watch::new(alloc);
    let _ = Walk::begin(&mut bench, 512, &mut watch)?;
    let _ = Walk::begin(&mut other, 512, &mut watch)?;
    let step = together(alloc, &mut bench, &mut other, 0)?;
    Ok((step, other.worked()))
}

/// Walks go on together up to the end of the record.
#[test]
fn walks_go_on_together(rt: HostRuntime) -> Result<(), Fail> {
    assert!(rt; come_to(rt.alloc(), COUNT, COUNT)? == (512, 1_024));
    Ok(())
}

/// They stop in front of a load of another word, but not where it goes to %g0, nor where a byte is loaded that is the same.
#[test]
fn walks_part_in_front_of_another_loaded_word(rt: HostRuntime) -> Result<(), Fail> {
    let alloc = rt.alloc();
    let five: &[&[u8]] = &[b"again: ba again", b"ld [%g0+8], %g1", b".word 5"];
    let six: &[&[u8]] = &[b"again: ba again", b"ld [%g0+8], %g1", b".word 6"];
    assert!(rt; come_to(alloc, five, six)? == (1, 513));
    assert!(rt; come_to(alloc, five, five)? == (512, 1_024));
    let five: &[&[u8]] = &[b"again: ba again", b"ld [%g0+8], %g0", b".word 5"];
    let six: &[&[u8]] = &[b"again: ba again", b"ld [%g0+8], %g0", b".word 6"];
    assert!(rt; come_to(alloc, five, six)? == (512, 1_024));
    let five: &[&[u8]] = &[b"again: ba again", b"ldub [%g0+8], %g1", b".word 5"];
    let six: &[&[u8]] = &[b"again: ba again", b"ldub [%g0+8], %g1", b".word 6"];
    assert!(rt; come_to(alloc, five, six)? == (512, 1_024));
    Ok(())
}

/// Lines that enable traps, and then trap and come back again and again.
const TRAPPING: &[&[u8]] = &[
    b"mov 0xe0, %psr",
    b"nop",
    b"nop",
    b"nop",
    b"again: ta 1",
    b"ba again",
    b"nop",
    b".org 0x810",
    b"jmp %l2",
    b"rett %l2+4",
];

/// They go on through a store, which goes to both memories, an instruction that is not frequent, an annulled slot, a trap, and
/// error mode.
#[test]
fn walks_go_on_through_rare_steps(rt: HostRuntime) -> Result<(), Fail> {
    let alloc = rt.alloc();
    let storing: &[&[u8]] = &[b"again: st %g1, [%g0+64]", b"ba again", b"inc %g1"];
    assert!(rt; come_to(alloc, storing, storing)? == (512, 1_024));
    let rare: &[&[u8]] = &[b"again: ba again", b"wr %g0, 0, %y"];
    assert!(rt; come_to(alloc, rare, rare)? == (512, 1_024));
    let annulled: &[&[u8]] = &[b"again: ba,a again", b"nop"];
    assert!(rt; come_to(alloc, annulled, annulled)? == (512, 1_024));
    assert!(rt; come_to(alloc, TRAPPING, TRAPPING)? == (512, 1_024));
    let ending: &[&[u8]] = &[b"again: ba again", b"ta 1"];
    assert!(rt; come_to(alloc, ending, ending)? == (512, 1_024));
    Ok(())
}

/// They go on through a load that counts the bytes that wait at the console, and a store that puts a byte out.
#[test]
fn walks_go_on_at_the_console(rt: HostRuntime) -> Result<(), Fail> {
    let alloc = rt.alloc();
    let polling: &[&[u8]] = &[
        b"sethi 0x200000, %g1",
        b"again: ld [%g1+4], %g2",
        b"ba again",
        b"st %g2, [%g1+8]",
    ];
    assert!(rt; come_to(alloc, polling, polling)? == (512, 1_024));
    Ok(())
}

/// They stop in front of another instruction, and of a load that takes a byte from the console.
#[test]
fn walks_part_in_front_of_other_steps(rt: HostRuntime) -> Result<(), Fail> {
    let alloc = rt.alloc();
    let other: &[&[u8]] = &[b"again: ba again", b"inc %g2"];
    assert!(rt; come_to(alloc, COUNT, other)? == (1, 513));
    let taking: &[&[u8]] = &[b"sethi 0x200000, %g1", b"again: ba again", b"ld [%g1], %g2"];
    assert!(rt; come_to(alloc, taking, taking)? == (2, 514));
    Ok(())
}

/// They stop in front of a load that counts the bytes that wait where one waits in one of them. It came in at step 99.
#[test]
fn walks_part_in_front_of_another_count(rt: HostRuntime) -> Result<(), Fail> {
    let alloc = rt.alloc();
    let polling: &[&[u8]] = &[
        b"sethi 0x200000, %g1",
        b"again: ba again",
        b"ld [%g1+4], %g2",
    ];
    let mut bench = with_lines(alloc, polling)?;
    let mut other = with_lines(alloc, polling)?;
    other.set_input(99, b"x")?;
    let mut watch = Watch::new(alloc);
    let _ = Walk::begin(&mut bench, 512, &mut watch)?;
    let _ = Walk::begin(&mut other, 512, &mut watch)?;
    assert!(rt; together(alloc, &mut bench, &mut other, 100)? == 100);
    Ok(())
}

/// They stop in front of a step at which something stands in the timeline of one of them.
#[test]
fn walks_part_in_front_of_an_event(rt: HostRuntime) -> Result<(), Fail> {
    let alloc = rt.alloc();
    let mut bench = with_lines(alloc, COUNT)?;
    let mut other = with_lines(alloc, COUNT)?;
    let mut watch = Watch::new(alloc);
    let _ = Walk::begin(&mut bench, 512, &mut watch)?;
    let _ = Walk::begin(&mut other, 512, &mut watch)?;
    other.set_poke(100, 0x100, 7)?;
    assert!(rt; together(alloc, &mut bench, &mut other, 0)? == 100);
    Ok(())
}

/// Lines that map all addresses to themselves by a page of 16 MiB, turn translation on, and load again and again. A store would
/// go to the page that has the tables, and what is known of them would be forgotten.
const MAPPED: &[&[u8]] = &[
    b"mov 0x100, %g1",
    b"mov 0x80, %g3",
    b"sta %g3, [%g1]4",
    b"mov 1, %g2",
    b"sta %g2, [%g0]4",
    b"loop: ld [%g0+0x400], %g4",
    b"ba loop",
    b"inc %g5",
    b".org 0x800",
    b".word 0xc1",
    b".org 0xc00",
    b".word 0x1e",
];

/// Where addresses are translated, walks go on together once the pages are known and no mark is to be set.
#[test]
fn translated_walks_go_on_together(rt: HostRuntime) -> Result<(), Fail> {
    let alloc = rt.alloc();
    let mut bench = with_lines(alloc, MAPPED)?;
    let mut other = with_lines(alloc, MAPPED)?;
    let mut watch = Watch::new(alloc);
    let _ = Walk::begin(&mut bench, 512, &mut watch)?;
    let _ = Walk::begin(&mut other, 512, &mut watch)?;
    assert!(rt; together(alloc, &mut bench, &mut other, 0)? == 2);
    assert!(rt; together(alloc, &mut bench, &mut other, 20)? == 512);
    Ok(())
}
