//! A workbench or a machine and its copy: each goes on as if the other were not there.

use std::alloc::{AllocError, Global};
use std::test::Fail;
use sv8_bench::{Bench, BenchFault};
use sv8_cpu::Machine;
use sv8_model::{Level, Refused};
use sv8_phys::Page;
use sv8_reset::reset;
use sv8_source::Source;

/// A machine with one page of RAM, and a checkpoint every 256 steps.
type Small = Bench<8, 1, 256>;

/// A loop of two steps that counts in %g1, and reads no word but its own two.
const COUNT: &[&[u8]] = &[b"again: ba again", b"inc %g1"];

/// The address of a word that the loop does not read.
const WORD: u32 = 0x200;

/// The count that a workbench shows at a step.
fn count_at(bench: &mut Small, step: u32) -> Result<u32, Refused<BenchFault>> {
    let shown = bench.regs_at(step)?;
    Ok(shown.registers[1])
}

/// The word and the pending levels that a workbench shows at a step.
fn events_at(bench: &mut Small, step: u32) -> Result<(u32, u32), Refused<BenchFault>> {
    let shown = bench.regs_at(step)?;
    Ok((bench.word_at(step, WORD)?, shown.pending))
}

/// How many steps are recorded, and how many were made.
fn steps(bench: &Small) -> (u32, u64) {
    (bench.recorded(), bench.worked())
}

/// The lines of these texts.
fn lines_of(alloc: Global, texts: &[&[u8]]) -> Result<Vec<Vec<u8>>, Fail> {
    let mut lines = Vec::new(alloc);
    for text in texts {
        lines.push(text.to_vec(alloc)?)?;
    }
    Ok(lines)
}

/// A workbench over `COUNT`.
fn counting(alloc: Global) -> Result<Small, Fail> {
    let lines = lines_of(alloc, COUNT)?;
    let mut bench = Small::new(alloc)?;
    bench.replace_lines(1, 0, &lines)?;
    Ok(bench)
}

/// Records 512 of 600 steps, and then has a word poked at step 1 and level 2 requested at step 3.
fn record(bench: &mut Small) -> Result<(), Refused<BenchFault>> {
    bench.regs_at(600)?;
    bench.set_poke(1, WORD, 5)?;
    bench.set_request(3, 2)
}

/// Whether a copy shows what its workbench shows, and each counts its own steps.
fn answers_alike(bench: &mut Small, copy: &mut Small) -> Result<bool, Refused<BenchFault>> {
    let same = steps(bench) == (512, 600) && steps(copy) == (512, 600);
    let counted = count_at(copy, 600)? == 300 && count_at(bench, 512)? == 256;
    let apart = steps(copy) == (512, 688) && steps(bench) == (512, 600);
    let listed = copy.line_count() == 2;
    let early = events_at(copy, 1)? == (0, 0);
    let late = events_at(copy, 512)? == (5, 4) && events_at(bench, 512)? == (5, 4);
    Ok(same && counted && apart && listed && early && late)
}

/// Whether edits of a workbench leave its copy: the events are cleared, and the loop has another second line.
fn leaves_the_copy(
    bench: &mut Small,
    copy: &mut Small,
    line: &[Vec<u8>],
) -> Result<bool, Refused<BenchFault>> {
    bench.clear_poke(1, WORD)?;
    bench.clear_request(3, 2)?;
    let cleared = events_at(bench, 512)? == (0, 0) && events_at(copy, 512)? == (5, 4);
    bench.replace_lines(2, 2, line)?;
    let cut = (bench.recorded(), copy.recorded()) == (0, 512);
    let counted = count_at(bench, 600)? == 0u32.wrapping_sub(300) && count_at(copy, 600)? == 300;
    Ok(cleared && cut && counted)
}

/// Whether edits and queries of a copy leave its workbench.
fn leaves_the_workbench(bench: &mut Small, copy: &mut Small) -> Result<bool, Refused<BenchFault>> {
    let before = steps(bench);
    let counted = count_at(copy, 1_000)? == 500;
    copy.set_poke(300, WORD, 7)?;
    let recorded = copy.recorded() == 768;
    let poked = events_at(copy, 256)? == (5, 4)
        && events_at(copy, 512)? == (7, 4)
        && events_at(copy, 1_000)? == (7, 4);
    let left = steps(bench) == before && events_at(bench, 600)? == (0, 0);
    Ok(counted && recorded && poked && left)
}

/// Whether a workbench and its copy go their own ways.
fn is_kept(alloc: Global, bench: &mut Small) -> Result<bool, Fail> {
    record(bench)?;
    let line = lines_of(alloc, &[b"dec %g1"])?;
    let mut copy = bench.copy(alloc)?;
    let alike = answers_alike(bench, &mut copy)?;
    let first = leaves_the_copy(bench, &mut copy, &line)?;
    let second = leaves_the_workbench(bench, &mut copy)?;
    Ok(alike && first && second)
}

#[test]
fn a_copy_goes_its_own_way(rt: HostRuntime) -> Result<(), Fail> {
    let mut bench = counting(rt.alloc())?;
    assert!(rt; is_kept(rt.alloc(), &mut bench)?);
    Ok(())
}

/// Whether a machine shows a word that is put there with its page, and its copy does not.
fn is_apart(
    machine: &mut Machine<8, 1>,
    copy: &Machine<8, 1>,
    mut page: Page,
    alloc: Global,
) -> Result<bool, AllocError> {
    page.set_word(0x100, 7)?;
    machine.put_page(0, page)?;
    Ok(machine.word(0x100) == 7 && copy.word(0x100) == 0 && copy.output(alloc)?.is_empty())
}

/// Whether levels 3 and 15 become pending in a machine and not in its copy, and level 3 is then taken back.
fn has_own_levels(machine: &mut Machine<8, 1>, copy: &Machine<8, 1>) -> Option<bool> {
    let low = Level::new(3)?;
    let high = Level::new(15)?;
    machine.set_pending(low, true);
    machine.set_pending(high, true);
    let both = machine.pending();
    machine.set_pending(low, false);
    let stays = machine.is_pending(high) && !machine.is_pending(low) && !copy.is_pending(high);
    Some(stays && (both, machine.pending(), copy.pending()) == (0x8008, 0x8000, 0))
}

/// Whether a machine and its copy are kept apart.
fn is_copied(machine: &mut Machine<8, 1>, alloc: Global) -> Result<bool, AllocError> {
    let page = machine.page(0x100)?;
    let copy = machine.snapshot(alloc)?;
    Ok(is_apart(machine, &copy, page, alloc)? && has_own_levels(machine, &copy).unwrap_or(false))
}

/// A machine just reset, whose RAM is zeros.
fn blank(alloc: Global) -> Result<Machine<8, 1>, AllocError> {
    let source = Source::new(alloc, 4_096);
    reset(alloc, &source)
}

#[test]
fn a_copy_keeps_its_page_and_levels(rt: HostRuntime) -> Result<(), Fail> {
    let mut machine = blank(rt.alloc())?;
    assert!(rt; is_copied(&mut machine, rt.alloc())?);
    Ok(())
}
