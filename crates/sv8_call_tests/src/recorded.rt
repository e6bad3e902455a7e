//! The recorded run seen from outside: edits of its past make no step.

use std::alloc::{AllocError, Global};
use std::test::Fail;
use sv8_bench::{Bench, BenchFault};
use sv8_model::Refused;

/// A machine with one page of RAM.
type Small = Bench<8, 1, 256>;

/// A loop that reads no word but its first.
const LOOP: &[&[u8]] = &[b"loop: ba,a loop", b".word 0"];

/// How many words are poked, each at a step of its own.
const POKES: u32 = 300;

/// Where the first of them stands; the others follow.
const FIRST_WORD: u32 = 0x100;

/// The step of the poke of a word, by the word's number.
fn step_of(index: u32) -> u32 {
    index.saturating_mul(2).saturating_add(1)
}

/// The address of a word by its number.
fn address_of(index: u32) -> u32 {
    index.saturating_mul(4).saturating_add(FIRST_WORD)
}

/// What the poke of a word puts there, by the word's number.
fn value_of(index: u32) -> u32 {
    index.saturating_add(0xAB00_0000)
}

/// A workbench over `LOOP`.
fn looped(alloc: Global) -> Result<Small, Fail> {
    let mut lines = Vec::new(alloc);
    for text in LOOP {
        lines.push(text.to_vec(alloc)?)?;
    }
    let mut bench = Small::new(alloc)?;
    bench.replace_lines(1, 0, &lines)?;
    Ok(bench)
}

/// Whether requests behind the last recorded step come and go with the whole run kept, and no step is made for them.
fn keeps_a_million_steps(bench: &mut Small) -> Result<bool, Refused<BenchFault>> {
    bench.regs_at(1_000_000)?;
    for _ in 0..10_000 {
        bench.set_request(1_000_000, 5)?;
        bench.clear_request(1_000_000, 5)?;
    }
    Ok((bench.recorded(), bench.worked()) == (999_936, 1_000_000))
}

#[test]
fn edits_of_the_last_step_keep_a_million(rt: HostRuntime) -> Result<(), Fail> {
    let mut bench = looped(rt.alloc())?;
    assert!(rt; keeps_a_million_steps(&mut bench)?);
    Ok(())
}

/// Pokes each word.
fn poke_all(bench: &mut Small) -> Result<(), Refused<BenchFault>> {
    for index in 0..POKES {
        bench.set_poke(step_of(index), address_of(index), value_of(index))?;
    }
    Ok(())
}

/// Clears the poke of each word.
fn clear_all(bench: &mut Small) -> Result<(), Refused<BenchFault>> {
    for index in 0..POKES {
        bench.clear_poke(step_of(index), address_of(index))?;
    }
    Ok(())
}

/// What the words are at a step, while they are poked or once they no longer are.
fn words_due(alloc: Global, step: u32, poked: bool) -> Result<Vec<u32>, AllocError> {
    let mut words = Vec::new(alloc);
    for index in 0..POKES {
        let shown = poked && step_of(index) < step;
        words.push(if shown { value_of(index) } else { 0 })?;
    }
    Ok(words)
}

/// Whether the words are shown as they are due, at steps about the first checkpoints and the last pokes.
fn shows_all(alloc: Global, bench: &mut Small, poked: bool) -> Result<bool, Refused<BenchFault>> {
    let mut holds = true;
    for step in [0, 1, 2, 3, 255, 256, 257, 300, 511, 512, 513, 599, 600] {
        let due = words_due(alloc, step, poked)?;
        let shown = bench.words_at(step, FIRST_WORD, POKES)?;
        holds = holds && shown.as_slice() == due.as_slice();
    }
    Ok(holds)
}

/// Whether pokes of one page come and go, shown at each step as is due, with the recorded run kept and no step made for them.
fn follows_pokes(alloc: Global, bench: &mut Small) -> Result<bool, Refused<BenchFault>> {
    bench.regs_at(600)?;
    poke_all(bench)?;
    let after_pokes = (bench.recorded(), bench.worked());
    let shown = shows_all(alloc, bench, true)?;
    let before = bench.worked();
    clear_all(bench)?;
    let after_clears = (bench.recorded(), bench.worked());
    let uncovered = shows_all(alloc, bench, false)?;
    Ok(after_pokes == (512, 600) && after_clears == (512, before) && shown && uncovered)
}

#[test]
fn pokes_of_one_page_come_and_go(rt: HostRuntime) -> Result<(), Fail> {
    let mut bench = looped(rt.alloc())?;
    assert!(rt; follows_pokes(rt.alloc(), &mut bench)?);
    Ok(())
}
