//! Copies a machine, changes a page of the copy and reads what it has put out: each call that is refused memory leaves the machine as it was,
//! and each other one does what it should.

ghost use Rattle.std.specs.Prelude.{◌≡◌};

use std::alloc::{AllocError, Global};
use sv8_cpu::{Machine, Work};
use sv8_reset::reset;
use sv8_source::Source;
use sv8_time::Timeline;
use sv8_touches::Watch;

type Small = Machine<8, 2>;

/// A program that puts a byte out at step 2 and stores it at step 3.
const LINES: &[&[u8]] = &[
    b"sethi 0x200000, %g1",
    b"mov 0x48, %g2",
    b"st %g2, [%g1+8]",
    b"st %g2, [0x100]",
    b"end: ba end",
    b"nop",
];

/// Whether a machine is as `LINES` leaves it after four steps, but for the word at 0x104, which is this.
fn is_as(alloc: Global, machine: &Small, word: u32) -> bool {
    let output = match machine.output(alloc) {
        Ok(bytes) => bytes.as_slice() == b"H".as_slice(),
        Err(_) => true,
    };
    output
        && machine.is_running()
        && machine.pc() == 0x10
        && machine.registers().get(2) == 0x48
        && machine.word(0x100) == 0x48
        && machine.word(0x104) == word
        && machine.word(0x1100) == 0
}

/// Puts a word into a page of a machine.
fn change(machine: &mut Small, word: u32) -> Result<(), AllocError> {
    let mut page = machine.page(0x104)?.share()?;
    page.set_word(0x104, word)?;
    machine.put_page(0x104, page)?;
    Ok(())
}

/// Copies a machine, changes the copy, and tells whether both are as they should be.
fn diverges(alloc: Global, machine: &Small) -> bool {
    let Ok(mut copy) = machine.snapshot(alloc) else {
        return is_as(alloc, machine, 0);
    };
    let same = is_as(alloc, &copy, 0);
    let word = match change(&mut copy, 7) {
        Ok(()) => 7,
        Err(_) => 0,
    };
    same && is_as(alloc, &copy, word) && is_as(alloc, machine, 0)
}

fn source(alloc: Global) -> Result<Option<Source>, AllocError> {
    let mut lines = Vec::new(alloc);
    for text in LINES {
        lines.push(text.to_vec(alloc)?)?;
    }
    let mut source = Source::new(alloc, 8_192);
    match source.replace(alloc, 1, 0, &lines) {
        Ok(_) => Ok(Some(source)),
        Err(_) => Ok(None),
    }
}

/// A step of a machine that has taken no more than has come in.
fn advance(machine: Small, n: u32, timeline: &Timeline) -> Result<Small, AllocError>
    requires { timeline.now.limit ≡ 8192 }
{
    if timeline.delivered(n) < machine.taken() {
        return Err(AllocError);
    }
    machine.step(n, timeline, &mut Work::new())
}

/// The same, watched.
fn watch(alloc: Global, machine: Small, n: u32, timeline: &Timeline) -> Result<Small, AllocError>
    requires { timeline.now.limit ≡ 8192 }
{
    if timeline.delivered(n) < machine.taken() {
        return Err(AllocError);
    }
    let mut machine = machine;
    machine.watch(n, timeline, &mut Watch::new(alloc))?;
    Ok(machine)
}

/// The same, with no notes.
fn pass(machine: Small, n: u32, timeline: &Timeline) -> Result<Small, AllocError>
    requires { timeline.now.limit ≡ 8192 }
{
    if timeline.delivered(n) < machine.taken() {
        return Err(AllocError);
    }
    let mut machine = machine;
    machine.pass(n, timeline)?;
    Ok(machine)
}

fn run(alloc: Global, source: &Source) -> Result<Small, AllocError> {
    let timeline = Timeline::new(alloc, 8_192);
    let first = advance(reset(alloc, source)?, 0, &timeline)?;
    let second = advance(first, 1, &timeline)?;
    let third = pass(second, 2, &timeline)?;
    watch(alloc, third, 3, &timeline)
}

pub fn keeps(alloc: Global) -> Result<bool, AllocError> {
    let Some(source) = source(alloc)? else {
        return Err(AllocError);
    };
    let machine = run(alloc, &source)?;
    Ok(diverges(alloc, &machine) && diverges(alloc, &machine))
}
