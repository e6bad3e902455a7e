//! Whether two machines have the same processor: what each instruction alone makes different.

use std::alloc::{AllocError, Global};
use std::test::*;
use sv8_cpu::{Machine, Work};
use sv8_reset::reset;
use sv8_source::Source;
use sv8_time::Timeline;

type Small = Machine<8, 1>;

/// Registers for the instruction that follows, and NF is set, so that faults raise no trap.
const FRONT: [&[u8]; 7] = [
    b"sethi 0x4, %g1",
    b"mov 0x100, %g2",
    b"mov 0x200, %g3",
    b"mov 1, %g4",
    b"sethi 0x200000, %g5",
    b"mov 2, %g6",
    b"sta %g6, [%g0]4",
];

/// What changes nothing of the processor but PC and nPC: RAM, the console's output, and the timer.
const SAME: [&[u8]; 5] = [
    b"nop",
    b"st %g4, [%g0+0x100]",
    b"st %g4, [%g5+8]",
    b"st %g4, [%g5+0x14]",
    b"st %g4, [%g5+0x10]",
];

/// What changes one part of it: registers, each control register, a field of the PSR, CWP, nPC, the annul flag, error mode, and the registers of the
/// memory management unit; the last is a load from where nothing is, whose fault is recorded.
const OTHER: [&[u8]; 21] = [
    b"mov 1, %g7",
    b"mov 1, %o0",
    b"mov 1, %l0",
    b"mov 1, %l7",
    b"mov 1, %i7",
    b"mov 2, %g4",
    b"wr %g0, 1, %y",
    b"wr %g0, 1, %wim",
    b"wr %g0, 0x80, %wim",
    b"wr %g1, 0, %tbr",
    b"subcc %g0, 0, %g0",
    b"wr %g0, 0xc0, %psr",
    b"wr %g0, 0x180, %psr",
    b"save %g0, 0, %g0",
    b"ba 0x40",
    b"ba,a 0x40",
    b"ta 1",
    b"sta %g4, [%g0]4",
    b"sta %g2, [%g2]4",
    b"sta %g4, [%g3]4",
    b"ld [%g1], %g0",
];

/// A machine after the instructions in front and these, so many in all.
fn after(alloc: Global, last: &[&[u8]], steps: u32) -> Result<Small, Fail> {
    let mut lines = Vec::new(alloc);
    for text in FRONT {
        lines.push(text.to_vec(alloc)?)?;
    }
    for text in last {
        lines.push(text.to_vec(alloc)?)?;
    }
    let mut source = Source::new(alloc, 4_096);
    let _ = source.replace(alloc, 1, 0, &lines);
    let machine: Small = reset(alloc, &source)?;
    let ran = run(alloc, machine, steps)?;
    Ok(ran)
}

/// A machine after so many steps.
fn run(alloc: Global, machine: Small, steps: u32) -> Result<Small, AllocError> {
    let timeline = Timeline::new(alloc, 4_096);
    let mut machine = machine;
    for n in 0..steps {
        if timeline.delivered(n) < machine.taken() {
            return Err(AllocError);
        }
        machine = machine.step(n, &timeline, &mut Work::new())?;
    }
    Ok(machine)
}

/// Whether the last of the instructions leaves the same processor as `nop` does, asked either way round.
fn is_same(alloc: Global, plain: &Small, last: &[u8]) -> Result<bool, Fail> {
    let other = after(alloc, &[last], 8)?;
    Ok(
        plain.has_same_processor(&other)
            && other.has_same_processor(plain)
            && plain.has_same_processor_in_window(&other),
    )
}

/// Whether it leaves another one, asked either way round.
fn is_other(alloc: Global, plain: &Small, last: &[u8]) -> Result<bool, Fail> {
    let other = after(alloc, &[last], 8)?;
    Ok(
        !plain.has_same_processor(&other)
            && !other.has_same_processor(plain)
            && !plain.has_same_processor_in_window(&other),
    )
}

/// How many of some instructions leave the same processor as `nop` does, and how many leave another one.
fn count(alloc: Global, plain: &Small, instructions: &[&[u8]]) -> Result<(u32, u32), Fail> {
    let mut same = 0u32;
    let mut others = 0u32;
    for last in instructions {
        if is_same(alloc, plain, last)? {
            same = same.saturating_add(1);
        }
        if is_other(alloc, plain, last)? {
            others = others.saturating_add(1);
        }
    }
    Ok((same, others))
}

/// A local register of another window makes another processor, which is the same in the current window.
fn outside_the_window(alloc: Global) -> Result<bool, Fail> {
    let plain = after(alloc, &[b"nop", b"nop", b"nop"], 10)?;
    let other = after(
        alloc,
        &[b"save %g0, 0, %g0", b"mov 1, %l0", b"restore %g0, 0, %g0"],
        10,
    )?;
    Ok(!plain.has_same_processor(&other) && plain.has_same_processor_in_window(&other))
}

/// Machines in error mode are compared by the same parts.
fn error_modes(alloc: Global) -> Result<bool, Fail> {
    let first = after(alloc, &[b"nop", b"ta 1"], 9)?;
    let second = after(alloc, &[b"nop", b"ta 1"], 10)?;
    let other = after(alloc, &[b"mov 1, %l0", b"ta 1"], 9)?;
    Ok(
        !first.is_running()
            && !other.is_running()
            && first.has_same_processor(&second)
            && !first.has_same_processor(&other),
    )
}

#[test]
fn processors_are_compared(rt: HostRuntime) -> Result<(), Fail> {
    let alloc = rt.alloc();
    let plain = after(alloc, &[b"nop"], 8)?;
    assert!(rt; plain.is_running());
    assert!(rt; count(alloc, &plain, &SAME)? == (5, 0));
    assert!(rt; count(alloc, &plain, &OTHER)? == (0, 21));
    assert!(rt; outside_the_window(alloc)?);
    assert!(rt; error_modes(alloc)?);
    Ok(())
}
