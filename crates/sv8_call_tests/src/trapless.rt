//! Ranges of recorded steps that take no trap, and what is read of checkpoints, worked out by hand.

use crate::untouched::{Small, TRANSLATES, workbench};
use std::alloc::Global;
use std::test::Fail;
use sv8_bench::BenchFault;
use sv8_evidence::Sign;
use sv8_model::Refused;
use sv8_search::{checkpoint, flag_shown, shows_none};
use sv8_touches::Watch;
use sv8_walks::Walk;

/// A program that takes a trap in step 4, whose handler goes back in steps 5 and 6. Its first line is `wr %g0, 0xa0, %psr`,
/// which enables traps.
const TRAPS: &[&[u8]] = &[
    b"wr %g0, 0xa0, %psr",
    b"nop",
    b"nop",
    b"nop",
    b"ta 0",
    b"end: ba end",
    b"nop",
    b".org 0x800",
    b"jmp %l2",
    b"rett %l2+4",
];

/// The same with traps disabled: step 4 leads to error mode.
const STOPS: &[&[u8]] = &[b"nop", b"nop", b"nop", b"nop", b"ta 0"];

/// A program that puts a byte out in step 2 and takes one in step 5.
const SPEAKS: &[&[u8]] = &[
    b"sethi 0x200000, %g1",
    b"mov 0x48, %g2",
    b"st %g2, [%g1+8]",
    b"nop",
    b"nop",
    b"ld [%g1], %g3",
    b"end: ba end",
    b"nop",
];

/// A range of steps, and whether the record shows that none of them takes a trap.
type Range = (u32, u32, bool);

/// Ranges of the first twelve steps of `TRAPS`.
const TRAPPED: [Range; 10] = [
    (0, 4, true),
    (0, 5, false),
    (4, 5, false),
    (3, 9, false),
    (5, 8, true),
    (5, 12, true),
    (8, 12, true),
    (8, 13, false),
    (12, 12, true),
    (13, 13, false),
];

/// Ranges of the first twelve steps of `STOPS`: in error mode no step takes a trap.
const STOPPED: [Range; 5] = [
    (0, 4, true),
    (3, 5, false),
    (4, 8, false),
    (5, 8, true),
    (8, 12, true),
];

/// A type of trap (tt), a range of steps, and whether the record shows that none of them takes a trap of the type.
type TypedRange = (u8, u32, u32, bool);

/// Of `TRAPS`, whose trap is `ta 0`, type 0x80.
const TRAPPED_TYPES: [TypedRange; 8] = [
    (0x80, 0, 4, true),
    (0x80, 4, 5, false),
    (0x80, 5, 8, true),
    (0x80, 8, 12, true),
    (0x80, 8, 13, false),
    (0x81, 4, 8, true),
    (0x00, 0, 12, true),
    (0x05, 12, 13, false),
];

/// Of `STOPS`: the trap of the step that leads to error mode may be of any type.
const STOPPED_TYPES: [TypedRange; 4] = [
    (0x80, 0, 4, true),
    (0x80, 4, 8, false),
    (0x05, 4, 5, false),
    (0x80, 5, 12, true),
];

/// A sign, whether all flags of steps 4 to 7 are set at first, and which are set in the end.
type Flagged = (Sign, bool, [bool; 4]);

/// Of `TRAPS`.
const TRAPPED_FLAGS: [Flagged; 5] = [
    (Sign::Trap, false, [true, false, false, false]),
    (Sign::TrapType(0x80), false, [true, false, false, false]),
    (Sign::TrapType(0x81), false, [false, false, false, false]),
    (Sign::TrapType(0x81), true, [true, true, true, true]),
    (Sign::Translation, false, [false, false, false, false]),
];

/// Of `STOPS`.
const STOPPED_FLAGS: [Flagged; 2] = [
    (Sign::Trap, false, [true, false, false, false]),
    (Sign::TrapType(0x05), false, [true, false, false, false]),
];

/// Of `TRANSLATES`, which turns translation on in step 4.
const TRANSLATED_FLAGS: [Flagged; 2] = [
    (Sign::Translation, false, [true, true, true, true]),
    (Sign::Trap, false, [false, false, false, false]),
];

/// A step, and what is read of its checkpoint: whether the machine runs, how many bytes are taken, and how many put out.
type Read = (u32, Option<(bool, u32, usize)>);

/// Of `SPEAKS`, once eight steps are recorded.
const SPOKEN: [Read; 6] = [
    (0, Some((true, 0, 0))),
    (1, None),
    (4, Some((true, 0, 1))),
    (7, None),
    (8, Some((true, 1, 1))),
    (12, None),
];

/// Of `STOPS`, once twelve are.
const ENDED: [Read; 4] = [
    (4, Some((true, 0, 0))),
    (8, Some((false, 0, 0))),
    (12, Some((false, 0, 0))),
    (16, None),
];

/// Whether each of these ranges has its answer.
fn answers(bench: &Small, ranges: &[Range]) -> bool {
    let mut holds = true;
    for &(from, to, due) in ranges {
        holds = holds && shows_none(bench, Sign::Trap, from, to) == due;
    }
    holds
}

/// The same of these ranges with types.
fn answers_types(bench: &Small, ranges: &[TypedRange]) -> bool {
    let mut holds = true;
    for &(trap_type, from, to, due) in ranges {
        holds = holds && shows_none(bench, Sign::TrapType(trap_type), from, to) == due;
    }
    holds
}

/// Whether the flags of steps 4 to 7 are as they are due, once these steps are recorded.
fn flags(bench: &Small, flagged: &[Flagged]) -> bool {
    if bench.recorded() < 8 {
        return false;
    }
    let mut holds = true;
    for &(sign, first, due) in flagged {
        let mut flags = [first; 4];
        flag_shown(bench, sign, 4, &mut flags);
        holds = holds && flags == due;
    }
    holds
}

/// What is read of the checkpoint of a step.
fn read(bench: &Small, step: u32) -> Option<(bool, u32, usize)> {
    match checkpoint(bench, step) {
        Some(it) if it.output_end.piece == 0 => {
            Some((it.running, it.taken, it.output_end.place))
        }
        _ => None,
    }
}

/// Whether what is read of each checkpoint is right.
fn reads(bench: &Small, checkpoints: &[Read]) -> bool {
    let mut holds = true;
    for &(step, due) in checkpoints {
        holds = holds && read(bench, step) == due;
    }
    holds
}

/// Whether the ranges have their answers once so many steps are recorded.
fn tells(bench: &mut Small, steps: u32, ranges: &[Range]) -> Result<bool, Refused<BenchFault>> {
    bench.regs_at(steps)?;
    Ok(answers(bench, ranges))
}

/// Whether they have them still once a poke that no step reads has left all steps recorded, and those of a run without the
/// trap once an edit has taken it out.
fn tells_edits(alloc: Global, bench: &mut Small) -> Result<bool, Fail> {
    let trapped = tells(bench, 12, &TRAPPED)?;
    bench.set_poke_byte(9, 0x301, 7)?;
    let kept = bench.recorded() == 12 && answers(bench, &TRAPPED);
    let mut lines = Vec::new(alloc);
    lines.push(b"nop".to_vec(alloc)?)?;
    bench.replace_lines(5, 5, &lines)?;
    let cut = bench.recorded() == 4 && answers(bench, &[(0, 4, true), (0, 5, false)]);
    let never = tells(bench, 12, &[(0, 12, true), (4, 5, true)])?;
    Ok(trapped && kept && cut && never)
}

/// Whether a walk notes the trap that it sees.
fn tells_walks(alloc: Global, bench: &mut Small) -> Result<bool, Fail> {
    let mut watch = Watch::new(alloc);
    let mut walk = Walk::begin(bench, 4, &mut watch)?;
    walk.go_on(bench, &mut watch)?;
    walk.go_on(bench, &mut watch)?;
    walk.go_on(bench, &mut watch)?;
    walk.go_on(bench, &mut watch)?;
    Ok(bench.recorded() == 8 && answers(bench, &[(0, 4, true), (4, 8, false)]))
}

/// Whether a walk to a step with nothing seen leads to the same state and counts as a query does.
fn walks_past(alloc: Global, bench: &mut Small) -> Result<bool, Fail> {
    bench.regs_at(12)?;
    let mut watch = Watch::new(alloc);
    let mut walk = Walk::begin(bench, 1, &mut watch)?;
    walk.go_to(bench, 6, &mut watch)?;
    let there = walk.step() == 6 && walk.machine().pc() == 0x804 && !walk.machine().is_at_trap();
    walk.go_to(bench, 6, &mut watch)?;
    Ok(there && walk.step() == 6 && bench.worked() == 18)
}

#[test]
fn traps_are_noted_of_their_steps(rt: HostRuntime) -> Result<(), Fail> {
    let mut bench = workbench(rt.alloc(), TRAPS)?;
    assert!(rt; tells_edits(rt.alloc(), &mut bench)?);
    Ok(())
}

#[test]
fn types_of_traps_are_noted_of_their_steps(rt: HostRuntime) -> Result<(), Fail> {
    let mut bench = workbench(rt.alloc(), TRAPS)?;
    bench.regs_at(12)?;
    assert!(rt; answers_types(&bench, &TRAPPED_TYPES));
    assert!(rt; flags(&bench, &TRAPPED_FLAGS));
    Ok(())
}

#[test]
fn translation_is_flagged_of_all_steps_of_an_interval(rt: HostRuntime) -> Result<(), Fail> {
    let mut bench = workbench(rt.alloc(), TRANSLATES)?;
    bench.regs_at(12)?;
    assert!(rt; flags(&bench, &TRANSLATED_FLAGS));
    Ok(())
}

#[test]
fn a_machine_in_error_mode_takes_no_trap(rt: HostRuntime) -> Result<(), Fail> {
    let mut bench = workbench(rt.alloc(), STOPS)?;
    assert!(rt; tells(&mut bench, 12, &STOPPED)?);
    assert!(rt; answers_types(&bench, &STOPPED_TYPES));
    assert!(rt; flags(&bench, &STOPPED_FLAGS));
    assert!(rt; reads(&bench, &ENDED));
    Ok(())
}

#[test]
fn walks_note_traps(rt: HostRuntime) -> Result<(), Fail> {
    let mut bench = workbench(rt.alloc(), TRAPS)?;
    assert!(rt; tells_walks(rt.alloc(), &mut bench)?);
    Ok(())
}

#[test]
fn walks_go_past_steps(rt: HostRuntime) -> Result<(), Fail> {
    let mut bench = workbench(rt.alloc(), TRAPS)?;
    assert!(rt; walks_past(rt.alloc(), &mut bench)?);
    Ok(())
}

#[test]
fn checkpoints_are_read_where_they_are(rt: HostRuntime) -> Result<(), Fail> {
    let mut bench = workbench(rt.alloc(), SPEAKS)?;
    bench.set_input(3, b"x")?;
    bench.regs_at(8)?;
    assert!(rt; reads(&bench, &SPOKEN));
    bench.set_poke_byte(6, 0x301, 7)?;
    assert!(rt; bench.recorded() == 8 && reads(&bench, &SPOKEN));
    Ok(())
}
