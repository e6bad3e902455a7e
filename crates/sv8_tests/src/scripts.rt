//! Scripts and their answers, worked out by hand from the manual and the encodings of an outside assembler.

ghost use Rattle.std.specs.Prelude.{◌≤◌};

use crate::ends::{Giver, Taker};
use std::alloc::Global;
use std::test::Fail;
use sv8_bench::Bench;
use sv8_shell::run;

/// A small machine, so that a reset takes little.
type Small = Bench<8, 1, 256>;

/// Whether a script on a new workbench, of a small machine with `NW` windows, has these answers.
fn answers_of<const NW: usize>(alloc: Global, script: &[u8], wanted: &[u8]) -> Result<bool, Fail>
    requires some_windows { 2 ≤ NW }
    requires few_windows { NW ≤ 32 }
{
    let mut bench = Bench::<NW, 1, 256>::new(alloc)?;
    let mut rest = script;
    let mut written = Vec::new(alloc);
    let ended = run(alloc, &mut bench, &mut rest, &mut written);
    Ok(ended.is_ok() && written.as_slice() == wanted)
}

/// Whether a script on a new workbench has these answers.
fn answers(alloc: Global, script: &[u8], wanted: &[u8]) -> Result<bool, Fail> {
    answers_of::<8>(alloc, script, wanted)
}

/// The first run: four lines, their listing, and the machine at step 3.
pub const FIRST: &[u8] =
    b"edit 1 0 4\nstart: mov 5, %g1\nadd %g1, 1, %g2\nba start\nnop\nlist\nregs 3\nquit\n";

pub const FIRST_ANSWERS: &[u8] =
    b"ok\n1 00000000 82102005 |start: mov 5, %g1\n2 00000004 84006001 |add %g1, 1, %g2\n3 00000008 10BFFFFE |ba start\n4 0000000C 01000000 |nop\nok\nstep 3 run\npc 0000000C npc 00000000 annul 0\npsr 00000080 wim 00000000 tbr 00000000 y 00000000\ng 00000000 00000005 00000006 00000000 00000000 00000000 00000000 00000000\no 00000000 00000000 00000000 00000000 00000000 00000000 00000000 00000000\nl 00000000 00000000 00000000 00000000 00000000 00000000 00000000 00000000\ni 00000000 00000000 00000000 00000000 00000000 00000000 00000000 00000000\nmmu 00000000 00000000 00000000 00000000 00000000\ndev 00000000 00000000 00000000 00000000\nok\nok\n";

#[test]
fn first_run_in_any_pieces(rt: HostRuntime) -> Result<(), Fail> {
    for most in 1..30 {
        let mut bench = Small::new(rt.alloc())?;
        let mut reader = Giver {
            rest: FIRST,
            most,
            calls: 1_000,
        };
        let mut writer = Taker {
            bytes: Vec::new(rt.alloc()),
            most,
            calls: 10_000,
        };
        let ended = run(rt.alloc(), &mut bench, &mut reader, &mut writer);
        assert!(rt; ended.is_ok());
        assert!(rt; writer.bytes.as_slice() == FIRST_ANSWERS);
    }
    Ok(())
}

const ZEROS: &[u8] =
    b"psr 00000080 wim 00000000 tbr 00000000 y 00000000\ng 00000000 00000000 00000000 00000000 00000000 00000000 00000000 00000000\no 00000000 00000000 00000000 00000000 00000000 00000000 00000000 00000000\nl 00000000 00000000 00000000 00000000 00000000 00000000 00000000 00000000\ni 00000000 00000000 00000000 00000000 00000000 00000000 00000000 00000000\nmmu 00000000 00000000 00000000 00000000 00000000\ndev 00000000 00000000 00000000 00000000\nok\n";

/// The answer to `regs` where all but the first two lines is as after reset.
pub fn shows(alloc: Global, front: &[u8]) -> Result<Vec<u8>, Fail> {
    let mut text = Vec::from_slice(alloc, front)?;
    text.extend_from_slice(ZEROS)?;
    Ok(text)
}

#[test]
fn new_workbench_is_as_after_reset(rt: HostRuntime) -> Result<(), Fail> {
    let alloc = rt.alloc();
    let reset = shows(alloc, b"step 0 run\npc 00000000 npc 00000004 annul 0\n")?;
    assert!(rt; answers(alloc, b"regs 0\n", &reset)?);
    // Word 0 is UNIMP, and a trap with ET = 0 enters error mode.
    let stopped = shows(alloc, b"step 1 error\npc 00000000 npc 00000004 annul 0\n")?;
    assert!(rt; answers(alloc, b"regs 1\n", &stopped)?);
    let stays = shows(alloc, b"step 9 error\npc 00000000 npc 00000004 annul 0\n")?;
    assert!(rt; answers(alloc, b"regs 9\r\n", &stays)?);
    assert!(rt; answers(alloc, b" \t\n\n\tregs   9 ", &stays)?);
    Ok(())
}

#[test]
fn branch_that_annuls_loops(rt: HostRuntime) -> Result<(), Fail> {
    let alloc = rt.alloc();
    let mut wanted = Vec::from_slice(
        alloc,
        b"ok\n1 00000000 30800000 |loop: ba,a loop\n2 00000004 00000000 |.word 0\nok\n",
    )?;
    wanted.extend_from_slice(&shows(alloc, b"step 1000 run\npc 00000000 npc 00000004 annul 0\n")?)?;
    wanted.extend_from_slice(&shows(alloc, b"step 1001 run\npc 00000004 npc 00000000 annul 1\n")?)?;
    wanted.extend_from_slice(b"ok\n")?;
    wanted.extend_from_slice(&shows(alloc, b"step 1000 run\npc 00000000 npc 00000004 annul 0\n")?)?;
    let script =
        b"edit 1 0 2\nloop: ba,a loop\n.word 0\nlist\nregs 1000\nregs 1001\nedit 2 2 1\n.word 7\nregs 1000\n";
    assert!(rt; answers(alloc, script, &wanted)?);
    Ok(())
}

#[test]
fn branch_in_a_delay_slot(rt: HostRuntime) -> Result<(), Fail> {
    let alloc = rt.alloc();
    let mut wanted = Vec::from_slice(alloc, b"ok\n")?;
    wanted.extend_from_slice(&shows(alloc, b"step 2 run\npc 00000010 npc 00000020 annul 0\n")?)?;
    wanted.extend_from_slice(&shows(alloc, b"step 3 run\npc 00000020 npc 00000024 annul 0\n")?)?;
    let script = b"edit 1 0 5\nba 0x10\nba 0x20\n.word 0\n.word 0\nnop\nregs 2\nregs 3\n";
    assert!(rt; answers(alloc, script, &wanted)?);
    Ok(())
}

#[test]
fn words_are_listed_in_groups(rt: HostRuntime) -> Result<(), Fail> {
    let script =
        b"edit 1 0 3\n! nothing\nx: .word 0xABCDEF01, x, -2\ny: .word y\nlist\nedit 2 1 1\nnop\nlist\n";
    let wanted =
        b"ok\n1 00000000 |! nothing\n2 00000000 ABCDEF01 00000000 FFFFFFFE |x: .word 0xABCDEF01, x, -2\n3 0000000C 0000000C |y: .word y\nok\nok\n1 00000000 |! nothing\n2 00000000 01000000 |nop\n3 00000004 ABCDEF01 00000004 FFFFFFFE |x: .word 0xABCDEF01, x, -2\n4 00000010 00000010 |y: .word y\nok\n";
    assert!(rt; answers(rt.alloc(), script, wanted)?);
    Ok(())
}

/// Window 0 of three again after three SAVEs, with its local register; then a RESTORE to window 1, and one to window 2, whose ins are the outs of window 0.
const ROUND: &[u8] =
    b"edit 1 0 6\nmov 1, %l0\nsave %g0, 2, %l0\nsave %g0, 3, %l0\nsave %g0, 4, %o0\nrestore %l0, %g0, %l1\nrestore %g0, %g0, %g0\nregs 4\nregs 5\nregs 6\n";

const ROUND_ANSWERS: &[u8] =
    b"ok\nstep 4 run\npc 00000010 npc 00000014 annul 0\npsr 00000080 wim 00000000 tbr 00000000 y 00000000\ng 00000000 00000000 00000000 00000000 00000000 00000000 00000000 00000000\no 00000004 00000000 00000000 00000000 00000000 00000000 00000000 00000000\nl 00000001 00000000 00000000 00000000 00000000 00000000 00000000 00000000\ni 00000000 00000000 00000000 00000000 00000000 00000000 00000000 00000000\nmmu 00000000 00000000 00000000 00000000 00000000\ndev 00000000 00000000 00000000 00000000\nok\nstep 5 run\npc 00000014 npc 00000018 annul 0\npsr 00000081 wim 00000000 tbr 00000000 y 00000000\ng 00000000 00000000 00000000 00000000 00000000 00000000 00000000 00000000\no 00000000 00000000 00000000 00000000 00000000 00000000 00000000 00000000\nl 00000003 00000001 00000000 00000000 00000000 00000000 00000000 00000000\ni 00000000 00000000 00000000 00000000 00000000 00000000 00000000 00000000\nmmu 00000000 00000000 00000000 00000000 00000000\ndev 00000000 00000000 00000000 00000000\nok\nstep 6 run\npc 00000018 npc 0000001C annul 0\npsr 00000082 wim 00000000 tbr 00000000 y 00000000\ng 00000000 00000000 00000000 00000000 00000000 00000000 00000000 00000000\no 00000000 00000000 00000000 00000000 00000000 00000000 00000000 00000000\nl 00000002 00000000 00000000 00000000 00000000 00000000 00000000 00000000\ni 00000004 00000000 00000000 00000000 00000000 00000000 00000000 00000000\nmmu 00000000 00000000 00000000 00000000 00000000\ndev 00000000 00000000 00000000 00000000\nok\n";

/// WIM has a bit for each of three windows, and there is no window 3: WRPSR of it is an illegal instruction, and with ET = 0 the machine stops.
const NO_WINDOW: &[u8] =
    b"edit 1 0 3\nwr %g0, 0xff, %wim\nrd %wim, %g1\nwr %g0, 0x83, %psr\nregs 2\nregs 3\n";

const NO_WINDOW_ANSWERS: &[u8] =
    b"ok\nstep 2 run\npc 00000008 npc 0000000C annul 0\npsr 00000080 wim 00000007 tbr 00000000 y 00000000\ng 00000000 00000007 00000000 00000000 00000000 00000000 00000000 00000000\no 00000000 00000000 00000000 00000000 00000000 00000000 00000000 00000000\nl 00000000 00000000 00000000 00000000 00000000 00000000 00000000 00000000\ni 00000000 00000000 00000000 00000000 00000000 00000000 00000000 00000000\nmmu 00000000 00000000 00000000 00000000 00000000\ndev 00000000 00000000 00000000 00000000\nok\nstep 3 error\npc 00000008 npc 0000000C annul 0\npsr 00000080 wim 00000007 tbr 00000000 y 00000000\ng 00000000 00000007 00000000 00000000 00000000 00000000 00000000 00000000\no 00000000 00000000 00000000 00000000 00000000 00000000 00000000 00000000\nl 00000000 00000000 00000000 00000000 00000000 00000000 00000000 00000000\ni 00000000 00000000 00000000 00000000 00000000 00000000 00000000 00000000\nmmu 00000000 00000000 00000000 00000000 00000000\ndev 00000000 00000000 00000000 00000000\nok\n";

#[test]
fn three_windows(rt: HostRuntime) -> Result<(), Fail> {
    let alloc = rt.alloc();
    assert!(rt; answers_of::<3>(alloc, ROUND, ROUND_ANSWERS)?);
    assert!(rt; answers_of::<3>(alloc, NO_WINDOW, NO_WINDOW_ANSWERS)?);
    Ok(())
}
