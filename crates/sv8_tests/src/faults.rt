//! Readers and writers that fail, at each of their calls.

ghost use Rattle.std.specs.Prelude.{◌<◌};

use crate::ends::{Endless, Giver, Log, NotingTaker, Script, Taker, WatchingGiver, due};
use crate::refusals::REFUSALS;
use crate::scripts::{FIRST, FIRST_ANSWERS, shows};
use std::alloc::Global;
use std::cell::Cell;
use std::test::Fail;
use sv8_bench::Bench;
use sv8_shell::{RunFault, run};

type Small = Bench<8, 1, 256>;

const FIRST_RUN: Script = Script {
    text: FIRST,
    answers: FIRST_ANSWERS,
    commands: &[(58, 3), (63, 137), (70, 619), (75, 622)],
};

/// Commands that are refused: by their words, by the workbench, by their lines, and for lines that are not there. The last is answered at
/// the end of the script, and is none of the commands.
const REFUSED: Script = Script {
    text: b"frob\nunirq 0 0\nedit 1 0 1\nfrob\nedit 1 0 2\nnop\n",
    answers: b"refused 18 BadCommand\nrefused 15 BadLevel\nrefused 6 Syntax line 1\nrefused 18 BadCommand\n",
    commands: &[(5, 22), (15, 42), (31, 66)],
};

/// Whether a script in pieces of at most `most` bytes has its answers, and each of them was flushed when the next piece was read.
fn is_flushed_in_time(alloc: Global, script: &Script, most: usize) -> Result<bool, Fail>
    requires { 0 < most }
{
    let mut bench = Small::new(alloc)?;
    let log = Log {
        given: Cell::new(0),
        flushed: Cell::new(0),
    };
    let mut reader = WatchingGiver {
        rest: script.text,
        most,
        log: &log,
        commands: script.commands,
    };
    let mut writer = NotingTaker {
        bytes: Vec::new(alloc),
        log: &log,
    };
    let ended = run(alloc, &mut bench, &mut reader, &mut writer);
    let all = script.answers;
    Ok(ended == Ok(()) && writer.bytes.as_slice() == all && log.flushed.get() == all.len())
}

#[test]
fn answers_are_flushed_before_the_next_read(rt: HostRuntime) -> Result<(), Fail> {
    for most in [1, 7, 58, 64] {
        assert!(rt; is_flushed_in_time(rt.alloc(), &FIRST_RUN, most)?);
    }
    for most in [1, 5, 16, 99] {
        assert!(rt; is_flushed_in_time(rt.alloc(), &REFUSED, most)?);
    }
    Ok(())
}

#[test]
fn nothing_is_read_after_quit(rt: HostRuntime) -> Result<(), Fail> {
    let mut bench = Small::new(rt.alloc())?;
    let mut reader = Giver {
        rest: b"quit\nlist\n",
        most: 5,
        calls: 9,
    };
    let mut written = Vec::new(rt.alloc());
    let ended = run(rt.alloc(), &mut bench, &mut reader, &mut written);
    assert!(rt; ended == Ok(()));
    assert!(rt; reader.rest == b"list\n".as_slice());
    assert!(rt; written.as_slice() == b"ok\n".as_slice());
    Ok(())
}

/// Whether bytes are the first part of a script's answers, of this length.
fn is_first_part(script: &Script, written: &[u8], length: usize) -> bool {
    written.len() == length && script.answers.starts_with(written)
}

/// Whether a script whose reader gives a byte a call, and then fails, has the answers to its whole lines.
fn is_answered_before_a_read_fault(
    alloc: Global,
    script: &Script,
    calls: usize,
) -> Result<bool, Fail> {
    let mut bench = Small::new(alloc)?;
    let mut reader = Giver {
        rest: script.text,
        most: 1,
        calls,
    };
    let mut writer = Taker {
        bytes: Vec::new(alloc),
        most: 99,
        calls: 10_000,
    };
    let ended = run(alloc, &mut bench, &mut reader, &mut writer);
    Ok(
        ended == Err(RunFault::Read)
            && is_first_part(script, writer.bytes.as_slice(), due(script.commands, calls)),
    )
}

#[test]
fn each_read_fails(rt: HostRuntime) -> Result<(), Fail> {
    for script in [FIRST_RUN, REFUSALS] {
        for calls in 0..script.text.len() {
            assert!(rt; is_answered_before_a_read_fault(rt.alloc(), &script, calls)?);
        }
    }
    // The first run ends by itself; the other script is read to its end, which is one call more.
    assert!(rt; !is_answered_before_a_read_fault(rt.alloc(), &FIRST_RUN, FIRST.len())?);
    assert!(rt; is_answered_before_a_read_fault(rt.alloc(), &REFUSALS, REFUSALS.text.len())?);
    Ok(())
}

/// How many bytes are written by so many calls that take one byte each, or flush behind an answer.
fn taken_by(commands: &[(usize, usize)], calls: usize) -> usize {
    let mut left = calls;
    let mut taken = 0;
    for (_, answer_end) in commands {
        let bytes = answer_end.saturating_sub(taken);
        if left <= bytes {
            return taken.saturating_add(left);
        }
        left -= bytes + 1;
        taken = *answer_end;
    }
    taken
}

/// How a script ends whose writer takes a byte a call and then fails, if it has written what those calls take.
fn end_before_a_write_fault(
    alloc: Global,
    script: &Script,
    calls: usize,
) -> Result<Option<Result<(), RunFault>>, Fail> {
    let mut bench = Small::new(alloc)?;
    let mut reader = Giver {
        rest: script.text,
        most: 7,
        calls: 1_000,
    };
    let mut writer = Taker {
        bytes: Vec::new(alloc),
        most: 1,
        calls,
    };
    let ended = run(alloc, &mut bench, &mut reader, &mut writer);
    let taken = taken_by(script.commands, calls);
    let is_written = is_first_part(script, writer.bytes.as_slice(), taken);
    Ok(if is_written { Some(ended) } else { None })
}

#[test]
fn each_write_fails(rt: HostRuntime) -> Result<(), Fail> {
    for script in [FIRST_RUN, REFUSALS] {
        let all = script.answers.len().saturating_add(script.commands.len());
        for calls in 0..all {
            let ended = end_before_a_write_fault(rt.alloc(), &script, calls)?;
            assert!(rt; ended == Some(Err(RunFault::Write)));
        }
        let ended = end_before_a_write_fault(rt.alloc(), &script, all)?;
        assert!(rt; ended == Some(Ok(())));
    }
    Ok(())
}

#[test]
fn half_a_line_before_a_read_fault(rt: HostRuntime) -> Result<(), Fail> {
    let mut bench = Small::new(rt.alloc())?;
    let mut reader = Giver {
        rest: b"regs 0\nregs",
        most: 11,
        calls: 1,
    };
    let mut written = Vec::new(rt.alloc());
    let ended = run(rt.alloc(), &mut bench, &mut reader, &mut written);
    let due = shows(
        rt.alloc(),
        b"step 0 run\npc 00000000 npc 00000004 annul 0\n",
    )?;
    assert!(rt; ended == Err(RunFault::Read));
    assert!(rt; written.as_slice() == due.as_slice());
    Ok(())
}

#[test]
fn write_fault_after_ten_bytes(rt: HostRuntime) -> Result<(), Fail> {
    let mut bench = Small::new(rt.alloc())?;
    let mut script = b"regs 0\n".as_slice();
    let mut writer = Taker {
        bytes: Vec::new(rt.alloc()),
        most: 1,
        calls: 10,
    };
    let ended = run(rt.alloc(), &mut bench, &mut script, &mut writer);
    assert!(rt; ended == Err(RunFault::Write));
    assert!(rt; writer.bytes.as_slice() == b"step 0 run".as_slice());
    Ok(())
}

#[test]
fn write_that_takes_no_byte(rt: HostRuntime) -> Result<(), Fail> {
    let mut bench = Small::new(rt.alloc())?;
    let mut script = FIRST;
    let mut writer = Taker {
        bytes: Vec::new(rt.alloc()),
        most: 0,
        calls: 9,
    };
    let ended = run(rt.alloc(), &mut bench, &mut script, &mut writer);
    assert!(rt; ended == Err(RunFault::Write));
    Ok(())
}

#[test]
fn script_with_too_many_lines(rt: HostRuntime) -> Result<(), Fail> {
    let mut bench = Small::new(rt.alloc())?;
    let text = vec![in rt.alloc(); b'\n'; 1_000_001]?;
    let mut rest = text.as_slice();
    let mut written = Vec::new(rt.alloc());
    let ended = run(rt.alloc(), &mut bench, &mut rest, &mut written);
    assert!(rt; ended == Err(RunFault::TooManyCommands));
    assert!(rt; written.is_empty());
    Ok(())
}

#[test]
fn script_without_end(rt: HostRuntime) -> Result<(), Fail> {
    let mut bench = Small::new(rt.alloc())?;
    let mut written = Vec::new(rt.alloc());
    let ended = run(rt.alloc(), &mut bench, &mut Endless, &mut written);
    assert!(rt; ended == Err(RunFault::TooManyCommands));
    assert!(rt; written.is_empty());
    Ok(())
}
