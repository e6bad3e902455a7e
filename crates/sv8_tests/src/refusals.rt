//! Refusals, each with its number, its name and its line; a refused command changes nothing.

use crate::ends::Script;
use std::alloc::{AllocError, Global};
use std::test::Fail;
use sv8_bench::Bench;
use sv8_shell::run;

fn answers(alloc: Global, script: &[u8], wanted: &[u8]) -> Result<bool, Fail> {
    let mut bench = Bench::<8, 256, 256>::new(alloc)?;
    let mut rest = script;
    let mut written = Vec::new(alloc);
    let ended = run(alloc, &mut bench, &mut rest, &mut written);
    Ok(ended.is_ok() && written.as_slice() == wanted)
}

#[test]
fn refused_edit_changes_nothing(rt: HostRuntime) -> Result<(), Fail> {
    let script =
        b"edit 1 0 1\nnop\nedit 1 1 2\n.word 7\nba nowhere\nlist\nedit 3 3 0\nfrob\nregs 1000001\nlist\nquit\nlist\n";
    let wanted =
        b"ok\nrefused 7 UnknownName line 2\n1 00000000 01000000 |nop\nok\nrefused 2 NoSuchLine\nrefused 18 BadCommand\nrefused 13 StepTooLarge\n1 00000000 01000000 |nop\nok\nok\n";
    assert!(rt; answers(rt.alloc(), script, wanted)?);
    Ok(())
}

/// An edit, one that is refused, the listing, and a refusal of each kind.
pub const REFUSALS: Script = Script {
    text: b"edit 1 0 1\nnop\nedit 1 1 2\n.word 7\nbne nowhere\nlist\npoke 1000001 0 0\npoke 0 2 0\nirq 0 16\nunpoke 0 0\nedit 3 3 0\nfrob\n",
    answers: b"ok\nrefused 7 UnknownName line 2\n1 00000000 01000000 |nop\nok\nrefused 13 StepTooLarge\nrefused 14 BadAddress\nrefused 15 BadLevel\nrefused 16 NothingThere\nrefused 2 NoSuchLine\nrefused 18 BadCommand\n",
    commands: &[
        (15, 3),
        (46, 32),
        (51, 60),
        (68, 84),
        (79, 106),
        (88, 126),
        (99, 150),
        (110, 171),
        (115, 193),
    ],
};

/// What is answered to the last command of `REFUSALS` where it is cut within, to these lengths: the lines of the first edit are `n` or
/// `no`; the second line of the other one has no target; or has another name; and the request is of level 1.
const CUT_ANSWERS: [(usize, usize, &[u8]); 4] = [
    (12, 13, b"refused 6 Syntax line 1\n"),
    (35, 38, b"refused 6 Syntax line 2\n"),
    (39, 44, b"refused 7 UnknownName line 2\n"),
    (86, 86, b"ok\n"),
];

/// What is answered to a command that is cut within where `REFUSALS` is cut to this length.
fn cut_answer(length: usize) -> &'static [u8] {
    for (first, last, answer) in CUT_ANSWERS {
        if first <= length && length <= last {
            return answer;
        }
    }
    b"refused 18 BadCommand\n"
}

/// The answers to `REFUSALS` where it is cut to this length.
fn cut_answers(alloc: Global, length: usize) -> Result<Vec<u8>, AllocError> {
    let mut whole = 0;
    let mut within = length != 0;
    for (script_end, answer_end) in REFUSALS.commands {
        // The last line needs no LF.
        let last_byte = script_end.saturating_sub(1);
        if last_byte <= length {
            whole = *answer_end;
            within = *script_end < length;
        }
    }
    let (answers, _) = REFUSALS.answers.split_at(whole.min(REFUSALS.answers.len()));
    let mut text = Vec::from_slice(alloc, answers)?;
    if within {
        text.extend_from_slice(cut_answer(length))?;
    }
    Ok(text)
}

#[test]
fn a_script_cut_at_each_byte(rt: HostRuntime) -> Result<(), Fail> {
    let alloc = rt.alloc();
    for length in 0..=REFUSALS.text.len() {
        let (script, _) = REFUSALS.text.split_at(length);
        assert!(rt; answers(alloc, script, &cut_answers(alloc, length)?)?);
    }
    Ok(())
}

#[test]
fn faults_of_lines(rt: HostRuntime) -> Result<(), Fail> {
    let alloc = rt.alloc();
    let cases: [(&[u8], &[u8]); 9] = [
        (b"edit 1 0 1\n\x80\n", b"refused 5 NotAscii line 1\n"),
        (b"edit 1 0 1\nadd %g1, %g2\n", b"refused 6 Syntax line 1\n"),
        (
            b"edit 1 0 2\nx: nop\nx: nop\n",
            b"refused 8 DuplicateLabel line 2\n",
        ),
        (
            b"edit 1 0 1\nadd %g0, 4096, %g1\n",
            b"refused 9 OutOfRange line 1\n",
        ),
        (b"edit 1 0 1\nba 2\n", b"refused 10 BadAlignment line 1\n"),
        // The layout pass comes before the value pass.
        (
            b"edit 1 0 2\nba nowhere\nadd\n",
            b"refused 6 Syntax line 2\n",
        ),
        (b"edit 0 0 0\n", b"refused 2 NoSuchLine\n"),
        (b"edit 2 1 0\n", b"refused 2 NoSuchLine\n"),
        (b"edit 1 1 1\nnop\n", b"refused 2 NoSuchLine\n"),
    ];
    for (script, wanted) in cases {
        assert!(rt; answers(alloc, script, wanted)?);
    }
    Ok(())
}

#[test]
fn lines_that_are_no_command(rt: HostRuntime) -> Result<(), Fail> {
    let script =
        b"regs\nregs 1 2\nregs -1\nregs 4294967296\nregs 00000000001\nREGS 1\nedit 1 0\nlist 1\nquit now\n\r\r\n";
    let bad = b"refused 18 BadCommand\n";
    let mut wanted = Vec::new(rt.alloc());
    for _ in 0..10 {
        wanted.extend_from_slice(bad)?;
    }
    assert!(rt; answers(rt.alloc(), script, &wanted)?);
    Ok(())
}

#[test]
fn edit_without_all_its_lines(rt: HostRuntime) -> Result<(), Fail> {
    let alloc = rt.alloc();
    let mut bench = Bench::<8, 256, 256>::new(alloc)?;
    let mut rest = b"edit 1 0 2\nnop\n".as_slice();
    let mut written = Vec::new(alloc);
    let ended = run(alloc, &mut bench, &mut rest, &mut written);
    assert!(rt; ended.is_ok());
    assert!(rt; written.as_slice() == b"refused 18 BadCommand\n".as_slice());
    assert!(rt; bench.line_count() == 0);
    Ok(())
}

#[test]
fn long_lines(rt: HostRuntime) -> Result<(), Fail> {
    let alloc = rt.alloc();
    // A source line of 256 bytes, and one so long that not all of it is kept.
    for length in [256, 4_096, 5_000] {
        let mut script = Vec::from_slice(alloc, b"edit 1 0 1\n")?;
        script.extend_from_slice(&vec![in alloc; b'a'; length]?)?;
        script.extend_from_slice(b"\nlist\n")?;
        assert!(rt; answers(alloc, &script, b"refused 4 LineTooLong line 1\nok\n")?);
    }
    // A command of 4,096 bytes, and a longer one, blank or not.
    let mut script = vec![in alloc; b' '; 4_092]?;
    script.extend_from_slice(b"list\n")?;
    assert!(rt; answers(alloc, &script, b"ok\n")?);
    let mut script = vec![in alloc; b' '; 4_093]?;
    script.extend_from_slice(b"list\n")?;
    assert!(rt; answers(alloc, &script, b"refused 18 BadCommand\n")?);
    let mut script = vec![in alloc; b' '; 4_097]?;
    script.extend_from_slice(b"\n")?;
    assert!(rt; answers(alloc, &script, b"refused 18 BadCommand\n")?);
    Ok(())
}

#[test]
fn too_many_lines(rt: HostRuntime) -> Result<(), Fail> {
    let alloc = rt.alloc();
    let mut script = Vec::from_slice(alloc, b"edit 1 0 65537\n")?;
    script.extend_from_slice(&vec![in alloc; b'\n'; 65_537]?)?;
    script.extend_from_slice(b"list\n")?;
    assert!(rt; answers(alloc, &script, b"refused 3 TooManyLines\nok\n")?);
    Ok(())
}

#[test]
fn image_too_large(rt: HostRuntime) -> Result<(), Fail> {
    let alloc = rt.alloc();
    // 2,184 lines of 120 words are 262,080 words; RAM has 262,144.
    let mut script = Vec::from_slice(alloc, b"edit 1 0 2185\n")?;
    for _ in 0..2_185 {
        script.extend_from_slice(b".word 0")?;
        for _ in 0..119 {
            script.extend_from_slice(b",0")?;
        }
        script.extend_from_slice(b"\n")?;
    }
    assert!(rt; answers(alloc, &script, b"refused 12 ImageTooLarge line 2185\n")?);
    Ok(())
}
