//! Commands that edit the timeline: their answers, and what they leave.

use std::alloc::Global;
use std::test::Fail;
use sv8_bench::{Bench, BenchFault};
use sv8_model::Refused;
use sv8_shell::run;

/// RAM of 1 MiB, as the program has.
type Whole = Bench<8, 256, 256>;

/// Whether a script has these answers.
fn answers(alloc: Global, bench: &mut Whole, script: &[u8], wanted: &[u8]) -> Result<bool, Fail> {
    let mut rest = script;
    let mut written = Vec::new(alloc);
    let ended = run(alloc, bench, &mut rest, &mut written);
    Ok(ended.is_ok() && written.as_slice() == wanted)
}

/// Whether a script on a new workbench has these answers.
fn answers_anew(alloc: Global, script: &[u8], wanted: &[u8]) -> Result<bool, Fail> {
    let mut bench = Whole::new(alloc)?;
    answers(alloc, &mut bench, script, wanted)
}

#[test]
fn events_are_refused_in_the_order_of_the_numbers(rt: HostRuntime) -> Result<(), Fail> {
    let script =
        b"poke 1000001 0 0\npoke 0 2 0\nirq 0 16\nunpoke 0 0\npoke 1000001 2 0\nunpokeb 0 100000\nuninput 7\nunirq 1000001 0\nunirq 4294967295 4294967295\nunirq 3 15\n";
    let wanted =
        b"refused 13 StepTooLarge\nrefused 14 BadAddress\nrefused 15 BadLevel\nrefused 16 NothingThere\nrefused 13 StepTooLarge\nrefused 14 BadAddress\nrefused 16 NothingThere\nrefused 13 StepTooLarge\nrefused 13 StepTooLarge\nrefused 16 NothingThere\n";
    assert!(rt; answers_anew(rt.alloc(), script, wanted)?);
    Ok(())
}

#[test]
fn bytes_of_a_poked_word_are_cleared_apart(rt: HostRuntime) -> Result<(), Fail> {
    let script =
        b"poke 5 100 11223344\npokeb 5 101 AA\npokeb 300 100 77\npoke 2 100 AABBCCDD\nunpokeb 5 101\nunpoke 5 100\nunpokeb 5 100\npokeb 0 100000 1\npokeb 0 fffff 1\nunpoke 0 ffffc\npokeb 0 0 100\nunpokeb 300 101\nunpoke 300 100\n";
    let wanted =
        b"ok\nok\nok\nok\nok\nok\nrefused 16 NothingThere\nrefused 14 BadAddress\nok\nok\nrefused 18 BadCommand\nrefused 16 NothingThere\nok\n";
    assert!(rt; answers_anew(rt.alloc(), script, wanted)?);
    Ok(())
}

/// `input` at a step with so many digits.
fn input_of(alloc: Global, step: &[u8], digits: usize) -> Result<Vec<u8>, Fail> {
    let mut script = Vec::from_slice(alloc, b"input ")?;
    script.extend_from_slice(step)?;
    script.extend_from_slice(b" ")?;
    script.extend_from_slice(&vec![in alloc; b'4'; digits]?)?;
    script.extend_from_slice(b"\n")?;
    Ok(script)
}

#[test]
fn inputs_of_any_length_in_a_line(rt: HostRuntime) -> Result<(), Fail> {
    let alloc = rt.alloc();
    let cases: [(&[u8], usize, &[u8]); 7] = [
        (b"0", 2, b"ok\n"),
        (b"0", 2_048, b"ok\n"),
        (b"0", 2_050, b"refused 19 InputTooLong\n"),
        (b"0", 4_088, b"refused 19 InputTooLong\n"),
        (b"1000001", 2_050, b"refused 13 StepTooLarge\n"),
        (b"0", 2_049, b"refused 18 BadCommand\n"),
        // A line of 4,098 bytes.
        (b"0", 4_090, b"refused 18 BadCommand\n"),
    ];
    for (step, digits, wanted) in cases {
        let script = input_of(alloc, step, digits)?;
        assert!(rt; answers_anew(alloc, &script, wanted)?);
    }
    Ok(())
}

/// Fills a timeline: a poke of word 0 at each step from 0 on.
fn fill(bench: &mut Whole) -> Result<(), Refused<BenchFault>> {
    for step in 0..65_536 {
        bench.set_poke(step, 0, 0)?;
    }
    Ok(())
}

#[test]
fn no_place_for_another_event(rt: HostRuntime) -> Result<(), Fail> {
    let alloc = rt.alloc();
    let mut bench = Whole::new(alloc)?;
    fill(&mut bench)?;
    let mut script = Vec::from_slice(
        alloc,
        b"poke 65536 0 0\npoke 7 0 1\npokeb 7 3 1\npokeb 7 4 1\nirq 0 1\nirq 0 16\ninput 0 41\nunpoke 7 0\ninput 0 41\ninput 0 4142\nirq 0 1\n",
    )?;
    script.extend_from_slice(&input_of(alloc, b"1", 2_050)?)?;
    let wanted =
        b"refused 17 TooManyEvents\nok\nok\nrefused 17 TooManyEvents\nrefused 17 TooManyEvents\nrefused 15 BadLevel\nrefused 17 TooManyEvents\nok\nok\nok\nrefused 17 TooManyEvents\nrefused 17 TooManyEvents\n";
    assert!(rt; answers(alloc, &mut bench, &script, wanted)?);
    Ok(())
}
