//! Edits and queries of a workbench by its calls, with answers worked out by hand.

ghost use Rattle.std.specs.Prelude.{◌≤◌};

use std::alloc::Global;
use std::test::Fail;
use sv8_bench::BenchFault::{self, Source, Time};
use sv8_bench::{Bench, Shown};
use sv8_model::Refused::{self, By};
use sv8_source::SourceFault;
use sv8_statements::LineFault;
use sv8_time::TimeFault;

/// The refusals that edits and queries share, written out here.
const STEP_TOO_LARGE: Refused<BenchFault> = By(Time(TimeFault::StepTooLarge));

const BAD_ADDRESS: Refused<BenchFault> = By(Time(TimeFault::BadAddress));

const NO_SUCH_LINE: Refused<BenchFault> = By(Source(SourceFault::NoSuchLine));

/// A loop whose branch annuls its delay slot.
const LOOP: &[&[u8]] = &[b"loop: ba,a loop", b".word 0"];

/// A loop that sets three registers.
const COUNT: &[&[u8]] = &[
    b"start: mov 5, %g1",
    b"add %g1, 1, %g2",
    b"mov 9, %i7",
    b"ba start",
    b"nop",
];

/// A program that puts a byte out at step 2 and stores it at step 3.
const PRINTS: &[&[u8]] = &[
    b"sethi 0x200000, %g1",
    b"mov 0x48, %g2",
    b"st %g2, [%g1+8]",
    b"st %g2, [0x100]",
    b"end: ba end",
    b"nop",
];

/// What a workbench is asked.
#[derive(Drop, Clone, Copy)]
enum Question {
    /// Whether it has no lines, and its machine starts at rest and stops at step 1.
    IsNew,
    /// Whether the machine of `COUNT` is shown as it is after each of five steps.
    Counts,
    /// Whether the machine of `LOOP` is shown up to the last step, and no further.
    LoopsToTheEnd,
    /// Whether this edit of `LOOP` is refused with this fault, and listing and machine are as before.
    Refuses(u32, u32, &'static [u8], Refused<BenchFault>),
    /// Whether the machine of `LOOP` follows its lines as they are edited.
    FollowsEdits,
    /// Whether each edit of `EDITS` has its answer.
    EditsEvents,
    /// Whether each query of `LOOKS` has its answer over `PRINTS`.
    ShowsMemory,
}

/// The lines of these texts.
fn lines_of(alloc: Global, texts: &[&[u8]]) -> Result<Vec<Vec<u8>>, Fail> {
    let mut lines = Vec::new(alloc);
    for text in texts {
        lines.push(text.to_vec(alloc)?)?;
    }
    Ok(lines)
}

/// Edits a workbench; tells how many lines it has then.
fn edited<const NW: usize, const K: u32>(
    bench: &mut Bench<NW, 1, K>,
    alloc: Global,
    first: u32,
    last: u32,
    texts: &[&[u8]],
) -> Result<usize, Fail> {
    let lines = lines_of(alloc, texts)?;
    bench.replace_lines(first, last, &lines)?;
    Ok(bench.line_count())
}

/// PC, nPC, whether the next instruction is annulled, and whether the machine runs.
fn control(shown: &Shown) -> (u32, u32, bool, bool) {
    (shown.pc, shown.npc, shown.annul, shown.running)
}

/// Whether a machine is shown with all its parts but the control of reset at zero, and S set in the PSR.
fn is_at_rest(shown: &Shown) -> bool {
    let mmu = &shown.mmu;
    shown.registers == [0; 32]
        && (shown.psr, shown.wim, shown.tbr, shown.y) == (0x80, 0, 0, 0)
        && (mmu.control, mmu.table_pointer, mmu.context) == (0, 0, 0)
        && (mmu.fault_status, mmu.fault_address) == (0, 0)
        && (shown.timer.count, shown.timer.reload) == (0, 0)
        && (shown.pending, shown.waiting) == (0, 0)
}

/// Whether the machine is shown at rest at a step, and running or not.
fn rests<const NW: usize, const K: u32>(
    bench: &mut Bench<NW, 1, K>,
    step: u32,
    running: bool,
) -> Result<bool, Fail> {
    let shown = bench.regs_at(step)?;
    Ok(is_at_rest(&shown) && control(&shown) == (0, 4, false, running))
}

fn is_new<const NW: usize, const K: u32>(bench: &mut Bench<NW, 1, K>) -> Result<bool, Fail> {
    let has_lines = bench.line_count() != 0
        || bench.listing(0).is_some()
        || bench.listing(1).is_some();
    Ok(!has_lines && rests(bench, 0, true)? && rests(bench, 1, false)? && rests(bench, 2, false)?)
}

fn counts<const NW: usize, const K: u32>(bench: &mut Bench<NW, 1, K>) -> Result<bool, Fail> {
    let mut holds = true;
    for (step, pc, npc, values) in [
        (0, 0, 4, [0, 0, 0]),
        (1, 4, 8, [5, 0, 0]),
        (2, 8, 0xc, [5, 6, 0]),
        (3, 0xc, 0x10, [5, 6, 9]),
        (4, 0x10, 0, [5, 6, 9]),
        (5, 0, 4, [5, 6, 9]),
    ] {
        let shown = bench.regs_at(step)?;
        let [_, g1, g2, .., i7] = shown.registers;
        holds = holds && control(&shown) == (pc, npc, false, true) && [g1, g2, i7] == values;
    }
    Ok(holds)
}

/// Whether `LOOP` is in its branch at a step, or on the way over its annulled delay slot.
fn loops<const NW: usize, const K: u32>(
    bench: &mut Bench<NW, 1, K>,
    step: u32,
    in_slot: bool,
) -> Result<bool, Fail> {
    let shown = bench.regs_at(step)?;
    let wanted = if in_slot {
        (4, 0, true, true)
    } else {
        (0, 4, false, true)
    };
    Ok(control(&shown) == wanted)
}

/// Whether a step is refused as too large.
fn is_beyond<const NW: usize, const K: u32>(bench: &mut Bench<NW, 1, K>, step: u32) -> bool {
    matches!(bench.regs_at(step), Err(By(Time(TimeFault::StepTooLarge))))
}

fn loops_to_the_end<const NW: usize, const K: u32>(
    bench: &mut Bench<NW, 1, K>,
) -> Result<bool, Fail> {
    Ok(
        is_beyond(bench, 1_000_001)
            && is_beyond(bench, u32::MAX)
            && loops(bench, 1000, false)?
            && loops(bench, 1001, true)?
            && loops(bench, 1_000_000, false)?,
    )
}

/// Whether the listing is that of `LOOP`.
fn lists_the_loop<const NW: usize, const K: u32>(bench: &Bench<NW, 1, K>) -> bool {
    match (bench.listing(1), bench.listing(2)) {
        (Some(first), Some(second)) => {
            bench.line_count() == 2
                && bench.listing(0).is_none()
                && bench.listing(3).is_none()
                && (first.address, second.address) == (0, 4)
                && first.bytes == [0x30, 0x80, 0, 0].as_slice()
                && second.bytes == [0, 0, 0, 0].as_slice()
                && first.text == b"loop: ba,a loop".as_slice()
                && second.text == b".word 0".as_slice()
        }
        _ => false,
    }
}

fn refuses<const NW: usize, const K: u32>(
    bench: &mut Bench<NW, 1, K>,
    first: u32,
    last: u32,
    lines: &[Vec<u8>],
    fault: Refused<BenchFault>,
) -> Result<bool, Fail> {
    let answer = bench.replace_lines(first, last, lines);
    let in_slot = loops(bench, 1, true)?;
    Ok(answer == Err(fault) && lists_the_loop(bench) && in_slot)
}

/// Whether the machine is at the start of a loop after two steps, with this value in %g4, and runs or not.
fn comes_back<const NW: usize, const K: u32>(
    bench: &mut Bench<NW, 1, K>,
    g4: u32,
    running: bool,
) -> Result<bool, Fail> {
    let shown = bench.regs_at(2)?;
    Ok(control(&shown) == (0, 4, false, running) && shown.registers[4] == g4)
}

fn follows_edits<const NW: usize, const K: u32>(
    bench: &mut Bench<NW, 1, K>,
    alloc: Global,
) -> Result<bool, Fail> {
    let inserted = edited(bench, alloc, 2, 1, &[b"mov 3, %g4"])?;
    let replaced = edited(bench, alloc, 1, 1, &[b"loop: ba loop"])?;
    let with_lines = comes_back(bench, 3, true)?;
    let emptied = edited(bench, alloc, 1, 3, &[])?;
    let without = comes_back(bench, 0, false)?;
    Ok([inserted, replaced, emptied] == [3, 3, 0] && with_lines && without)
}

/// Whether a workbench answers yes.
fn answers<const NW: usize, const K: u32>(
    bench: &mut Bench<NW, 1, K>,
    alloc: Global,
    question: Question,
) -> Result<bool, Fail> {
    match question {
        Question::IsNew => is_new(bench),
        Question::Counts => counts(bench),
        Question::LoopsToTheEnd => loops_to_the_end(bench),
        Question::Refuses(first, last, text, fault) => {
            let lines = lines_of(alloc, &[text])?;
            refuses(bench, first, last, &lines, fault)
        }
        Question::FollowsEdits => follows_edits(bench, alloc),
        Question::EditsEvents => Ok(edits_events(bench)),
        Question::ShowsMemory => Ok(shows_memory(bench)),
    }
}

/// Whether a workbench over a source of these lines answers yes.
fn holds<const NW: usize, const K: u32>(
    alloc: Global,
    texts: &[&[u8]],
    question: Question,
) -> Result<bool, Fail>
    requires some_windows { 2 ≤ NW }
    requires few_windows { NW ≤ 32 }
    requires some_steps { 1 ≤ K }
    requires few_steps { K ≤ 1000000 }
{
    let mut bench = Bench::<NW, 1, K>::new(alloc)?;
    edited(&mut bench, alloc, 1, 0, texts)?;
    answers(&mut bench, alloc, question)
}

#[test]
fn machines_are_shown(rt: HostRuntime) -> Result<(), Fail> {
    assert!(rt; holds::<8, 256>(rt.alloc(), &[], Question::IsNew)?);
    assert!(rt; holds::<2, 1>(rt.alloc(), COUNT, Question::Counts)?);
    assert!(rt; holds::<8, 256>(rt.alloc(), COUNT, Question::Counts)?);
    assert!(rt; holds::<8, 256>(rt.alloc(), LOOP, Question::LoopsToTheEnd)?);
    Ok(())
}

#[test]
fn edits_change_the_program(rt: HostRuntime) -> Result<(), Fail> {
    assert!(rt; holds::<8, 256>(rt.alloc(), LOOP, Question::FollowsEdits)?);
    Ok(())
}

/// The refusal of an edit whose line of this number has a fault.
fn in_line(number: u32, what: LineFault) -> Refused<BenchFault> {
    By(Source(SourceFault::Line { number, what }))
}

#[test]
fn a_refused_edit_changes_nothing(rt: HostRuntime) -> Result<(), Fail> {
    let refused = [
        (3, 2, &b"nop nop"[..], in_line(3, LineFault::Syntax)),
        (1, 1, b"ba nowhere", in_line(1, LineFault::UnknownName)),
        (2, 2, b"loop: nop", in_line(2, LineFault::DuplicateLabel)),
        (
            2,
            2,
            b"add %g1, 5000, %g1",
            in_line(2, LineFault::OutOfRange),
        ),
        (0, 0, b"nop", NO_SUCH_LINE),
        (1, 3, b"nop", NO_SUCH_LINE),
        (4, 3, b"nop", NO_SUCH_LINE),
    ];
    for (first, last, text, fault) in refused {
        assert!(rt;
            holds::<8, 256>(
                rt.alloc(),
                LOOP,
                Question::Refuses(first, last, text, fault)
            )?
        );
    }
    Ok(())
}

/// An edit of the timeline.
#[derive(Drop, Clone, Copy)]
enum Edit {
    Poke(u32, u32, u32),
    ClearPoke(u32, u32),
    PokeByte(u32, u32, u8),
    ClearPokeByte(u32, u32),
    Input(u32, &'static [u8]),
    ClearInput(u32),
    Request(u32, u32),
    ClearRequest(u32, u32),
}

/// Edits of a timeline over 4,096 bytes of RAM, each with its answer: each kind is done, done again over what stands,
/// cleared, and then found cleared; and each refusal but that of the 65,537th event comes in its order.
const EDITS: &[(Edit, Result<(), Refused<BenchFault>>)] = &[
    (Edit::Poke(5, 0xffc, 0x1122_3344), Ok(())),
    (Edit::PokeByte(5, 0xffd, 0xaa), Ok(())),
    (Edit::ClearPokeByte(5, 0xffd), Ok(())),
    (
        Edit::ClearPokeByte(5, 0xffd),
        Err(By(Time(TimeFault::NothingThere))),
    ),
    (Edit::ClearPoke(5, 0xffc), Ok(())),
    (
        Edit::ClearPoke(5, 0xffc),
        Err(By(Time(TimeFault::NothingThere))),
    ),
    (Edit::PokeByte(1_000_000, 0xfff, 1), Ok(())),
    (Edit::ClearPoke(1_000_000, 0xffc), Ok(())),
    (Edit::Input(10, b"AB"), Ok(())),
    (Edit::Input(10, &[0; 1_024]), Ok(())),
    (Edit::ClearInput(10), Ok(())),
    (Edit::ClearInput(10), Err(By(Time(TimeFault::NothingThere)))),
    (Edit::Request(2, 15), Ok(())),
    (Edit::Request(2, 15), Ok(())),
    (Edit::ClearRequest(2, 15), Ok(())),
    (
        Edit::ClearRequest(2, 15),
        Err(By(Time(TimeFault::NothingThere))),
    ),
    (Edit::Poke(1_000_001, 2, 0), Err(STEP_TOO_LARGE)),
    (Edit::Poke(0, 2, 0), Err(BAD_ADDRESS)),
    (Edit::Poke(0, 0x1000, 0), Err(BAD_ADDRESS)),
    (Edit::ClearPoke(0, 0xffe), Err(BAD_ADDRESS)),
    (Edit::PokeByte(0, 0x1000, 0), Err(BAD_ADDRESS)),
    (Edit::ClearPokeByte(0, 0x1000), Err(BAD_ADDRESS)),
    (Edit::Input(1_000_001, &[0; 1_025]), Err(STEP_TOO_LARGE)),
    (
        Edit::Input(0, &[0; 1_025]),
        Err(By(Time(TimeFault::InputTooLong))),
    ),
    (Edit::Request(0, 0), Err(By(Time(TimeFault::BadLevel)))),
    (Edit::Request(0, 16), Err(By(Time(TimeFault::BadLevel)))),
    (Edit::ClearRequest(1_000_001, 16), Err(STEP_TOO_LARGE)),
    (
        Edit::ClearRequest(0, 16),
        Err(By(Time(TimeFault::BadLevel))),
    ),
];

fn carry_out<const NW: usize, const K: u32>(
    bench: &mut Bench<NW, 1, K>,
    edit: Edit,
) -> Result<(), Refused<BenchFault>> {
    match edit {
        Edit::Poke(step, address, value) => bench.set_poke(step, address, value),
        Edit::ClearPoke(step, address) => bench.clear_poke(step, address),
        Edit::PokeByte(step, address, value) => bench.set_poke_byte(step, address, value),
        Edit::ClearPokeByte(step, address) => bench.clear_poke_byte(step, address),
        Edit::Input(_, []) => Ok(()),
        Edit::Input(step, bytes) => bench.set_input(step, bytes),
        Edit::ClearInput(step) => bench.clear_input(step),
        Edit::Request(step, level) => bench.set_request(step, level),
        Edit::ClearRequest(step, level) => bench.clear_request(step, level),
    }
}

/// Whether an edit has this answer. Where memory for one that is accepted was refused, it has it when tried again.
fn has_answer<const NW: usize, const K: u32>(
    bench: &mut Bench<NW, 1, K>,
    edit: Edit,
    answer: Result<(), Refused<BenchFault>>,
) -> bool {
    let mut given = carry_out(bench, edit);
    if answer.is_ok() && given == Err(Refused::OutOfMemory) {
        given = carry_out(bench, edit);
    }
    given == answer
}

/// Whether each edit has its answer.
fn edits_events<const NW: usize, const K: u32>(bench: &mut Bench<NW, 1, K>) -> bool {
    for (edit, answer) in EDITS {
        if !has_answer(bench, *edit, *answer) {
            return false;
        }
    }
    true
}

#[test]
fn events_are_set_and_cleared(rt: HostRuntime) -> Result<(), Fail> {
    assert!(rt; holds::<8, 256>(rt.alloc(), &[], Question::EditsEvents)?);
    Ok(())
}

/// A query of memory, with its answer.
#[derive(Drop, Clone, Copy)]
enum Look {
    /// The words at a step, from an address on.
    Words(u32, u32, u32, Result<&'static [u32], Refused<BenchFault>>),
    /// The word at a step and an address.
    Word(u32, u32, Result<u32, Refused<BenchFault>>),
    /// The bytes put out below a step.
    Output(u32, Result<&'static [u8], Refused<BenchFault>>),
}

/// Queries of `PRINTS` in 4,096 bytes of RAM: words before and after they are stored, the first and the last of RAM, and each refusal.
const LOOKS: &[Look] = &[
    Look::Words(0, 0, 2, Ok(&[0x0320_0000, 0x8410_2048])),
    Look::Words(3, 0xfc, 3, Ok(&[0, 0, 0])),
    Look::Words(4, 0xfc, 3, Ok(&[0, 0x48, 0])),
    Look::Words(4, 0xffc, 1, Ok(&[0])),
    Look::Words(4, 0xffc, 0, Ok(&[])),
    Look::Words(4, 0xffc, 2, Err(BAD_ADDRESS)),
    Look::Words(4, 0x1000, 0, Err(BAD_ADDRESS)),
    Look::Words(4, 0x102, 1, Err(BAD_ADDRESS)),
    Look::Words(4, 0, u32::MAX, Err(BAD_ADDRESS)),
    Look::Words(1_000_001, 0x102, 1, Err(STEP_TOO_LARGE)),
    Look::Word(3, 0x100, Ok(0)),
    Look::Word(4, 0x100, Ok(0x48)),
    Look::Word(4, 0x101, Err(BAD_ADDRESS)),
    Look::Word(4, 0x1000, Err(BAD_ADDRESS)),
    Look::Word(1_000_001, 0x1000, Err(STEP_TOO_LARGE)),
    Look::Output(2, Ok(b"")),
    Look::Output(3, Ok(b"H")),
    Look::Output(1_000_001, Err(STEP_TOO_LARGE)),
];

fn has_words<const NW: usize, const K: u32>(
    bench: &mut Bench<NW, 1, K>,
    step: u32,
    address: u32,
    count: u32,
    answer: Result<&[u32], Refused<BenchFault>>,
) -> bool {
    match (bench.words_at(step, address, count), answer) {
        (Ok(words), Ok(wanted)) => words.as_slice() == wanted,
        (Err(fault), Err(wanted)) => fault == wanted,
        _ => false,
    }
}

fn has_output<const NW: usize, const K: u32>(
    bench: &mut Bench<NW, 1, K>,
    step: u32,
    answer: Result<&[u8], Refused<BenchFault>>,
) -> bool {
    match (bench.output_at(step), answer) {
        (Ok(bytes), Ok(wanted)) => bytes.as_slice() == wanted,
        (Err(fault), Err(wanted)) => fault == wanted,
        _ => false,
    }
}

/// Whether a query has its answer.
fn shows<const NW: usize, const K: u32>(bench: &mut Bench<NW, 1, K>, look: Look) -> bool {
    match look {
        Look::Words(step, address, count, answer) => {
            has_words(bench, step, address, count, answer)
        }
        Look::Word(step, address, answer) => bench.word_at(step, address) == answer,
        Look::Output(step, answer) => has_output(bench, step, answer),
    }
}

/// Whether each query has its answer.
fn shows_memory<const NW: usize, const K: u32>(bench: &mut Bench<NW, 1, K>) -> bool {
    for look in LOOKS {
        if !shows(bench, *look) {
            return false;
        }
    }
    true
}

#[test]
fn memory_and_output_are_shown(rt: HostRuntime) -> Result<(), Fail> {
    assert!(rt; holds::<8, 256>(rt.alloc(), PRINTS, Question::ShowsMemory)?);
    Ok(())
}
