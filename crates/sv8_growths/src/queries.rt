//! Asks a workbench for registers, words and output between edits of its source and of its timeline: each query and each edit that is
//! refused memory leaves the workbench as it was, with its counts, so that it has its answer when it is made once more. At last it is copied, and walked.

use std::alloc::{AllocError, Global};
use sv8_bench::{Bench, BenchFault};
use sv8_model::Refused;
use sv8_touches::Watch;
use sv8_walks::{Walk, walk_in_lockstep};

type Small = Bench<8, 2, 256>;

/// A program that puts a byte out at step 2 and stores it at step 3.
const LINES: &[&[u8]] = &[
    b"sethi 0x200000, %g1",
    b"mov 0x48, %g2",
    b"st %g2, [%g1+8]",
    b"st %g2, [0x100]",
    b"end: ba end",
    b"nop",
];

/// An edit or a query, with its answer.
#[derive(Drop, Clone, Copy)]
enum Deed {
    /// The second line is to have another number.
    Edit(&'static [u8]),
    /// A poke of a word at a step.
    Poke(u32, u32, u32),
    /// The poke of a word at a step is cleared.
    Unpoke(u32, u32),
    /// A poke of a byte at a step.
    PokeByte(u32, u32, u8),
    /// The poke of a byte at a step is cleared.
    UnpokeByte(u32, u32),
    /// Input at a step.
    Input(u32, &'static [u8]),
    /// The input at a step is cleared.
    Uninput(u32),
    /// A request of a level at a step.
    Request(u32, u32),
    /// The request of a level at a step is cleared.
    Unrequest(u32, u32),
    /// PC, %g2 and the pending levels at a step.
    Registers(u32, u32, u32, u32),
    /// The words at a step, from an address on.
    Words(u32, u32, &'static [u32]),
    /// The word at a step and an address.
    Word(u32, u32, u32),
    /// The bytes put out below a step.
    Output(u32, &'static [u8]),
}

const DEEDS: &[Deed] = &[
    Deed::Registers(4, 0x10, 0x48, 0),
    Deed::Words(4, 0xfc, &[0, 0x48, 0]),
    Deed::Word(3, 0x100, 0),
    Deed::Output(3, b"H"),
    Deed::Poke(5, 0x104, 7),
    Deed::Words(6, 0x100, &[0x48, 7]),
    Deed::Words(5, 0x100, &[0x48, 0]),
    Deed::PokeByte(5, 0x106, 9),
    Deed::PokeByte(700, 0x107, 8),
    Deed::Words(6, 0x104, &[0x907]),
    Deed::Words(900, 0x104, &[0x908]),
    Deed::UnpokeByte(700, 0x107),
    Deed::UnpokeByte(5, 0x106),
    Deed::Words(900, 0x104, &[7]),
    Deed::Poke(800, 0x104, 3),
    Deed::Unpoke(800, 0x104),
    Deed::Words(900, 0x104, &[7]),
    Deed::Input(5, b"AB"),
    Deed::Input(6, b"C"),
    Deed::Uninput(6),
    Deed::Request(5, 3),
    Deed::Request(5, 4),
    Deed::Unrequest(5, 4),
    Deed::Registers(6, 0x10, 0x48, 8),
    Deed::Edit(b"mov 0x49, %g2"),
    Deed::Output(900, b"I"),
    Deed::Word(900, 0x104, 7),
    Deed::Registers(2, 8, 0x49, 0),
];

fn edit(alloc: Global, bench: &mut Small, text: &[u8]) -> Result<bool, Refused<BenchFault>> {
    let mut lines = Vec::new(alloc);
    let line = text.to_vec(alloc)?;
    if lines.push(line).is_err() {
        return Err(Refused::OutOfMemory);
    }
    bench.replace_lines(2, 2, &lines)?;
    Ok(true)
}

fn shows(
    bench: &mut Small,
    step: u32,
    wanted: (u32, u32, u32),
) -> Result<bool, Refused<BenchFault>> {
    let shown = bench.regs_at(step)?;
    Ok((shown.pc, shown.registers[2], shown.pending) == wanted)
}

fn has_words(
    bench: &mut Small,
    step: u32,
    address: u32,
    wanted: &[u32],
) -> Result<bool, Refused<BenchFault>> {
    let words = bench.words_at(step, address, wanted.len().min(9) as u32)?;
    Ok(words.as_slice() == wanted)
}

fn has_output(bench: &mut Small, step: u32, wanted: &[u8]) -> Result<bool, Refused<BenchFault>> {
    let bytes = bench.output_at(step)?;
    Ok(bytes.as_slice() == wanted)
}

/// Does what is to be done, and tells whether it has its answer.
fn carry_out(alloc: Global, bench: &mut Small, deed: Deed) -> Result<bool, Refused<BenchFault>> {
    match deed {
        Deed::Edit(text) => edit(alloc, bench, text),
        Deed::Poke(step, address, value) => bench.set_poke(step, address, value).map(|_| true),
        Deed::Unpoke(step, address) => bench.clear_poke(step, address).map(|_| true),
        Deed::PokeByte(step, address, value) => {
            bench.set_poke_byte(step, address, value).map(|_| true)
        }
        Deed::UnpokeByte(step, address) => bench.clear_poke_byte(step, address).map(|_| true),
        Deed::Input(_, []) => Ok(false),
        Deed::Input(step, bytes) => bench.set_input(step, bytes).map(|_| true),
        Deed::Uninput(step) => bench.clear_input(step).map(|_| true),
        Deed::Request(step, level) => bench.set_request(step, level).map(|_| true),
        Deed::Unrequest(step, level) => bench.clear_request(step, level).map(|_| true),
        Deed::Registers(step, pc, g2, pending) => shows(bench, step, (pc, g2, pending)),
        Deed::Words(step, address, words) => has_words(bench, step, address, words),
        Deed::Word(step, address, word) => Ok(bench.word_at(step, address)? == word),
        Deed::Output(step, bytes) => has_output(bench, step, bytes),
    }
}

/// Whether a deed is a query, which may have recorded and made steps before it was refused.
fn is_query(deed: Deed) -> bool {
    match deed {
        Deed::Registers(..) | Deed::Words(..) | Deed::Word(..) | Deed::Output(..) => true,
        Deed::Edit(_)
        | Deed::Poke(..)
        | Deed::Unpoke(..)
        | Deed::PokeByte(..)
        | Deed::UnpokeByte(..)
        | Deed::Input(..)
        | Deed::Uninput(_)
        | Deed::Request(..)
        | Deed::Unrequest(..) => false,
    }
}

/// How many steps are recorded, and how many were made.
fn counts(bench: &Small) -> (u32, u64) {
    (bench.recorded(), bench.worked())
}

/// Whether a deed has its answer, at the second try where memory was refused at the first. A refused edit leaves the counts, and an edit makes
/// no step; a refused query lowers none.
fn is_done(alloc: Global, bench: &mut Small, deed: Deed) -> bool {
    let before = counts(bench);
    match carry_out(alloc, bench, deed) {
        Err(Refused::OutOfMemory) => {
            let refused = counts(bench);
            let kept = if is_query(deed) {
                before.0 <= refused.0 && before.1 <= refused.1
            } else {
                before == refused
            };
            kept && carry_out(alloc, bench, deed) == Ok(true)
        }
        answer => answer == Ok(true) && (is_query(deed) || counts(bench).1 == before.1),
    }
}

/// A workbench, at the second try where memory was refused at the first.
fn new(alloc: Global) -> Result<Small, AllocError> {
    match Small::new(alloc) {
        Ok(bench) => Ok(bench),
        Err(_) => Small::new(alloc),
    }
}

/// A copy of a workbench, at the second try where memory was refused at the first.
fn copied(alloc: Global, bench: &Small) -> Result<Small, AllocError> {
    match bench.copy(alloc) {
        Ok(copy) => Ok(copy),
        Err(_) => bench.copy(alloc),
    }
}

/// Whether a copy has the counts of its workbench, and answers as it does.
fn is_copied(alloc: Global, bench: &Small) -> bool {
    match copied(alloc, bench) {
        Ok(mut copy) => {
            let counted = counts(&copy) == counts(bench);
            is_done(alloc, &mut copy, Deed::Word(900, 0x104, 7)) && counted
        }
        Err(_) => false,
    }
}

/// Whether a walk leads over the next checkpoint.
fn walked(alloc: Global, bench: &mut Small) -> Result<bool, AllocError> {
    let mut watch = Watch::new(alloc);
    let mut walk = Walk::begin(bench, 1_279, &mut watch)?;
    walk.go_on(bench, &mut watch)?;
    walk.pass::<256, 0>(bench, &mut watch)?;
    Ok(walk.step() == 1_281 && bench.recorded() == 1_280 && walk.machine().word(0x104) == 7)
}

/// The same, at the second try where memory was refused at the first.
fn is_walked(alloc: Global, bench: &mut Small) -> bool {
    match walked(alloc, bench) {
        Ok(led) => led,
        Err(_) => matches!(walked(alloc, bench), Ok(true)),
    }
}

/// Whether a walk of a workbench and one of another go on together over a byte that is put out and a store.
fn walked_together(
    alloc: Global,
    bench: &mut Small,
    other: &mut Small,
) -> Result<bool, AllocError> {
    let mut watch = Watch::new(alloc);
    let mut walk = Walk::begin(bench, 2, &mut watch)?;
    let mut other_walk = Walk::begin(other, 2, &mut watch)?;
    if !other_walk.machine().has_same_processor(walk.machine()) {
        return Ok(false);
    }
    walk_in_lockstep(bench, other, &mut walk, &mut other_walk, 5)?;
    let stored = walk.machine().word(0x100);
    Ok(walk.step() == 5 && stored != 0 && other_walk.machine().word(0x100) == stored)
}

/// The same of a workbench and its copy, at the second try where memory was refused at the first.
fn are_walked(alloc: Global, bench: &mut Small) -> bool {
    match copied(alloc, bench) {
        Ok(mut other) => match walked_together(alloc, bench, &mut other) {
            Ok(led) => led,
            Err(_) => matches!(walked_together(alloc, bench, &mut other), Ok(true)),
        },
        Err(_) => false,
    }
}

/// Whether the names are told, at the second try where memory was refused at the first.
fn is_named(bench: &Small) -> bool {
    match bench.names() {
        Ok(names) => names.len() == 1,
        Err(_) => match bench.names() {
            Ok(names) => names.len() == 1,
            Err(_) => false,
        },
    }
}

fn made(alloc: Global) -> Result<Option<Small>, AllocError> {
    let mut lines = Vec::new(alloc);
    for text in LINES {
        lines.push(text.to_vec(alloc)?)?;
    }
    let mut bench = new(alloc)?;
    match bench.replace_lines(1, 0, &lines) {
        Ok(()) => Ok(Some(bench)),
        Err(Refused::OutOfMemory) => Err(AllocError),
        Err(_) => Ok(None),
    }
}

pub fn keeps(alloc: Global) -> Result<bool, AllocError> {
    let Some(mut bench) = made(alloc)? else {
        return Ok(false);
    };
    let mut kept = true;
    for deed in DEEDS {
        kept = is_done(alloc, &mut bench, *deed) && kept;
    }
    let copied = is_copied(alloc, &bench) && is_named(&bench);
    let walked = is_walked(alloc, &mut bench);
    Ok(kept && copied && walked && are_walked(alloc, &mut bench))
}
