//! Writes to a memory whose pages and output are shared with snapshots, with notes of what is touched: each write that is refused memory
//! leaves the memory as it was, each other one does what it should, and what a step touched is recorded once there is room.

use std::alloc::{AllocError, Global};
use sv8_notes::{Cell, Notes, Recorder, Sought};
use sv8_phys::{Phys, Size, Touch, Touches};
use sv8_touches::StepTouches;

/// Memory of 66 pages.
type Memory = Phys<66>;

/// Words that are looked at: two of the first page, one of another page, one of the last page.
const PLACES: [u32; 4] = [0x300, 0x304, 0x5000, 0x4_1ffc];

/// Those words, and what was put out, which is unknown where no memory is left for it.
#[derive(Drop)]
struct Seen {
    words: [u32; 4],
    output: Option<Vec<u8>>,
}

fn words(memory: &Memory) -> [u32; 4] {
    [
        memory.word(0x300),
        memory.word(0x304),
        memory.word(0x5000),
        memory.word(0x4_1ffc),
    ]
}

fn look_at(alloc: Global, memory: &Memory) -> Seen {
    Seen {
        words: words(memory),
        output: memory.output(alloc).ok(),
    }
}

fn is_same(before: &Seen, after: &Seen) -> bool {
    let output = match (&before.output, &after.output) {
        (Some(first), Some(second)) => first.as_slice() == second.as_slice(),
        _ => true,
    };
    before.words == after.words && output
}

/// Whether a word was put out behind the bytes from before, of which it is only the low byte.
fn is_put_out(before: &Seen, after: &Seen, value: u64) -> bool {
    match (&before.output, &after.output) {
        (Some(first), Some(second)) => {
            second.len() == first.len().saturating_add(1)
                && second.starts_with(first.as_slice())
                && second.last().copied().map(u64::from) == Some(value % 256)
        }
        _ => true,
    }
}

/// Stores a word of RAM with its note, and tells whether the memory is then as it should be.
fn stores(
    alloc: Global,
    memory: &mut Memory,
    place: usize,
    value: u32,
    notes: &mut StepTouches,
) -> bool {
    let Some(pa) = PLACES.get(place).copied() else {
        return false;
    };
    if pa % 4 != 0 {
        return false;
    }
    let before = look_at(alloc, memory);
    let answer = memory.write_noted(u64::from(pa), Size::Word, u64::from(value), notes);
    let after = look_at(alloc, memory);
    match answer {
        Ok(Ok(())) => after.words.get(place).copied() == Some(value),
        Ok(Err(_)) => false,
        Err(_) => is_same(&before, &after),
    }
}

/// Pokes the first byte of a word of RAM, and tells whether the memory is then as it should be.
fn pokes(alloc: Global, memory: &mut Memory, byte: u8) -> bool {
    let before = look_at(alloc, memory);
    let answer = memory.poke(PLACES[2], byte);
    let after = look_at(alloc, memory);
    match answer {
        Ok(()) => after.words[2] / 0x100_0000 == u32::from(byte),
        Err(_) => is_same(&before, &after),
    }
}

/// Puts a byte out, and tells whether the memory is then as it should be.
fn puts_out(alloc: Global, memory: &mut Memory, value: u64) -> bool {
    let before = look_at(alloc, memory);
    let answer = memory.write(0x8000_0008, Size::Word, value);
    let after = look_at(alloc, memory);
    match answer {
        Ok(Ok(())) => is_put_out(&before, &after, value),
        Ok(Err(_)) => false,
        Err(_) => is_same(&before, &after),
    }
}

/// Puts the first page in the place of another, where the pages are shared, and tells whether the memory is then as it should be.
fn moves_page(alloc: Global, memory: &mut Memory) -> bool {
    let before = look_at(alloc, memory);
    let (Ok(page), Ok(_shared)) = (memory.page(0), memory.snapshot()) else {
        return true;
    };
    let answer = memory.put_page(0x4_1000, page);
    let after = look_at(alloc, memory);
    match answer {
        Ok(()) => after.words[3] == 0,
        Err(_) => is_same(&before, &after),
    }
}

/// Takes a snapshot, changes the memory, and tells whether both are as they should be.
fn changes(alloc: Global, memory: &mut Memory, turn: u32, notes: &mut StepTouches) -> bool {
    let Ok(snapshot) = memory.snapshot() else {
        return true;
    };
    let before = look_at(alloc, &snapshot);
    let mut kept = true;
    for place in 0..4usize {
        kept = stores(alloc, memory, place, turn.wrapping_add(7), notes) && kept;
    }
    kept = puts_out(alloc, memory, u64::from(turn)) && kept;
    kept = pokes(alloc, memory, (turn.wrapping_add(3) % 256) as u8) && kept;
    kept = moves_page(alloc, memory) && kept;
    kept && is_same(&before, &look_at(alloc, &snapshot))
}

/// Records a step of these touches, and gives the notes.
fn record(recorder: &mut Recorder, touches: &[Touch]) -> Result<Notes, AllocError> {
    recorder.record(0, touches)?;
    recorder.begin(1);
    for place in 0..4u32 {
        recorder.note(Touch::Read(0x100 + 8 * place))?;
    }
    recorder.end()?;
    recorder.copy_notes()
}

/// Records the step of a memory's changes and one that reads four words, once more where that was refused, and tells whether both
/// are there.
fn records(alloc: Global, touches: &[Touch]) -> bool {
    let mut recorder = Recorder::new(alloc);
    let notes = match record(&mut recorder, touches) {
        Ok(notes) => notes,
        Err(_) => match record(&mut recorder, touches) {
            Ok(notes) => notes,
            Err(_) => return false,
        },
    };
    let is_written = |place: u32| notes.first_from(Sought::Write(Cell::Byte(place)), 0, 2)
        == Some(0);
    let is_read = |place: u32| notes.first_from(Sought::Read(Cell::Byte(place)), 0, 2) == Some(1);
    PLACES.iter().all(|place| is_written(*place)) && is_read(0x100) && is_read(0x118)
}

pub fn keeps(alloc: Global) -> Result<bool, AllocError> {
    let mut memory = Memory::new(alloc)?;
    let mut notes = StepTouches::new(alloc);
    let mut kept = true;
    for turn in 0..6u32 {
        kept = changes(alloc, &mut memory, turn, &mut notes) && kept;
    }
    kept = records(alloc, notes.touches()) && kept;
    notes.clear();
    // Up to the end of a chunk of the output, and over it.
    for turn in 0..4_070u64 {
        let _ = memory.write(0x8000_0008, Size::Word, turn);
    }
    for turn in 0..40u64 {
        kept = puts_out(alloc, &mut memory, turn) && kept;
    }
    kept = changes(alloc, &mut memory, 9, &mut notes) && kept;
    Ok(kept)
}
