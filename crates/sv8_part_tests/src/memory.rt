//! That the calls which take memory answer where there is enough of it: a body that always gave up would meet every contract.

ghost use Rattle.std.specs.Prelude.{◌≡◌, ◌%◌};
ghost use Rattle.sv8_model.specs.Size.{bytes_in};

use crate::told::Told;
use std::alloc::{AllocError, Global};
use std::test::Fail;
use sv8_phys::*;
use sv8_time::Timeline;

/// A memory of two pages.
fn blank(alloc: Global) -> Result<Phys<2>, Fail> {
    let memory = Phys::new(alloc)?;
    Ok(memory)
}

/// Puts so many bytes out.
fn print(memory: &mut Phys<2>, count: u32) -> Result<bool, Fail> {
    for _ in 0..count {
        if memory.write(OUTPUT, Size::Word, 0x48)?.is_err() {
            return Ok(false);
        }
    }
    Ok(true)
}

/// Pokes both pages, which are one at first.
fn poke(memory: &mut Phys<2>) -> Result<bool, Fail> {
    memory.poke(0x1001, 7)?;
    memory.poke(0x0003, 9)?;
    Ok(memory.word(0x1000) == 0x7_0000 && memory.word(0) == 9)
}

/// Takes a snapshot, and writes what it shares.
fn diverge(memory: &mut Phys<2>) -> Result<bool, Fail> {
    let before = memory.snapshot()?;
    memory.poke(0x10, 1)?;
    Ok(before.word(0x10) == 0 && memory.word(0x10) == 0x100_0000)
}

/// Changes a copy of a page, and puts it in the place of another.
fn exchange(memory: &mut Phys<2>) -> Result<bool, Fail> {
    let mut page = memory.page(0)?.share()?;
    page.set_word(0x20, 5)?;
    memory.put_page(0x1000, page)?;
    Ok(memory.word(0x1020) == 5 && memory.word(0x20) == 0)
}

#[test]
fn memory_is_enough(rt: HostRuntime) -> Result<(), Fail> {
    let mut memory = blank(rt.alloc())?;
    assert!(rt;
        print(&mut memory, 5000)?
            && poke(&mut memory)?
            && diverge(&mut memory)?
            && exchange(&mut memory)?
    );
    Ok(())
}

/// The number of bytes put out, after 5,000.
fn put_out(alloc: Global) -> Result<usize, Fail> {
    let mut memory = blank(alloc)?;
    print(&mut memory, 5000)?;
    Ok(memory.output(alloc)?.len())
}

#[test]
fn output_is_whole(rt: HostRuntime) -> Result<(), Fail> {
    assert!(rt; put_out(rt.alloc())? == 5000);
    Ok(())
}

/// The byte that is put out in a place.
fn byte_at(place: usize) -> u8 {
    (place % 251) as u8
}

/// Puts out the bytes of the places from `from` to `to`.
fn put_out_between(memory: &mut Phys<2>, from: usize, to: usize) -> Result<bool, Fail> {
    for place in from..to {
        let word = u64::from(byte_at(place));
        if memory.write(OUTPUT, Size::Word, word)?.is_err() {
            return Ok(false);
        }
    }
    Ok(true)
}

/// Whether a piece has so many bytes, those of the places from 512 times its number on; none where it is not there.
fn has_piece(memory: &Phys<2>, number: u8, count: usize) -> bool {
    match memory.output_piece(usize::from(number)) {
        None => count == 0,
        Some(piece) => {
            let places = usize::from(number) * 512..;
            count > 0
                && piece.len() == count
                && piece
                    .iter()
                    .zip(places)
                    .all(|(byte, place)| *byte == byte_at(place))
        }
    }
}

/// Whether the first three pieces have so many bytes each.
fn has_pieces(memory: &Phys<2>, counts: [usize; 3]) -> bool {
    has_piece(memory, 0, counts[0])
        && has_piece(memory, 1, counts[1])
        && has_piece(memory, 2, counts[2])
}

/// Pieces of 0, 1, 511, 512, 513 and 1,024 bytes of output.
fn pieces_grow(memory: &mut Phys<2>) -> Result<bool, Fail> {
    let none = has_pieces(memory, [0, 0, 0]);
    let one = put_out_between(memory, 0, 1)? && has_pieces(memory, [1, 0, 0]);
    let less = put_out_between(memory, 1, 511)? && has_pieces(memory, [511, 0, 0]);
    let full = put_out_between(memory, 511, 512)? && has_pieces(memory, [512, 0, 0]);
    let more = put_out_between(memory, 512, 513)? && has_pieces(memory, [512, 1, 0]);
    let twice = put_out_between(memory, 513, 1024)? && has_pieces(memory, [512, 512, 0]);
    Ok(none && one && less && full && more && twice)
}

#[test]
fn pieces_are_the_output(rt: HostRuntime) -> Result<(), Fail> {
    let mut memory = blank(rt.alloc())?;
    assert!(rt; pieces_grow(&mut memory)?);
    Ok(())
}

#[test]
fn levels_are_asked_at_once(rt: HostRuntime) -> Result<(), Fail> {
    let memory = blank(rt.alloc())?;
    let mut told = Told {
        notes: Vec::new(rt.alloc()),
    };
    memory.pending_among(0xfffe, &mut told)?;
    assert!(rt; told.notes.as_slice() == [Touch::Levels(0xfffe)].as_slice());
    Ok(())
}

/// Whether a load has an answer.
fn reads(memory: &Phys<2>, pa: u64, size: Size, answer: Option<u64>) -> bool
    requires { pa % bytes_in size ≡ 0 }
{
    memory.read(pa, size).ok() == answer
}

/// Stores a word, which something serves.
fn store(memory: &mut Phys<2>, pa: u64, value: u64) -> Result<bool, Fail>
    requires { pa % 4 ≡ 0 }
{
    let answer = memory.write(pa, Size::Word, value)?;
    Ok(answer.is_ok())
}

/// Loads of each size find their bytes, the most significant first; nothing serves the first address behind RAM.
fn reads_each_size(memory: &mut Phys<2>) -> Result<bool, Fail> {
    let stored = store(memory, 0x1ff8, 0x1122_3344)? && store(memory, 0x1ffc, 0x5566_7788)?;
    let refused = memory.write(0x2000, Size::Word, 1)?.is_err();
    Ok(
        stored
            && refused
            && reads(memory, 0x1ffb, Size::Byte, Some(0x44))
            && reads(memory, 0x1ffe, Size::Half, Some(0x7788))
            && reads(memory, 0x1ff8, Size::Word, Some(0x1122_3344))
            && reads(memory, 0x1ff8, Size::Double, Some(0x1122_3344_5566_7788))
            && reads(memory, 0x2000, Size::Word, None),
    )
}

/// The console's input and a half of a device are not read by `read`; its output reads 0.
fn reads_devices(memory: &Phys<2>) -> bool {
    reads(memory, INPUT, Size::Word, None)
        && reads(memory, WAITING, Size::Word, None)
        && reads(memory, OUTPUT, Size::Half, None)
        && reads(memory, OUTPUT, Size::Word, Some(0))
}

/// A count of 2 expires at the second step, starts again from 3, and then level 10 pends until it is cleared.
fn ticks(memory: &mut Phys<2>) -> Result<bool, Fail> {
    memory.tick();
    let rests = reads(memory, TIMER_COUNT, Size::Word, Some(0)) && memory.pending() == 0;
    let set = store(memory, TIMER_COUNT, 2)? && store(memory, TIMER_RELOAD, 3)?;
    memory.tick();
    let falls = reads(memory, TIMER_COUNT, Size::Word, Some(1)) && memory.pending() == 0;
    memory.tick();
    let expires = reads(memory, TIMER_COUNT, Size::Word, Some(3))
        && reads(memory, PENDING, Size::Word, Some(0x400))
        && memory.pending() == 0x400;
    let clears = store(memory, PENDING, 0x400)?;
    Ok(rests && set && falls && expires && clears && memory.pending() == 0)
}

#[test]
fn calls_without_notes_answer(rt: HostRuntime) -> Result<(), Fail> {
    let mut memory = blank(rt.alloc())?;
    assert!(rt; reads_devices(&memory) && reads_each_size(&mut memory)? && ticks(&mut memory)?);
    Ok(())
}

/// Whether so many bytes wait at a step, and whether this byte is taken next.
fn takes(memory: &mut Phys<2>, timeline: &Timeline, before: u32, count: u32, byte: u8) -> bool {
    if timeline.count_below(before) < memory.taken() {
        return false;
    }
    memory.waiting(before, timeline) == count && memory.take_input(before, timeline) == byte
}

/// Two bytes come in at step 2, and one at step 5.
fn fill(timeline: &mut Timeline, alloc: Global) -> bool {
    timeline.set_input(alloc, 5, b"c").is_ok() && timeline.set_input(alloc, 2, b"ab").is_ok()
}

/// The oldest byte first, and 0 where none waits, which takes none.
fn takes_each(memory: &mut Phys<2>, timeline: &Timeline) -> bool {
    takes(memory, timeline, 2, 0, 0)
        && takes(memory, timeline, 3, 2, b'a')
        && takes(memory, timeline, 3, 1, b'b')
        && takes(memory, timeline, 5, 0, 0)
        && takes(memory, timeline, 6, 1, b'c')
        && memory.taken() == 3
}

fn takes_what_came(memory: &mut Phys<2>, alloc: Global) -> bool {
    let mut timeline = Timeline::new(alloc, 0x2000);
    fill(&mut timeline, alloc) && takes_each(memory, &timeline)
}

#[test]
fn input_is_taken_in_order(rt: HostRuntime) -> Result<(), Fail> {
    let mut memory = blank(rt.alloc())?;
    assert!(rt; takes_what_came(&mut memory, rt.alloc()));
    Ok(())
}
