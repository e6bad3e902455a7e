//! Timelines at their bounds, with answers worked out by hand.

use std::alloc::Global;
use sv8_model::Refused::{self, By};
use sv8_time::{InputBytes, TimeFault, Timeline, TimelineEdit};

/// An edit of a timeline.
#[derive(Clone, Copy)]
enum Deed {
    Poke(u32, u32, u32),
    Unpoke(u32, u32),
    PokeByte(u32, u32, u8),
    UnpokeByte(u32, u32),
    Input(u32, &'static [u8]),
    Uninput(u32),
    Request(u32, u32),
    Unrequest(u32, u32),
}

/// The edit of a deed; no bytes that come in are none.
fn edit_of(deed: Deed) -> Option<TimelineEdit<'static>> {
    let edit = match deed {
        Deed::Poke(step, address, value) => TimelineEdit::SetPoke {
            step,
            address,
            value,
        },
        Deed::Unpoke(step, address) => TimelineEdit::ClearPoke { step, address },
        Deed::PokeByte(step, address, value) => TimelineEdit::SetPokeByte {
            step,
            address,
            value,
        },
        Deed::UnpokeByte(step, address) => TimelineEdit::ClearPokeByte { step, address },
        Deed::Input(_, []) => return None,
        Deed::Input(step, bytes) => TimelineEdit::SetInput {
            step,
            bytes: InputBytes::new(bytes),
        },
        Deed::Uninput(step) => TimelineEdit::ClearInput { step },
        Deed::Request(step, level) => TimelineEdit::SetRequest { step, level },
        Deed::Unrequest(step, level) => TimelineEdit::ClearRequest { step, level },
    };
    Some(edit)
}

fn carry_out(timeline: &mut Timeline, alloc: Global, deed: Deed) -> Result<(), Refused<TimeFault>> {
    match edit_of(deed) {
        Some(edit) => timeline.edit(alloc, &edit),
        None => Ok(()),
    }
}

/// Whether the deeds, one after the other, have their answers.
fn has_answers(
    timeline: &mut Timeline,
    alloc: Global,
    deeds: &[(Deed, Result<(), Refused<TimeFault>>)],
) -> bool {
    for (deed, answer) in deeds {
        if carry_out(timeline, alloc, *deed) != *answer {
            return false;
        }
    }
    true
}

/// Whether all but two of the events that may stand can be set.
fn fills(timeline: &mut Timeline, alloc: Global) -> bool {
    for step in 0..65_534 {
        if timeline.set_request(alloc, step, step % 15 + 1).is_err() {
            return false;
        }
    }
    true
}

const LONG: [u8; 1_025] = [b'x'; 1_025];

use Deed::*;
use TimeFault::*;

/// Words and bytes at the end of a RAM that ends within a word.
const AT_THE_END: &[(Deed, Result<(), Refused<TimeFault>>)] = &[
    (Poke(0, 4_096, 0), Err(By(BadAddress))),
    (Poke(0, 0xFFFF_FFFC, 0), Err(By(BadAddress))),
    (Poke(1_000_000, 4_092, 0), Ok(())),
    (PokeByte(0, 4_097, 1), Ok(())),
    (PokeByte(0, 4_098, 1), Err(By(BadAddress))),
    (Unpoke(0, 4_096), Err(By(BadAddress))),
    (UnpokeByte(0, 4_096), Err(By(NothingThere))),
    (UnpokeByte(0, 4_097), Ok(())),
];

/// Two more events have a place; bytes of one word are one event, and what stands can be replaced.
const FULL: &[(Deed, Result<(), Refused<TimeFault>>)] = &[
    (PokeByte(5, 9, 1), Ok(())),
    (Input(5, b"a"), Ok(())),
    (Poke(5, 12, 1), Err(By(TooManyEvents))),
    (PokeByte(5, 12, 1), Err(By(TooManyEvents))),
    (PokeByte(5, 11, 1), Ok(())),
    (Poke(5, 8, 1), Ok(())),
    (Input(6, b"a"), Err(By(TooManyEvents))),
    (Input(6, &LONG), Err(By(TooManyEvents))),
    (Input(5, &LONG), Err(By(InputTooLong))),
    (Input(5, b"bc"), Ok(())),
    (Request(5, 5), Err(By(TooManyEvents))),
    (Request(5, 6), Ok(())),
    (UnpokeByte(5, 9), Ok(())),
    (Request(5, 5), Err(By(TooManyEvents))),
    (Unpoke(5, 8), Ok(())),
    (Request(5, 5), Ok(())),
    (Uninput(5), Ok(())),
    (Unrequest(5, 6), Ok(())),
    (Unrequest(5, 6), Err(By(NothingThere))),
];

fn ends_well(alloc: Global) -> bool {
    let mut timeline = Timeline::new(alloc, 4_098);
    has_answers(&mut timeline, alloc, AT_THE_END)
}

fn is_full_at_last(alloc: Global) -> bool {
    let mut timeline = Timeline::new(alloc, 4_096);
    fills(&mut timeline, alloc) && has_answers(&mut timeline, alloc, FULL)
}

#[test]
fn bytes_end_with_ram(rt: HostRuntime) {
    assert!(rt; ends_well(rt.alloc()));
}

#[test]
fn no_more_than_65536_events_stand(rt: HostRuntime) {
    assert!(rt; is_full_at_last(rt.alloc()));
}
