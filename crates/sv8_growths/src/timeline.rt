//! Sets events in a timeline, and copies it: each call that is refused memory leaves the timeline as it was, and each
//! other one does its work.

use std::alloc::{AllocError, Global};
use sv8_model::Refused;
use sv8_time::{TimeFault, Timeline};

/// How many steps have events.
const STEPS: usize = 12;

/// What stands at each step.
type Seen = [(u32, usize, u32, u32); STEPS];

/// What stands at the first steps: the poked bytes, the number of words with any, the bytes and the requested levels.
fn look_at(timeline: &Timeline) -> Seen {
    let mut all = [(0, 0, 0, 0); STEPS];
    for step in 0..STEPS as u32 {
        let events = timeline.events(step);
        let mut value = 0u32;
        for word in events.pokes {
            value = value.wrapping_mul(31).wrapping_add(word.address);
            for byte in word.bytes {
                value = value
                    .wrapping_mul(257)
                    .wrapping_add(byte.map_or(0, |byte| u32::from(byte) + 1));
            }
        }
        let mut bytes = 0u32;
        for byte in events.bytes {
            bytes = bytes.wrapping_mul(257).wrapping_add(u32::from(*byte) + 1);
        }
        let mut levels = 0u32;
        for request in events.requests {
            levels = levels.wrapping_mul(17).wrapping_add(request.level.number());
        }
        all[step as usize] = (value, events.pokes.len(), bytes, levels);
    }
    all
}

fn is_kept(answer: Result<(), Refused<TimeFault>>, before: Seen, after: Seen) -> bool {
    match answer {
        Ok(()) => before != after,
        Err(Refused::OutOfMemory) => before == after,
        Err(_) => false,
    }
}

/// Whether a copy has the same events, at the second try where memory was refused at the first.
fn is_copied(alloc: Global, timeline: &Timeline) -> bool {
    let before = look_at(timeline);
    let copied = match timeline.copy(alloc) {
        Ok(copy) => before == look_at(&copy),
        Err(_) => match timeline.copy(alloc) {
            Ok(copy) => before == look_at(&copy),
            Err(_) => false,
        },
    };
    copied && before == look_at(timeline)
}

pub fn keeps(alloc: Global) -> Result<bool, AllocError> {
    let mut timeline = Timeline::new(alloc, 4_096);
    let mut kept = true;
    for turn in 0..36u32 {
        let step = (turn * 7) % 12;
        let before = look_at(&timeline);
        let answer = timeline.set_poke(alloc, step, 4 * turn, turn + 1);
        kept = kept && is_kept(answer, before, look_at(&timeline));
        let before = look_at(&timeline);
        let answer = timeline.set_poke_byte(alloc, step, 4 * turn + 1, turn as u8 + 101);
        kept = kept && is_kept(answer, before, look_at(&timeline));
        let before = look_at(&timeline);
        let answer = timeline.set_poke_byte(alloc, step, 4 * turn + 1_026, turn as u8);
        kept = kept && is_kept(answer, before, look_at(&timeline));
        let before = look_at(&timeline);
        let answer = timeline.set_request(alloc, step, 1 + turn % 15);
        kept = kept && is_kept(answer, before, look_at(&timeline));
        let before = look_at(&timeline);
        let answer = timeline.set_input(
            alloc,
            step,
            &b"abcdefghijklmnopqrstuvwxyz0123456789"[..1 + turn as usize],
        );
        kept = kept && is_kept(answer, before, look_at(&timeline));
    }
    Ok(kept && is_copied(alloc, &timeline))
}
