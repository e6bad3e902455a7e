//! That a timeline is copied where there is memory for it, also one of as many events as may stand.

use std::alloc::Global;
use sv8_time::Timeline;

/// How many steps have a poke, bytes and a request each; with one more request these are all events that may stand.
const STEPS: u32 = 21_845;

/// Whether each step gets its events, and one more request stands.
fn fills(alloc: Global, timeline: &mut Timeline) -> bool {
    for step in 0..STEPS {
        if timeline
            .set_poke(alloc, step, 4 * (step % 1_024), step)
            .is_err()
            || timeline.set_input(alloc, step, b"ab").is_err()
            || timeline.set_request(alloc, step, step % 15 + 1).is_err()
        {
            return false;
        }
    }
    timeline.set_request(alloc, STEPS, 3).is_ok()
}

/// Whether the poke, the bytes and the request of a step stand there.
fn has_events(timeline: &Timeline, step: u32) -> bool {
    let events = timeline.events(step);
    let requested = match events.requests {
        [request] => request.level.number() == step % 15 + 1,
        _ => false,
    };
    let poked = match events.pokes {
        [word] => word.address == 4 * (step % 1_024) && word.bytes[3] == Some((step % 256) as u8),
        _ => false,
    };
    poked && requested && events.bytes == b"ab".as_slice()
}

/// Whether all events stand.
fn is_whole(timeline: &Timeline) -> bool {
    let mut holds = timeline.events(STEPS).requests.len() == 1;
    for step in 0..STEPS {
        holds = holds && has_events(timeline, step);
    }
    holds
}

/// Whether a copy has all events, and keeps them when the first timeline is edited, and whether the first one keeps its
/// own when the copy is.
fn copies(alloc: Global, timeline: &mut Timeline) -> bool {
    match timeline.copy(alloc) {
        Ok(mut copy) => {
            timeline.clear_poke(7, 28).is_ok()
                && is_whole(&copy)
                && !has_events(timeline, 7)
                && copy.clear_request(8, 9).is_ok()
                && has_events(timeline, 8)
        }
        Err(_) => false,
    }
}

fn is_copied(alloc: Global) -> bool {
    let mut timeline = Timeline::new(alloc, 4_096);
    fills(alloc, &mut timeline) && copies(alloc, &mut timeline)
}

/// Whether a new timeline has no events, and one may be asked for at the step of an event.
fn tells_events(alloc: Global) -> bool {
    let mut timeline = Timeline::new(alloc, 4_096);
    let none = !timeline.may_have_events(3) && !timeline.may_have_events(0);
    let set = timeline.set_request(alloc, 3, 5).is_ok();
    none && set && timeline.may_have_events(3)
}

#[test]
fn a_step_without_events_is_known(rt: HostRuntime) {
    assert!(rt; tells_events(rt.alloc()));
}

#[test]
fn a_full_timeline_is_copied(rt: HostRuntime) {
    assert!(rt; is_copied(rt.alloc()));
}
