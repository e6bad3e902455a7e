//! Where `part` begins to compare, and how many steps it makes.

use std::alloc::Global;
use std::test::Fail;
use sv8_bench::Bench;
use sv8_monitor::{Monitor, run};

/// A monitor of a machine with one page of RAM, and with a checkpoint every 250 steps, so that one stands at the last
/// step.
type Small = Monitor<8, 1, 250>;

/// Lines of a script, with what they come to.
struct Deed {
    script: &'static [u8],
    answer: &'static [u8],
    /// The steps made in all, by the workbench that is edited and by the one that was kept.
    worked: (u64, u64),
    /// The step up to which both are known to be alike.
    common: u32,
}

/// What is done to a new monitor, one after the other.
const DEEDS: &[Deed] = &[
    // A loop of two steps: each even step reads the word at 0, each odd one that at 4, and none reads another word.
    Deed {
        script: b"edit 1 0 2\nagain: ba again\ninc %g1\n",
        answer: b"ok\n",
        worked: (0, 0),
        common: 0,
    },
    Deed {
        script: b"mem 1000000 0 1\n",
        answer: b"00000000 10800000\nok\n",
        worked: (1_000_000, 0),
        common: 0,
    },
    // What was edited before does not matter any more.
    Deed {
        script: b"keep\npart 0 1000000\n",
        answer: b"ok\nok\n",
        worked: (1_000_000, 1_000_000),
        common: 1_000_000,
    },
    // No step reads this word.
    Deed {
        script: b"poke 1 200 01000000\npart 0 1000000\n",
        answer: b"ok\nok\n",
        worked: (1_000_000, 1_000_000),
        common: 1_000_000,
    },
    // Step 301 reads this one, and both begin at the checkpoint below it.
    Deed {
        script: b"poke 300 4 01000000\npart 0 250\npart 300 299\npart 1000001 0\n",
        answer: b"ok\nok\nok\nrefused 13 StepTooLarge\n",
        worked: (1_000_000, 1_000_000),
        common: 250,
    },
    Deed {
        script: b"part 0 1000000\n",
        answer: b"step 302\nok\n",
        worked: (1_000_052, 1_000_052),
        common: 250,
    },
    Deed {
        script: b"part 260 1000000\n",
        answer: b"step 302\nok\n",
        worked: (1_000_104, 1_000_104),
        common: 250,
    },
    // What is refused, and what asks, changes nothing, though no more than 250 steps are recorded.
    Deed {
        script: b"keep\npoke 1 3 5\nnothing\nunpoke 5 200\npart 0 1000000\n",
        answer: b"ok\nrefused 14 BadAddress\nrefused 18 BadCommand\nrefused 16 NothingThere\nok\n",
        worked: (1_000_104, 1_000_104),
        common: 1_000_000,
    },
    Deed {
        script: b"names\nbefore names\npart 0 1000000\n",
        answer: b"00000000 label again\nok\n00000000 label again\nok\nok\n",
        worked: (1_000_104, 1_000_104),
        common: 1_000_000,
    },
    Deed {
        script: b"unpoke 300 4\npart 0 251\n",
        answer: b"ok\nok\n",
        worked: (1_000_105, 1_000_105),
        common: 250,
    },
];

/// Whether lines come to what they should.
fn comes_to(alloc: Global, monitor: &mut Small, deed: &Deed) -> bool {
    let mut rest = deed.script;
    let mut written = Vec::new(alloc);
    let ended = run(alloc, monitor, &mut rest, &mut written);
    let worked = (monitor.current().worked(), monitor.before().worked());
    ended.is_ok()
        && written.as_slice() == deed.answer
        && worked == deed.worked
        && monitor.common() == deed.common
}

/// Whether all do.
fn all_come_to(alloc: Global, monitor: &mut Small) -> bool {
    for deed in DEEDS {
        if !comes_to(alloc, monitor, deed) {
            return false;
        }
    }
    true
}

#[test]
fn parting_makes_no_step_that_is_known_to_be_alike(rt: HostRuntime) -> Result<(), Fail> {
    let bench = Bench::new(rt.alloc())?;
    let mut monitor = Small::new(bench)?;
    assert!(rt; all_come_to(rt.alloc(), &mut monitor));
    Ok(())
}
