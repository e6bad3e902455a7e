//! What is to be seen of a step that is watched.

ghost use Rattle.std.specs.Prelude.{◌≡◌};

use std::alloc::{AllocError, Global};
use std::test::*;
use sv8_cpu::Machine;
use sv8_phys::{AccessKind, Observation, Touch, Touches};
use sv8_reset::reset;
use sv8_source::Source;
use sv8_time::Timeline;

type Small = Machine<8, 2>;

/// Keeps what is touched and what is seen.
#[derive(Drop)]
struct Notes {
    touches: Vec<Touch>,
    observations: Vec<Observation>,
}

impl Touches for Notes {
    ghost use Rattle.std.specs.Prelude.{true};
    ghost use Rattle.sv8_model.specs.Does.{keeping};

    ghost NOTING = { keeping true true };

    ghost KEEPS = { true };

    ghost OBSERVES = { true };

    ghost noted = { λ n. record { touches = n.touches.items; observations = n.observations.items } };

    fn note(&mut self, touch: Touch) -> Result<(), AllocError> {
        self.touches.push(touch)?;
        Ok(())
    }

    fn observe(&mut self, observation: Observation) -> Result<(), AllocError> {
        self.observations.push(observation)?;
        Ok(())
    }
}

/// A machine just reset, with a program.
fn loaded(alloc: Global, program: &[&[u8]]) -> Result<Small, Fail> {
    let mut lines = Vec::new(alloc);
    for text in program {
        lines.push(text.to_vec(alloc)?)?;
    }
    let mut source = Source::new(alloc, 8_192);
    let _ = source.replace(alloc, 1, 0, &lines);
    let machine: Small = reset(alloc, &source)?;
    Ok(machine)
}

/// A watched step of a machine that has taken no more than has come in, and whether just this was seen.
fn watch(
    alloc: Global,
    machine: Small,
    n: u32,
    timeline: &Timeline,
    due: &[Observation],
) -> Result<(Small, bool), AllocError>
    requires { timeline.now.limit ≡ 8192 }
{
    if timeline.delivered(n) < machine.taken() {
        return Err(AllocError);
    }
    let mut notes = Notes {
        touches: Vec::new(alloc),
        observations: Vec::new(alloc),
    };
    let mut machine = machine;
    machine.watch(n, timeline, &mut notes)?;
    let is_due = notes.observations.as_slice() == due;
    Ok((machine, is_due))
}

/// A fetch.
fn fetch(from: u64, word: u32) -> Observation {
    Observation::Fetch { from, word }
}

/// An access of a word at an address that is not translated.
fn word(kind: AccessKind, at: u32) -> Observation {
    Observation::Access {
        kind,
        bytes: 4,
        va: at,
        pa: u64::from(at),
    }
}

/// SETHI's word is 01000000 and rd * 2000000 and imm22 (Appendix B.9), ST's of `st %g1, [%g1]` is C2204000, SWAP's of `swap [%g1], %g2`
/// C4784000, and that of `ba,a` to two words in front 30BFFFFE (Appendices B.4, B.8, B.21).
#[test]
fn fetches_and_accesses_are_seen(rt: HostRuntime) -> Result<(), Fail> {
    let alloc = rt.alloc();
    let machine = loaded(
        alloc,
        &[
            b"sethi 4, %g1",
            b"again: st %g1, [%g1]",
            b"swap [%g1], %g2",
            b"ba,a again",
        ],
    )?;
    let timeline = Timeline::new(alloc, 8_192);
    let (machine, first) = watch(alloc, machine, 0, &timeline, &[fetch(0, 0x0300_0004)])?;
    let stored = [fetch(4, 0xc220_4000), word(AccessKind::Store, 0x1000)];
    let (machine, second) = watch(alloc, machine, 1, &timeline, &stored)?;
    let swapped = [fetch(8, 0xc478_4000), word(AccessKind::Exchange, 0x1000)];
    let (machine, third) = watch(alloc, machine, 2, &timeline, &swapped)?;
    let (machine, fourth) = watch(alloc, machine, 3, &timeline, &[fetch(12, 0x30bf_fffe)])?;
    // The slot behind `ba,a` is passed over, and nothing is fetched.
    let (_, fifth) = watch(alloc, machine, 4, &timeline, &[])?;
    assert!(rt; first && second && third && fourth && fifth);
    Ok(())
}

/// A trap instruction in supervisor mode with traps off leads to error mode; its type is 80 and its number (Appendix B.27, section 7.2).
#[test]
fn a_trap_is_seen(rt: HostRuntime) -> Result<(), Fail> {
    let alloc = rt.alloc();
    let machine = loaded(alloc, &[b"ta 1"])?;
    let timeline = Timeline::new(alloc, 8_192);
    let trapped = [fetch(0, 0x91d0_2001), Observation::Trap(0x81)];
    let (machine, first) = watch(alloc, machine, 0, &timeline, &trapped)?;
    let stopped = !machine.is_running();
    // In error mode nothing is seen.
    let (_, second) = watch(alloc, machine, 1, &timeline, &[])?;
    assert!(rt; first && stopped && second);
    Ok(())
}

/// A load of the console's input is an access, also where no byte waits. A load at an address that no device has is none, and
/// traps as 09.
#[test]
fn devices_are_seen_where_they_answer(rt: HostRuntime) -> Result<(), Fail> {
    let alloc = rt.alloc();
    let machine = loaded(
        alloc,
        &[b"sethi 0x200000, %g1", b"ld [%g1], %g2", b"ldub [%g1], %g2"],
    )?;
    let timeline = Timeline::new(alloc, 8_192);
    let (machine, first) = watch(alloc, machine, 0, &timeline, &[fetch(0, 0x0320_0000)])?;
    let loaded = [fetch(4, 0xc400_4000), word(AccessKind::Load, 0x8000_0000)];
    let (machine, second) = watch(alloc, machine, 1, &timeline, &loaded)?;
    let refused = [fetch(8, 0xc408_4000), Observation::Trap(0x09)];
    let (_, third) = watch(alloc, machine, 2, &timeline, &refused)?;
    assert!(rt; first && second && third);
    Ok(())
}
