//! That a machine lends what it has put out.

ghost use Rattle.std.specs.Prelude.{◌≡◌};

use std::alloc::{AllocError, Global};
use std::test::*;
use sv8_cpu::{Machine, Work};
use sv8_reset::reset;
use sv8_source::Source;
use sv8_time::Timeline;

type Small = Machine<8, 1>;

/// A program that puts the byte 48 (hexadecimal) out at step 2.
const PRINTS: &[&[u8]] = &[b"sethi 0x200000, %g1", b"mov 0x48, %g2", b"st %g2, [%g1+8]"];

/// A machine just reset, with that program.
fn printer(alloc: Global) -> Result<Small, Fail> {
    let mut lines = Vec::new(alloc);
    for text in PRINTS {
        lines.push(text.to_vec(alloc)?)?;
    }
    let mut source = Source::new(alloc, 4_096);
    let _ = source.replace(alloc, 1, 0, &lines);
    let machine: Small = reset(alloc, &source)?;
    Ok(machine)
}

/// A step of a machine that has taken no more than has come in.
fn advance(machine: Small, n: u32, timeline: &Timeline) -> Result<Small, AllocError>
    requires { timeline.now.limit ≡ 4096 }
{
    if timeline.delivered(n) < machine.taken() {
        return Err(AllocError);
    }
    machine.step(n, timeline, &mut Work::new())
}

/// Whether the first two pieces are these.
fn has_pieces(machine: &Small, first: Option<&[u8]>, second: Option<&[u8]>) -> bool {
    machine.output_piece(0) == first && machine.output_piece(1) == second
}

/// Whether a machine has no piece before it puts a byte out, and then one of that byte.
fn lends_its_output(alloc: Global) -> Result<bool, Fail> {
    let timeline = Timeline::new(alloc, 4_096);
    let first = advance(printer(alloc)?, 0, &timeline)?;
    let second = advance(first, 1, &timeline)?;
    let none = has_pieces(&second, None, None);
    let third = advance(second, 2, &timeline)?;
    Ok(none && has_pieces(&third, Some(b"H"), None))
}

#[test]
fn a_machine_lends_its_output(rt: HostRuntime) -> Result<(), Fail> {
    assert!(rt; lends_its_output(rt.alloc())?);
    Ok(())
}
