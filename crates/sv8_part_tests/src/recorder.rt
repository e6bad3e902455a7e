//! What a recorder has of steps: of frequent ones, which it notes as they touch, of rarer ones, and of those that come as lists.

use std::alloc::{AllocError, Global};
use std::test::Fail;
use sv8_notes::{Cell, Notes, Recorder, Sought};
use sv8_phys::{Touch, TouchKind, Touches};

/// Makes the step with an offset, of these touches: one after the other, or as a list.
fn make(
    recorder: &mut Recorder,
    offset: u8,
    touches: &[Touch],
    listed: bool,
) -> Result<(), AllocError> {
    if listed {
        return recorder.record(u32::from(offset), touches);
    }
    recorder.begin(u32::from(offset));
    for touch in touches {
        recorder.note(*touch)?;
    }
    recorder.end()
}

/// Five steps: two that fetch words one behind the other, and store and load; one that asks levels, and fetches nothing; one that
/// stores over the instruction that it fetched; and one that reads a word which it wrote, and asks levels twice.
fn recorded(alloc: Global, listed: bool) -> Result<Notes, AllocError> {
    let mut recorder = Recorder::new(alloc);
    let store = [Touch::Read(0x100), Touch::Write(0x200)];
    let load = [Touch::Read(0x104), Touch::Read(0x200)];
    let over = [Touch::Read(0x300), Touch::Write(0x300)];
    let many = [
        Touch::Levels(2),
        Touch::Read(0x304),
        Touch::Write(0x208),
        Touch::Read(0x208),
        Touch::Levels(8),
        Touch::Input,
        Touch::Expiry,
    ];
    make(&mut recorder, 0, &store, listed)?;
    make(&mut recorder, 1, &load, listed)?;
    make(&mut recorder, 2, &[Touch::Levels(0x400)], listed)?;
    make(&mut recorder, 3, &over, listed)?;
    make(&mut recorder, 4, &many, listed)?;
    recorder.copy_notes()
}

/// Whether the only step that does what is sought is one of the first eight, or none does.
fn is_only(notes: &Notes, sought: Sought, step: Option<u32>) -> bool {
    let first = notes.first_from(sought, 0, 8);
    let next = match step {
        None => None,
        Some(step) => notes.first_from(sought, step.saturating_add(1), 8),
    };
    first == step && next.is_none()
}

/// What the steps read and write of bytes: a word that is read and written whole is read alone.
fn has_words(notes: &Notes) -> bool {
    is_only(notes, Sought::Read(Cell::Byte(0x103)), Some(0))
        && is_only(notes, Sought::Read(Cell::Byte(0x104)), Some(1))
        && is_only(notes, Sought::Read(Cell::Byte(0x108)), None)
        && is_only(notes, Sought::Write(Cell::Byte(0x202)), Some(0))
        && is_only(notes, Sought::Read(Cell::Byte(0x202)), Some(1))
        && is_only(notes, Sought::Read(Cell::Byte(0x300)), Some(3))
        && is_only(notes, Sought::Write(Cell::Byte(0x300)), None)
        && is_only(notes, Sought::Read(Cell::Byte(0x304)), Some(4))
        && is_only(notes, Sought::Read(Cell::Byte(0x208)), Some(4))
        && is_only(notes, Sought::Write(Cell::Byte(0x208)), None)
}

/// What they ask of levels, take of the input, and set by the timer.
fn has_levels(notes: &Notes) -> bool {
    is_only(notes, Sought::Read(Cell::Level(10)), Some(2))
        && is_only(notes, Sought::Write(Cell::Level(10)), Some(4))
        && is_only(notes, Sought::Read(Cell::Level(1)), Some(4))
        && is_only(notes, Sought::Read(Cell::Level(3)), Some(4))
        && is_only(notes, Sought::Read(Cell::Level(2)), None)
        && is_only(notes, Sought::Input, Some(4))
}

/// What is data of them: of a frequent step what it loads or stores, and of a rarer one all.
fn has_data(notes: &Notes) -> bool {
    let is_data = |address, step: u8| {
        let step = u32::from(step);
        notes.touches_any(TouchKind::Data, address, address, step, step + 1)
    };
    !is_data(0x100, 0)
        && is_data(0x200, 0)
        && !is_data(0x104, 1)
        && is_data(0x200, 1)
        && is_data(0x300, 3)
        && is_data(0x304, 4)
}

#[test]
fn steps_are_recorded(rt: HostRuntime) -> Result<(), Fail> {
    let notes = recorded(rt.alloc(), false)?;
    assert!(rt; has_words(&notes) && has_levels(&notes) && has_data(&notes));
    Ok(())
}

#[test]
fn lists_are_recorded(rt: HostRuntime) -> Result<(), Fail> {
    let notes = recorded(rt.alloc(), true)?;
    assert!(rt; has_words(&notes) && has_levels(&notes) && has_data(&notes));
    Ok(())
}

/// The words of so many steps that fetch one behind the other, in three loops of them.
fn fetched(alloc: Global) -> Result<Notes, AllocError> {
    let mut recorder = Recorder::new(alloc);
    for step in 0..96u8 {
        make(
            &mut recorder,
            step,
            &[Touch::Read(0x400 + 4 * u32::from(step % 32))],
            false,
        )?;
    }
    recorder.copy_notes()
}

#[test]
fn each_fetch_of_a_loop_is_recorded(rt: HostRuntime) -> Result<(), Fail> {
    let notes = fetched(rt.alloc())?;
    let read = Sought::Read(Cell::Byte(0x41c));
    assert!(rt; notes.first_from(read, 0, 96) == Some(7));
    assert!(rt; notes.first_from(read, 8, 96) == Some(39));
    assert!(rt; notes.first_from(read, 40, 96) == Some(71));
    assert!(rt; notes.first_from(read, 72, 96).is_none());
    assert!(rt;
        notes
            .first_from(Sought::Read(Cell::Byte(0x480)), 0, 96)
            .is_none()
    );
    Ok(())
}
