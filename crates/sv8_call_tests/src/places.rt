//! Where virtual addresses lie, by tables at each level.

use std::alloc::{AllocError, Global};
use std::test::*;
use sv8_cpu::{Machine, Work};
use sv8_mmu::{Mmu, Place, TableLevel, place_of};
use sv8_phys::{NoTouches, Phys, Size};
use sv8_reset::reset;
use sv8_source::Source;
use sv8_time::Timeline;

/// Translation is on, and the context table begins at 1000 (hexadecimal).
const UNIT: Mmu = Mmu {
    control: 1,
    table_pointer: 0x100,
    context: 0,
    fault_status: 0,
    fault_address: 0,
};

/// The tables, in RAM of 2000 bytes (hexadecimal): at 1000 the context table, at 1400 one of level 1, at 1800 one of level 2, and at 1900
/// one of level 3. In each the first entry leads to the next table, the second is that of a page, the third invalid, the fourth reserved,
/// and the fifth leads to a table at 4000. At level 3 the first is that of a page, the second a pointer, and the fifth that of a page
/// behind RAM, with both marks set.
const TABLES: [(u32, u32); 17] = [
    (0x1000, 0x141),
    (0x1004, 0x5000_0012),
    (0x100c, 3),
    (0x1010, 0x401),
    (0x1400, 0x181),
    (0x1404, 0x1257_891e),
    (0x140c, 3),
    (0x1410, 0x401),
    (0x1800, 0x191),
    (0x1804, 0x0001_2c0a),
    (0x180c, 3),
    (0x1810, 0x401),
    (0x1900, 0x116),
    (0x1904, 0x141),
    (0x190c, 3),
    (0x1910, 0x262),
    (0x19fc, 0xffff_ff0e),
];

/// Memory of two pages with the tables.
fn with_tables(alloc: Global) -> Result<Phys<2>, AllocError> {
    let mut memory = Phys::new(alloc)?;
    for (address, word) in TABLES {
        if address % 4 == 0 && address < 8_192 {
            memory.write_ram(
                u64::from(address),
                Size::Word,
                u64::from(word),
                &mut NoTouches,
            )?;
        }
    }
    Ok(memory)
}

/// The unit in another context.
fn in_context(context: u32) -> Mmu {
    Mmu { context, ..UNIT }
}

/// Whether an address lies in a page: at a physical address, by an entry of a level, with these access permissions.
fn is_mapped(place: Option<Place>, pa: u64, level: TableLevel, access: u8) -> bool {
    match place {
        Some(
            Place {
                pa: at,
                page: Some(page),
            },
        ) => at == pa && page.level == level && page.access.number() == access,
        _ => false,
    }
}

/// Whether an address lies at a physical address with no page.
fn is_plain(place: Option<Place>, pa: u64) -> bool {
    match place {
        Some(Place { pa: at, page: None }) => at == pa,
        _ => false,
    }
}

/// Pages at each level: of 4 GiB, where the physical address is above 2^32, of 16 MiB, of 256 KiB and of 4 KiB.
fn pages_are_found(memory: &Phys<2>) -> bool {
    let large = place_of(&in_context(1), memory, 0x8765_4321);
    is_mapped(large, 0x5_8765_4321, TableLevel::Context, 4)
        && is_mapped(
            place_of(&UNIT, memory, 0x0112_3456),
            0x1_2512_3456,
            TableLevel::Level1,
            7,
        )
        && is_mapped(
            place_of(&UNIT, memory, 0x0006_1234),
            0x12_1234,
            TableLevel::Level2,
            2,
        )
        && is_mapped(
            place_of(&UNIT, memory, 0x0abc),
            0x1abc,
            TableLevel::Level3,
            5,
        )
}

/// What is at the physical address is not asked, nor are the marks: a page behind RAM, and the last one of 36 bits.
fn all_addresses_are_told(memory: &Phys<2>) -> bool {
    is_mapped(
        place_of(&UNIT, memory, 0x4010),
        0x2010,
        TableLevel::Level3,
        0,
    ) && is_mapped(
        place_of(&UNIT, memory, 0x3_ffff),
        0xf_ffff_ffff,
        TableLevel::Level3,
        3,
    )
}

/// Whether none of some virtual addresses lies anywhere.
fn lie_nowhere(unit: &Mmu, memory: &Phys<2>, addresses: &[u32]) -> bool {
    let mut nowhere = true;
    for address in addresses {
        nowhere = place_of(unit, memory, *address).is_none() && nowhere;
    }
    nowhere
}

/// Invalid and reserved entries and tables outside RAM, at each level, a pointer at level 3, and a context table outside RAM.
fn faults_are_none(memory: &Phys<2>) -> bool {
    let outside = Mmu {
        table_pointer: 0x200,
        ..UNIT
    };
    lie_nowhere(&in_context(2), memory, &[0, 0xffff_ffff])
        && lie_nowhere(&in_context(3), memory, &[0, 0xffff_ffff])
        && lie_nowhere(&in_context(4), memory, &[0, 0xffff_ffff])
        && lie_nowhere(&UNIT, memory, &[0x0200_0000, 0x0300_0000, 0x0400_0000])
        && lie_nowhere(&UNIT, memory, &[0x0008_0000, 0x000c_0000, 0x0010_0000])
        && lie_nowhere(&UNIT, memory, &[0x2000, 0x3000, 0x1000])
        && lie_nowhere(&outside, memory, &[0, 0x1000])
}

/// With E = 0 each address is its own, whatever NF is.
fn untranslated_is_plain(memory: &Phys<2>) -> bool {
    let off = Mmu { control: 0, ..UNIT };
    let no_fault = Mmu { control: 2, ..UNIT };
    is_plain(place_of(&off, memory, 0x0112_3456), 0x0112_3456)
        && is_plain(place_of(&off, memory, 0x0200_0000), 0x0200_0000)
        && is_plain(place_of(&no_fault, memory, 0xffff_fffd), 0xffff_fffd)
}

#[test]
fn places_by_tables(rt: HostRuntime) -> Result<(), Fail> {
    let memory = with_tables(rt.alloc())?;
    assert!(rt; pages_are_found(&memory));
    assert!(rt; all_addresses_are_told(&memory));
    assert!(rt; faults_are_none(&memory));
    assert!(rt; untranslated_is_plain(&memory));
    Ok(())
}

type Small = Machine<8, 2>;

/// A program that sets the table pointer and turns translation on, with tables that map the first page to itself.
const TRANSLATES: &[&[u8]] = &[
    b"mov 0x100, %g1",
    b"sta %g1, [%g1]4",
    b"mov 1, %g2",
    b"sta %g2, [%g0]4",
    b".org 0x1000",
    b".word 0x141",
    b".org 0x1400",
    b".word 0x181",
    b".org 0x1800",
    b".word 0x191",
    b".org 0x1900",
    b".word 0x00e, 0x116",
];

/// A machine just reset, with that program.
fn translator(alloc: Global) -> Result<Small, Fail> {
    let mut lines = Vec::new(alloc);
    for text in TRANSLATES {
        lines.push(text.to_vec(alloc)?)?;
    }
    let mut source = Source::new(alloc, 8_192);
    let _ = source.replace(alloc, 1, 0, &lines);
    let machine: Small = reset(alloc, &source)?;
    Ok(machine)
}

/// A machine after four steps.
fn after_four(alloc: Global, machine: Small) -> Result<Small, AllocError> {
    let timeline = Timeline::new(alloc, 8_192);
    let mut machine = machine;
    for n in 0..4 {
        if timeline.delivered(n) < machine.taken() {
            return Err(AllocError);
        }
        machine = machine.step(n, &timeline, &mut Work::new())?;
    }
    Ok(machine)
}

/// Before and after the program has turned translation on; the entry of the page that is asked for has no marks then.
fn a_machine_tells_places(alloc: Global) -> Result<bool, Fail> {
    let machine = translator(alloc)?;
    let before = is_plain(machine.place(0x1abc), 0x1abc);
    let machine = after_four(alloc, machine)?;
    Ok(
        before
            && is_mapped(machine.place(0x1abc), 0x1abc, TableLevel::Level3, 5)
            && is_mapped(machine.place(0x10), 0x10, TableLevel::Level3, 3)
            && machine.place(0x2000).is_none()
            && machine.word(0x1904) == 0x116
            && machine.mmu().fault_status == 0,
    )
}

#[test]
fn places_of_a_machine(rt: HostRuntime) -> Result<(), Fail> {
    assert!(rt; a_machine_tells_places(rt.alloc())?);
    Ok(())
}
