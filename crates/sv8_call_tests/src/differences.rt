//! Where two memories, and two machines, have different words.

use std::alloc::Global;
use std::test::*;
use sv8_cpu::Machine;
use sv8_phys::Phys;
use sv8_reset::reset;
use sv8_source::Source;

/// A memory of three pages and its snapshot, in which some bytes are set.
fn poked(memory: &Phys<3>, bytes: &[(u32, u8)]) -> Result<Phys<3>, Fail> {
    let mut other = memory.snapshot()?;
    for (address, byte) in bytes {
        if *address < 12_288 {
            other.poke(*address, *byte)?;
        }
    }
    Ok(other)
}

/// Whether the first word from an address on that differs is this one, either way round.
fn is_next(memory: &Phys<3>, other: &Phys<3>, from: u32, due: Option<u32>) -> bool {
    from % 4 != 0
        || (memory.next_difference(other, from) == due
            && other.next_difference(memory, from) == due)
}

/// A memory of three pages with a byte in each.
fn three_pages(alloc: Global) -> Result<Phys<3>, Fail> {
    let mut memory = Phys::new(alloc)?;
    memory.poke(0x0123, 1)?;
    memory.poke(0x1123, 2)?;
    memory.poke(0x2123, 3)?;
    Ok(memory)
}

/// A snapshot has no other word, and a page of its own with the same bytes has none.
fn same_words(alloc: Global) -> Result<bool, Fail> {
    let memory = three_pages(alloc)?;
    let shared = memory.snapshot()?;
    let copied = poked(&memory, &[(0x1123, 7), (0x1123, 2)])?;
    Ok(
        is_next(&memory, &memory, 0, None)
            && is_next(&memory, &shared, 0, None)
            && is_next(&memory, &copied, 0, None)
            && is_next(&memory, &copied, 0x1120, None),
    )
}

/// Other words at both ends of RAM and of a page; each byte of a word counts. What lies below the address does not, nor what is behind RAM.
fn other_words(alloc: Global) -> Result<bool, Fail> {
    let memory = three_pages(alloc)?;
    let other = poked(&memory, &[(0, 9), (0x0ffd, 9), (0x1002, 9), (0x2fff, 9)])?;
    Ok(
        is_next(&memory, &other, 0, Some(0))
            && is_next(&memory, &other, 4, Some(0x0ffc))
            && is_next(&memory, &other, 0x0ffc, Some(0x0ffc))
            && is_next(&memory, &other, 0x1000, Some(0x1000))
            && is_next(&memory, &other, 0x1004, Some(0x2ffc))
            && is_next(&memory, &other, 0x2000, Some(0x2ffc))
            && is_next(&memory, &other, 0x2ffc, Some(0x2ffc))
            && is_next(&memory, &other, 0x3000, None)
            && is_next(&memory, &other, 0xffff_fffc, None),
    )
}

/// A page that both share lies between.
fn shared_between(alloc: Global) -> Result<bool, Fail> {
    let memory = three_pages(alloc)?;
    let other = poked(&memory, &[(0x0008, 9), (0x2008, 9)])?;
    Ok(
        is_next(&memory, &other, 0, Some(8))
            && is_next(&memory, &other, 0x000c, Some(0x2008))
            && is_next(&memory, &other, 0x1000, Some(0x2008))
            && is_next(&memory, &other, 0x200c, None),
    )
}

#[test]
fn memories_are_compared(rt: HostRuntime) -> Result<(), Fail> {
    assert!(rt; same_words(rt.alloc())?);
    assert!(rt; other_words(rt.alloc())?);
    assert!(rt; shared_between(rt.alloc())?);
    Ok(())
}

type Small = Machine<8, 2>;

/// A machine just reset, with a word at 1000 (hexadecimal).
fn loaded(alloc: Global) -> Result<Small, Fail> {
    let mut lines = Vec::new(alloc);
    lines.push(b".org 0x1000".to_vec(alloc)?)?;
    lines.push(b".word 0x12345678".to_vec(alloc)?)?;
    let mut source = Source::new(alloc, 8_192);
    let _ = source.replace(alloc, 1, 0, &lines);
    let machine: Small = reset(alloc, &source)?;
    Ok(machine)
}

/// The same machine with another word at 1008 (hexadecimal).
fn changed(alloc: Global, machine: &Small) -> Result<Small, Fail> {
    let mut other = machine.snapshot(alloc)?;
    let mut page = other.page(0x1000)?;
    page.set_word(0x1008, 0x9abc_def0)?;
    other.put_page(0x1000, page)?;
    Ok(other)
}

/// The address with both words is found, and nothing behind it.
fn machines_differ(machine: &Small, other: &Small) -> bool {
    match machine.next_difference(other, 0) {
        None => false,
        Some(at) => at == 0x1008
            && machine.word(at) == 0
            && other.word(at) == 0x9abc_def0
            && machine.next_difference(other, 0x100c).is_none()
            && machine.next_difference(machine, 0).is_none(),
    }
}

#[test]
fn machines_are_compared(rt: HostRuntime) -> Result<(), Fail> {
    let machine = loaded(rt.alloc())?;
    let other = changed(rt.alloc(), &machine)?;
    assert!(rt; machines_differ(&machine, &other));
    assert!(rt; machine.has_same_processor(&other));
    Ok(())
}
