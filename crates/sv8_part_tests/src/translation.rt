//! That translations and probes answer where there is enough memory, that walks are kept then, and that the answers are the same
//! where they are not.

ghost use Rattle.sv8_phys.specs.Memory.{ram_size};
ghost use Rattle.sv8_mmu.specs.Kept.{AllStand};

use crate::told::Told;
use std::alloc::{AllocError, Global};
use std::test::Fail;
use sv8_mmu::*;
use sv8_model::TableMemory;
use sv8_phys::{NoTouches, Observation, Phys, Size, Touch, Touches};

/// Has no memory for a note.
#[derive(Drop)]
struct Full;

impl Touches for Full {
    ghost use Rattle.std.specs.Prelude.{true};
    ghost use Rattle.sv8_model.specs.Does.{keeping, no_notes};

    ghost NOTING = { keeping true true };

    ghost KEEPS = { true };

    ghost OBSERVES = { true };

    ghost noted = { λ _. no_notes };

    fn note(&mut self, _touch: Touch) -> Result<(), AllocError> {
        Err(AllocError)
    }

    fn observe(&mut self, _observation: Observation) -> Result<(), AllocError> {
        Err(AllocError)
    }
}

/// The entries that a walk for a virtual address below 40000 (hexadecimal) reads, in page 3.
const READ: [Touch; 4] = [
    Touch::Read(0x100),
    Touch::Read(0x400),
    Touch::Read(0x800),
    Touch::Read(0x90c),
];

/// The first three of them, above the tables of pages.
const UPPER: [Touch; 3] = [Touch::Read(0x100), Touch::Read(0x400), Touch::Read(0x800)];

/// All four, and then the last is stored with other marks.
const MARKED: [Touch; 5] = [
    Touch::Read(0x100),
    Touch::Read(0x400),
    Touch::Read(0x800),
    Touch::Read(0x90c),
    Touch::Write(0x90c),
];

/// Translation is on, the context table is at 100 (hexadecimal), and the context is 0.
const REGISTERS: Mmu = Mmu {
    control: 1,
    table_pointer: 0x10,
    context: 0,
    fault_status: 0,
    fault_address: 0,
};

/// Tables at 100, 400, 800 and 900 (hexadecimal) that map page 3 of context 0 to page 1 of RAM, for all accesses.
fn draw_tables(memory: &mut Phys<2>) -> Result<(), AllocError> {
    memory.write_ram(0x100, Size::Word, 0x41, &mut NoTouches)?;
    memory.write_ram(0x400, Size::Word, 0x81, &mut NoTouches)?;
    memory.write_ram(0x800, Size::Word, 0x91, &mut NoTouches)?;
    memory.write_ram(0x90c, Size::Word, 0x10e, &mut NoTouches)?;
    Ok(())
}

/// A memory of two pages with the tables.
fn mapped(alloc: Global) -> Result<Phys<2>, AllocError> {
    let mut memory = Phys::new(alloc)?;
    draw_tables(&mut memory)?;
    Ok(memory)
}

/// An access to the virtual address 3010 (hexadecimal).
fn access(access_type: AccessType) -> VirtualAccess {
    VirtualAccess {
        address: 0x3010,
        access_type,
        reach: Reach::Ram,
    }
}

/// Whether an access in a context has an answer, with just these notes.
fn answers(
    buffer: &mut Buffer,
    memory: &mut Phys<2>,
    context: u32,
    access_type: AccessType,
    answer: Result<u64, Fault>,
    touches: &[Touch],
    told: &mut Told,
) -> Result<bool, AllocError>
    requires stand { AllStand (ram_size 2) memory.old.ram 0x10 buffer.old }
    ensures { AllStand (ram_size 2) memory.new.ram 0x10 buffer.new }
{
    let registers = Mmu {
        context,
        ..REGISTERS
    };
    told.notes.clear();
    let found = translate(&registers, buffer, memory, access(access_type), told)?;
    Ok(found == answer && told.notes.as_slice() == touches)
}

/// Whether the buffer has a walk for page 3 of context 0.
fn keeps(buffer: &mut Buffer, purpose: Purpose) -> bool {
    let key = Key {
        context: 0,
        page: 3,
    };
    buffer.find(purpose, key).is_some()
}

/// A load sets R, whatever follows is a hit, and a store sets M.
fn hits_are_walks(
    buffer: &mut Buffer,
    memory: &mut Phys<2>,
    told: &mut Told,
) -> Result<bool, AllocError>
    requires { AllStand (ram_size 2) memory.old.ram 0x10 buffer.old }
{
    let at = Ok(0x1010);
    let first = answers(buffer, memory, 0, AccessType::UserLoad, at, &MARKED, told)?;
    let load = answers(buffer, memory, 0, AccessType::UserLoad, at, &READ, told)?;
    let again = answers(
        buffer,
        memory,
        0,
        AccessType::SupervisorLoad,
        at,
        &READ,
        told,
    )?;
    let fetch = answers(
        buffer,
        memory,
        0,
        AccessType::SupervisorFetch,
        at,
        &READ,
        told,
    )?;
    let store = answers(buffer, memory, 0, AccessType::UserStore, at, &MARKED, told)?;
    let last = answers(buffer, memory, 0, AccessType::UserFetch, at, &READ, told)?;
    Ok(first && load && again && fetch && store && last && memory.word(0x90c) == 0x16e)
}

/// Page 3 maps to page 0 of RAM, with R set.
fn remap(buffer: &mut Buffer, memory: &mut Phys<2>) -> Result<(), AllocError>
    requires { AllStand (ram_size 2) memory.old.ram 0x10 buffer.old }
    ensures { AllStand (ram_size 2) memory.new.ram 0x10 buffer.new }
{
    memory.store_table_word(0x90c, 0x2e, &mut NoTouches)?;
    buffer.forget_page(0);
    Ok(())
}

/// A store to a table counts at once, and another context has no walk of this one.
fn stores_count(
    buffer: &mut Buffer,
    memory: &mut Phys<2>,
    told: &mut Told,
) -> Result<bool, AllocError>
    requires { AllStand (ram_size 2) memory.old.ram 0x10 buffer.old }
{
    let at = Ok(0x1010);
    let first = answers(buffer, memory, 0, AccessType::UserLoad, at, &MARKED, told)?;
    let none = Fault {
        level: TableLevel::Context,
        access_type: AccessType::UserLoad,
        fault_type: FaultType::InvalidAddress,
        address: 0x3010,
    };
    let other = answers(
        buffer,
        memory,
        1,
        AccessType::UserLoad,
        Err(none),
        &[Touch::Read(0x104)],
        told,
    )?;
    remap(buffer, memory)?;
    let at = Ok(0x10);
    let last = answers(buffer, memory, 0, AccessType::UserLoad, at, &READ, told)?;
    Ok(first && other && last)
}

/// A page's walk is kept, and no longer where one of its entries is written.
fn walks_are_kept(buffer: &mut Buffer, memory: &mut Phys<2>) -> Result<bool, AllocError>
    requires { AllStand (ram_size 2) memory.old.ram 0x10 buffer.old }
{
    let found = translate(
        &REGISTERS,
        buffer,
        memory,
        access(AccessType::UserFetch),
        &mut NoTouches,
    )?;
    let kept = found == Ok(0x1010)
        && keeps(buffer, Purpose::Load)
        && keeps(buffer, Purpose::Load)
        && keeps(buffer, Purpose::Store);
    buffer.forget_page(1);
    let stays = keeps(buffer, Purpose::Load) && keeps(buffer, Purpose::Fetch);
    buffer.forget_page(0);
    Ok(kept && stays && !keeps(buffer, Purpose::Load))
}

/// Where no note can be taken, neither a translation nor a probe answers.
fn notes_are_refused(buffer: &mut Buffer, memory: &mut Phys<2>) -> bool
    requires { AllStand (ram_size 2) memory.old.ram 0x10 buffer.old }
{
    probe(&REGISTERS, memory, 0x3000, ProbeKind::Entire, &mut Full).is_err()
        && translate(
            &REGISTERS,
            buffer,
            memory,
            access(AccessType::UserLoad),
            &mut Full,
        )
        .is_err()
}

/// Whether a probe of a kind finds an entry, by its name and by its number in the address, with the first so many reads.
fn finds(
    memory: &Phys<2>,
    kind: ProbeKind,
    number: u8,
    entry: u32,
    reads: &[Touch],
    told: &mut Told,
) -> Result<bool, AllocError> {
    told.notes.clear();
    let found = probe(&REGISTERS, memory, 0x3000, kind, told)?;
    let right = found == entry && told.notes.as_slice() == reads;
    told.notes.clear();
    let by_address = probe_by_address(
        &REGISTERS,
        memory,
        0x3000 + u32::from(number) * 0x100,
        told,
    )?;
    Ok(right && by_address == entry && told.notes.as_slice() == reads)
}

/// Where notes can be taken, a probe finds the entry of its level, and an entire one that of the page.
fn probes_answer(memory: &Phys<2>, told: &mut Told) -> Result<bool, AllocError> {
    let page = finds(memory, ProbeKind::Page, 0, 0x10e, &READ, told)?;
    let segment = finds(memory, ProbeKind::Segment, 1, 0x91, &UPPER, told)?;
    let context = finds(
        memory,
        ProbeKind::Context,
        3,
        0x41,
        &[Touch::Read(0x100)],
        told,
    )?;
    let entire = finds(memory, ProbeKind::Entire, 4, 0x10e, &READ, told)?;
    Ok(page && segment && context && entire)
}

#[test]
fn hits_are_as_walks(rt: HostRuntime) -> Result<(), Fail> {
    let mut memory = mapped(rt.alloc())?;
    let mut told = Told {
        notes: Vec::new(rt.alloc()),
    };
    assert!(rt;
        probes_answer(&memory, &mut told)?
            && hits_are_walks(&mut Buffer::new(rt.alloc()), &mut memory, &mut told)?
    );
    Ok(())
}

#[test]
fn tables_may_change(rt: HostRuntime) -> Result<(), Fail> {
    let mut memory = mapped(rt.alloc())?;
    let mut told = Told {
        notes: Vec::new(rt.alloc()),
    };
    assert!(rt; stores_count(&mut Buffer::new(rt.alloc()), &mut memory, &mut told)?);
    Ok(())
}

#[test]
fn memory_is_enough(rt: HostRuntime) -> Result<(), Fail> {
    let mut memory = mapped(rt.alloc())?;
    assert!(rt;
        notes_are_refused(&mut Buffer::new(rt.alloc()), &mut memory)
            && walks_are_kept(&mut Buffer::new(rt.alloc()), &mut memory)?
    );
    Ok(())
}
