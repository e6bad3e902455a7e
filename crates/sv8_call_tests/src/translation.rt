//! A refused store with what it records, and probes in the state that a fault has left.

use std::alloc::{AllocError, Global};
use std::test::*;
use sv8_mmu::{
    AccessType, Buffer, Fault, FaultType, Mmu, Reach, TableLevel, VirtualAccess, probe_by_address,
    translate,
};
use sv8_phys::{NoTouches, Phys, Size};

/// Translation is on, and the tables begin at 1000 (hexadecimal).
const UNIT: Mmu = Mmu {
    control: 1,
    table_pointer: 0x100,
    context: 0,
    fault_status: 0,
    fault_address: 0,
};

/// Memory of two pages with these words.
fn with_words(alloc: Global, words: &[(u32, u32)]) -> Result<Phys<2>, AllocError> {
    let mut memory = Phys::new(alloc)?;
    for (address, word) in words {
        if address % 4 == 0 && *address < 8_192 {
            memory.write_ram(
                u64::from(*address),
                Size::Word,
                u64::from(*word),
                &mut NoTouches,
            )?;
        }
    }
    Ok(memory)
}

/// A store of the user to virtual 3000 is refused by the entry of level 3, whose ACC is 5: type 2. The fault status then has the fault up to
/// its first load.
fn is_refused_and_recorded(alloc: Global) -> Result<bool, AllocError> {
    let words = [
        (0x1000, 0x141),
        (0x1400, 0x181),
        (0x1800, 0x191),
        (0x190c, 0x116),
    ];
    let mut memory = with_words(alloc, &words)?;
    let access = VirtualAccess {
        address: 0x3000,
        access_type: AccessType::UserStore,
        reach: Reach::Ram,
    };
    let found = translate(
        &UNIT,
        &mut Buffer::new(alloc),
        &mut memory,
        access,
        &mut NoTouches,
    )?;
    let fault = Fault {
        level: TableLevel::Level3,
        access_type: AccessType::UserStore,
        fault_type: FaultType::Protection,
        address: 0x3000,
    };
    let mut unit = UNIT;
    unit.record(fault);
    let address = unit.read_register(0x400);
    let status = unit.read_register(0x300);
    let cleared = unit.read_register(0x300);
    Ok(
        found == Err(fault)
            && memory.word(0x190c) == 0x116
            && address == Some(0x3000)
            && status == Some(0x38a)
            && cleared == Some(0),
    )
}

/// Probes of each kind where level 1 maps the first 16 MiB alone, once a load beyond them has met a fault: none changes the fault status.
fn are_probed(alloc: Global) -> Result<bool, AllocError> {
    let memory = with_words(alloc, &[(0x1000, 0x141), (0x1400, 0x3e)])?;
    let unit = Mmu {
        fault_status: 0x126,
        fault_address: 0x0100_0000,
        ..UNIT
    };
    let probes = [
        (0x0100_0000, 0),
        (0, 0),
        (0x200, 0x3e),
        (0x400, 0x3e),
        (0x300, 0x141),
    ];
    let mut holds = true;
    for (address, due) in probes {
        holds = probe_by_address(&unit, &memory, address, &mut NoTouches)? == due && holds;
    }
    let mut after = unit;
    Ok(holds && after.read_register(0x300) == Some(0x126))
}

#[test]
fn a_refused_store_is_recorded(rt: HostRuntime) -> Result<(), Fail> {
    assert!(rt; is_refused_and_recorded(rt.alloc())?);
    Ok(())
}

#[test]
fn probes_after_a_fault(rt: HostRuntime) -> Result<(), Fail> {
    assert!(rt; are_probed(rt.alloc())?);
    Ok(())
}
