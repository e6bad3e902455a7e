//! The bytes of RAM that conditions compare, before a step and after it.

ghost use Rattle.std.specs.Prelude.{◌≡◌, ◌+◌, ◌≤◌, ◌++◌, true, length, OnOk};
ghost use Rattle.sv8_phys.specs.Memory.{ram_size};
ghost use Rattle.sv8_watch.specs.Conditions.{bytes_from};
ghost use Rattle.sv8_search.specs.Search.{old_of, olds_of, old_count, olds_count, is_inside, are_inside};

use std::alloc::AllocError;
use sv8_cpu::Machine;
use sv8_watch::Condition;

/// How many bytes a condition compares.
pub(crate) fn old_count(condition: Condition) -> u32
    ensures { result ≡ old_count condition }
{
    match condition {
        Condition::Change { count, .. } => count,
        _ => 0,
    }
}

/// Adds so many bytes of RAM from an address on.
fn add_bytes<const NW: usize, const PAGES: usize>(
    bytes: &mut Vec<u8>,
    address: u32,
    count: u32,
    machine: &Machine<NW, PAGES>,
) -> Result<(), AllocError>
    requires few_windows { NW ≤ 32 }
    requires few_pages { PAGES ≤ 65536 }
    requires inside { address + count ≤ ram_size PAGES }
    ensures bytes { OnOk result (bytes.new.items ≡ bytes.old.items ++ bytes_from address count machine.now.memory.ram) }
    ensures count { OnOk result (length bytes.new.items ≡ length bytes.old.items + count) }
{
    let _size = machine.ram_size();
    for place in 0..count {
        bytes.push(machine.byte(address + place))?;
    }
    Ok(())
}

/// Adds the bytes that a condition compares.
fn add_old<const NW: usize, const PAGES: usize>(
    old: &mut Vec<u8>,
    condition: Condition,
    machine: &Machine<NW, PAGES>,
) -> Result<(), AllocError>
    requires few_windows { NW ≤ 32 }
    requires few_pages { PAGES ≤ 65536 }
    requires inside { is_inside (ram_size PAGES) condition ≡ true }
    ensures bytes { OnOk result (old.new.items ≡ old.old.items ++ old_of condition machine.now.memory.ram) }
    ensures count { OnOk result (length old.new.items ≡ length old.old.items + old_count condition) }
{
    match condition {
        Condition::Change { address, count } => add_bytes(old, address, count, machine),
        _ => Ok(()),
    }
}

/// The bytes that conditions compare with those after the next step, one condition's after the other's.
pub(crate) fn look_at_old<const NW: usize, const PAGES: usize>(
    old: &mut Vec<u8>,
    conditions: &[Condition],
    machine: &Machine<NW, PAGES>,
) -> Result<(), AllocError>
    requires few_windows { NW ≤ 32 }
    requires few_pages { PAGES ≤ 65536 }
    requires inside { are_inside (ram_size PAGES) conditions.now ≡ true }
    ensures bytes { OnOk result (old.new.items ≡ olds_of conditions.now machine.now.memory.ram) }
    ensures count { OnOk result (length old.new.items ≡ olds_count conditions.now) }
{
    old.clear();
    let mut rest = conditions;
    while let [first, after @ ..] = rest {
        add_old(old, *first, machine)?;
        rest = after;
    }
    Ok(())
}

/// The same after a step. Conditions that compare no bytes are not looked at.
#[inline(always)]
pub(crate) fn look_again<const NW: usize, const PAGES: usize>(
    old: &mut Vec<u8>,
    conditions: &[Condition],
    machine: &Machine<NW, PAGES>,
) -> Result<(), AllocError>
    requires few_windows { NW ≤ 32 }
    requires few_pages { PAGES ≤ 65536 }
    requires inside { are_inside (ram_size PAGES) conditions.now ≡ true }
    requires count { length old.old.items ≡ olds_count conditions.now }
    ensures bytes { OnOk result (old.new.items ≡ olds_of conditions.now machine.now.memory.ram) }
    ensures count { OnOk result (length old.new.items ≡ olds_count conditions.now) }
{
    if old.is_empty() {
        return Ok(());
    }
    look_at_old(old, conditions, machine)?;
    Ok(())
}
