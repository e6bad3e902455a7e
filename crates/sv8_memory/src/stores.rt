//! Stores and exchanges by address space (Appendices H and I).

ghost use Rattle.std.specs.Prelude.{◌≡◌, ℕ, ◌%◌, ◌/◌, ◌^◌, ◌<◌, List, false, IfOk, OnOk};
ghost use Rattle.sv8_model.specs.Does.{};
ghost use Rattle.sv8_model.specs.declared.size.Size.{Size};
ghost use Rattle.sv8_model.specs.Size.{bytes_in};
ghost use Rattle.sv8_mmu.specs.Registers.{translates};
ghost use Rattle.sv8_phys.specs.Memory.{ram_size};
ghost use Rattle.sv8_memory.specs.Units.{served};
ghost use Rattle.sv8_trap.specs.Requests.{space_of};
ghost use Rattle.sv8_memory.specs.Access.{store_type, physical_place, stored_in, exchanged_in, stored_at, exchanged_at, reach_of, is_word, register_stored, access};
ghost use Rattle.sv8_memory.specs.View.{MemoryDoes, units_of, Serves};

use crate::locating::{Place, locate, physical_place, reach_of};
use crate::physical::{Physical, is_word, store_type};
use std::alloc::AllocError;
use sv8_mmu::{Buffer, Reach, VirtualAccess};
use sv8_phys::{Size, Touches};
use sv8_trap::{AccessRequest, Response, Space, Trap, space_of};

/// Stores to RAM or a device at a physical address. What the buffer keeps of the page is forgotten.
#[inline(always)]
pub fn store_physical<const PAGES: usize, T: Touches>(
    physical: &mut Physical<PAGES>,
    buffer: &mut Buffer,
    size: Size,
    asi: u8,
    at: u32,
    pa: u64,
    value: u64,
    notes: &mut T,
) -> Result<Response, AllocError>
    requires aligned { pa % bytes_in size ≡ 0 }
    requires small { pa < 2 ^ 44 }
    requires serves { Serves physical.old buffer.old }
    ensures ok { IfOk result (λ r. (bytes : List ℕ) → MemoryDoes T.NOTING bytes (stored_at (ram_size PAGES) (units_of physical.old) size asi value at pa)
        physical.old physical.new r (T.noted notes.old) (T.noted notes.new)) }
    ensures taken { OnOk result (physical.new.phys.taken ≡ physical.old.phys.taken) }
    ensures serves { Serves physical.new buffer.new }
{
    let stored = physical.store(size, asi, at, pa, value, notes);
    buffer.forget_page((pa / 4096) as u32);
    stored
}

/// Stores to RAM or a device at a virtual address.
#[inline(never)]
pub fn store_virtual<const PAGES: usize, T: Touches>(
    physical: &mut Physical<PAGES>,
    buffer: &mut Buffer,
    size: Size,
    asi: u8,
    at: u32,
    value: u64,
    notes: &mut T,
) -> Result<Response, AllocError>
    requires aligned { at % bytes_in size ≡ 0 }
    requires serves { Serves physical.old buffer.old }
    ensures ok { IfOk result (λ r. (bytes : List ℕ) → MemoryDoes T.NOTING bytes (stored_in (ram_size PAGES) (units_of physical.old) size asi at value Space.Virtual)
        physical.old physical.new r (T.noted notes.old) (T.noted notes.new)) }
    ensures taken { OnOk result (physical.new.phys.taken ≡ physical.old.phys.taken) }
    ensures serves { Serves physical.new buffer.new }
{
    let access = VirtualAccess {
        address: at,
        access_type: store_type(asi),
        reach: reach_of(size),
    };
    match locate(
        physical,
        buffer,
        Trap::DataAccessException,
        asi,
        access,
        notes,
    )? {
        Place::Failed(response) => Ok(response),
        Place::At(pa) => {
            let response = store_physical(physical, buffer, size, asi, at, pa, value, notes)?;
            Ok(response)
        }
    }
}

/// Stores to a register of the memory management unit.
#[cold]
fn store_register<const PAGES: usize>(
    physical: &mut Physical<PAGES>,
    buffer: &mut Buffer,
    at: u32,
    word: u32,
) -> Response
    requires serves { Serves physical.old buffer.old }
    ensures served { record { response = result; units = units_of physical.new } ≡ register_stored (units_of physical.old) at word }
    ensures memory { physical.new.phys ≡ physical.old.phys }
    ensures serves { Serves physical.new buffer.new }
{
    if physical.mmu.write_register(buffer, at, word) {
        Response::Value(0)
    } else {
        Response::Refused(Trap::DataAccessException)
    }
}

/// Empties the buffer.
#[cold]
fn flush<const PAGES: usize>(physical: &Physical<PAGES>, buffer: &mut Buffer) -> Response
    ensures response { result ≡ Response.Value 0 }
    ensures serves { Serves physical.now buffer.new }
{
    buffer.clear();
    Response::Value(0)
}

/// Stores to an address space.
#[inline(never)]
pub(crate) fn store<const PAGES: usize, T: Touches>(
    physical: &mut Physical<PAGES>,
    buffer: &mut Buffer,
    size: Size,
    asi: u8,
    at: u32,
    value: u64,
    notes: &mut T,
) -> Result<Response, AllocError>
    requires aligned { at % bytes_in size ≡ 0 }
    requires serves { Serves physical.old buffer.old }
    ensures ok { IfOk result (λ r. (bytes : List ℕ) → MemoryDoes T.NOTING bytes (stored_in (ram_size PAGES) (units_of physical.old) size asi at value (space_of asi))
        physical.old physical.new r (T.noted notes.old) (T.noted notes.new)) }
    ensures taken { OnOk result (physical.new.phys.taken ≡ physical.old.phys.taken) }
    ensures serves { Serves physical.new buffer.new }
{
    match space_of(asi) {
        Space::Virtual => {
            let response = store_virtual(physical, buffer, size, asi, at, value, notes)?;
            Ok(response)
        }
        Space::Physical(high) => {
            let place = physical_place(high, at);
            let response = store_physical(physical, buffer, size, asi, at, place, value, notes)?;
            Ok(response)
        }
        Space::Probing => {
            if is_word(size) {
                Ok(flush(physical, buffer))
            } else {
                Ok(Response::Refused(Trap::DataAccessException))
            }
        }
        Space::Registers => {
            if is_word(size) {
                let word = (value % 0x1_0000_0000) as u32;
                Ok(store_register(physical, buffer, at, word))
            } else {
                Ok(Response::Refused(Trap::DataAccessException))
            }
        }
        Space::Unassigned => Ok(Response::Refused(Trap::DataAccessException)),
    }
}

/// Loads from RAM at a physical address, and stores in the same place. What the buffer keeps of the page is forgotten.
fn exchange_physical<const PAGES: usize, T: Touches>(
    physical: &mut Physical<PAGES>,
    buffer: &mut Buffer,
    size: Size,
    asi: u8,
    at: u32,
    pa: u64,
    value: u64,
    notes: &mut T,
) -> Result<Response, AllocError>
    requires aligned { pa % bytes_in size ≡ 0 }
    requires small { pa < 2 ^ 44 }
    requires serves { Serves physical.old buffer.old }
    ensures ok { IfOk result (λ r. (bytes : List ℕ) → MemoryDoes T.NOTING bytes (exchanged_at (ram_size PAGES) (units_of physical.old) size asi value at pa)
        physical.old physical.new r (T.noted notes.old) (T.noted notes.new)) }
    ensures taken { OnOk result (physical.new.phys.taken ≡ physical.old.phys.taken) }
    ensures serves { Serves physical.new buffer.new }
{
    let response = physical.exchange(size, asi, at, pa, value, notes)?;
    buffer.forget_page((pa / 4096) as u32);
    Ok(response)
}

/// Loads from RAM at a virtual address, and stores in the same place.
fn exchange_virtual<const PAGES: usize, T: Touches>(
    physical: &mut Physical<PAGES>,
    buffer: &mut Buffer,
    size: Size,
    asi: u8,
    at: u32,
    value: u64,
    notes: &mut T,
) -> Result<Response, AllocError>
    requires aligned { at % bytes_in size ≡ 0 }
    requires serves { Serves physical.old buffer.old }
    ensures ok { IfOk result (λ r. (bytes : List ℕ) → MemoryDoes T.NOTING bytes (exchanged_in (ram_size PAGES) (units_of physical.old) size asi at value Space.Virtual)
        physical.old physical.new r (T.noted notes.old) (T.noted notes.new)) }
    ensures taken { OnOk result (physical.new.phys.taken ≡ physical.old.phys.taken) }
    ensures serves { Serves physical.new buffer.new }
{
    let access = VirtualAccess {
        address: at,
        access_type: store_type(asi),
        reach: Reach::Ram,
    };
    match locate(
        physical,
        buffer,
        Trap::DataAccessException,
        asi,
        access,
        notes,
    )? {
        Place::Failed(response) => Ok(response),
        Place::At(pa) => {
            let response = exchange_physical(physical, buffer, size, asi, at, pa, value, notes)?;
            Ok(response)
        }
    }
}

/// Loads from an address space, and stores in the same place.
#[inline(never)]
pub(crate) fn exchange<const PAGES: usize, T: Touches>(
    physical: &mut Physical<PAGES>,
    buffer: &mut Buffer,
    size: Size,
    asi: u8,
    at: u32,
    value: u64,
    notes: &mut T,
) -> Result<Response, AllocError>
    requires aligned { at % bytes_in size ≡ 0 }
    requires serves { Serves physical.old buffer.old }
    ensures ok { IfOk result (λ r. (bytes : List ℕ) → MemoryDoes T.NOTING bytes (exchanged_in (ram_size PAGES) (units_of physical.old) size asi at value (space_of asi))
        physical.old physical.new r (T.noted notes.old) (T.noted notes.new)) }
    ensures taken { OnOk result (physical.new.phys.taken ≡ physical.old.phys.taken) }
    ensures serves { Serves physical.new buffer.new }
{
    match space_of(asi) {
        Space::Virtual => {
            let response = exchange_virtual(physical, buffer, size, asi, at, value, notes)?;
            Ok(response)
        }
        Space::Physical(high) => {
            let place = physical_place(high, at);
            let response = exchange_physical(physical, buffer, size, asi, at, place, value, notes)?;
            Ok(response)
        }
        Space::Probing | Space::Registers | Space::Unassigned => Ok(Response::Refused(
            Trap::DataAccessException,
        )),
    }
}

/// Stores to RAM or a device at an address that is not translated.
#[inline(always)]
pub fn store_untranslated<const PAGES: usize, T: Touches>(
    physical: &mut Physical<PAGES>,
    buffer: &mut Buffer,
    size: Size,
    asi: u8,
    at: u32,
    value: u64,
    notes: &mut T,
) -> Result<Response, AllocError>
    requires untranslated { translates physical.old.mmu ≡ false }
    requires space { space_of asi ≡ Space.Virtual }
    requires aligned { at % bytes_in size ≡ 0 }
    requires serves { Serves physical.old buffer.old }
    ensures ok { IfOk result (λ r. (bytes : List ℕ) → MemoryDoes T.NOTING bytes (access (ram_size PAGES) (units_of physical.old) (AccessRequest.Store size asi at value))
        physical.old physical.new r (T.noted notes.old) (T.noted notes.new)) }
    ensures taken { OnOk result (physical.new.phys.taken ≡ physical.old.phys.taken) }
    ensures serves { Serves physical.new buffer.new }
{
    let response = store_physical(physical, buffer, size, asi, at, at as u64, value, notes)?;
    Ok(response)
}
