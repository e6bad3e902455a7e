//! Accesses by address space (Appendices H and I).

ghost use Rattle.std.specs.Prelude.{◌≡◌, ℕ, ◌%◌, ◌/◌, ◌<◌, List, false, IfOk, OnOk};
ghost use Rattle.sv8_model.specs.Does.{};
ghost use Rattle.sv8_model.specs.declared.size.Size.{Size};
ghost use Rattle.sv8_model.specs.Size.{bytes_in};
ghost use Rattle.sv8_mmu.specs.Registers.{translates};
ghost use Rattle.sv8_phys.specs.Memory.{ram_size};
ghost use Rattle.sv8_memory.specs.Units.{served};
ghost use Rattle.sv8_trap.specs.Requests.{space_of, IsAligned};
ghost use Rattle.sv8_memory.specs.Feeding.{bytes_fed, IsFed};
ghost use Rattle.sv8_memory.specs.Access.{load_type, physical_place, fetched_in, loaded_in, reach_of, instruction_space, is_word, register_loaded, probed, access};
ghost use Rattle.sv8_memory.specs.View.{MemoryDoes, units_of, Serves};

use crate::feed::Feed;
use crate::locating::{Place, locate, physical_place, reach_of};
use crate::physical::{Physical, is_word, load_type};
use crate::stores::{exchange, store};
use std::alloc::AllocError;
use sv8_mmu::{Buffer, Reach, VirtualAccess, probe_by_address};
use sv8_phys::{Size, Touches};
use sv8_trap::{AccessRequest, Response, Space, Trap, space_of};

/// The address space that instructions are fetched from.
#[inline(always)]
pub fn instruction_space(supervisor: bool) -> u8
    ensures { result ≡ instruction_space supervisor }
{
    if supervisor { 0x09 } else { 0x08 }
}

/// Fetches an instruction.
#[inline(always)]
fn fetch<const PAGES: usize, T: Touches>(
    physical: &mut Physical<PAGES>,
    buffer: &mut Buffer,
    asi: u8,
    at: u32,
    notes: &mut T,
) -> Result<Response, AllocError>
    requires aligned { at % 4 ≡ 0 }
    requires serves { Serves physical.old buffer.old }
    ensures ok { IfOk result (λ r. (bytes : List ℕ) → MemoryDoes T.NOTING bytes (fetched_in (ram_size PAGES) (units_of physical.old) asi at)
        physical.old physical.new r (T.noted notes.old) (T.noted notes.new)) }
    ensures taken { OnOk result (physical.new.phys.taken ≡ physical.old.phys.taken) }
    ensures serves { Serves physical.new buffer.new }
{
    let access = VirtualAccess {
        address: at,
        access_type: load_type(asi),
        reach: Reach::Ram,
    };
    match locate(
        physical,
        buffer,
        Trap::InstructionAccessException,
        asi,
        access,
        notes,
    )? {
        Place::Failed(response) => Ok(response),
        Place::At(pa) => {
            let response = physical.fetch(asi, at, pa, notes)?;
            Ok(response)
        }
    }
}

/// Loads from RAM or a device at a virtual address.
#[inline(never)]
pub fn load_virtual<const PAGES: usize, T: Touches>(
    physical: &mut Physical<PAGES>,
    buffer: &mut Buffer,
    size: Size,
    asi: u8,
    at: u32,
    feed: Feed<'_>,
    notes: &mut T,
) -> Result<Response, AllocError>
    requires aligned { at % bytes_in size ≡ 0 }
    requires fed { IsFed feed physical.old.phys }
    requires serves { Serves physical.old buffer.old }
    ensures ok { IfOk result (λ r. MemoryDoes T.NOTING (bytes_fed feed.entry) (loaded_in (ram_size PAGES) (units_of physical.old) size asi at Space.Virtual)
        physical.old physical.new r (T.noted notes.old) (T.noted notes.new)) }
    ensures fed { OnOk result (IsFed feed.entry physical.new.phys) }
    ensures serves { Serves physical.new buffer.new }
{
    let access = VirtualAccess {
        address: at,
        access_type: load_type(asi),
        reach: reach_of(size),
    };
    match locate(
        physical,
        buffer,
        Trap::DataAccessException,
        asi,
        access,
        notes,
    )? {
        Place::Failed(response) => Ok(response),
        Place::At(pa) => {
            let response = physical.load(size, asi, at, pa, feed, notes)?;
            Ok(response)
        }
    }
}

/// Loads a register of the memory management unit.
#[cold]
fn load_register<const PAGES: usize>(physical: &mut Physical<PAGES>, at: u32) -> Response
    ensures served { record { response = result; units = units_of physical.new } ≡ register_loaded (units_of physical.old) at }
    ensures memory { physical.new.phys ≡ physical.old.phys }
    ensures pointer { physical.new.mmu.table_pointer ≡ physical.old.mmu.table_pointer }
{
    match physical.mmu.read_register(at) {
        None => Response::Refused(Trap::DataAccessException),
        Some(word) => Response::Value(word as u64),
    }
}

/// Probes the tables.
#[cold]
fn load_probe<const PAGES: usize, T: Touches>(
    physical: &Physical<PAGES>,
    size: Size,
    at: u32,
    notes: &mut T,
) -> Result<Response, AllocError>
    ensures ok { IfOk result (λ r. (bytes : List ℕ) → MemoryDoes T.NOTING bytes (probed (ram_size PAGES) (units_of physical.now) size at)
        physical.now physical.now r (T.noted notes.old) (T.noted notes.new)) }
{
    if !is_word(size) {
        return Ok(Response::Refused(Trap::DataAccessException));
    }
    let entry = probe_by_address(&physical.mmu, &physical.phys, at, notes)?;
    Ok(Response::Value(entry as u64))
}

/// Loads from an address space.
#[inline(never)]
fn load<const PAGES: usize, T: Touches>(
    physical: &mut Physical<PAGES>,
    buffer: &mut Buffer,
    size: Size,
    asi: u8,
    at: u32,
    feed: Feed<'_>,
    notes: &mut T,
) -> Result<Response, AllocError>
    requires aligned { at % bytes_in size ≡ 0 }
    requires fed { IsFed feed physical.old.phys }
    requires serves { Serves physical.old buffer.old }
    ensures ok { IfOk result (λ r. MemoryDoes T.NOTING (bytes_fed feed.entry) (loaded_in (ram_size PAGES) (units_of physical.old) size asi at (space_of asi))
        physical.old physical.new r (T.noted notes.old) (T.noted notes.new)) }
    ensures fed { OnOk result (IsFed feed.entry physical.new.phys) }
    ensures serves { Serves physical.new buffer.new }
{
    match space_of(asi) {
        Space::Virtual => {
            let response = load_virtual(physical, buffer, size, asi, at, feed, notes)?;
            Ok(response)
        }
        Space::Physical(high) => {
            let place = physical_place(high, at);
            let response = physical.load(size, asi, at, place, feed, notes)?;
            Ok(response)
        }
        Space::Probing => {
            let response = load_probe(physical, size, at, notes)?;
            Ok(response)
        }
        Space::Registers => {
            if is_word(size) {
                Ok(load_register(physical, at))
            } else {
                Ok(Response::Refused(Trap::DataAccessException))
            }
        }
        Space::Unassigned => Ok(Response::Refused(Trap::DataAccessException)),
    }
}

/// Loads from RAM or a device at an address that is not translated.
#[inline(always)]
pub fn load_untranslated<const PAGES: usize, T: Touches>(
    physical: &mut Physical<PAGES>,
    buffer: &Buffer,
    size: Size,
    asi: u8,
    at: u32,
    feed: Feed<'_>,
    notes: &mut T,
) -> Result<Response, AllocError>
    requires untranslated { translates physical.old.mmu ≡ false }
    requires space { space_of asi ≡ Space.Virtual }
    requires aligned { at % bytes_in size ≡ 0 }
    requires fed { IsFed feed physical.old.phys }
    requires serves { Serves physical.old buffer.now }
    ensures ok { IfOk result (λ r. MemoryDoes T.NOTING (bytes_fed feed.entry) (access (ram_size PAGES) (units_of physical.old) (AccessRequest.Load size asi at))
        physical.old physical.new r (T.noted notes.old) (T.noted notes.new)) }
    ensures fed { OnOk result (IsFed feed.entry physical.new.phys) }
    ensures serves { Serves physical.new buffer.now }
{
    let response = physical.load(size, asi, at, at as u64, feed, notes)?;
    Ok(response)
}

/// Makes an access. The bytes of `feed` have come in at the console.
#[inline(always)]
#[tactic(auto, unfolding(crate::specs::Access::access))]
pub fn access<const PAGES: usize, T: Touches>(
    physical: &mut Physical<PAGES>,
    buffer: &mut Buffer,
    request: AccessRequest,
    feed: Feed<'_>,
    notes: &mut T,
) -> Result<Response, AllocError>
    requires aligned { IsAligned request }
    requires fed { IsFed feed physical.old.phys }
    requires serves { Serves physical.old buffer.old }
    ensures ok { IfOk result (λ r. MemoryDoes T.NOTING (bytes_fed feed.entry) (access (ram_size PAGES) (units_of physical.old) request)
        physical.old physical.new r (T.noted notes.old) (T.noted notes.new)) }
    ensures fed { OnOk result (IsFed feed.entry physical.new.phys) }
    ensures serves { Serves physical.new buffer.new }
{
    match request {
        AccessRequest::Nothing => Ok(Response::Value(0)),
        AccessRequest::Fetch { supervisor, at } => {
            let response = fetch(physical, buffer, instruction_space(supervisor), at, notes)?;
            Ok(response)
        }
        AccessRequest::Load { size, asi, at } => {
            let response = load(physical, buffer, size, asi, at, feed, notes)?;
            Ok(response)
        }
        AccessRequest::Store {
            size,
            asi,
            at,
            value,
        } => {
            let response = store(physical, buffer, size, asi, at, value, notes)?;
            Ok(response)
        }
        AccessRequest::Exchange {
            size,
            asi,
            at,
            value,
        } => {
            let response = exchange(physical, buffer, size, asi, at, value, notes)?;
            Ok(response)
        }
    }
}
