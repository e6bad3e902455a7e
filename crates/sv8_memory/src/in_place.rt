//! Fetches, loads and stores at an address of RAM that is known at once: addresses are not translated, or the walk of its page
//! was used last, and the access is allowed and sets no mark.

ghost use Rattle.std.specs.Prelude.{◌≡◌, ℕ, ◌%◌, List, true, false, not, nat_lt, None, IfOk, OnOk, MatchOption};
ghost use Rattle.sv8_model.specs.Does.{};
ghost use Rattle.sv8_model.specs.Size.{bytes_in};
ghost use Rattle.sv8_phys.specs.Memory.{ram_size};
ghost use Rattle.sv8_mmu.specs.Registers.{translates};
ghost use Rattle.sv8_memory.specs.Feeding.{bytes_fed, IsFed};
ghost use Rattle.sv8_memory.specs.Access.{access, loaded_in, stored_in};
ghost use Rattle.sv8_memory.specs.View.{MemoryDoes, units_of, Serves};

use crate::feed::Feed;
use crate::locating::reach_of;
use crate::physical::{Physical, load_type, store_type};
use crate::spaces::{instruction_space, load_virtual};
use crate::stores::{store_physical, store_virtual};
use std::alloc::AllocError;
use sv8_mmu::{Buffer, Reach, VirtualAccess, resolve_by_memo};
use sv8_phys::{Size, Touches};
use sv8_trap::{AccessRequest, Response, Space};

/// Fetches an instruction, where addresses are translated.
#[inline(always)]
pub fn fetch_translated<const PAGES: usize, T: Touches>(
    physical: &Physical<PAGES>,
    buffer: &Buffer,
    supervisor: bool,
    at: u32,
    notes: &mut T,
) -> Result<Option<u64>, AllocError>
    requires translated { translates physical.now.mmu ≡ true }
    requires aligned { at % 4 ≡ 0 }
    requires serves { Serves physical.now buffer.now }
    ensures { IfOk result (λ found. MatchOption found (T.noted notes.new ≡ T.noted notes.old) (λ word. (bytes : List ℕ) → MemoryDoes T.NOTING bytes (access (ram_size PAGES) (units_of physical.now) (AccessRequest.Fetch supervisor at))
        physical.now physical.now (Response.Value word) (T.noted notes.old) (T.noted notes.new))) }
{
    let access = VirtualAccess {
        address: at,
        access_type: load_type(instruction_space(supervisor)),
        reach: Reach::Ram,
    };
    match resolve_by_memo(&physical.mmu, buffer, &physical.phys, access, notes)? {
        Some(pa) => {
            let word = physical.fetch_ram(pa, notes)?;
            Ok(Some(word))
        }
        None => Ok(None),
    }
}

/// Fetches an instruction, where addresses are not translated.
#[inline(always)]
pub fn fetch_untranslated<const PAGES: usize, T: Touches>(
    physical: &Physical<PAGES>,
    supervisor: bool,
    at: u32,
    notes: &mut T,
) -> Result<Option<u64>, AllocError>
    requires untranslated { translates physical.now.mmu ≡ false }
    requires aligned { at % 4 ≡ 0 }
    ensures found { IfOk result (λ found. MatchOption found (T.noted notes.new ≡ T.noted notes.old) (λ word. (bytes : List ℕ) → MemoryDoes T.NOTING bytes (access (ram_size PAGES) (units_of physical.now) (AccessRequest.Fetch supervisor at))
        physical.now physical.now (Response.Value word) (T.noted notes.old) (T.noted notes.new))) }
    ensures otherwise { IfOk result (λ found. found ≡ None → not (nat_lt at (ram_size PAGES)) ≡ true) }
{
    let pa = u64::from(at);
    if !physical.phys.is_ram(pa) {
        return Ok(None);
    }
    let word = physical.fetch_ram(pa, notes)?;
    Ok(Some(word))
}

/// Loads at a virtual address, where addresses are translated.
#[inline(always)]
fn load_in_place<const PAGES: usize, T: Touches>(
    physical: &Physical<PAGES>,
    buffer: &Buffer,
    size: Size,
    asi: u8,
    at: u32,
    notes: &mut T,
) -> Result<Option<Response>, AllocError>
    requires aligned { at % bytes_in size ≡ 0 }
    requires translated { translates physical.now.mmu ≡ true }
    requires serves { Serves physical.now buffer.now }
    ensures { IfOk result (λ found. MatchOption found (T.noted notes.new ≡ T.noted notes.old) (λ r. (bytes : List ℕ) → MemoryDoes T.NOTING bytes (loaded_in (ram_size PAGES) (units_of physical.now) size asi at Space.Virtual)
        physical.now physical.now r (T.noted notes.old) (T.noted notes.new))) }
{
    let access = VirtualAccess {
        address: at,
        access_type: load_type(asi),
        reach: reach_of(size),
    };
    match resolve_by_memo(&physical.mmu, buffer, &physical.phys, access, notes)? {
        Some(pa) => {
            let response = physical.load_ram(size, at, pa, notes)?;
            Ok(Some(response))
        }
        None => Ok(None),
    }
}

/// Loads from RAM or a device at a virtual address, where addresses are translated. It is a function of its own, so that a caller
/// in whose way it seldom is has no part of it.
#[inline(never)]
pub fn load_translated<const PAGES: usize, T: Touches>(
    physical: &mut Physical<PAGES>,
    buffer: &mut Buffer,
    size: Size,
    asi: u8,
    at: u32,
    feed: Feed<'_>,
    notes: &mut T,
) -> Result<Response, AllocError>
    requires translated { translates physical.old.mmu ≡ true }
    requires aligned { at % bytes_in size ≡ 0 }
    requires fed { IsFed feed physical.old.phys }
    requires serves { Serves physical.old buffer.old }
    ensures ok { IfOk result (λ r. MemoryDoes T.NOTING (bytes_fed feed.entry) (loaded_in (ram_size PAGES) (units_of physical.old) size asi at Space.Virtual)
        physical.old physical.new r (T.noted notes.old) (T.noted notes.new)) }
    ensures fed { OnOk result (IsFed feed.entry physical.new.phys) }
    ensures serves { Serves physical.new buffer.new }
{
    if let Some(response) = load_in_place(physical, buffer, size, asi, at, notes)? {
        return Ok(response);
    }
    load_virtual(physical, buffer, size, asi, at, feed, notes)
}

/// Stores at a virtual address, where addresses are translated.
#[inline(always)]
fn store_in_place<const PAGES: usize, T: Touches>(
    physical: &mut Physical<PAGES>,
    buffer: &mut Buffer,
    size: Size,
    asi: u8,
    at: u32,
    value: u64,
    notes: &mut T,
) -> Result<Option<Response>, AllocError>
    requires aligned { at % bytes_in size ≡ 0 }
    requires translated { translates physical.old.mmu ≡ true }
    requires serves { Serves physical.old buffer.old }
    ensures found { IfOk result (λ found. MatchOption found (T.noted notes.new ≡ T.noted notes.old) (λ r. (bytes : List ℕ) → MemoryDoes T.NOTING bytes (stored_in (ram_size PAGES) (units_of physical.old) size asi at value Space.Virtual)
        physical.old physical.new r (T.noted notes.old) (T.noted notes.new))) }
    ensures otherwise { IfOk result (λ found. found ≡ None → physical.new ≡ physical.old) }
    ensures taken { OnOk result (physical.new.phys.taken ≡ physical.old.phys.taken) }
    ensures serves { Serves physical.new buffer.new }
{
    let access = VirtualAccess {
        address: at,
        access_type: store_type(asi),
        reach: reach_of(size),
    };
    match resolve_by_memo(&physical.mmu, buffer, &physical.phys, access, notes)? {
        Some(pa) => {
            let response = store_physical(physical, buffer, size, asi, at, pa, value, notes)?;
            Ok(Some(response))
        }
        None => Ok(None),
    }
}

/// Stores to RAM or a device at a virtual address, where addresses are translated, as a function of its own.
#[inline(never)]
pub fn store_translated<const PAGES: usize, T: Touches>(
    physical: &mut Physical<PAGES>,
    buffer: &mut Buffer,
    size: Size,
    asi: u8,
    at: u32,
    value: u64,
    notes: &mut T,
) -> Result<Response, AllocError>
    requires translated { translates physical.old.mmu ≡ true }
    requires aligned { at % bytes_in size ≡ 0 }
    requires serves { Serves physical.old buffer.old }
    ensures ok { IfOk result (λ r. (bytes : List ℕ) → MemoryDoes T.NOTING bytes (stored_in (ram_size PAGES) (units_of physical.old) size asi at value Space.Virtual)
        physical.old physical.new r (T.noted notes.old) (T.noted notes.new)) }
    ensures taken { OnOk result (physical.new.phys.taken ≡ physical.old.phys.taken) }
    ensures serves { Serves physical.new buffer.new }
{
    if let Some(response) = store_in_place(physical, buffer, size, asi, at, value, notes)? {
        return Ok(response);
    }
    store_virtual(physical, buffer, size, asi, at, value, notes)
}
