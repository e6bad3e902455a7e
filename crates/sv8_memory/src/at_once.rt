//! Accesses of which it is known at once, with no walk of the tables, that they raise no trap: fetches and loads of RAM and the
//! load that counts the bytes that wait, which change nothing, and stores to RAM or to a device.

ghost use Rattle.std.specs.Prelude.{◌≡◌, ℕ, ◌%◌, List, true, IfOk, IfSome};
ghost use Rattle.sv8_model.specs.Action.{result_of};
ghost use Rattle.sv8_model.specs.Outside.{Outside};
ghost use Rattle.sv8_model.specs.Does.{DoesUnnoted};
ghost use Rattle.sv8_model.specs.Size.{bytes_in};
ghost use Rattle.sv8_phys.specs.declared.timer.Timer.{Timer};
ghost use Rattle.sv8_phys.specs.Memory.{ram_size};
ghost use Rattle.sv8_phys.specs.Contents.{outside_of};
ghost use Rattle.sv8_trap.specs.Requests.{space_of};
ghost use Rattle.sv8_memory.specs.Units.{served};
ghost use Rattle.sv8_memory.specs.Feeding.{bytes_fed, IsFed};
ghost use Rattle.sv8_memory.specs.Access.{access};
ghost use Rattle.sv8_memory.specs.View.{Serves, timed_units, IsTaken};

use crate::feed::Feed;
use crate::locating::reach_of;
use crate::physical::{Physical, counts_bytes, load_type, store_type};
use crate::spaces::instruction_space;
use std::alloc::AllocError;
use sv8_mmu::{Buffer, Reach, VirtualAccess, address_in_ram, is_device};
use sv8_phys::{NoTouches, Size};
use sv8_trap::{AccessRequest, Space};

/// The word that a fetch gives.
#[inline(always)]
pub fn fetched_at_once<const PAGES: usize>(
    physical: &Physical<PAGES>,
    buffer: &Buffer,
    supervisor: bool,
    at: u32,
) -> Result<Option<u64>, AllocError>
    requires aligned { at % 4 ≡ 0 }
    requires serves { Serves physical.now buffer.now }
    ensures { IfOk result (λ found. IfSome found (λ word. (timer : Timer) (bytes : List ℕ) → DoesUnnoted (access (ram_size PAGES) (timed_units physical.now timer) (AccessRequest.Fetch supervisor at))
        (outside_of physical.now.phys bytes) (outside_of physical.now.phys bytes) (served (timed_units physical.now timer) word))) }
{
    let access = VirtualAccess {
        address: at,
        access_type: load_type(instruction_space(supervisor)),
        reach: Reach::Ram,
    };
    match address_in_ram(&physical.mmu, buffer, &physical.phys, access) {
        Some(pa) => {
            let word = physical.phys.read_ram(pa, Size::Word, &mut NoTouches)?;
            Ok(Some(word))
        }
        None => Ok(None),
    }
}

/// What a load gives.
#[inline(always)]
pub fn loaded_at_once<const PAGES: usize>(
    physical: &Physical<PAGES>,
    buffer: &Buffer,
    size: Size,
    asi: u8,
    at: u32,
) -> Result<Option<u64>, AllocError>
    requires space { space_of asi ≡ Space.Virtual }
    requires aligned { at % bytes_in size ≡ 0 }
    requires serves { Serves physical.now buffer.now }
    ensures { IfOk result (λ found. IfSome found (λ value. (timer : Timer) (bytes : List ℕ) → DoesUnnoted (access (ram_size PAGES) (timed_units physical.now timer) (AccessRequest.Load size asi at))
        (outside_of physical.now.phys bytes) (outside_of physical.now.phys bytes) (served (timed_units physical.now timer) value))) }
{
    let access = VirtualAccess {
        address: at,
        access_type: load_type(asi),
        reach: reach_of(size),
    };
    match address_in_ram(&physical.mmu, buffer, &physical.phys, access) {
        Some(pa) => {
            let _size = physical.phys.ram_size();
            let value = physical.phys.read_ram(pa, size, &mut NoTouches)?;
            Ok(Some(value))
        }
        None => Ok(None),
    }
}

/// What a load of the count of the bytes that wait at the console gives: a word, at an address that is not translated.
pub fn waiting_at_once<const PAGES: usize>(
    physical: &Physical<PAGES>,
    size: Size,
    at: u32,
    feed: Feed<'_>,
) -> Result<Option<u64>, AllocError>
    requires fed { IsFed feed physical.now.phys }
    ensures { IfOk result (λ found. IfSome found (λ count. (asi : ℕ) (timer : Timer) → space_of asi ≡ Space.Virtual
        → DoesUnnoted (access (ram_size PAGES) (timed_units physical.now timer) (AccessRequest.Load size asi at))
        (outside_of physical.now.phys (bytes_fed feed.entry)) (outside_of physical.now.phys (bytes_fed feed.entry)) (served (timed_units physical.now timer) count))) }
{
    if physical.mmu.translates() || !counts_bytes(size, u64::from(at)) {
        return Ok(None);
    }
    let count = physical
        .phys
        .waiting_noted(feed.end_step(), feed.timeline, &mut NoTouches)?;
    Ok(Some(u64::from(count)))
}

/// Whether a store is known to go to a device that takes it: a word, at an address that is not translated.
fn is_stored_to_device<const PAGES: usize>(physical: &Physical<PAGES>, size: Size, at: u32) -> bool
    ensures { result ≡ true → (asi value : ℕ) (timer : Timer) (o : Outside) → space_of asi ≡ Space.Virtual
        → IsTaken physical.now.mmu (result_of (access (ram_size PAGES) (timed_units physical.now timer) (AccessRequest.Store size asi at value)) o) }
{
    if physical.mmu.translates() || physical.phys.is_ram(u64::from(at)) {
        return false;
    }
    match size {
        Size::Word => is_device(u64::from(at)),
        _ => false,
    }
}

/// Whether a store is one of RAM or of a device that raises no trap.
#[inline(always)]
pub fn is_stored_at_once<const PAGES: usize>(
    physical: &Physical<PAGES>,
    buffer: &Buffer,
    size: Size,
    asi: u8,
    at: u32,
) -> bool
    requires space { space_of asi ≡ Space.Virtual }
    requires serves { Serves physical.now buffer.now }
    ensures { result ≡ true → (value : ℕ) (timer : Timer) (bytes : List ℕ)
        → IsTaken physical.now.mmu (result_of (access (ram_size PAGES) (timed_units physical.now timer) (AccessRequest.Store size asi at value)) (outside_of physical.now.phys bytes)) }
{
    let access = VirtualAccess {
        address: at,
        access_type: store_type(asi),
        reach: reach_of(size),
    };
    match address_in_ram(&physical.mmu, buffer, &physical.phys, access) {
        Some(_) => true,
        None => is_stored_to_device(physical, size, at),
    }
}
