//! What a step of two machines does to both memories, where it is known at once to do the same.

ghost use Rattle.std.specs.Prelude.{◌≡◌, ℕ, ◌%◌, List, MatchBool, IfOk, IfSome, OnOk};
ghost use Rattle.sv8_model.specs.Does.{DoesUnnoted};
ghost use Rattle.sv8_model.specs.Size.{bytes_in};
ghost use Rattle.sv8_phys.specs.Memory.{ram_size};
ghost use Rattle.sv8_phys.specs.Contents.{outside_of};
ghost use Rattle.sv8_trap.specs.Requests.{space_of};
ghost use Rattle.sv8_memory.specs.Feeding.{bytes_fed, IsFed};
ghost use Rattle.sv8_memory.specs.Access.{access};
ghost use Rattle.sv8_memory.specs.View.{units_of};
ghost use Rattle.sv8_walks.specs.Lockstep.{counted_down, CountsDown, IsLoaded, IsStored};

use std::alloc::AllocError;
use sv8_memory::{Feed, Memory};
use sv8_phys::{NoTouches, Size};
use sv8_trap::{AccessRequest, Response, Space};

/// A step of a timer that does not expire.
#[inline(always)]
fn count_down<const PAGES: usize>(memory: &mut Memory<PAGES>) -> Result<(), AllocError>
    requires { CountsDown memory.old }
    ensures { OnOk result (memory.new ≡ record memory.old { phys = counted_down memory.old.phys }) }
{
    memory.tick(&mut NoTouches)?;
    Ok(())
}

/// A step of both timers, neither of which expires.
#[inline(always)]
pub fn count_down_both<const PAGES: usize>(
    memory: &mut Memory<PAGES>,
    other: &mut Memory<PAGES>,
) -> Result<(), AllocError>
    requires counting { CountsDown memory.old }
    requires others_counting { CountsDown other.old }
    ensures own { OnOk result (memory.new ≡ record memory.old { phys = counted_down memory.old.phys }) }
    ensures others { OnOk result (other.new ≡ record other.old { phys = counted_down other.old.phys }) }
{
    count_down(memory)?;
    count_down(other)?;
    Ok(())
}

/// The value that both memories give a load once the bytes of their feeds have come in, where both are known at once,
/// and are the same.
#[inline(always)]
pub fn load_from_both<const PAGES: usize>(
    memory: &Memory<PAGES>,
    other: &Memory<PAGES>,
    size: Size,
    asi: u8,
    at: u32,
    feed: Feed<'_>,
    other_feed: Feed<'_>,
) -> Result<Option<u64>, AllocError>
    requires space { space_of asi ≡ Space.Virtual }
    requires aligned { at % bytes_in size ≡ 0 }
    requires fed { IsFed feed memory.now.phys }
    requires others_fed { IsFed other_feed other.now.phys }
    ensures own { IfOk result (λ found. IfSome found (IsLoaded size asi at (bytes_fed feed.entry) memory.now)) }
    ensures others { IfOk result (λ found. IfSome found (IsLoaded size asi at (bytes_fed other_feed.entry) other.now)) }
{
    let Some(value) = memory.loaded_in_step(size, asi, at, feed)? else {
        return Ok(None);
    };
    let Some(other_value) = other.loaded_in_step(size, asi, at, other_feed)? else {
        return Ok(None);
    };
    if value == other_value {
        Ok(Some(value))
    } else {
        Ok(None)
    }
}

/// Stores to user or supervisor data of a memory.
#[inline(always)]
fn store<const PAGES: usize>(
    memory: &mut Memory<PAGES>,
    size: Size,
    asi: u8,
    at: u32,
    value: u64,
) -> Result<Response, AllocError>
    requires space { space_of asi ≡ Space.Virtual }
    requires aligned { at % bytes_in size ≡ 0 }
    ensures ok { IfOk result (λ r. (bytes : List ℕ) → DoesUnnoted (access (ram_size PAGES) (units_of memory.old) (AccessRequest.Store size asi at value))
        (outside_of memory.old.phys bytes) (outside_of memory.new.phys bytes) (record { response = r; units = units_of memory.new })) }
    ensures taken { OnOk result (memory.new.phys.taken ≡ memory.old.phys.taken) }
{
    if memory.translates() {
        return memory.store_data::<true, NoTouches>(size, asi, at, value, &mut NoTouches);
    }
    memory.store_data::<false, NoTouches>(size, asi, at, value, &mut NoTouches)
}

/// Stores to both memories in a step of both timers, where it is known at once that both answer it. Tells whether it has; where it
/// has not, nothing has changed.
#[inline(always)]
pub fn store_to_both<const PAGES: usize>(
    memory: &mut Memory<PAGES>,
    other: &mut Memory<PAGES>,
    size: Size,
    asi: u8,
    at: u32,
    value: u64,
) -> Result<bool, AllocError>
    requires space { space_of asi ≡ Space.Virtual }
    requires aligned { at % bytes_in size ≡ 0 }
    requires counting { CountsDown memory.old }
    requires others_counting { CountsDown other.old }
    ensures own { IfOk result (λ stored. MatchBool stored (IsStored size asi at value memory.old memory.new) (memory.new ≡ memory.old)) }
    ensures others { IfOk result (λ stored. MatchBool stored (IsStored size asi at value other.old other.new) (other.new ≡ other.old)) }
{
    if !memory.is_stored_at_once(size, asi, at) || !other.is_stored_at_once(size, asi, at) {
        return Ok(false);
    }
    count_down_both(memory, other)?;
    store(memory, size, asi, at, value)?;
    store(other, size, asi, at, value)?;
    Ok(true)
}
