//! Where an access of the processor leads: its physical address, or the fault of its translation (Appendices H and I).

ghost use Rattle.std.specs.Prelude.{◌≡◌, ℕ, ◌+◌, ◌*◌, ◌%◌, ◌/◌, ◌^◌, ◌<◌, List, IfOk, OnOk};
ghost use Rattle.sv8_model.specs.Does.{};
ghost use Rattle.sv8_model.specs.declared.size.Size.{Size};
ghost use Rattle.sv8_model.specs.Size.{bytes_in};
ghost use Rattle.sv8_phys.specs.Memory.{ram_size};
ghost use Rattle.sv8_memory.specs.Units.{served, failed};
ghost use Rattle.sv8_memory.specs.Access.{physical_place, reach_of, access};
ghost use Rattle.sv8_memory.specs.View.{units_of, Serves};
ghost use Rattle.sv8_memory.specs.Locating.{Locates, IsPlace};

use crate::physical::Physical;
use std::alloc::AllocError;
use sv8_mmu::{Buffer, Fault, FaultType, Reach, TableLevel, Translated, VirtualAccess, resolve};
use sv8_phys::{Size, Touches};
use sv8_trap::{Response, Trap};

/// What serves a load or a store of a size.
#[inline(always)]
pub(crate) fn reach_of(size: Size) -> Reach
    ensures { result ≡ reach_of size }
{
    match size {
        Size::Word => Reach::RamOrDevices,
        Size::Byte | Size::Half | Size::Double => Reach::Ram,
    }
}

/// The physical address in one of the spaces of physical addresses.
#[inline(always)]
#[tactic(auto, using(crate::proofs::Pages::place_aligned))]
pub(crate) fn physical_place(high: u8, at: u32) -> u64
    ensures value { result ≡ physical_place high at }
    ensures aligned { (size : Size) → at % bytes_in size ≡ 0 → result % bytes_in size ≡ 0 }
    ensures small { result < 2 ^ 44 }
{
    high as u64 * 0x1_0000_0000 + at as u64
}

/// Where an access to a virtual address goes on.
#[derive(Clone, Copy)]
pub(crate) enum Place {
    /// At a physical address.
    At(u64),
    /// Nowhere: its translation met a fault, and it is answered so.
    Failed(Response),
}

/// Fails an access whose translation meets a fault.
#[cold]
pub(crate) fn refuse<const PAGES: usize>(
    physical: &mut Physical<PAGES>,
    trap: Trap,
    asi: u8,
    access: VirtualAccess,
    kind: FaultType,
    level: TableLevel,
) -> Response
    ensures served { record { response = result; units = units_of physical.new }
        ≡ failed (units_of physical.old) trap asi (record { level = level; access_type = access.access_type; fault_type = kind; address = access.address }) }
    ensures memory { physical.new.phys ≡ physical.old.phys }
    ensures pointer { physical.new.mmu.table_pointer ≡ physical.old.mmu.table_pointer }
{
    let fault = Fault {
        level,
        access_type: access.access_type,
        fault_type: kind,
        address: access.address,
    };
    physical.fail(trap, asi, fault)
}

/// Translates the address of an access. A fault of the translation fails the access.
#[inline(always)]
pub(crate) fn locate<const PAGES: usize, T: Touches>(
    physical: &mut Physical<PAGES>,
    buffer: &mut Buffer,
    trap: Trap,
    asi: u8,
    access: VirtualAccess,
    notes: &mut T,
) -> Result<Place, AllocError>
    requires serves { Serves physical.old buffer.old }
    ensures ok { IfOk result (λ place. (bytes : List ℕ) → Locates T.NOTING bytes (ram_size PAGES) trap asi access
        physical.old physical.new place (T.noted notes.old) (T.noted notes.new)) }
    ensures address { IfOk result (λ place. IsPlace access.address place) }
    ensures taken { OnOk result (physical.new.phys.taken ≡ physical.old.phys.taken) }
    ensures serves { Serves physical.new buffer.new }
{
    match resolve(&physical.mmu, buffer, &mut physical.phys, access, notes)? {
        Translated::At(pa) => Ok(Place::At(pa)),
        Translated::Refused { kind, level } => {
            let response = refuse(physical, trap, asi, access, kind, level);
            Ok(Place::Failed(response))
        }
    }
}
