//! Where a virtual address lies.

ghost use Rattle.std.specs.Prelude.{◌≡◌, ◌<◌, ◌%◌, ◌^◌, IfSome};
ghost use Rattle.sv8_mmu.specs.Place.{placed, place_of};
ghost use Rattle.sv8_mmu.specs.Translation.{permission};

use crate::registers::Mmu;
use crate::table_level::TableLevel;
use crate::translation::physical_address;
use crate::walk::{Walked, walk_for};
use std::marker::Model;
use sv8_model::TableMemory;

/// The access permissions of a page, the field ACC of its entry, from 0 to 7: what the user and the supervisor may do there
/// (Appendix H). R is to read, W to write, and X to execute.
///
/// | ACC | User | Supervisor |
/// |---|---|---|
/// | 0 | R | R |
/// | 1 | RW | RW |
/// | 2 | RX | RX |
/// | 3 | RWX | RWX |
/// | 4 | X | X |
/// | 5 | R | RW |
/// | 6 | nothing | RX |
/// | 7 | nothing | RWX |
///
/// A contract sees them as the number.
#[derive(Clone, Copy)]
pub struct AccessPermissions(u8);

impl Model for AccessPermissions {
    ghost use Rattle.std.specs.Prelude.{ℕ, ◌<◌};

    ghost Value = { ℕ };

    ghost view = { λ p. p.0 };

    ghost invariant = { λ p. p.0 < 8 };

    ghost inverse = { λ n. record { 0 = n } };
}

impl AccessPermissions {
    /// The permissions of a page's entry.
    #[tactic(auto, unfolding(sv8_model::specs::Words::field))]
    fn of_entry(entry: u32) -> AccessPermissions
        ensures { result ≡ permission entry }
    {
        AccessPermissions((entry / 4 % 8) as u8)
    }

    /// The number, ACC.
    pub fn number(self) -> u8
        ensures value { result ≡ self }
        ensures small { result < 8 }
    {
        self.0
    }
}

/// The page that an address lies in.
#[derive(Clone, Copy)]
pub struct PagePlace {
    /// The level of the page's entry, which gives its size.
    pub level: TableLevel,
    /// What may be done there.
    pub access: AccessPermissions,
}

/// Where a virtual address lies.
#[derive(Clone, Copy)]
pub struct Place {
    /// The physical address, of 36 bits.
    pub pa: u64,
    /// The page, where addresses are translated.
    pub page: Option<PagePlace>,
}

/// What the end of a walk says of an address.
fn placed(end: Walked, va: u32) -> Option<Place>
    ensures value { result ≡ placed va end }
    ensures offset { IfSome result (λ p. p.pa % 4096 ≡ va % 4096) }
    ensures small { IfSome result (λ p. p.pa < 2 ^ 36) }
{
    match end {
        Walked::Fault { .. } => None,
        Walked::Page { entry, level, .. } => {
            let access = AccessPermissions::of_entry(entry);
            Some(Place {
                pa: physical_address(entry, level, va),
                page: Some(PagePlace { level, access }),
            })
        }
    }
}

/// Where a virtual address lies by the registers and the tables in RAM as they stand: the address itself where addresses are not
/// translated, else what the entry of its page maps it to. `None` where the walk from the context table on meets an entry that
/// is invalid (ET 0), reserved (ET 3), a pointer in a table of level 3, or not in RAM.
///
/// It asks for no access, so ACC is told and not looked at, nothing is marked, no fault is recorded, and whether RAM or a device
/// is at the physical address is not asked. It reads RAM, whatever a lookaside buffer keeps.
#[tactic(auto, unfolding(crate::specs::Place::place_of))]
pub fn place_of<R: TableMemory>(registers: &Mmu, phys: &R, va: u32) -> Option<Place>
    ensures value { result ≡ place_of R.SIZE registers.now (R.ram phys.now) va }
    ensures offset { IfSome result (λ p. p.pa % 4096 ≡ va % 4096) }
    ensures small { IfSome result (λ p. p.pa < 2 ^ 36) }
{
    if !registers.translates() {
        return Some(Place {
            pa: va as u64,
            page: None,
        });
    }
    let walk = walk_for(phys, registers.table_pointer, registers.context, va);
    placed(walk.end, va)
}
