//! One access to memory, as the processor asks for it and as it is answered.

ghost use Rattle.std.specs.Prelude.{◌≡◌};
ghost use Rattle.sv8_trap.specs.Requests.{space_of};

use crate::table::Trap;
use sv8_model::Size;

/// The one access that an instruction makes, or none. Addresses are virtual, and multiples of the size.
#[derive(Clone, Copy)]
pub enum AccessRequest {
    Nothing,
    /// Fetches an instruction.
    Fetch {
        supervisor: bool,
        at: u32,
    },
    /// Loads from an address space.
    Load {
        size: Size,
        asi: u8,
        at: u32,
    },
    /// Stores the low bytes of a number to an address space.
    Store {
        size: Size,
        asi: u8,
        at: u32,
        value: u64,
    },
    /// Loads, and stores the low bytes of a number in the same place.
    Exchange {
        size: Size,
        asi: u8,
        at: u32,
        value: u64,
    },
}

/// The number that an access gives, 0 where it loads nothing, or the trap that it raises.
#[derive(Clone, Copy)]
pub enum Response {
    Value(u64),
    Refused(Trap),
}

/// What an address space has (Appendix I).
#[derive(Clone, Copy)]
pub enum Space {
    /// The tables of the memory management unit, which are probed.
    Probing,
    /// The registers of the memory management unit.
    Registers,
    /// User or supervisor instructions or data, at virtual addresses.
    Virtual,
    /// Physical addresses, with their bits 35:32.
    Physical(u8),
    /// Nothing.
    Unassigned,
}

/// The space of an address space identifier.
#[inline(always)]
#[tactic(auto, unfolding(crate::specs::Requests::space_of))]
pub fn space_of(asi: u8) -> Space
    ensures value { result ≡ space_of asi }
{
    match asi {
        0x03 => Space::Probing,
        0x04 => Space::Registers,
        0x08..=0x0b => Space::Virtual,
        0x20..=0x2f => Space::Physical(asi % 16),
        _ => Space::Unassigned,
    }
}
