//! The types of faults.

ghost use Rattle.std.specs.Prelude.{◌≡◌, ◌≤◌};
ghost use Rattle.sv8_mmu.specs.FaultTypes.{fault_number};

/// Why an access is refused, as the fault status register tells it. Appendix H, the fault types.
#[derive(Clone, Copy, PartialEq, Eq)]
pub enum FaultType {
    /// The walk met an invalid entry.
    InvalidAddress,
    /// ACC allows no access of this type.
    Protection,
    /// ACC allows the access to supervisors alone.
    Privilege,
    /// The walk met a reserved entry or a pointer at level 3, or an entry is not in RAM.
    Translation,
    /// Nothing serves the physical address.
    AccessBus,
}

impl FaultType {
    /// The number of the fault type, from 1 to 5.
    pub fn number(self) -> u8
        ensures value { result ≡ fault_number self }
        ensures small { result ≤ 7 }
    {
        match self {
            FaultType::InvalidAddress => 1,
            FaultType::Protection => 2,
            FaultType::Privilege => 3,
            FaultType::Translation => 4,
            FaultType::AccessBus => 5,
        }
    }
}
