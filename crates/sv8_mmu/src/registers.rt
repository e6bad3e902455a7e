//! The registers of the memory management unit, and the faults that they record.

ghost use Rattle.std.specs.Prelude.{◌≡◌, ◌≢◌, false, None, MatchBool};
ghost use Rattle.sv8_mmu.specs.Registers.{registers_at_reset, translates, has_no_fault, table_pointer_address, register_at, after_read, is_register, after_write, has_fault, status_of, recorded};

use crate::access_type::AccessType;
use crate::fault_type::FaultType;
use crate::table_level::TableLevel;

/// The registers of the reference memory management unit.
#[derive(Clone, Copy)]
pub struct Mmu {
    /// The control register: bit 0 is E, bit 1 is NF.
    pub control: u32,
    /// The context table pointer register: bits 31:2 hold bits 35:6 of the context table's address.
    pub table_pointer: u32,
    /// The context register.
    pub context: u32,
    /// The fault status register.
    pub fault_status: u32,
    /// The fault address register.
    pub fault_address: u32,
}

/// A fault of an access, as the fault status and fault address registers tell it.
#[derive(Clone, Copy, PartialEq, Eq)]
pub struct Fault {
    /// The level of the table entry at fault; `Context`, whose number is 0, where nothing serves the physical address.
    pub level: TableLevel,
    /// The access type.
    pub access_type: AccessType,
    /// The fault type.
    pub fault_type: FaultType,
    /// The virtual address.
    pub address: u32,
}

/// The address of the control register.
pub const CONTROL: u32 = 0x000;
/// The address of the context table pointer register.
pub const TABLE_POINTER: u32 = 0x100;
/// The address of the context register.
pub const CONTEXT: u32 = 0x200;
/// The address of the fault status register.
pub const FAULT_STATUS: u32 = 0x300;
/// The address of the fault address register.
pub const FAULT_ADDRESS: u32 = 0x400;

/// Whether a fault status tells of a fault.
#[tactic(auto, unfolding(sv8_model::specs::Words::field))]
fn has_fault(status: u32) -> bool
    ensures { result ≡ has_fault status }
{
    (status >> 2) % 8 != 0
}

/// The fault status of a fault over the status before it.
#[tactic(auto, unfolding(crate::specs::Registers::status_of))]
fn status_of(old: u32, fault: Fault) -> u32
    ensures { result ≡ status_of old fault }
{
    let valid = u32::from(fault.level.number()) * 0x100
        + u32::from(fault.access_type.number()) * 0x20
        + u32::from(fault.fault_type.number()) * 4
        + 2;
    if has_fault(old) { valid + 1 } else { valid }
}

impl Mmu {
    /// The registers after reset: no translation, and nothing recorded.
    pub fn new() -> Self
        ensures { result ≡ registers_at_reset }
    {
        Mmu {
            control: 0,
            table_pointer: 0,
            context: 0,
            fault_status: 0,
            fault_address: 0,
        }
    }

    /// Whether each of the five registers is the same as in a second unit.
    pub fn is_same(&self, other: &Mmu) -> bool
        ensures { MatchBool result (self.now ≡ other.now) (self.now ≢ other.now) }
    {
        if self.control != other.control || self.context != other.context {
            return false;
        }
        if self.fault_status != other.fault_status || self.fault_address != other.fault_address {
            return false;
        }
        self.table_pointer == other.table_pointer
    }

    /// Whether addresses are translated: E is set.
    #[inline(always)]
    pub fn translates(&self) -> bool
        ensures { result ≡ translates self.now }
    {
        self.control % 2 == 1
    }

    /// Whether NF is set.
    pub fn has_no_fault(&self) -> bool
        ensures { result ≡ has_no_fault self.now }
    {
        (self.control >> 1) % 2 == 1
    }

    /// Reads the register at an address of the registers' space, if there is one. A read of the fault status clears it.
    #[tactic(auto, unfolding(crate::specs::Registers::register_at, crate::specs::Registers::after_read))]
    pub fn read_register(&mut self, at: u32) -> Option<u32>
        ensures value { result ≡ register_at self.old at }
        ensures registers { self.new ≡ after_read self.old at }
        ensures pointer { self.new.table_pointer ≡ self.old.table_pointer }
        ensures none { result ≡ None → self.new ≡ self.old }
    {
        match at {
            CONTROL => Some(self.control),
            TABLE_POINTER => Some(self.table_pointer),
            CONTEXT => Some(self.context),
            FAULT_STATUS => {
                let status = self.fault_status;
                self.fault_status = 0;
                Some(status)
            }
            FAULT_ADDRESS => Some(self.fault_address),
            _ => None,
        }
    }

    /// Writes the register at an address of the registers' space, and tells whether there is one. A write to the fault
    /// status or the fault address is ignored.
    #[tactic(auto, unfolding(crate::specs::Registers::after_write))]
    pub(crate) fn write(&mut self, at: u32, word: u32) -> bool
        ensures there { result ≡ is_register at }
        ensures registers { self.new ≡ after_write self.old at word }
        ensures pointer { at ≢ table_pointer_address → self.new.table_pointer ≡ self.old.table_pointer }
        ensures refused { result ≡ false → self.new ≡ self.old }
    {
        match at {
            CONTROL => self.control = word % 4,
            TABLE_POINTER => self.table_pointer = word / 4 * 4,
            CONTEXT => self.context = word % 0x100,
            FAULT_STATUS | FAULT_ADDRESS => {}
            _ => return false,
        }
        true
    }

    /// Records a fault.
    #[tactic(auto, unfolding(crate::specs::Registers::recorded))]
    pub fn record(&mut self, fault: Fault)
        ensures { self.new ≡ recorded self.old fault }
    {
        self.fault_status = status_of(self.fault_status, fault);
        self.fault_address = fault.address;
    }
}
