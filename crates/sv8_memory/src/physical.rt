//! Accesses at a physical address: RAM, the devices, and the registers of the memory management unit, which record faults.

ghost use Rattle.std.specs.Prelude.{◌≡◌, ℕ, ◌%◌, ◌/◌, ◌<◌, [], List, true, nat_lt, IfOk, OnOk, OnErr};
ghost use Rattle.sv8_model.specs.Does.{noting};
ghost use Rattle.sv8_model.specs.Size.{bytes_in};
ghost use Rattle.sv8_phys.specs.Memory.{ram_size};
ghost use Rattle.sv8_mmu.specs.Kept.{DiffersInPage};
ghost use Rattle.sv8_memory.specs.Units.{served, failed, is_hidden};
ghost use Rattle.sv8_memory.specs.Feeding.{bytes_fed, IsFed};
ghost use Rattle.sv8_memory.specs.Access.{access_seen, seen_if, load_type, store_type, bus_fault, fetched_from, load_answer, is_word, takes_byte, counts_bytes, plainly_loaded, loaded_from, answer_to_store, stored_at, exchanged_at};
ghost use Rattle.sv8_memory.specs.View.{MemoryDoes, units_of};

use crate::feed::Feed;
use std::alloc::AllocError;
use sv8_mmu::{AccessType, Fault, FaultType, Mmu, TableLevel};
use sv8_model::low_word;
use sv8_phys::{AccessKind, BusError, INPUT, Observation, Phys, Size, Touches, WAITING};
use sv8_trap::{Response, Trap};

/// Physical memory of `PAGES` pages of RAM with the devices, and the memory management unit's registers.
#[derive(Drop)]
pub struct Physical<const PAGES: usize> {
    pub phys: Phys<PAGES>,
    pub mmu: Mmu,
}

/// The access type of a load from an address space.
#[inline(always)]
#[tactic(auto, unfolding(crate::specs::Access::load_type))]
pub fn load_type(asi: u8) -> AccessType
    ensures { result ≡ load_type asi }
{
    match asi {
        0x08 => AccessType::UserFetch,
        0x09 => AccessType::SupervisorFetch,
        0x0a => AccessType::UserLoad,
        _ => AccessType::SupervisorLoad,
    }
}

/// The access type of a store to an address space.
#[inline(always)]
#[tactic(auto, unfolding(crate::specs::Access::store_type))]
pub fn store_type(asi: u8) -> AccessType
    ensures { result ≡ store_type asi }
{
    match asi {
        0x08 => AccessType::UserInstructionStore,
        0x09 => AccessType::SupervisorInstructionStore,
        0x0a => AccessType::UserStore,
        _ => AccessType::SupervisorStore,
    }
}

#[inline(always)]
pub fn is_word(size: Size) -> bool
    ensures { result ≡ is_word size }
{
    matches!(size, Size::Word)
}

/// Whether a load takes a byte of the console's input.
#[inline(always)]
fn takes_byte(size: Size, pa: u64) -> bool
    ensures { result ≡ takes_byte size pa }
{
    is_word(size) && pa == INPUT
}

/// Whether a load counts the bytes that wait at the console.
#[inline(always)]
pub fn counts_bytes(size: Size, pa: u64) -> bool
    ensures { result ≡ counts_bytes size pa }
{
    is_word(size) && pa == WAITING
}

/// What an observer sees of an access.
#[inline(always)]
fn seen(kind: AccessKind, size: Size, va: u32, pa: u64) -> Observation
    ensures { result ≡ access_seen kind size va pa }
{
    Observation::Access {
        kind,
        bytes: size.bytes(),
        va,
        pa,
    }
}

/// Lets an observer see an access, if it was answered.
#[inline(always)]
fn show<A, T: Touches>(
    answer: &Result<A, BusError>,
    access: Observation,
    notes: &mut T,
) -> Result<(), AllocError>
    ensures { OnOk result (T.noted notes.new ≡ noting T.NOTING (T.noted notes.old) [] (seen_if answer.now access)) }
{
    match answer {
        Ok(_) => {
            notes.observe(access)?;
            Ok(())
        }
        Err(_) => Ok(()),
    }
}

/// Whether NF keeps a fault in an address space from raising a trap.
#[tactic(auto, unfolding(crate::specs::Units::is_hidden))]
fn is_hidden(mmu: &Mmu, asi: u8) -> bool
    ensures { result ≡ is_hidden mmu.now asi }
{
    mmu.has_no_fault() && asi != 9
}

impl<const PAGES: usize> Physical<PAGES> {
    /// Records a fault, and raises the trap unless the fault is hidden.
    #[cold]
    #[tactic(auto, unfolding(crate::specs::Units::failed, sv8_mmu::specs::Registers::recorded))]
    pub fn fail(&mut self, trap: Trap, asi: u8, fault: Fault) -> Response
        ensures served { record { response = result; units = units_of self.new } ≡ failed (units_of self.old) trap asi fault }
        ensures memory { self.new.phys ≡ self.old.phys }
        ensures pointer { self.new.mmu.table_pointer ≡ self.old.mmu.table_pointer }
    {
        let hidden = is_hidden(&self.mmu, asi);
        self.mmu.record(fault);
        if hidden {
            Response::Value(0)
        } else {
            Response::Refused(trap)
        }
    }

    /// Records that nothing serves a physical address.
    #[cold]
    fn fail_bus(&mut self, trap: Trap, asi: u8, access_type: AccessType, va: u32) -> Response
        ensures served { record { response = result; units = units_of self.new } ≡ failed (units_of self.old) trap asi (bus_fault access_type va) }
        ensures memory { self.new.phys ≡ self.old.phys }
        ensures pointer { self.new.mmu.table_pointer ≡ self.old.mmu.table_pointer }
    {
        let fault = Fault {
            level: TableLevel::Context,
            access_type,
            fault_type: FaultType::AccessBus,
            address: va,
        };
        self.fail(trap, asi, fault)
    }

    /// What a load leads to.
    #[inline(always)]
    fn load_answer(&mut self, asi: u8, va: u32, answer: Result<u64, BusError>) -> Response
        ensures served { record { response = result; units = units_of self.new } ≡ load_answer (units_of self.old) asi va answer }
        ensures memory { self.new.phys ≡ self.old.phys }
        ensures pointer { self.new.mmu.table_pointer ≡ self.old.mmu.table_pointer }
    {
        match answer {
            Ok(value) => Response::Value(value),
            Err(_) => self.fail_bus(Trap::DataAccessException, asi, load_type(asi), va),
        }
    }

    /// What a store leads to.
    #[inline(always)]
    fn store_answer(&mut self, asi: u8, va: u32, answer: Result<(), BusError>) -> Response
        ensures served { record { response = result; units = units_of self.new } ≡ answer_to_store (units_of self.old) asi va answer }
        ensures memory { self.new.phys ≡ self.old.phys }
        ensures pointer { self.new.mmu.table_pointer ≡ self.old.mmu.table_pointer }
    {
        match answer {
            Ok(()) => Response::Value(0),
            Err(_) => self.fail_bus(Trap::DataAccessException, asi, store_type(asi), va),
        }
    }
}

impl<const PAGES: usize> Physical<PAGES> {
    /// Fetches an instruction from RAM. Its address space and its virtual address are of no matter there.
    #[inline(always)]
    pub fn fetch_ram<T: Touches>(&self, pa: u64, notes: &mut T) -> Result<u64, AllocError>
        requires within { nat_lt pa (ram_size PAGES) ≡ true }
        requires aligned { pa % 4 ≡ 0 }
        ensures { IfOk result (λ word. (asi va : ℕ) (bytes : List ℕ) → MemoryDoes T.NOTING bytes (fetched_from (ram_size PAGES) (units_of self.now) asi va pa)
            self.now self.now (Response.Value word) (T.noted notes.old) (T.noted notes.new)) }
    {
        let word = self.phys.read_ram(pa, Size::Word, notes)?;
        notes.observe(Observation::Fetch {
            from: pa,
            word: low_word(word),
        })?;
        Ok(word)
    }

    /// Fetches an instruction.
    #[inline(always)]
    #[tactic(auto, unfolding(crate::specs::Access::fetched_from))]
    pub fn fetch<T: Touches>(
        &mut self,
        asi: u8,
        va: u32,
        pa: u64,
        notes: &mut T,
    ) -> Result<Response, AllocError>
        requires { pa % 4 ≡ 0 }
        ensures ok { IfOk result (λ r. (bytes : List ℕ) → MemoryDoes T.NOTING bytes (fetched_from (ram_size PAGES) (units_of self.old) asi va pa)
            self.old self.new r (T.noted notes.old) (T.noted notes.new)) }
        ensures kept { self.new.phys.ram ≡ self.old.phys.ram }
        ensures pointer { self.new.mmu.table_pointer ≡ self.old.mmu.table_pointer }
        ensures taken { OnOk result (self.new.phys.taken ≡ self.old.phys.taken) }
    {
        if self.phys.is_ram(pa) {
            let word = self.fetch_ram(pa, notes)?;
            Ok(Response::Value(word))
        } else {
            Ok(self.fail_bus(Trap::InstructionAccessException, asi, load_type(asi), va))
        }
    }

    /// Loads from RAM or a device, but for the console's input.
    #[inline(always)]
    fn load_plain<T: Touches>(
        &mut self,
        size: Size,
        asi: u8,
        va: u32,
        pa: u64,
        notes: &mut T,
    ) -> Result<Response, AllocError>
        requires { pa % bytes_in size ≡ 0 }
        ensures ok { IfOk result (λ r. (bytes : List ℕ) → MemoryDoes T.NOTING bytes (plainly_loaded (ram_size PAGES) (units_of self.old) size asi va pa)
            self.old self.new r (T.noted notes.old) (T.noted notes.new)) }
        ensures kept { self.new.phys.ram ≡ self.old.phys.ram }
        ensures pointer { self.new.mmu.table_pointer ≡ self.old.mmu.table_pointer }
        ensures taken { OnOk result (self.new.phys.taken ≡ self.old.phys.taken) }
    {
        let answer = self.phys.read_noted(pa, size, notes)?;
        show(&answer, seen(AccessKind::Load, size, va, pa), notes)?;
        Ok(self.load_answer(asi, va, answer))
    }

    /// Loads from RAM. The address space is of no matter there.
    #[inline(always)]
    pub fn load_ram<T: Touches>(
        &self,
        size: Size,
        va: u32,
        pa: u64,
        notes: &mut T,
    ) -> Result<Response, AllocError>
        requires within { pa < ram_size PAGES }
        requires aligned { pa % bytes_in size ≡ 0 }
        ensures ok { IfOk result (λ r. (asi : ℕ) (bytes : List ℕ) → MemoryDoes T.NOTING bytes (loaded_from (ram_size PAGES) (units_of self.now) size asi va pa)
            self.now self.now r (T.noted notes.old) (T.noted notes.new)) }
    {
        let _size = self.phys.ram_size();
        let value = self.phys.read_ram(pa, size, notes)?;
        notes.observe(seen(AccessKind::Load, size, va, pa))?;
        Ok(Response::Value(value))
    }

    /// Loads from what is not RAM: the console's input, or another device.
    #[cold]
    #[tactic(auto, unfolding(crate::specs::Access::loaded_from))]
    fn load_device<T: Touches>(
        &mut self,
        size: Size,
        asi: u8,
        va: u32,
        pa: u64,
        feed: Feed<'_>,
        notes: &mut T,
    ) -> Result<Response, AllocError>
        requires aligned { pa % bytes_in size ≡ 0 }
        requires fed { IsFed feed self.old.phys }
        ensures ok { IfOk result (λ r. MemoryDoes T.NOTING (bytes_fed feed.entry) (loaded_from (ram_size PAGES) (units_of self.old) size asi va pa)
            self.old self.new r (T.noted notes.old) (T.noted notes.new)) }
        ensures kept { self.new.phys.ram ≡ self.old.phys.ram }
        ensures pointer { self.new.mmu.table_pointer ≡ self.old.mmu.table_pointer }
        ensures fed { OnOk result (IsFed feed.entry self.new.phys) }
    {
        if takes_byte(size, pa) {
            let byte = self
                .phys
                .take_input_noted(feed.end_step(), feed.timeline, notes)?;
            notes.observe(seen(AccessKind::Load, size, va, pa))?;
            Ok(Response::Value(byte as u64))
        } else if counts_bytes(size, pa) {
            let count = self
                .phys
                .waiting_noted(feed.end_step(), feed.timeline, notes)?;
            notes.observe(seen(AccessKind::Load, size, va, pa))?;
            Ok(Response::Value(count as u64))
        } else {
            let response = self.load_plain(size, asi, va, pa, notes)?;
            Ok(response)
        }
    }

    /// Loads from RAM or a device.
    #[inline(always)]
    pub fn load<T: Touches>(
        &mut self,
        size: Size,
        asi: u8,
        va: u32,
        pa: u64,
        feed: Feed<'_>,
        notes: &mut T,
    ) -> Result<Response, AllocError>
        requires aligned { pa % bytes_in size ≡ 0 }
        requires fed { IsFed feed self.old.phys }
        ensures ok { IfOk result (λ r. MemoryDoes T.NOTING (bytes_fed feed.entry) (loaded_from (ram_size PAGES) (units_of self.old) size asi va pa)
            self.old self.new r (T.noted notes.old) (T.noted notes.new)) }
        ensures kept { self.new.phys.ram ≡ self.old.phys.ram }
        ensures pointer { self.new.mmu.table_pointer ≡ self.old.mmu.table_pointer }
        ensures fed { OnOk result (IsFed feed.entry self.new.phys) }
    {
        if pa < self.phys.ram_size() {
            let response = self.load_ram(size, va, pa, notes)?;
            return Ok(response);
        }
        let response = self.load_device(size, asi, va, pa, feed, notes)?;
        Ok(response)
    }

    /// Stores to RAM or a device.
    #[inline(always)]
    #[tactic(auto, unfolding(crate::specs::Access::stored_at))]
    pub fn store<T: Touches>(
        &mut self,
        size: Size,
        asi: u8,
        va: u32,
        pa: u64,
        value: u64,
        notes: &mut T,
    ) -> Result<Response, AllocError>
        requires { pa % bytes_in size ≡ 0 }
        ensures ok { IfOk result (λ r. (bytes : List ℕ) → MemoryDoes T.NOTING bytes (stored_at (ram_size PAGES) (units_of self.old) size asi value va pa)
            self.old self.new r (T.noted notes.old) (T.noted notes.new)) }
        ensures page { DiffersInPage (pa / 4096) self.old.phys.ram self.new.phys.ram }
        ensures pointer { self.new.mmu.table_pointer ≡ self.old.mmu.table_pointer }
        ensures taken { OnOk result (self.new.phys.taken ≡ self.old.phys.taken) }
    {
        let answer = self.phys.write_noted(pa, size, value, notes)?;
        show(&answer, seen(AccessKind::Store, size, va, pa), notes)?;
        Ok(self.store_answer(asi, va, answer))
    }

    /// Loads from RAM, and stores in the same place.
    #[tactic(auto, unfolding(crate::specs::Access::exchanged_at))]
    pub fn exchange<T: Touches>(
        &mut self,
        size: Size,
        asi: u8,
        va: u32,
        pa: u64,
        value: u64,
        notes: &mut T,
    ) -> Result<Response, AllocError>
        requires { pa % bytes_in size ≡ 0 }
        ensures ok { IfOk result (λ r. (bytes : List ℕ) → MemoryDoes T.NOTING bytes (exchanged_at (ram_size PAGES) (units_of self.old) size asi value va pa)
            self.old self.new r (T.noted notes.old) (T.noted notes.new)) }
        ensures kept { OnErr result (self.new.phys.ram ≡ self.old.phys.ram) }
        ensures page { DiffersInPage (pa / 4096) self.old.phys.ram self.new.phys.ram }
        ensures pointer { self.new.mmu.table_pointer ≡ self.old.mmu.table_pointer }
        ensures taken { OnOk result (self.new.phys.taken ≡ self.old.phys.taken) }
    {
        if !self.phys.is_ram(pa) {
            return Ok(self.fail_bus(Trap::DataAccessException, asi, store_type(asi), va));
        }
        notes.observe(seen(AccessKind::Exchange, size, va, pa))?;
        let old = self.phys.read_ram(pa, size, notes)?;
        self.phys.write_ram(pa, size, value, notes)?;
        Ok(Response::Value(old))
    }
}
