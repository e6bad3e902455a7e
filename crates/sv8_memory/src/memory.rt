//! Memory as the processor reaches it.

ghost use Rattle.std.specs.Prelude.{◌≡◌, ℕ, ◌%◌, ◌/◌, ◌<◌, ◌||◌, List, true, not, nat_lt, None, IfOk, IfSome, OnOk, OnErr, MatchOption, slice_set};
ghost use Rattle.sv8_model.specs.Action as model;
ghost use Rattle.sv8_model.specs.Action.{result_of};
ghost use Rattle.sv8_model.specs.Does.{Does, DoesUnnoted};
ghost use Rattle.sv8_model.specs.Size.{bytes_in};
ghost use Rattle.sv8_phys.specs.declared.timer.Timer.{Timer};
ghost use Rattle.sv8_phys.specs.Memory.{ram_size, with_page};
ghost use Rattle.sv8_phys.specs.Contents.{outside_of};
ghost use Rattle.sv8_phys.specs.Devices.{tick};
ghost use Rattle.sv8_mmu.specs.Registers.{registers_at_reset, translates};
ghost use Rattle.sv8_memory.specs.Events.{with_events};
ghost use Rattle.sv8_trap.specs.Requests.{space_of, IsAligned};
ghost use Rattle.sv8_memory.specs.Feeding.{bytes_fed, IsFed};
ghost use Rattle.sv8_memory.specs.Access.{access};
ghost use Rattle.sv8_memory.specs.Units.{served};
ghost use Rattle.sv8_memory.specs.View.{IsTaken, MemoryDoes, timed_units, units_of};

use crate::at_once::{fetched_at_once, is_stored_at_once, loaded_at_once, waiting_at_once};
use crate::events::happen;
use crate::feed::Feed;
use crate::in_place::{fetch_translated, fetch_untranslated, load_translated, store_translated};
use crate::physical::Physical;
use crate::spaces::{access, load_untranslated};
use crate::stores::store_untranslated;
use std::alloc::{AllocError, Global};
use std::marker::Model;
use sv8_mmu::{Buffer, Mmu};
use sv8_model::Level;
use sv8_phys::{Page, Phys, Size, Touches};
use sv8_time::Timeline;
use sv8_trap::{AccessRequest, Response, Space};

/// Physical memory and the memory management unit with its lookaside buffer, of which nothing shows.
pub struct Memory<const PAGES: usize> {
    physical: Physical<PAGES>,
    buffer: Buffer,
}

// Written out, so that crates above prove no drop of its parts.
impl<const PAGES: usize> Drop for Memory<PAGES> {
    fn drop(self) {
        let Memory {
            physical: _,
            buffer: _,
        } = self;
    }
}

impl<const PAGES: usize> Model for Memory<PAGES> {
    ghost use Rattle.sv8_memory.specs.declared.physical.Physical.{Physical};
    ghost use Rattle.sv8_memory.specs.View.{IsTaken, Serves};

    ghost Value = { Physical PAGES };

    ghost view = { λ m. m.physical };

    ghost invariant = { λ m. Serves m.physical m.buffer };
}

impl<const PAGES: usize> Memory<PAGES> {
    /// Around physical memory, with the registers of the unit as after reset.
    pub fn new(alloc: Global, phys: Phys<PAGES>) -> Self
        ensures { result ≡ record { phys = phys.entry; mmu = registers_at_reset } }
    {
        Memory {
            physical: Physical {
                phys,
                mmu: Mmu::new(),
            },
            buffer: Buffer::new(alloc),
        }
    }

    /// Physical memory.
    #[inline(always)]
    pub fn phys(&self) -> &Phys<PAGES>
        ensures { result.now ≡ self.now.phys }
    {
        &self.physical.phys
    }

    /// The registers of the memory management unit.
    pub fn mmu(&self) -> Mmu
        ensures { result ≡ self.now.mmu }
    {
        self.physical.mmu
    }

    /// The events of step n.
    ///
    /// # Errors
    ///
    /// `AllocError` where memory for a page that is shared cannot be had; some events may have happened then.
    #[inline(always)]
    pub fn happen(&mut self, n: u32, timeline: &Timeline) -> Result<(), AllocError>
        requires { timeline.now.limit ≡ ram_size PAGES }
        ensures { OnOk result (self.new ≡ record self.old { phys = with_events timeline.now n self.old.phys }) }
    {
        happen(&mut self.physical.phys, &mut self.buffer, n, timeline)?;
        Ok(())
    }

    /// A step of the timer.
    ///
    /// # Errors
    ///
    /// `AllocError` where memory for the note of an expiry cannot be had.
    #[inline(always)]
    pub fn tick<T: Touches>(&mut self, notes: &mut T) -> Result<(), AllocError>
        ensures ok { OnOk result ((bytes : List ℕ) → Does T.NOTING (tick self.old.phys.timer)
            (outside_of self.old.phys bytes) (outside_of self.new.phys bytes) self.new.phys.timer (T.noted notes.old) (T.noted notes.new)) }
        ensures taken { self.new.phys.taken ≡ self.old.phys.taken }
        ensures mmu { self.new.mmu ≡ self.old.mmu }
    {
        self.physical.phys.tick_noted(notes)?;
        Ok(())
    }

    /// Those of some interrupt levels that are pending, bit l for level l, from 1 to 15.
    ///
    /// # Errors
    ///
    /// `AllocError` where memory for the note cannot be had.
    #[inline(always)]
    pub fn pending_among<T: Touches>(&self, levels: u16, notes: &mut T) -> Result<u32, AllocError>
        ensures { IfOk result (λ word. (bytes : List ℕ) → Does T.NOTING (model.ask_levels levels (λ word. model.done word))
            (outside_of self.now.phys bytes) (outside_of self.now.phys bytes) word (T.noted notes.old) (T.noted notes.new)) }
    {
        let pending = self.physical.phys.pending_among(levels, notes)?;
        Ok(pending)
    }

    /// Makes an access. The bytes of `feed` have come in at the console.
    ///
    /// # Errors
    ///
    /// `AllocError` where memory for a page that is shared, for the output or for a note cannot be had.
    #[inline(always)]
    pub fn access<T: Touches>(
        &mut self,
        request: AccessRequest,
        feed: Feed<'_>,
        notes: &mut T,
    ) -> Result<Response, AllocError>
        requires aligned { IsAligned request }
        requires fed { IsFed feed self.old.phys }
        ensures ok { IfOk result (λ r. MemoryDoes T.NOTING (bytes_fed feed.entry) (access (ram_size PAGES) (units_of self.old) request)
            self.old self.new r (T.noted notes.old) (T.noted notes.new)) }
        ensures fed { OnOk result (IsFed feed.entry self.new.phys) }
    {
        let response = access(&mut self.physical, &mut self.buffer, request, feed, notes)?;
        Ok(response)
    }

    /// Fetches an instruction as `access` does, where it stands in RAM and its address is known at once: it is not translated, or
    /// the walk of its page was used last and sets no mark. `None` where it is not known: nothing is done then. That a
    /// translated fetch is made wherever it could be is no part of the contract: another way costs time alone.
    ///
    /// # Errors
    ///
    /// `AllocError` where memory for a note cannot be had.
    #[inline(always)]
    pub fn fetch_in_place<T: Touches>(
        &self,
        supervisor: bool,
        at: u32,
        notes: &mut T,
    ) -> Result<Option<u64>, AllocError>
        requires { at % 4 ≡ 0 }
        ensures found { IfOk result (λ found. MatchOption found (T.noted notes.new ≡ T.noted notes.old) (λ word. (bytes : List ℕ) → MemoryDoes T.NOTING bytes (access (ram_size PAGES) (units_of self.now) (AccessRequest.Fetch supervisor at))
            self.now self.now (Response.Value word) (T.noted notes.old) (T.noted notes.new))) }
        ensures otherwise { IfOk result (λ found. found ≡ None → (translates self.now.mmu || not (nat_lt at (ram_size PAGES))) ≡ true) }
    {
        let physical = &self.physical;
        if physical.mmu.translates() {
            return fetch_translated(physical, &self.buffer, supervisor, at, notes);
        }
        fetch_untranslated(physical, supervisor, at, notes)
    }

    /// The word that a fetch gives, where it is known at once, and the fetch changes nothing: it is of RAM, and its address is not
    /// translated, or the walk of its page was used last and sets no mark. That a word is given wherever it could be is no
    /// part of the contract: none costs time alone.
    ///
    /// # Errors
    ///
    /// Those of a read of RAM that keeps no notes, which takes no memory.
    #[inline(always)]
    pub fn fetched_at_once(&self, supervisor: bool, at: u32) -> Result<Option<u64>, AllocError>
        requires { at % 4 ≡ 0 }
        ensures { IfOk result (λ found. IfSome found (λ word. (timer : Timer) (bytes : List ℕ) → DoesUnnoted (access (ram_size PAGES) (timed_units self.now timer) (AccessRequest.Fetch supervisor at))
            (outside_of self.now.phys bytes) (outside_of self.now.phys bytes) (served (timed_units self.now timer) word))) }
    {
        let found = fetched_at_once(&self.physical, &self.buffer, supervisor, at)?;
        Ok(found)
    }

    /// What a load of user or supervisor data gives, where it is known at once, as `fetched_at_once` has it.
    ///
    /// # Errors
    ///
    /// Those of a read of RAM that keeps no notes, which takes no memory.
    #[inline(always)]
    pub fn loaded_at_once(&self, size: Size, asi: u8, at: u32) -> Result<Option<u64>, AllocError>
        requires space { space_of asi ≡ Space.Virtual }
        requires aligned { at % bytes_in size ≡ 0 }
        ensures { IfOk result (λ found. IfSome found (λ value. (timer : Timer) (bytes : List ℕ) → DoesUnnoted (access (ram_size PAGES) (timed_units self.now timer) (AccessRequest.Load size asi at))
            (outside_of self.now.phys bytes) (outside_of self.now.phys bytes) (served (timed_units self.now timer) value))) }
    {
        let found = loaded_at_once(&self.physical, &self.buffer, size, asi, at)?;
        Ok(found)
    }

    /// What a load of user or supervisor data gives once the bytes of `feed` have come in, where it is known at
    /// once: it is one of RAM, as `loaded_at_once` has it, or counts the bytes that wait at the console, at an address that is not
    /// translated.
    ///
    /// # Errors
    ///
    /// Those of `loaded_at_once`.
    #[inline(always)]
    pub fn loaded_in_step(
        &self,
        size: Size,
        asi: u8,
        at: u32,
        feed: Feed<'_>,
    ) -> Result<Option<u64>, AllocError>
        requires space { space_of asi ≡ Space.Virtual }
        requires aligned { at % bytes_in size ≡ 0 }
        requires fed { IsFed feed self.now.phys }
        ensures { IfOk result (λ found. IfSome found (λ value. (timer : Timer) → DoesUnnoted (access (ram_size PAGES) (timed_units self.now timer) (AccessRequest.Load size asi at))
            (outside_of self.now.phys (bytes_fed feed.entry)) (outside_of self.now.phys (bytes_fed feed.entry)) (served (timed_units self.now timer) value))) }
    {
        match self.loaded_at_once(size, asi, at)? {
            Some(value) => Ok(Some(value)),
            None => {
                let found = waiting_at_once(&self.physical, size, at, feed)?;
                Ok(found)
            }
        }
    }

    /// Whether a store to user or supervisor data is known at once to be answered: it is one of RAM, as `fetched_at_once` has it, or
    /// of a word of a device at an address that is not translated.
    #[inline(always)]
    pub fn is_stored_at_once(&self, size: Size, asi: u8, at: u32) -> bool
        requires { space_of asi ≡ Space.Virtual }
        ensures { result ≡ true → (value : ℕ) (timer : Timer) (bytes : List ℕ)
            → IsTaken self.now.mmu (result_of (access (ram_size PAGES) (timed_units self.now timer) (AccessRequest.Store size asi at value)) (outside_of self.now.phys bytes)) }
    {
        is_stored_at_once(&self.physical, &self.buffer, size, asi, at)
    }

    /// Whether virtual addresses are translated.
    #[inline(always)]
    pub fn translates(&self) -> bool
        ensures { result ≡ translates self.now.mmu }
    {
        self.physical.mmu.translates()
    }

    /// Loads from user or supervisor data, as `access` does. It is built for addresses that are translated, or for others: what is
    /// built for others has no translation in its way.
    ///
    /// # Errors
    ///
    /// As `access`.
    #[inline(always)]
    #[tactic(auto, unfolding(crate::specs::Access::access))]
    pub fn load_data<const TRANSLATED: bool, T: Touches>(
        &mut self,
        size: Size,
        asi: u8,
        at: u32,
        feed: Feed<'_>,
        notes: &mut T,
    ) -> Result<Response, AllocError>
        requires translated { translates self.old.mmu ≡ TRANSLATED }
        requires space { space_of asi ≡ Space.Virtual }
        requires aligned { at % bytes_in size ≡ 0 }
        requires fed { IsFed feed self.old.phys }
        ensures ok { IfOk result (λ r. MemoryDoes T.NOTING (bytes_fed feed.entry) (access (ram_size PAGES) (units_of self.old) (AccessRequest.Load size asi at))
            self.old self.new r (T.noted notes.old) (T.noted notes.new)) }
        ensures fed { OnOk result (IsFed feed.entry self.new.phys) }
    {
        let physical = &mut self.physical;
        let buffer = &mut self.buffer;
        if TRANSLATED {
            return load_translated(physical, buffer, size, asi, at, feed, notes);
        }
        load_untranslated(physical, buffer, size, asi, at, feed, notes)
    }

    /// Stores to user or supervisor data, as `access` does. It is built as `load_data` is.
    ///
    /// # Errors
    ///
    /// As `access`.
    #[inline(always)]
    #[tactic(auto, unfolding(crate::specs::Access::access))]
    pub fn store_data<const TRANSLATED: bool, T: Touches>(
        &mut self,
        size: Size,
        asi: u8,
        at: u32,
        value: u64,
        notes: &mut T,
    ) -> Result<Response, AllocError>
        requires translated { translates self.old.mmu ≡ TRANSLATED }
        requires space { space_of asi ≡ Space.Virtual }
        requires aligned { at % bytes_in size ≡ 0 }
        ensures ok { IfOk result (λ r. (bytes : List ℕ) → MemoryDoes T.NOTING bytes (access (ram_size PAGES) (units_of self.old) (AccessRequest.Store size asi at value))
            self.old self.new r (T.noted notes.old) (T.noted notes.new)) }
        ensures taken { OnOk result (self.new.phys.taken ≡ self.old.phys.taken) }
    {
        let physical = &mut self.physical;
        let buffer = &mut self.buffer;
        if TRANSLATED {
            return store_translated(physical, buffer, size, asi, at, value, notes);
        }
        store_untranslated(physical, buffer, size, asi, at, value, notes)
    }

    /// Makes an interrupt level pending, or no longer pending.
    pub fn set_pending(&mut self, level: Level, pending: bool)
        ensures { self.new ≡ record self.old { phys = record self.old.phys { pending = slice_set self.old.phys.pending level pending } } }
    {
        self.physical.phys.set_pending(level, pending);
    }

    /// Puts a page in the place of the page of RAM with an address.
    ///
    /// # Errors
    ///
    /// `AllocError` where pages are shared and memory for their handles cannot be had.
    pub fn put_page(&mut self, pa: u32, page: Page) -> Result<(), AllocError>
        requires { pa < ram_size PAGES }
        ensures ok { OnOk result (self.new ≡ record self.old { phys = record self.old.phys { ram = with_page self.old.phys.ram (pa / 4096) page } }) }
        ensures err { OnErr result (self.new ≡ self.old) }
    {
        self.buffer.clear();
        self.physical.phys.put_page(pa, page)?;
        Ok(())
    }

    /// The same memory once more, with an empty lookaside buffer. RAM and the bytes put out are shared.
    ///
    /// # Errors
    ///
    /// `AllocError` where memory for the handles of RAM cannot be had, or where RAM or the output is shared as often as can be
    /// counted.
    pub fn snapshot(&self, alloc: Global) -> Result<Self, AllocError>
        ensures { IfOk result (λ m. m ≡ self.now) }
    {
        let phys = self.physical.phys.snapshot()?;
        Ok(Memory {
            physical: Physical {
                phys,
                mmu: self.physical.mmu,
            },
            buffer: Buffer::new(alloc),
        })
    }
}
