//! The lookaside buffer.

ghost use Rattle.std.specs.Prelude.{◌≡◌, ◌⊎◌, ℕ, ◌<◌, ◌^◌, List, [], false, Contains, IfSome};
ghost use Rattle.sv8_mmu.specs.Registers.{control_address, table_pointer_address, is_register, after_write};
ghost use Rattle.sv8_mmu.specs.Plain.{LeadsPlainly};
ghost use Rattle.sv8_mmu.specs.Kept.{Kept, AllStand, AreAmong, NoneReads, NoneReadsPage, DiffersInPage};

use crate::access_type::AccessType;
use crate::kept_walks::KeptWalks;
use crate::registers::{CONTROL, Mmu, TABLE_POINTER};
use crate::walk::Walk;
use std::alloc::Global;
use std::marker::Model;

/// A context and a page of virtual addresses.
#[derive(Clone, Copy, PartialEq, Eq, Hash)]
pub struct Key {
    pub context: u32,
    pub page: u32,
}

/// What a walk is for: fetches, loads and stores have a memo each, so that a copy from one page to another keeps both.
#[derive(Clone, Copy)]
pub enum Purpose {
    Fetch,
    Load,
    Store,
}

/// Walks that are kept: the last of each purpose, and the 64 that were used last.
///
/// It takes no memory until a walk is kept. Each checkpoint of a recorded run has an empty buffer, so what is kept lies
/// behind a box.
pub struct Buffer {
    alloc: Global,
    walks: Option<Box<KeptWalks>>,
}

// Written out, so that crates above prove no drop of its parts.
impl Drop for Buffer {
    fn drop(self) {
        let Buffer { alloc: _, walks: _ } = self;
    }
}

impl Model for Buffer {
    ghost use Rattle.std.specs.Prelude.{List};
    ghost use Rattle.sv8_mmu.specs.Kept.{Kept, walks_of};

    ghost Value = { List Kept };

    ghost view = { λ b. walks_of b.walks };
}

impl Buffer {
    /// An empty buffer. It takes no memory.
    pub fn new(alloc: Global) -> Self
        ensures { result ≡ [] }
    {
        Buffer { alloc, walks: None }
    }

    /// Forgets all walks.
    pub fn clear(&mut self)
        ensures { self.new ≡ [] }
    {
        if let Some(walks) = &mut self.walks {
            walks.clear();
        }
    }

    /// Where a page begins for accesses of a type, where the walk that was used last for a purpose is for that page and
    /// its context and this is known, and that walk.
    #[inline(always)]
    pub(crate) fn last_plainly(
        &self,
        purpose: Purpose,
        key: Key,
        access_type: AccessType,
    ) -> Option<(u64, &Walk)>
        ensures walk { IfSome result (λ s. Contains self.now (key, s.1.now)) }
        ensures base { IfSome result (λ s. LeadsPlainly access_type key.page s.0 s.1.now.end) }
    {
        match &self.walks {
            Some(walks) => walks.last_plainly(purpose, key, access_type),
            None => None,
        }
    }

    /// Finds out what accesses of a type to a page come to, where the walk that was used last for a purpose is for that
    /// page and its context.
    pub(crate) fn know(&mut self, purpose: Purpose, key: Key, access_type: AccessType)
        requires { key.page < 2 ^ 20 }
        ensures { self.new ≡ self.old }
    {
        if let Some(walks) = &mut self.walks {
            walks.know(purpose, key, access_type);
        }
    }

    /// The walk that is kept for a context and a page. That one is there wherever it could be is no part of the
    /// contract: none costs time alone.
    pub fn find(&mut self, purpose: Purpose, key: Key) -> Option<Walk>
        ensures found { IfSome result (λ w. Contains self.old (key, w)) }
        ensures among { AreAmong self.new self.old }
    {
        match &mut self.walks {
            Some(walks) => walks.find(purpose, key),
            None => None,
        }
    }

    /// Keeps a walk, where there is memory for it.
    pub(crate) fn keep(&mut self, key: Key, walk: Walk)
        ensures { (k : Kept) → Contains self.new k → Contains self.old k ⊎ (k ≡ (key, walk)) }
    {
        if let Some(walks) = &mut self.walks {
            walks.keep(self.alloc, key, walk);
            return;
        }
        if let Ok(mut walks) = Box::new(self.alloc, KeptWalks::new()) {
            walks.keep(self.alloc, key, walk);
            self.walks = Some(walks);
        }
    }

    /// Forgets the walks that have read the entry at an address.
    pub(crate) fn forget_entry(&mut self, at: u32)
        ensures among { AreAmong self.new self.old }
        ensures none { NoneReads at self.new }
    {
        if let Some(walks) = &mut self.walks {
            walks.forget_entry(at);
        }
    }

    /// Forgets the walks that have read a word of a page of RAM, which was written.
    ///
    /// What is kept then stands again, where it did before that page was written.
    #[inline]
    pub fn forget_page(&mut self, page: u32)
        ensures among { AreAmong self.new self.old }
        ensures none { NoneReadsPage page self.new }
        ensures stand { (limit : ℕ) (ram now : List ℕ) (table_pointer : ℕ) → DiffersInPage page ram now → AllStand limit ram table_pointer self.old → AllStand limit now table_pointer self.new }
    {
        if let Some(walks) = &mut self.walks {
            walks.forget_page(page);
        }
    }
}

impl Mmu {
    /// Writes the register at an address of the registers' space, and tells whether there is one. A write to the fault
    /// status or the fault address is ignored; one to the control or the table pointer empties the buffer.
    pub fn write_register(&mut self, buffer: &mut Buffer, at: u32, word: u32) -> bool
        ensures there { result ≡ is_register at }
        ensures registers { self.new ≡ after_write self.old at word }
        ensures refused { result ≡ false → self.new ≡ self.old }
        ensures emptied { (at ≡ control_address) ⊎ (at ≡ table_pointer_address) → buffer.new ≡ [] }
        ensures among { AreAmong buffer.new buffer.old }
        ensures stand { (limit : ℕ) (ram : List ℕ) → AllStand limit ram self.old.table_pointer buffer.old → AllStand limit ram self.new.table_pointer buffer.new }
    {
        if at == CONTROL || at == TABLE_POINTER {
            buffer.clear();
            return self.write(at, word);
        }
        self.write(at, word)
    }
}
