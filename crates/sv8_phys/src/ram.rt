//! RAM in pages.

ghost use Rattle.std.specs.Prelude.{◌≡◌, ℕ, ◌+◌, ◌*◌, ◌≤◌, ◌<◌, ◌/◌, ◌%◌, ◌^◌, Some, length, replicate, slice_index_or, IfOk, IfSome, MatchOption, OnOk, OnErr};
ghost use Rattle.sv8_model.specs.Size.{bytes_in};
ghost use Rattle.sv8_phys.specs.Differences.{next_difference};
ghost use Rattle.sv8_phys.specs.Memory.{ram_size, value_at, with_value, page_of, with_page};
ghost use Rattle.sv8_phys.specs.Parts.{half_bytes, part_of};

use crate::block::{BLOCK_SIZE, Block};
use crate::directory::Directory;
use crate::group::Group;
use crate::half_page::{HALF_SIZE, HalfPage};
use crate::halves::Halves;
use crate::page::{PAGE_SIZE, Page};
use std::alloc::{AllocError, Global};
use std::marker::Model;
use std::rc::Rc;
use sv8_model::Size;

/// `PAGES` pages of RAM from address 0 on. Each group, half of a page and block may be shared with snapshots.
#[derive(Drop)]
pub(crate) struct Ram<const PAGES: usize> {
    directory: Directory,
    zeros: Rc<Group>,
}

impl<const PAGES: usize> Model for Ram<PAGES> {
    ghost use Rattle.std.specs.Prelude.{◌≡◌, List, ℕ, ◌≤◌, replicate};
    ghost use Rattle.sv8_phys.specs.Parts.{groups_halves, halves_of, ram_bytes};

    ghost Value = { List ℕ };

    ghost view = { λ m. ram_bytes PAGES (groups_halves m.directory.groups.items) };

    ghost invariant = { λ m. (PAGES ≤ 65536) × (halves_of m.zeros.value.halves ≡ replicate 16 (replicate 2048 0)) };
}

impl<const PAGES: usize> Ram<PAGES> {
    /// RAM of zeros. It takes no more memory than the group of zeros that stands for all that was never written.
    pub(crate) fn new(alloc: Global) -> Result<Self, AllocError>
        requires { PAGES ≤ 65536 }
        ensures { IfOk result (λ m. m ≡ replicate (ram_size PAGES) 0) }
    {
        let zeros = Rc::new(alloc, Group::zero(alloc)?)?;
        Ok(Ram {
            directory: Directory::new(alloc),
            zeros,
        })
    }

    /// How many bytes there are.
    #[inline(always)]
    pub(crate) fn len(&self) -> usize
        ensures value { result ≡ ram_size PAGES }
        ensures most { result ≤ 2 ^ 28 }
        ensures whole { length self.now ≡ ram_size PAGES }
        ensures bytes { (i : ℕ) → slice_index_or self.now i 0 < 256 }
    {
        let _directory = &self.directory;
        PAGES * PAGE_SIZE
    }

    /// The handle of a half of a page, or of one of zeros where its group was never written.
    #[inline(always)]
    fn handle(&self, half: usize) -> &Rc<HalfPage>
        requires { half < 2 * PAGES }
        ensures { half_bytes result.now.value ≡ part_of 2048 self.now half }
    {
        self.directory.half(&self.zeros, half)
    }

    /// The block that an address is in.
    #[inline(always)]
    fn block(&self, at: usize) -> &Block
        requires { at < ram_size PAGES }
        ensures { result.now.bytes ≡ part_of 128 self.now (at / 128) }
    {
        self.handle(at / HALF_SIZE).block(at % HALF_SIZE)
    }

    /// The number at an address.
    #[inline(always)]
    pub(crate) fn read(&self, at: usize, size: Size) -> u64
        requires within { at < ram_size PAGES }
        requires aligned { at % bytes_in size ≡ 0 }
        ensures value { result ≡ value_at size at self.now }
        ensures fits { result < 256 ^ bytes_in size }
    {
        self.block(at).read(at % BLOCK_SIZE, size)
    }

    /// Writes the low bytes of a number; what is shared is copied first.
    #[inline(always)]
    pub(crate) fn write(&mut self, at: usize, size: Size, value: u64) -> Result<(), AllocError>
        requires within { at < ram_size PAGES }
        requires aligned { at % bytes_in size ≡ 0 }
        ensures ok { OnOk result (self.new ≡ with_value size at value self.old) }
        ensures err { OnErr result (self.new ≡ self.old) }
    {
        self.directory.write(&self.zeros, at, size, value)?;
        Ok(())
    }

    /// The same RAM, sharing its groups.
    pub(crate) fn snapshot(&self) -> Result<Self, AllocError>
        ensures { IfOk result (λ m. m ≡ self.now) }
    {
        let directory = self.directory.clone()?;
        let zeros = self.zeros.clone()?;
        Ok(Ram { directory, zeros })
    }

    /// The page of an address, shared.
    pub(crate) fn page(&self, at: usize) -> Result<Page, AllocError>
        requires { at < ram_size PAGES }
        ensures { IfOk result (λ p. p ≡ page_of self.now (at / 4096)) }
    {
        let first = 2 * (at / PAGE_SIZE);
        let low = self.handle(first).clone()?;
        let high = self.handle(first + 1).clone()?;
        Ok(Page::from_halves(Halves::new(low, high)))
    }

    /// Puts a page in the place of that of an address; a group that is shared is copied first.
    pub(crate) fn put_page(&mut self, at: usize, page: Page) -> Result<(), AllocError>
        requires { at < ram_size PAGES }
        ensures ok { OnOk result (self.new ≡ with_page self.old (at / 4096) page) }
        ensures err { OnErr result (self.new ≡ self.old) }
    {
        self.directory
            .put_page(&self.zeros, at / PAGE_SIZE, page.halves())?;
        Ok(())
    }

    /// The address of the first word, from that at an address up to the end of its block, that is another one in a second RAM.
    fn difference_in_block(&self, other: &Ram<PAGES>, from: usize) -> Option<usize>
        requires within { from < ram_size PAGES }
        requires aligned { from % 4 ≡ 0 }
        ensures { MatchOption result
            (next_difference (ram_size PAGES) self.now other.now from ≡ next_difference (ram_size PAGES) self.now other.now (from / 128 * 128 + 128))
            (λ at. next_difference (ram_size PAGES) self.now other.now from ≡ Some at) }
    {
        let block = self.block(from);
        match block.next_difference(other.block(from), from % BLOCK_SIZE) {
            Some(place) => Some(from / BLOCK_SIZE * BLOCK_SIZE + place),
            None => None,
        }
    }

    /// The address of the first word, from that at an address on, that is another one in a second RAM.
    pub(crate) fn next_difference(&self, other: &Ram<PAGES>, from: usize) -> Option<usize>
        requires { from % 4 ≡ 0 }
        ensures value { result ≡ next_difference (ram_size PAGES) self.now other.now from }
        ensures word { IfSome result (λ at. (at % 4 ≡ 0) × (at < ram_size PAGES)) }
    {
        let mut at = from;
        while at < self.len() {
            match self.difference_in_block(other, at) {
                Some(found) => return Some(found),
                None => at = at / BLOCK_SIZE * BLOCK_SIZE + BLOCK_SIZE,
            }
        }
        None
    }
}
