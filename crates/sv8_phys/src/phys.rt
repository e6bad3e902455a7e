//! Physical memory and the devices.

ghost use Rattle.std.specs.Prelude.{◌≡◌, ◌/◌, ◌%◌, ◌≤◌, ◌<◌, true, false, slice_index_or, slice_set, nat_lt, option_map, IfOk, IfSome, OnOk, OnErr};
ghost use Rattle.sv8_model.specs.Outside.{word_of};
ghost use Rattle.sv8_model.specs.Levels.{levels_word};
ghost use Rattle.sv8_phys.specs.Memory.{ram_size, page_of, with_page};
ghost use Rattle.sv8_phys.specs.Differences.{next_difference};
ghost use Rattle.sv8_phys.specs.Contents.{empty_contents, AreContents};
ghost use Rattle.sv8_phys.specs.Pending.{AreLevels};
ghost use Rattle.sv8_phys.specs.Ends.{IsEnd};
ghost use Rattle.sv8_phys.specs.Pieces.{piece_of};

mod access;
mod console;
mod devices;
mod tables;

use crate::levels::Pending;
use crate::output::{Output, OutputPlace};
use crate::page::Page;
use crate::ram::Ram;
use crate::timer::Timer;
use std::alloc::{AllocError, Global};
use std::marker::Model;
use sv8_model::{Level, Size};

/// Physical memory of `PAGES` pages of 4,096 bytes of RAM (1 to 65,536) from address 0, with the devices: the console, the
/// timer, and the pending interrupt levels.
///
/// RAM and the bytes put out are shared with snapshots until they are written. Fetches, table walks and the accesses that both
/// load and store (LDSTUB, SWAP) reach RAM alone: their caller asks `is_ram` before the first access, since a device would serve
/// the load and the store of a word by themselves.
pub struct Phys<const PAGES: usize> {
    ram: Ram<PAGES>,
    taken: u32,
    output: Output,
    pending: Pending,
    timer: Timer,
}

// Written out, so that crates above prove no drop of its parts.
impl<const PAGES: usize> Drop for Phys<PAGES> {
    fn drop(self) {
        let Phys {
            ram: _,
            taken: _,
            output: _,
            pending: _,
            timer: _,
        } = self;
    }
}

impl<const PAGES: usize> Model for Phys<PAGES> {
    ghost use Rattle.std.specs.Prelude.{◌≤◌};
    ghost use Rattle.sv8_phys.specs.Contents.{Contents};
    ghost use Rattle.sv8_phys.specs.Pending.{AreLevels};

    ghost Value = { Contents };

    ghost view = { λ m. record { ram = m.ram; taken = m.taken; output = m.output; pending = m.pending; timer = m.timer } };

    ghost invariant = { λ m. (PAGES ≤ 65536) × AreLevels m.pending };
}

impl<const PAGES: usize> Phys<PAGES> {
    /// Memory of zeros, whose pages share what they can, with devices at rest.
    ///
    /// # Errors
    ///
    /// `AllocError` where memory for it cannot be had.
    pub fn new(alloc: Global) -> Result<Self, AllocError>
        requires { PAGES ≤ 65536 }
        ensures { IfOk result (λ m. m ≡ empty_contents PAGES) }
    {
        let ram = Ram::new(alloc)?;
        let output = Output::new(alloc)?;
        Ok(Phys {
            ram,
            taken: 0,
            output,
            pending: Pending::new(),
            timer: Timer {
                count: 0,
                reload: 0,
            },
        })
    }

    /// The size of RAM in bytes: what lies at lower addresses is RAM.
    #[inline(always)]
    pub fn ram_size(&self) -> u64
        ensures value { result ≡ ram_size PAGES }
        ensures most { result ≤ 0x1000_0000 }
        ensures contents { AreContents PAGES self.now }
    {
        self.ram.len() as u64
    }

    /// Whether an address is one of RAM.
    #[inline(always)]
    pub fn is_ram(&self, pa: u64) -> bool
        ensures { result ≡ nat_lt pa (ram_size PAGES) }
    {
        pa < self.ram_size()
    }

    /// The word of RAM at an address.
    #[inline(always)]
    #[tactic(auto, unfolding(crate::specs::Memory::value_at))]
    pub fn word(&self, pa: u32) -> u32
        requires aligned { pa % 4 ≡ 0 }
        requires within { pa < ram_size PAGES }
        ensures { result ≡ word_of self.now.ram (pa / 4) }
    {
        self.ram.read(pa as usize, Size::Word) as u32
    }

    /// The byte of RAM at an address.
    #[tactic(auto, unfolding(crate::specs::Memory::value_at))]
    pub fn byte(&self, pa: u32) -> u8
        requires { pa < ram_size PAGES }
        ensures { result ≡ slice_index_or self.now.ram pa 0 }
    {
        self.ram.read(pa as usize, Size::Byte) as u8
    }

    /// The address of the first word of RAM, from the word at an address on, that is another one in a second memory; `None` where
    /// there is no such word, and where the address is behind RAM. A caller that goes on from the word behind each one found
    /// gets all that differ. Devices are not compared.
    pub fn next_difference(&self, other: &Phys<PAGES>, from: u32) -> Option<u32>
        requires { from % 4 ≡ 0 }
        ensures value { result ≡ next_difference (ram_size PAGES) self.now.ram other.now.ram from }
        ensures word { IfSome result (λ at. (at % 4 ≡ 0) × (at < ram_size PAGES)) }
    {
        let at = self.ram.next_difference(&other.ram, from as usize)?;
        Some(at as u32)
    }

    /// Sets a byte of RAM from outside: no access of the processor, so nothing is noted.
    ///
    /// # Errors
    ///
    /// `AllocError` where memory for a page that is shared cannot be had; memory is then as it was.
    #[tactic(auto, unfolding(crate::specs::Memory::with_value, sv8_model::specs::Outside::with_byte))]
    pub fn poke(&mut self, pa: u32, byte: u8) -> Result<(), AllocError>
        requires { pa < ram_size PAGES }
        ensures ok { OnOk result (self.new ≡ record self.old { ram = slice_set self.old.ram pa byte }) }
        ensures err { OnErr result (self.new ≡ self.old) }
    {
        self.ram.write(pa as usize, Size::Byte, u64::from(byte))?;
        Ok(())
    }

    /// Makes an interrupt level pending.
    pub fn request(&mut self, level: Level)
        ensures { self.new ≡ record self.old { pending = slice_set self.old.pending level true } }
    {
        self.pending.request(level);
    }

    /// The pending interrupt levels, bit l for level l, from 1 to 15.
    pub fn pending(&self) -> u32
        ensures word { result ≡ levels_word self.now.pending }
        ensures levels { AreLevels self.now.pending }
    {
        self.pending.word()
    }

    /// Whether an interrupt level is pending.
    pub fn is_pending(&self, level: Level) -> bool
        ensures { result ≡ slice_index_or self.now.pending level false }
    {
        self.pending.is_pending(level)
    }

    /// Makes an interrupt level pending, or no longer pending; the other levels stay.
    pub fn set_pending(&mut self, level: Level, pending: bool)
        ensures { self.new ≡ record self.old { pending = slice_set self.old.pending level pending } }
    {
        self.pending.set(level, pending);
    }

    /// The timer.
    pub fn timer(&self) -> Timer
        ensures { result ≡ self.now.timer }
    {
        self.timer
    }

    /// The bytes put out at the console so far.
    ///
    /// # Errors
    ///
    /// `AllocError` where memory for them cannot be had.
    pub fn output(&self, alloc: Global) -> Result<Vec<u8>, AllocError>
        ensures { IfOk result (λ v. v.items ≡ self.now.output) }
    {
        self.output.bytes(alloc)
    }

    /// The place in the output of the next byte that is put out at the console.
    pub fn output_end(&self) -> OutputPlace
        ensures { IsEnd self.now.output result }
    {
        self.output.end()
    }

    /// The bytes put out at the console so far, read where they lie: those from 512 * `index` on, at most 512 of them. `None`
    /// where there are none. The pieces from index 0 up to the first `None` are the whole output.
    pub fn output_piece(&self, index: usize) -> Option<&[u8]>
        ensures { option_map (λ s. s.now) result ≡ piece_of self.now.output index }
    {
        self.output.piece(index)
    }

    /// The same memory and devices; RAM and output are shared.
    ///
    /// # Errors
    ///
    /// `AllocError` where memory for the handles of RAM cannot be had, or where RAM or the output is shared as often as can be
    /// counted.
    pub fn snapshot(&self) -> Result<Self, AllocError>
        ensures { IfOk result (λ m. m ≡ self.now) }
    {
        let ram = self.ram.snapshot()?;
        let output = self.output.snapshot()?;
        Ok(Phys {
            ram,
            taken: self.taken,
            output,
            pending: self.pending.snapshot(),
            timer: self.timer,
        })
    }

    /// The page of RAM with an address, which is shared.
    ///
    /// # Errors
    ///
    /// `AllocError` where the page is shared as often as can be counted.
    pub fn page(&self, pa: u32) -> Result<Page, AllocError>
        requires { pa < ram_size PAGES }
        ensures { IfOk result (λ p. p ≡ page_of self.now.ram (pa / 4096)) }
    {
        self.ram.page(pa as usize)
    }

    /// Puts a page in the place of the page of RAM with an address.
    ///
    /// # Errors
    ///
    /// `AllocError` where pages are shared and memory for their handles cannot be had.
    pub fn put_page(&mut self, pa: u32, page: Page) -> Result<(), AllocError>
        requires { pa < ram_size PAGES }
        ensures ok { OnOk result (self.new ≡ record self.old { ram = with_page self.old.ram (pa / 4096) page }) }
        ensures err { OnErr result (self.new ≡ self.old) }
    {
        self.ram.put_page(pa as usize, page)?;
        Ok(())
    }
}
