//! A page of RAM.

ghost use Rattle.std.specs.Prelude.{◌≡◌, ◌%◌, ◌/◌, length, true, slice_index_or, slice_set, IfOk, OnOk, OnErr, MatchBool};
ghost use Rattle.sv8_model.specs.Outside.{word_of, with_word};
ghost use Rattle.sv8_phys.specs.Bytes.{are_bytes};
ghost use Rattle.sv8_phys.specs.Parts.{page_bytes};

use crate::block::BLOCK_SIZE;
use crate::halves::Halves;
use std::alloc::AllocError;
use std::marker::Model;
use sv8_model::Size;

/// How many bytes a page has.
pub(crate) const PAGE_SIZE: usize = 4096;

/// A page of 4,096 bytes of RAM, which may be shared with memories and other pages until it is written.
pub struct Page {
    halves: Halves,
}

// Written out, so that crates above prove no drop of its parts.
impl Drop for Page {
    fn drop(self) {
        let Page { halves: _ } = self;
    }
}

impl Model for Page {
    ghost use Rattle.std.specs.Prelude.{List, ℕ};
    ghost use Rattle.sv8_phys.specs.Parts.{page_bytes};

    ghost Value = { List ℕ };

    ghost view = { λ p. page_bytes p.halves };
}

impl Page {
    /// The page that has these halves.
    pub(crate) fn from_halves(halves: Halves) -> Page
        ensures { result ≡ page_bytes halves }
    {
        Page { halves }
    }

    /// The halves of the page.
    pub(crate) fn halves(&self) -> &Halves
        ensures { page_bytes result.now ≡ self.now }
    {
        &self.halves
    }

    /// The same page, shared once more.
    ///
    /// # Errors
    ///
    /// `AllocError` where the page is shared as often as can be counted.
    pub fn share(&self) -> Result<Page, AllocError>
        ensures { IfOk result (λ p. p ≡ self.now) }
    {
        let halves = self.halves.clone()?;
        Ok(Page { halves })
    }

    /// The word at a physical address in the page.
    pub fn word(&self, pa: u32) -> u32
        requires { pa % 4 ≡ 0 }
        ensures value { result ≡ word_of self.now (pa % 4096 / 4) }
        ensures whole { length self.now ≡ 4096 }
        ensures bytes { are_bytes self.now ≡ true }
    {
        let at = pa as usize % PAGE_SIZE;
        self.halves.block(at).word(at % BLOCK_SIZE)
    }

    /// Writes the word at a physical address in the page; what is shared of it is copied first.
    pub fn set_word(&mut self, pa: u32, value: u32) -> Result<(), AllocError>
        requires { pa % 4 ≡ 0 }
        ensures ok { OnOk result (self.new ≡ with_word self.old (pa % 4096 / 4) value) }
        ensures err { OnErr result (self.new ≡ self.old) }
    {
        let at = pa as usize % PAGE_SIZE;
        self.halves.write_copying(at, Size::Word, u64::from(value))?;
        Ok(())
    }

    /// The byte at a physical address in the page.
    pub fn byte(&self, pa: u32) -> u8
        ensures { result ≡ slice_index_or self.now (pa % 4096) 0 }
    {
        let at = pa as usize % PAGE_SIZE;
        self.halves.block(at).bytes[at % BLOCK_SIZE]
    }

    /// Writes the byte at a physical address in the page; what is shared of it is copied first.
    ///
    /// # Errors
    ///
    /// `AllocError` where memory for the copy cannot be had; the page is then as it was.
    pub fn set_byte(&mut self, pa: u32, value: u8) -> Result<(), AllocError>
        ensures ok { OnOk result (self.new ≡ slice_set self.old (pa % 4096) value) }
        ensures err { OnErr result (self.new ≡ self.old) }
    {
        let at = pa as usize % PAGE_SIZE;
        self.halves.write_copying(at, Size::Byte, u64::from(value))?;
        Ok(())
    }

    /// Whether the page has the same bytes as another.
    pub fn is_same(&self, other: &Page) -> bool
        ensures { MatchBool result (self.now ≡ other.now) (self.now ≡ other.now → ⊥) }
    {
        self.halves.is_same(&other.halves)
    }
}
