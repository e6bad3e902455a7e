//! One part of each checkpoint of a trace, where it was changed or is to change.

ghost use Rattle.std.specs.Prelude.{◌≡◌, ℕ, ◌≤◌, ◌<◌, ◌%◌, ◌&&◌, ◌++◌, ◌∷◌, [], false, cond, leb, ltb, take, length, replicate, slice_index_or, None, IfOk, OnOk};

use std::alloc::{AllocError, Global};
use std::marker::Model;
use sv8_phys::Page;

/// So many places, with nothing in them.
///
/// # Errors
///
/// `AllocError` where memory for them cannot be had.
pub fn empty_places<T: Drop>(alloc: Global, count: usize) -> Result<Vec<Option<T>>, AllocError>
    ensures { IfOk result (λ v. v.items ≡ replicate count None) }
{
    let mut places = Vec::with_capacity(alloc, count)?;
    for _place in 0..count {
        places.push(None)?;
    }
    Ok(places)
}

/// One page of RAM in each checkpoint, from that of step 0 on.
pub struct PageColumn {
    pages: Vec<Page>,
}

// Written out, so that crates above prove no drop of its parts.
impl Drop for PageColumn {
    fn drop(self) {
        let PageColumn { pages: _ } = self;
    }
}

impl Model for PageColumn {
    ghost use Rattle.std.specs.Prelude.{List, ℕ};

    ghost Value = { List (List ℕ) };

    ghost view = { λ c. c.pages.items };
}

impl PageColumn {
    /// The pages, in the order of the checkpoints.
    pub(crate) fn new(pages: Vec<Page>) -> PageColumn
        ensures { result ≡ pages.items }
    {
        PageColumn { pages }
    }

    /// How many checkpoints it has a page of.
    pub fn len(&self) -> usize
        ensures { result ≡ length self.now }
    {
        self.pages.len()
    }

    /// The page of a checkpoint, shared.
    ///
    /// # Errors
    ///
    /// `AllocError` where the page is shared as often as can be counted.
    pub fn share(&self, index: usize) -> Result<Page, AllocError>
        requires { index < length self.now }
        ensures { IfOk result (λ p. p ≡ slice_index_or self.now index []) }
    {
        self.pages[index].share()
    }

    /// A byte of the page of a checkpoint, by its address in RAM.
    pub fn byte(&self, index: usize, address: u32) -> u8
        requires { index < length self.now }
        ensures { result ≡ slice_index_or (slice_index_or self.now index []) (address % 4096) 0 }
    {
        self.pages[index].byte(address)
    }

    /// Leaves the pages of the first `count` checkpoints.
    pub fn truncate(&mut self, count: usize)
        ensures { self.new ≡ take count self.old }
    {
        self.pages.truncate(count);
    }

    /// The same pages once more, shared.
    ///
    /// # Errors
    ///
    /// `AllocError` where memory for their handles cannot be had.
    pub fn copy(&self, alloc: Global) -> Result<PageColumn, AllocError>
        ensures { IfOk result (λ c. c ≡ self.now) }
    {
        let mut pages = Vec::with_capacity(alloc, self.pages.len())?;
        for page in &self.pages {
            pages.push(page.share()?)?;
        }
        Ok(PageColumn { pages })
    }
}

/// Whether one interrupt level is pending in each checkpoint, from that of step 0 on.
pub struct LevelColumn {
    pending: Vec<bool>,
}

// Written out, so that crates above prove no drop of its parts.
impl Drop for LevelColumn {
    fn drop(self) {
        let LevelColumn { pending: _ } = self;
    }
}

impl Model for LevelColumn {
    ghost use Rattle.std.specs.Prelude.{List, Bool};

    ghost Value = { List Bool };

    ghost view = { λ c. c.pending.items };
}

impl LevelColumn {
    /// Of no checkpoints.
    pub fn new(alloc: Global) -> LevelColumn
        ensures { result ≡ [] }
    {
        LevelColumn {
            pending: Vec::new(alloc),
        }
    }

    /// The level in one checkpoint more.
    ///
    /// # Errors
    ///
    /// `AllocError` where memory for it cannot be had.
    pub fn push(&mut self, pending: bool) -> Result<(), AllocError>
        ensures { OnOk result (self.new ≡ self.old ++ pending ∷ []) }
    {
        self.pending.push(pending)?;
        Ok(())
    }

    /// Whether the level is pending in a checkpoint.
    pub fn is_pending(&self, index: usize) -> bool
        requires { index < length self.now }
        ensures { result ≡ slice_index_or self.now index false }
    {
        self.pending[index]
    }

    /// Makes the level pending, or not, in the checkpoints from `low` on and below `end`.
    pub fn set(&mut self, low: usize, end: usize, pending: bool)
        requires { end ≤ length self.old }
        ensures length { length self.new ≡ length self.old }
        ensures set { (i : ℕ) → slice_index_or self.new i false ≡ cond (leb low i && ltb i end) pending (slice_index_or self.old i false) }
    {
        if low >= end {
            return;
        }
        for index in low..end {
            self.pending[index] = pending;
        }
    }

    /// How many checkpoints it has the level of.
    pub fn len(&self) -> usize
        ensures { result ≡ length self.now }
    {
        self.pending.len()
    }

    /// Leaves the level of the first `count` checkpoints.
    pub fn truncate(&mut self, count: usize)
        ensures { self.new ≡ take count self.old }
    {
        self.pending.truncate(count);
    }

    /// The same once more.
    ///
    /// # Errors
    ///
    /// `AllocError` where memory for it cannot be had.
    pub fn copy(&self) -> Result<LevelColumn, AllocError>
        ensures { IfOk result (λ c. c ≡ self.now) }
    {
        let pending = self.pending.clone()?;
        Ok(LevelColumn { pending })
    }
}
