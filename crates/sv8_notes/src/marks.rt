//! How far the notes of each word of RAM reach.

ghost use Rattle.std.specs.Prelude.{◌≡◌, ℕ, ◌+◌, ◌*◌, ◌^◌, ◌≤◌, ◌<◌, ◌&&◌, [], nat_lt, nat_le, length, slice_index_or, IfOk, OnOk};
ghost use Rattle.sv8_notes.specs.Marks.{mark_of, AreMarkedFrom};

use std::alloc::{AllocError, Global};
use std::marker::Model;

/// How many bytes a page has.
pub const PAGE_SIZE: u32 = 4096;

/// How many words a page has.
const PAGE_WORDS: usize = 1024;

/// The marks of one page, by word.
#[derive(Drop)]
struct PageMarks {
    words: Vec<u32>,
}

impl Model for PageMarks {
    ghost use Rattle.std.specs.Prelude.{List, ℕ};

    ghost Value = { List ℕ };

    ghost view = { λ p. p.words.items };
}

impl PageMarks {
    /// Of no words.
    fn new(alloc: Global) -> PageMarks
        ensures { result ≡ [] }
    {
        PageMarks {
            words: Vec::new(alloc),
        }
    }

    /// The same marks once more.
    fn copy(&self) -> Result<PageMarks, AllocError>
        ensures { IfOk result (λ p. p ≡ self.now) }
    {
        let words = self.words.clone()?;
        Ok(PageMarks { words })
    }

    /// The mark of a word; 0 where it has none.
    fn mark(&self, word: usize) -> u32
        ensures { result ≡ slice_index_or self.now word 0 }
    {
        if word < self.words.len() {
            self.words[word]
        } else {
            0
        }
    }

    /// Makes room for the marks of all words.
    fn fill(&mut self) -> Result<(), AllocError>
        ensures same { (i : ℕ) → slice_index_or self.new i 0 ≡ slice_index_or self.old i 0 }
        ensures room { OnOk result (1024 ≤ length self.new) }
    {
        if self.words.len() < PAGE_WORDS {
            self.words.resize(PAGE_WORDS, 0)?;
        }
        Ok(())
    }

    /// Whether there is room for the marks of all words.
    #[inline(always)]
    fn is_full(&self) -> bool
        ensures { result ≡ nat_le 1024 (length self.now) }
    {
        self.words.len() >= PAGE_WORDS
    }

    /// Marks the words from one on and below another with a number, unless their marks are greater.
    #[inline(always)]
    fn raise(&mut self, from: usize, end: usize, mark: u32)
        requires { end ≤ length self.old }
        ensures grows { (i : ℕ) → slice_index_or self.old i 0 ≤ slice_index_or self.new i 0 }
        ensures raised { (i : ℕ) → from ≤ i → i < end → mark ≤ slice_index_or self.new i 0 }
    {
        raise_between(self.words.as_mut_slice(), from, end, mark);
    }
}

/// Raises the numbers from one place on and below another that are less than a number to that.
#[inline(always)]
fn raise_between(numbers: &mut [u32], from: usize, end: usize, number: u32)
    requires { end ≤ length numbers.old }
    ensures grows { (i : ℕ) → slice_index_or numbers.old i 0 ≤ slice_index_or numbers.new i 0 }
    ensures raised { (i : ℕ) → from ≤ i → i < end → number ≤ slice_index_or numbers.new i 0 }
{
    for place in from..end {
        numbers[place] = numbers[place].max(number);
    }
}

/// For each word of RAM a number of intervals, from the first on: no later one has a note of the word. After a cut it may be more than it need be.
pub struct Marks {
    pages: Vec<PageMarks>,
}

// Written out, so that crates above prove no drop of its parts.
impl Drop for Marks {
    fn drop(self) {
        let Marks { pages: _ } = self;
    }
}

impl Model for Marks {
    ghost use Rattle.std.specs.Prelude.{List, ℕ};

    ghost Value = { List (List ℕ) };

    ghost view = { λ m. m.pages.items };
}

impl Marks {
    /// Of no notes.
    pub fn new(alloc: Global) -> Marks
        ensures { result ≡ [] }
    {
        Marks {
            pages: Vec::new(alloc),
        }
    }

    /// The same marks once more.
    ///
    /// # Errors
    ///
    /// `AllocError` where memory for them cannot be had.
    pub fn copy(&self, alloc: Global) -> Result<Marks, AllocError>
        ensures { IfOk result (λ m. m ≡ self.now) }
    {
        let mut pages = Vec::with_capacity(alloc, self.pages.len())?;
        for page in &self.pages {
            pages.push(page.copy()?)?;
        }
        Ok(Marks { pages })
    }

    /// The mark of the word that a byte is in, by the address of the byte; 0 where no note of the word was marked.
    pub fn mark(&self, address: u32) -> u32
        ensures { result ≡ mark_of self.now address }
    {
        let page = (address / PAGE_SIZE) as usize;
        if page < self.pages.len() {
            self.pages[page].mark((address % PAGE_SIZE / 4) as usize)
        } else {
            0
        }
    }

    /// Makes a place for the marks of a page.
    fn make_place(&mut self, alloc: Global, page: usize) -> Result<(), AllocError>
        ensures same { (a : ℕ) → mark_of self.new a ≡ mark_of self.old a }
        ensures place { OnOk result (page < length self.new) }
    {
        while self.pages.len() <= page {
            self.pages.push(PageMarks::new(alloc))?;
        }
        Ok(())
    }

    /// Makes room for the marks of a page. Few steps need it, so what it needs stands apart from them.
    #[inline(never)]
    fn make_room(&mut self, alloc: Global, page: usize) -> Result<(), AllocError>
        ensures same { (a : ℕ) → mark_of self.new a ≡ mark_of self.old a }
        ensures place { OnOk result (page < length self.new) }
        ensures room { OnOk result (1024 ≤ length (slice_index_or self.new page [])) }
    {
        self.make_place(alloc, page)?;
        self.pages[page].fill()?;
        Ok(())
    }

    /// Whether there is room for the marks of a page.
    #[inline(always)]
    fn has_room(&self, page: usize) -> bool
        ensures { result ≡ (nat_lt page (length self.now) && nat_le 1024 (length (slice_index_or self.now page []))) }
    {
        page < self.pages.len() && self.pages[page].is_full()
    }

    /// Marks the words of a page from one on and below another with a number, unless their marks are greater.
    #[inline(always)]
    fn raise_in_page(
        &mut self,
        alloc: Global,
        page: usize,
        from: usize,
        end: usize,
        mark: u32,
    ) -> Result<(), AllocError>
        requires { end ≤ 1024 }
        ensures grows { (a : ℕ) → mark_of self.old a ≤ mark_of self.new a }
        ensures raised { OnOk result ((i : ℕ) → from ≤ i → i < end → mark ≤ slice_index_or (slice_index_or self.new page []) i 0) }
    {
        if !self.has_room(page) {
            self.make_room(alloc, page)?;
        }
        self.pages[page].raise(from, end, mark);
        Ok(())
    }

    /// Marks the word that a byte is in with a number, unless its mark is greater.
    ///
    /// # Errors
    ///
    /// `AllocError` where memory for the marks of its page cannot be had.
    #[inline(always)]
    pub(crate) fn raise(&mut self, alloc: Global, address: u32, mark: u32) -> Result<(), AllocError>
        ensures grows { (a : ℕ) → mark_of self.old a ≤ mark_of self.new a }
        ensures raised { OnOk result (mark ≤ mark_of self.new address) }
    {
        let page = (address / PAGE_SIZE) as usize;
        let word = (address % PAGE_SIZE / 4) as usize;
        self.raise_in_page(alloc, page, word, word + 1, mark)
    }

    /// Marks so many words, from the one that a byte is in on, with a number, unless their marks are greater.
    ///
    /// # Errors
    ///
    /// `AllocError` where memory for the marks of a page cannot be had; some words are then marked.
    pub(crate) fn raise_words(
        &mut self,
        alloc: Global,
        address: u32,
        count: u32,
        mark: u32,
    ) -> Result<(), AllocError>
        requires { address + 4 * count < 2 ^ 32 + 4 }
        ensures grows { (a : ℕ) → mark_of self.old a ≤ mark_of self.new a }
        ensures raised { OnOk result (AreMarkedFrom self.new address mark count) }
    {
        let mut place = 0;
        while place < count {
            let number = (address / 4 + place) as usize;
            let word = number % PAGE_WORDS;
            let part = (PAGE_WORDS - word).min((count - place) as usize);
            self.raise_in_page(alloc, number / PAGE_WORDS, word, word + part, mark)?;
            place += part as u32;
        }
        Ok(())
    }
}
