//! Words that steps read one after the other.

ghost use Rattle.std.specs.Prelude.{◌+◌, ◌*◌, ◌^◌, ◌<◌, ◌≤◌};

use crate::notes::WordNote;
use crate::offsets::within;

/// Words that as many steps read: each step the word behind that of the step before. Most are instructions that are
/// fetched. Steps are named by their offset.
#[derive(Clone, Copy)]
pub(crate) struct WordRun {
    address: u32,
    first: u32,
    count: u32,
    ghost fits: { address + 4 * count < 2 ^ 32 + 4 },
    ghost few: { first + count ≤ 1000000 },
}

impl WordRun {
    ghost use Rattle.std.specs.Prelude.{◌≡◌, ◌+◌, ◌*◌, ◌<◌, ◌==◌, ◌&&◌, ◌++◌, ◌∷◌, [], MatchBool};
    ghost use Rattle.sv8_notes.specs.Flags.{IsFlagged};
    ghost use Rattle.sv8_notes.specs.Steps.{IsFirstBelow, has_word};
    ghost use Rattle.sv8_notes.specs.Touching.{are_notes_in};
    ghost use Rattle.sv8_notes.specs.WordRuns.{words_of_run};

    /// Of no word.
    pub(crate) fn empty() -> WordRun
        ensures { result.count ≡ 0 }
    {
        WordRun {
            address: 0,
            first: 0,
            count: 0,
        }
    }

    /// Of one word.
    #[inline(always)]
    pub(crate) fn new(address: u32, offset: u32) -> WordRun
        requires { offset < 1000000 }
        ensures { words_of_run result ≡ record { address = address; offset = offset } ∷ [] }
    {
        WordRun {
            address,
            first: offset,
            count: 1,
        }
    }

    /// Takes one word more, if it is the next one, and is read by the next step. Tells whether it was taken.
    #[inline(always)]
    pub(crate) fn extend(&mut self, address: u32, offset: u32) -> bool
        requires { offset < 1000000 }
        ensures { MatchBool result (words_of_run self.new ≡ words_of_run self.old ++ record { address = address; offset = offset } ∷ []) (self.new ≡ self.old) }
    {
        let count = u64::from(self.count);
        if u64::from(self.first) + count != u64::from(offset) {
            return false;
        }
        if u64::from(self.address) + 4 * count != u64::from(address) {
            return false;
        }
        self.count += 1;
        true
    }

    /// The address of the first word.
    pub(crate) fn start(&self) -> u32
        ensures { result ≡ self.now.address }
    {
        self.address
    }

    /// How many words, and steps, it has.
    pub(crate) fn count(&self) -> u32
        ensures value { result ≡ self.now.count }
        ensures fits { self.now.address + 4 * result < 2 ^ 32 + 4 }
    {
        self.count
    }

    /// The address of one of the words.
    #[inline(always)]
    fn address(&self, place: u32) -> u32
        requires { place < self.now.count }
        ensures { result ≡ self.now.address + 4 * place }
    {
        self.address + 4 * place
    }

    /// Whether it has the same words as another.
    #[inline(always)]
    pub(crate) fn has_words_of(&self, other: &WordRun) -> bool
        ensures { result ≡ (self.now.address == other.now.address && self.now.count == other.now.count) }
    {
        self.address == other.address && self.count == other.count
    }

    /// The first step from one offset on and below another that reads a word.
    pub(crate) fn first_of(&self, address: u32, from: u32, end: u32) -> Option<u32>
        ensures { IsFirstBelow (has_word (words_of_run self.now) address) from end result }
    {
        if address < self.address || (address - self.address) % 4 != 0 {
            return None;
        }
        let place = (address - self.address) / 4;
        if place >= self.count {
            return None;
        }
        within(self.first + place, from, end)
    }

    /// The note of one of the words.
    #[inline(always)]
    fn word(&self, place: u32) -> WordNote
        requires { place < self.now.count }
        ensures { result ≡ record { address = self.now.address + 4 * place; offset = self.now.first + place } }
    {
        WordNote {
            address: self.address(place),
            offset: self.first + place,
        }
    }

    /// Whether it has a word whose address is from one to another, at a step from one offset on and below another.
    pub(crate) fn is_any_in(&self, low: u32, last: u32, from: u32, end: u32) -> bool
        ensures { result ≡ are_notes_in low last from end (words_of_run self.now) }
    {
        for place in 0..self.count {
            if self.word(place).is_in(low, last, from, end) {
                return true;
            }
        }
        false
    }

    /// Sets the flag of each step that reads a word whose address is from one to another. Flag number i is that of the step
    /// with the offset `from + i`.
    pub(crate) fn flag(&self, low: u32, last: u32, from: u32, flags: &mut [bool])
        ensures { IsFlagged (λ i. are_notes_in low last (from + i) (from + i + 1) (words_of_run self.now)) flags.old flags.new }
    {
        for place in 0..self.count {
            self.word(place).flag(low, last, from, flags);
        }
    }
}
