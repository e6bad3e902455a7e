//! The poked bytes of a timeline.

ghost use Rattle.std.specs.Prelude.{◌≡◌, ◌+◌, ◌*◌, ◌/◌, ◌%◌, ◌^◌, [], ◌∷◌, if◌then◌else◌, true, IfOk, OnOk, OnErr, None, Some, is_some, List, map, find, option_map, ◌<◌, ◌≤◌};
ghost use Rattle.sv8_time.specs.Order.{Each, Rising, passes_at};
ghost use Rattle.sv8_time.specs.Schedule.{poke_of, has_poke, poked_at, put_poke, cut_poke, pokes_of_step, word_of, has_word, word_count, IsNextPoke};
ghost use Rattle.sv8_time.specs.Words.{is_poked, bytes_of_words, word_before, with_bytes};

use crate::ordered::{Ordered, put_both};
use crate::words::{ByAddress, WordPoke};
use std::alloc::{AllocError, Global};
use std::marker::Model;

/// Poked bytes, an entry for each step and word that has any, in the order of steps and in that of addresses.
#[derive(Drop)]
pub(crate) struct Pokes {
    words: Ordered<WordPoke>,
    by_address: Ordered<ByAddress>,
}

impl Model for Pokes {
    ghost use Rattle.std.specs.Prelude.{List};
    ghost use Rattle.sv8_time.specs.Schedule.{BytePoke};
    ghost use Rattle.sv8_time.specs.Words.{bytes_of_words, SameWords};

    ghost Value = { List BytePoke };

    ghost view = { λ p. bytes_of_words p.words };

    ghost invariant = { λ p. SameWords p.words p.by_address };
}

/// The word of a byte at a step, with none of its bytes poked.
fn unpoked(step: u32, address: u32) -> WordPoke
    ensures step { result.step ≡ step }
    ensures address { result.address ≡ word_of address }
    ensures bytes { result.bytes ≡ None ∷ None ∷ None ∷ None ∷ [] }
{
    WordPoke {
        step,
        address: address / 4 * 4,
        bytes: [None; 4],
    }
}

/// The bytes of a word, the most significant first.
fn bytes_of(value: u32) -> [Option<u8>; 4]
    ensures { result ≡ Some (value / 2 ^ 24 % 2 ^ 8) ∷ Some (value / 2 ^ 16 % 2 ^ 8) ∷ Some (value / 2 ^ 8 % 2 ^ 8) ∷ Some (value % 2 ^ 8) ∷ [] }
{
    let [first, second, third, fourth] = value.to_be_bytes();
    [Some(first), Some(second), Some(third), Some(fourth)]
}

/// Whether a word has a poked byte.
fn is_poked(bytes: &[Option<u8>]) -> bool
    ensures { result ≡ is_poked bytes.now }
{
    bytes.iter().any(|byte| byte.is_some())
}

/// The place of a byte in its word.
fn offset_of(address: u32) -> usize
    ensures { result ≡ address % 4 }
{
    (address % 4) as usize
}

/// Whether a byte of a word is poked.
fn is_poked_at(bytes: &[Option<u8>], offset: usize) -> bool
    ensures { result ≡ passes_at is_some bytes.now offset }
{
    match bytes.get(offset) {
        Some(byte) => byte.is_some(),
        None => false,
    }
}

/// The step of the first of some words that has a byte poked.
fn first_poked(words: &[ByAddress], offset: usize) -> Option<u32>
    ensures { result ≡ option_map (λ b. b.word.step) (find (λ b. passes_at is_some b.word.bytes offset) words.now) }
{
    words
        .iter()
        .find(|entry| is_poked_at(&entry.word.bytes, offset))
        .map(|entry| entry.word.step)
}

impl Pokes {
    pub(crate) fn new(alloc: Global) -> Pokes
        ensures { result ≡ [] }
    {
        Pokes {
            words: Ordered::new(alloc),
            by_address: Ordered::new(alloc),
        }
    }

    /// The same poked bytes once more.
    pub(crate) fn copy(&self, alloc: Global) -> Result<Pokes, AllocError>
        ensures { IfOk result (λ p. p ≡ self.now) }
    {
        let words = self.words.copy(alloc)?;
        let by_address = self.by_address.copy(alloc)?;
        Ok(Pokes { words, by_address })
    }

    /// The number of steps and words with poked bytes.
    pub(crate) fn count(&self) -> usize
        ensures { result ≡ word_count self.now }
    {
        self.words.count()
    }

    /// The word of a byte at a step, with the bytes of it that are poked.
    fn word(&self, step: u32, address: u32) -> WordPoke
        ensures step { result.step ≡ step }
        ensures address { result.address ≡ word_of address }
        ensures whole { self.now ≡ with_bytes step (word_of address) result.bytes self.now }
    {
        let _words = &self.words;
        let unpoked = unpoked(step, address);
        self.words.get(unpoked).unwrap_or(unpoked)
    }

    /// Whether a byte of the word of an address is poked at a step.
    pub(crate) fn has_word(&self, step: u32, address: u32) -> bool
        ensures { result ≡ has_word step address self.now }
    {
        self.words.has(unpoked(step, address))
    }

    /// Whether a byte is poked at a step.
    pub(crate) fn has_byte(&self, step: u32, address: u32) -> bool
        ensures { result ≡ has_poke step address self.now }
    {
        let word = self.word(step, address);
        is_poked_at(&word.bytes, offset_of(address))
    }

    /// What a byte is poked with at a step, if it is.
    pub(crate) fn byte(&self, step: u32, address: u32) -> Option<u8>
        ensures { result ≡ poked_at step address self.now }
    {
        let word = self.word(step, address);
        word.bytes[offset_of(address)]
    }

    /// Puts a word's poked bytes in the place of those that stand at its step.
    fn store(&mut self, word: WordPoke) -> Result<(), AllocError>
        requires { is_poked word.bytes ≡ true }
        ensures value { OnOk result (self.new ≡ with_bytes word.step word.address word.bytes self.old) }
        ensures count { OnOk result (word_count self.new ≡ (if has_word word.step word.address self.old then word_count self.old else word_count self.old + 1)) }
        ensures err { OnErr result (self.new ≡ self.old) }
    {
        put_both(
            &mut self.words,
            word,
            &mut self.by_address,
            ByAddress { word },
        )
    }

    /// Pokes the four bytes of a word.
    pub(crate) fn put_word(&mut self, step: u32, address: u32, value: u32) -> Result<(), AllocError>
        requires { address % 4 ≡ 0 }
        ensures value { OnOk result (self.new ≡ put_poke (poke_of step (address + 3) (value % 2 ^ 8)) (put_poke (poke_of step (address + 2) (value / 2 ^ 8 % 2 ^ 8)) (put_poke (poke_of step (address + 1) (value / 2 ^ 16 % 2 ^ 8)) (put_poke (poke_of step address (value / 2 ^ 24 % 2 ^ 8)) self.old)))) }
        ensures count { OnOk result (word_count self.new ≡ (if has_word step address self.old then word_count self.old else word_count self.old + 1)) }
        ensures err { OnErr result (self.new ≡ self.old) }
    {
        let mut word = self.word(step, address);
        word.bytes = bytes_of(value);
        self.store(word)
    }

    /// Pokes a byte.
    pub(crate) fn put_byte(&mut self, step: u32, address: u32, value: u8) -> Result<(), AllocError>
        ensures value { OnOk result (self.new ≡ put_poke (poke_of step address value) self.old) }
        ensures count { OnOk result (word_count self.new ≡ (if has_word step address self.old then word_count self.old else word_count self.old + 1)) }
        ensures err { OnErr result (self.new ≡ self.old) }
    {
        let mut word = self.word(step, address);
        word.bytes[offset_of(address)] = Some(value);
        self.store(word)
    }

    /// Leaves of a word's poked bytes those that it is given.
    fn leave(&mut self, word: WordPoke)
        requires { has_word word.step word.address self.old ≡ true }
        ensures value { self.new ≡ with_bytes word.step word.address word.bytes self.old }
        ensures count { word_count self.new ≤ word_count self.old }
    {
        let by_address = ByAddress { word };
        if is_poked(&word.bytes) {
            self.words.replace(word);
            self.by_address.replace(by_address);
        } else {
            self.words.cut(word);
            self.by_address.cut(by_address);
        }
    }

    /// Clears the pokes of a word's bytes.
    pub(crate) fn cut_word(&mut self, step: u32, address: u32)
        requires aligned { address % 4 ≡ 0 }
        requires stands { has_word step address self.old ≡ true }
        ensures value { self.new ≡ cut_poke step (address + 3) (cut_poke step (address + 2) (cut_poke step (address + 1) (cut_poke step address self.old))) }
        ensures count { word_count self.new ≤ word_count self.old }
    {
        let mut word = self.word(step, address);
        word.bytes = [None; 4];
        self.leave(word);
    }

    /// Clears the poke of a byte.
    pub(crate) fn cut_byte(&mut self, step: u32, address: u32)
        requires { has_poke step address self.old ≡ true }
        ensures value { self.new ≡ cut_poke step address self.old }
        ensures count { word_count self.new ≤ word_count self.old }
    {
        let mut word = self.word(step, address);
        word.bytes[offset_of(address)] = None;
        self.leave(word);
    }

    /// The words that have poked bytes at a step, in rising address.
    pub(crate) fn at(&self, step: u32) -> &[WordPoke]
        ensures value { bytes_of_words result.now ≡ pokes_of_step step self.now }
        ensures rising { Rising word_before result.now }
        ensures poked { Each (λ w. is_poked w.bytes ≡ true) result.now }
    {
        let _words = &self.words;
        self.words.at(step)
    }

    /// The least step above one in which a byte is poked.
    pub(crate) fn next(&self, address: u32, after: u32) -> Option<u32>
        ensures { IsNextPoke address after self.now result }
    {
        let _words = &self.words;
        let offset = offset_of(address);
        first_poked(self.by_address.at_behind(address / 4 * 4, after), offset)
    }
}
