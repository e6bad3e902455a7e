//! Poked bytes, by step and word.

ghost use Rattle.std.specs.Prelude.{◌≡◌, ◌%◌, length};

use crate::ordered::Keyed;

/// The bytes of a word of RAM that get values from outside at a step.
#[derive(Drop, Clone, Copy)]
pub struct WordPoke {
    /// The step at which it happens.
    pub step: u32,
    /// The address of the word, a multiple of 4.
    pub address: u32,
    /// The value that each byte of the word gets, or none. The first byte is the one at `address`.
    pub bytes: [Option<u8>; 4],
    ghost full: { length bytes ≡ 4 },
    ghost aligned: { address % 4 ≡ 0 },
}

impl Keyed for WordPoke {
    ghost major_of = { λ w. w.step };

    ghost minor_of = { λ w. w.address };

    fn major(&self) -> u32 {
        self.step
    }

    fn minor(&self) -> u32 {
        self.address
    }
}

/// The same in the order of addresses, and within an address of steps.
#[derive(Drop, Clone, Copy)]
pub(crate) struct ByAddress {
    pub(crate) word: WordPoke,
}

impl Keyed for ByAddress {
    ghost major_of = { λ b. b.word.address };

    ghost minor_of = { λ b. b.word.step };

    fn major(&self) -> u32 {
        self.word.address
    }

    fn minor(&self) -> u32 {
        self.word.step
    }
}
