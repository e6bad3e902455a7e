//! The processor interrupt level.

ghost use Rattle.std.specs.Prelude.{◌≡◌, ◌<◌, ◌/◌, ◌%◌, ◌^◌};
ghost use Rattle.sv8_regs.specs.Control.{pil_of};

use std::marker::Model;

/// The processor interrupt level, the PIL field of the PSR, from 0 to 15: interrupts of the levels above it are taken,
/// and those of level 15 always (The SPARC Architecture Manual, Version 8, sections 4.2 and 7.5).
///
/// A contract sees it as the number.
#[derive(Clone, Copy, PartialEq, Eq)]
pub struct Pil(u8);

impl Model for Pil {
    ghost use Rattle.std.specs.Prelude.{ℕ, ◌<◌};

    ghost Value = { ℕ };

    ghost view = { λ p. p.0 };

    ghost invariant = { λ p. p.0 < 16 };

    ghost inverse = { λ n. record { 0 = n } };
}

impl Pil {
    /// The PIL of a number; `None` where it is not 0 to 15.
    pub fn new(number: u32) -> Option<Pil>
        ensures { result ≡ pil_of number }
    {
        if number < 16 {
            Some(Pil(number as u8))
        } else {
            None
        }
    }

    /// The PIL after a reset, 0, which masks no level.
    pub(crate) fn of_reset() -> Pil
        ensures { result ≡ 0 }
    {
        Pil(0)
    }

    /// The PIL field of a PSR word.
    pub(crate) fn of_word(word: u32) -> Pil
        ensures { result ≡ word / 2 ^ 8 % 2 ^ 4 }
    {
        Pil((word / 0x100 % 16) as u8)
    }

    /// The number of the level.
    #[inline(always)]
    pub fn number(self) -> u32
        ensures value { result ≡ self }
        ensures most { result < 16 }
    {
        u32::from(self.0)
    }
}
