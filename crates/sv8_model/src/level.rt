//! Interrupt levels.

ghost use Rattle.std.specs.Prelude.{◌≡◌, ℕ, ◌≤◌};
ghost use Rattle.sv8_model.specs.Levels.{level_of, timer_level};

use std::marker::Model;

/// An interrupt level, from 1 to 15 (The SPARC Architecture Manual, Version 8, section 7.5). Level 15 is the highest,
/// and is never masked.
///
/// There is no level 0, so that a value of this type is one that a device or an outside event may request. A contract
/// sees it as the number.
#[derive(Clone, Copy, PartialEq, Eq)]
pub struct Level(u8);

impl Model for Level {
    ghost Value = { ℕ };

    ghost view = { λ l. l.0 };

    ghost invariant = { λ l. (1 ≤ l.0) × (l.0 ≤ 15) };

    ghost inverse = { λ n. record { 0 = n } };
}

impl Level {
    /// The level of a number; `None` where it is not 1 to 15.
    pub fn new(number: u32) -> Option<Level>
        ensures { result ≡ level_of number }
    {
        if 1 <= number && number <= 15 {
            Some(Level(number as u8))
        } else {
            None
        }
    }

    /// The level that the timer requests, 10.
    #[inline(always)]
    pub fn of_timer() -> Level
        ensures { result ≡ timer_level }
    {
        Level(10)
    }

    /// The number of the level.
    #[inline(always)]
    pub fn number(self) -> u32
        ensures value { result ≡ self }
        ensures some { 1 ≤ result }
        ensures most { result ≤ 15 }
    {
        u32::from(self.0)
    }
}
