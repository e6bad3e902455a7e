//! The pending interrupt levels.

ghost use Rattle.std.specs.Prelude.{◌≡◌, true, false, replicate, slice_index_or, slice_set};
ghost use Rattle.sv8_model.specs.Levels.{levels_word, asked, cleared};
ghost use Rattle.sv8_phys.specs.Pending.{AreLevels};

use std::marker::Model;
use sv8_model::Level;

/// Which interrupt levels from 1 to 15 are pending: a word with bit l for level l, in which bit 0 is never set.
#[derive(Drop)]
pub(crate) struct Pending {
    levels: u16,
}

impl Model for Pending {
    ghost use Rattle.std.specs.Prelude.{◌≡◌, List, Bool, false};
    ghost use Rattle.sv8_model.specs.Words.{bit};
    ghost use Rattle.sv8_phys.specs.Pending.{levels_of_word};

    ghost Value = { List Bool };

    ghost view = { λ p. levels_of_word p.levels };

    ghost invariant = { λ p. bit p.levels 0 ≡ false };
}

impl Pending {
    /// No level is pending.
    pub(crate) fn new() -> Self
        ensures value { result ≡ replicate 16 false }
        ensures shape { AreLevels result }
    {
        Pending { levels: 0 }
    }

    /// The same levels.
    pub(crate) fn snapshot(&self) -> Self
        ensures value { result ≡ self.now }
        ensures shape { AreLevels self.now }
    {
        Pending {
            levels: self.levels,
        }
    }

    /// The word with bit l set where level l is pending.
    pub(crate) fn word(&self) -> u32
        ensures { result ≡ levels_word self.now }
    {
        u32::from(self.levels)
    }

    /// Whether a level is pending.
    pub(crate) fn is_pending(&self, level: Level) -> bool
        ensures { result ≡ slice_index_or self.now level false }
    {
        (self.levels >> level.number()) % 2 == 1
    }

    /// Makes a level pending.
    pub(crate) fn request(&mut self, level: Level)
        ensures value { self.new ≡ slice_set self.old level true }
        ensures shape { AreLevels self.new }
    {
        self.levels |= 1 << level.number();
    }

    /// Makes a level pending, or no longer pending.
    pub(crate) fn set(&mut self, level: Level, pending: bool)
        ensures value { self.new ≡ slice_set self.old level pending }
        ensures shape { AreLevels self.new }
    {
        if pending {
            self.request(level);
        } else {
            self.withdraw(level);
        }
    }

    /// Makes a level no longer pending.
    fn withdraw(&mut self, level: Level)
        ensures value { self.new ≡ slice_set self.old level false }
        ensures shape { AreLevels self.new }
    {
        let _levels = self.levels;
        self.clear(1 << level.number());
    }

    /// Those levels of a word, bit l for level l, that are pending. Bit 0 is ignored.
    pub(crate) fn asked(&self, levels: u16) -> u32
        ensures { result ≡ asked levels self.now }
    {
        u32::from(self.levels & levels)
    }

    /// The levels of a word, bit l for level l, are no longer pending. Other bits than those of levels 1 to 15 are ignored.
    pub(crate) fn clear(&mut self, levels: u32)
        ensures value { self.new ≡ cleared levels self.old }
        ensures shape { AreLevels self.new }
    {
        self.levels = (u32::from(self.levels) & !levels) as u16;
    }
}
