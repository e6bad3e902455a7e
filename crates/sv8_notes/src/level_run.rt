//! Interrupt levels that steps ask one after the other.

ghost use Rattle.std.specs.Prelude.{◌≡◌, ℕ, ◌<◌, ◌==◌, ◌&&◌, ◌||◌, MatchBool};
ghost use Rattle.sv8_model.specs.Words.{bit};
ghost use Rattle.sv8_notes.specs.Steps.{IsFirstBelow, is_asked_in};

use crate::step_notes::asks;

/// Steps one after the other that ask the same interrupt levels, bit l for level l.
#[derive(Clone, Copy)]
pub(crate) struct LevelRun {
    pub first: u32,
    pub end: u32,
    pub levels: u16,
}

impl LevelRun {
    /// Takes one step more, if it is the next one, and asks the same levels. Tells whether it was taken.
    #[inline(always)]
    pub(crate) fn extend(&mut self, levels: u16, offset: u32) -> bool
        requires { offset < 1000000 }
        ensures { MatchBool result
            ((l j : ℕ) → is_asked_in l j self.new ≡ (is_asked_in l j self.old || (j == offset && bit levels l))) (self.new ≡ self.old) }
    {
        let follows = self.end == offset && self.levels == levels && self.first <= offset;
        if follows {
            self.end += 1;
        }
        follows
    }

    /// The first step of the run from one step on and below another, if it asks a level.
    pub(crate) fn first_asking(&self, level: u32, from: u32, end: u32) -> Option<u32>
        ensures { IsFirstBelow (λ n. is_asked_in level n self.now) from end result }
    {
        let first = self.first.max(from);
        if asks(self.levels, level) && first < self.end && first < end {
            Some(first)
        } else {
            None
        }
    }
}
