//! The count of steps.

ghost use Rattle.std.specs.Prelude.{◌≡◌};
ghost use Rattle.sv8_cpu.specs.Work.{counted, counted_by};

use std::marker::Model;

/// How many steps were made with it. It is moved and not copied as a number is, so no step is counted in a copy that is then lost.
#[derive(Drop)]
pub struct Work {
    done: u64,
}

impl Model for Work {
    ghost use Rattle.std.specs.Prelude.{ℕ};

    ghost Value = { ℕ };

    ghost view = { λ w. w.done };
}

impl Work {
    /// No steps.
    pub fn new() -> Self
        ensures { result ≡ 0 }
    {
        Work { done: 0 }
    }

    /// The number of steps made so far; 2^64 - 1 where it is that or more.
    pub fn done(&self) -> u64
        ensures { result ≡ self.now }
    {
        self.done
    }

    /// The count once more, for whoever counts the same steps so far and goes on alone.
    pub fn copy(&self) -> Self
        ensures { result ≡ self.now }
    {
        Work { done: self.done }
    }

    /// One step more.
    #[inline(always)]
    pub fn raise(&mut self)
        ensures { self.new ≡ counted self.old }
    {
        self.done = self.done.saturating_add(1);
    }

    /// So many steps more.
    #[tactic(auto, using(crate::proofs::Counting::counted_at_once))]
    pub fn raise_by(&mut self, count: u32)
        ensures { self.new ≡ counted_by count self.old }
    {
        self.done = self.done.saturating_add(u64::from(count));
    }
}
