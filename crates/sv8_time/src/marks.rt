//! The steps that may have events.

ghost use Rattle.std.specs.Prelude.{◌≡◌, ℕ, ◌≤◌, ◌<◌, [], length, IfOk, OnOk, true, false};
ghost use Rattle.sv8_time.specs.Marks.{is_marked, Covers};

use std::alloc::{AllocError, Global};
use std::marker::Model;

/// A flag for each step up to the last one that was ever marked.
#[derive(Drop)]
pub(crate) struct Marks {
    flags: Vec<bool>,
}

impl Model for Marks {
    ghost use Rattle.std.specs.Prelude.{List, Bool};

    ghost Value = { List Bool };

    ghost view = { λ m. m.flags.items };
}

impl Marks {
    pub(crate) fn new(alloc: Global) -> Marks
        ensures { result ≡ [] }
    {
        Marks {
            flags: Vec::new(alloc),
        }
    }

    /// The same marks once more.
    pub(crate) fn copy(&self, alloc: Global) -> Result<Marks, AllocError>
        ensures { IfOk result (λ m. m ≡ self.now) }
    {
        let flags = Vec::from_slice(alloc, &self.flags)?;
        Ok(Marks { flags })
    }

    /// Whether a step is marked.
    #[inline(always)]
    pub(crate) fn has(&self, step: u32) -> bool
        ensures { result ≡ is_marked self.now step }
    {
        match self.flags.get(step as usize) {
            Some(flag) => *flag,
            None => false,
        }
    }

    /// Whether a step from one on and below another is marked.
    pub(crate) fn has_any(&self, from: u32, to: u32) -> bool
        ensures { result ≡ false → (step : ℕ) → from ≤ step → step < to → is_marked self.now step ≡ false }
    {
        let end = self.flags.len().min(to as usize);
        for step in from as usize..end {
            if self.flags[step] {
                return true;
            }
        }
        false
    }

    /// Makes room for the mark of a step.
    pub(crate) fn reach(&mut self, step: u32) -> Result<(), AllocError>
        ensures ok { OnOk result (step < length self.new) }
        ensures kept { Covers self.old self.new }
    {
        let count = step as usize + 1;
        if self.flags.len() < count {
            self.flags.resize(count, false)?;
        }
        Ok(())
    }

    /// Marks a step.
    pub(crate) fn mark(&mut self, step: u32)
        requires { step < length self.old }
        ensures marked { is_marked self.new step ≡ true }
        ensures kept { Covers self.old self.new }
    {
        self.flags[step as usize] = true;
    }
}
