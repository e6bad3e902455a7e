//! Notes of one step that is watched: all that it touches, and what an observer sees of it.

ghost use Rattle.std.specs.Prelude.{◌≡◌};
ghost use Rattle.sv8_model.specs.Does.{no_notes};

use std::alloc::{AllocError, Global};
use std::marker::Model;
use sv8_model::{Observation, Touch, Touches};

/// The notes of one step, in their order. The room that they took stays for the next step.
#[derive(Drop)]
pub struct Watch {
    touches: Vec<Touch>,
    observations: Vec<Observation>,
}

impl Model for Watch {
    ghost use Rattle.sv8_model.specs.Does.{Notes};

    ghost Value = { Notes };

    ghost view = { λ w. record { touches = w.touches.items; observations = w.observations.items } };
}

impl Touches for Watch {
    ghost use Rattle.std.specs.Prelude.{true};
    ghost use Rattle.sv8_model.specs.Does.{keeping};

    ghost NOTING = { keeping true true };

    ghost KEEPS = { true };

    ghost OBSERVES = { true };

    ghost noted = { λ w. w };

    #[inline(always)]
    fn note(&mut self, touch: Touch) -> Result<(), AllocError> {
        self.touches.reserve(1)?;
        self.touches.push_reserved(touch);
        Ok(())
    }

    #[inline(always)]
    fn observe(&mut self, observation: Observation) -> Result<(), AllocError> {
        self.observations.reserve(1)?;
        self.observations.push_reserved(observation);
        Ok(())
    }
}

impl Watch {
    /// No notes. It takes no memory.
    pub fn new(alloc: Global) -> Self
        ensures { result ≡ no_notes }
    {
        Watch {
            touches: Vec::new(alloc),
            observations: Vec::new(alloc),
        }
    }

    /// What was touched, in order.
    pub fn touches(&self) -> &[Touch]
        ensures { result.now ≡ self.now.touches }
    {
        &self.touches
    }

    /// What was seen, in order.
    pub fn observations(&self) -> &[Observation]
        ensures { result.now ≡ self.now.observations }
    {
        &self.observations
    }

    /// Lets all notes go.
    pub fn clear(&mut self)
        ensures { self.new ≡ no_notes }
    {
        self.touches.clear();
        self.observations.clear();
    }
}
