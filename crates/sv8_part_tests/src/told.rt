//! Notes of touches that are kept.

use std::alloc::AllocError;
use sv8_phys::{Observation, Touch, Touches};

/// Keeps every note.
#[derive(Drop)]
pub struct Told {
    pub notes: Vec<Touch>,
}

impl Touches for Told {
    ghost use Rattle.std.specs.Prelude.{true, false};
    ghost use Rattle.sv8_model.specs.Does.{keeping, touching};

    ghost NOTING = { keeping true false };

    ghost KEEPS = { true };

    ghost OBSERVES = { false };

    ghost noted = { λ t. touching t.notes.items };

    fn note(&mut self, touch: Touch) -> Result<(), AllocError> {
        self.notes.push(touch)?;
        Ok(())
    }

    fn observe(&mut self, _observation: Observation) -> Result<(), AllocError> {
        Ok(())
    }
}
