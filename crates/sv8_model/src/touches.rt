//! Notes of what a step touches, and of what an observer sees of it.

ghost use Rattle.std.specs.Prelude.{◌≡◌, ◌∷◌, [], true, OnOk, OnErr};
ghost use Rattle.sv8_model.specs.Does.{noting};

use crate::observation::Observation;
use crate::touch::Touch;
use std::alloc::AllocError;

/// What takes notes of touches and of observations.
pub trait Touches {
    ghost use Rattle.std.specs.Prelude.{Bool};
    ghost use Rattle.sv8_model.specs.Does.{Noting};

    // How notes are taken.
    ghost NOTING: { Noting };

    // Whether notes of touches are kept, for which memory may be wanted.
    ghost KEEPS: { Bool };

    // The same of observations.
    ghost OBSERVES: { Bool };

    /// The notes taken so far.
    ghost noted: { Self → NOTING.Taken };

    /// Takes a note of a touch, behind those taken so far.
    ///
    /// # Errors
    ///
    /// `AllocError` where memory for the note cannot be had; never where no notes of touches are kept.
    fn note(&mut self, touch: Touch) -> Result<(), AllocError>
        ensures ok { OnOk result (noted self.new ≡ noting NOTING (noted self.old) (touch ∷ []) []) }
        ensures err { OnErr result (KEEPS ≡ true) };

    /// Takes a note of an observation, behind those taken so far.
    ///
    /// # Errors
    ///
    /// `AllocError` where memory for the note cannot be had; never where no notes of observations are kept.
    fn observe(&mut self, observation: Observation) -> Result<(), AllocError>
        ensures ok { OnOk result (noted self.new ≡ noting NOTING (noted self.old) [] (observation ∷ [])) }
        ensures err { OnErr result (OBSERVES ≡ true) };
}

/// Keeps no notes.
#[derive(Drop)]
pub struct NoTouches;

impl Touches for NoTouches {
    ghost use Rattle.std.specs.Prelude.{Bool, false};
    ghost use Rattle.sv8_model.specs.Does.{keeping, no_notes};

    ghost NOTING = { keeping false false };

    ghost KEEPS = { false };

    ghost OBSERVES = { false };

    ghost noted = { λ _. no_notes };

    fn note(&mut self, _touch: Touch) -> Result<(), AllocError> {
        Ok(())
    }

    #[inline(always)]
    fn observe(&mut self, _observation: Observation) -> Result<(), AllocError> {
        Ok(())
    }
}
