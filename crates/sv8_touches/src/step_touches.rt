//! The notes of one step, kept until its end.

ghost use Rattle.std.specs.Prelude.{◌≡◌, []};
ghost use Rattle.sv8_model.specs.Footprint.{reads_word};
ghost use Rattle.sv8_touches.specs.Told.{is_told, levels_of};

use std::alloc::{AllocError, Global};
use std::marker::Model;
use sv8_model::{Observation, Touch, Touches};

/// The notes of one step, in their order.
///
/// The room that they took stays for the next step, so that a step takes memory only where it has more notes than
/// any step before it.
pub struct StepTouches {
    notes: Vec<Touch>,
}

// Written out, so that crates above prove no drop of its parts.
impl Drop for StepTouches {
    fn drop(self) {
        let StepTouches { notes: _ } = self;
    }
}

impl Model for StepTouches {
    ghost use Rattle.std.specs.Prelude.{List};
    ghost use Rattle.sv8_model.specs.declared.touch.Touch.{Touch};

    ghost Value = { List Touch };

    ghost view = { λ s. s.notes.items };
}

impl Touches for StepTouches {
    ghost use Rattle.std.specs.Prelude.{true, false};
    ghost use Rattle.sv8_model.specs.Does.{keeping, touching};

    ghost NOTING = { keeping true false };

    ghost KEEPS = { true };

    ghost OBSERVES = { false };

    ghost noted = { λ s. touching s };

    #[inline(always)]
    fn note(&mut self, touch: Touch) -> Result<(), AllocError> {
        self.notes.reserve(1)?;
        self.notes.push_reserved(touch);
        Ok(())
    }

    #[inline(always)]
    fn observe(&mut self, _observation: Observation) -> Result<(), AllocError> {
        Ok(())
    }
}

/// Whether some note is a read of the word at an address.
fn is_read(notes: &[Touch], address: u32) -> bool
    ensures { result ≡ reads_word notes.now address }
{
    notes.iter().any(|note| matches!(*note, Touch::Read(other) if other == address))
}

/// Whether a touch of a step is told as it stands: a write only where the step does not read its word, and levels never.
pub fn is_told(touches: &[Touch], touch: Touch) -> bool
    ensures { result ≡ is_told touches.now touch }
{
    match touch {
        Touch::Write(address) => !is_read(touches, address),
        Touch::Levels(_) => false,
        Touch::Read(_) | Touch::Input | Touch::Expiry => true,
    }
}

/// The levels that a touch asks.
pub fn levels_of(touch: Touch) -> u16
    ensures { result ≡ levels_of touch }
{
    match touch {
        Touch::Levels(levels) => levels,
        Touch::Read(_) | Touch::Write(_) | Touch::Input | Touch::Expiry => 0,
    }
}

impl StepTouches {
    /// No notes. It takes no memory.
    pub fn new(alloc: Global) -> Self
        ensures { result ≡ [] }
    {
        StepTouches {
            notes: Vec::new(alloc),
        }
    }

    /// The notes, in order.
    #[inline(always)]
    pub fn touches(&self) -> &[Touch]
        ensures { result.now ≡ self.now }
    {
        &self.notes
    }

    /// Forgets the notes.
    pub fn clear(&mut self)
        ensures { self.new ≡ [] }
    {
        self.notes.clear();
    }
}
