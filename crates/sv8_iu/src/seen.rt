//! What an observer sees of traps.

ghost use Rattle.std.specs.Prelude.{◌≡◌, ◌∷◌, [], true, OnOk, OnErr};
ghost use Rattle.sv8_model.specs.Does.{noting};
ghost use Rattle.sv8_iu.specs.Seen.{trap_seen};

use std::alloc::AllocError;
use sv8_model::{Observation, Touches};
use sv8_trap::Trap;

/// Lets an observer see a trap: its type.
///
/// # Errors
///
/// `AllocError` where memory for the note cannot be had; never where no notes of observations are kept.
#[inline(always)]
pub fn show_trap<T: Touches>(trap: Trap, notes: &mut T) -> Result<(), AllocError>
    ensures ok { OnOk result (T.noted notes.new ≡ noting T.NOTING (T.noted notes.old) [] (trap_seen trap ∷ [])) }
    ensures observed { OnErr result (T.OBSERVES ≡ true) }
{
    notes.observe(Observation::Trap(trap.row().trap_type))?;
    Ok(())
}
