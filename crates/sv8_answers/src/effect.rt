//! What a command does to its workbench.

ghost use Rattle.std.specs.Prelude.{◌≡◌};
ghost use Rattle.std.specs.Result.{result_map_both};

use sv8_session::WriteFault;

/// What a command did to its workbench.
#[derive(Drop, Clone, Copy)]
pub enum Effect {
    /// It was an edit, and is done.
    Edited,
    /// It was a query, or was refused: the source and the timeline are as they were.
    Unchanged,
}

/// The effect of a command, where its answer is written.
pub fn with_effect(answered: Result<(), WriteFault>, effect: Effect) -> Result<Effect, WriteFault>
    ensures { result ≡ result_map_both (λ _. effect) (λ fault. fault) answered }
{
    match answered {
        Ok(()) => Ok(effect),
        Err(fault) => Err(fault),
    }
}
