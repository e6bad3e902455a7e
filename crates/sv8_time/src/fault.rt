//! Why an edit of the timeline is refused.

ghost use Rattle.std.specs.Prelude.{◌≡◌};
ghost use Rattle.sv8_model.specs.declared.refused.Refused.TheVariants.{By};

use sv8_model::Refused;
use thiserror::Error;

/// Why an edit of the timeline is refused, however much memory there is.
///
/// Where more than one holds, the answer is the first in the order of this list.
#[derive(Debug, Drop, Clone, Copy, PartialEq, Eq, Error)]
pub enum TimeFault {
    /// A step above 1,000,000.
    #[error("step too large")]
    StepTooLarge,
    /// A word at no multiple of 4, or a word or byte that is not inside RAM.
    #[error("bad address")]
    BadAddress,
    /// Not an interrupt level from 1 to 15.
    #[error("bad level")]
    BadLevel,
    /// Nothing to clear.
    #[error("nothing there")]
    NothingThere,
    /// A new event where 65,536 stand.
    #[error("too many events")]
    TooManyEvents,
    /// More than 1,024 bytes in one step.
    #[error("input too long")]
    InputTooLong,
}

impl From<TimeFault> for Refused<TimeFault> {
    ghost from_gives = { λ f e. e ≡ By f };

    fn from(fault: TimeFault) -> Refused<TimeFault> {
        Refused::By(fault)
    }
}
