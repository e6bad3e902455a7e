//! Why a line is refused.

ghost use Rattle.std.specs.Prelude.{◌≡◌};
ghost use Rattle.sv8_model.specs.declared.refused.Refused.TheVariants.{By};
ghost use Rattle.sv8_statements.specs.Faults.{rank, least};

use sv8_model::Refused;
use thiserror::Error;

/// Why a line has no statement, or its statement no place or no bytes, however much memory there is.
///
/// Reading a line alone gives the first three; the others come from the values of its names and from
/// where it stands among other lines.
#[derive(Debug, Drop, Clone, Copy, PartialEq, Eq, Error)]
pub enum LineFault {
    /// More than 255 bytes, the comment counted.
    #[error("line too long")]
    LineTooLong,
    /// A byte that is neither a tab nor from 0x20 to 0x7E, in a comment too.
    #[error("not ASCII")]
    NotAscii,
    #[error("syntax")]
    Syntax,
    #[error("unknown name")]
    UnknownName,
    #[error("duplicate label")]
    DuplicateLabel,
    #[error("out of range")]
    OutOfRange,
    #[error("bad alignment")]
    BadAlignment,
    #[error("org backwards")]
    OrgBackwards,
    #[error("image too large")]
    ImageTooLarge,
}

impl LineFault {
    /// The number of the refusal, by which faults are ordered.
    pub fn rank(self) -> u8
        ensures { result ≡ rank self }
    {
        match self {
            LineFault::LineTooLong => 4,
            LineFault::NotAscii => 5,
            LineFault::Syntax => 6,
            LineFault::UnknownName => 7,
            LineFault::DuplicateLabel => 8,
            LineFault::OutOfRange => 9,
            LineFault::BadAlignment => 10,
            LineFault::OrgBackwards => 11,
            LineFault::ImageTooLarge => 12,
        }
    }

    /// The one of the lower rank: the fault that was found so far, if any, or another.
    #[tactic(auto, unfolding(crate::specs::Faults::least))]
    pub fn least(found: Option<LineFault>, other: LineFault) -> LineFault
        ensures { result ≡ least found other }
    {
        match found {
            Some(found) => {
                if other.rank() < found.rank() {
                    other
                } else {
                    found
                }
            }
            None => other,
        }
    }
}

impl From<LineFault> for Refused<LineFault> {
    ghost from_gives = { λ f e. e ≡ By f };

    fn from(fault: LineFault) -> Refused<LineFault> {
        Refused::By(fault)
    }
}

/// What a reader of a part of a line answers. It is refused for want of memory, or by `Syntax`.
pub type Read<T> = Result<T, Refused<LineFault>>;

/// The refusal of what cannot be read.
pub const SYNTAX: Refused<LineFault> = Refused::By(LineFault::Syntax);
