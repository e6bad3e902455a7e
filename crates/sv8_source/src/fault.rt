//! Why an edit of a source is refused.

ghost use Rattle.std.specs.Prelude.{◌≡◌};
ghost use Rattle.sv8_source.specs.Fault.{refused_in};

use sv8_model::Refused;
use sv8_statements::LineFault;
use thiserror::Error;

/// Why an edit is refused, however much memory there is.
#[derive(Debug, Drop, Clone, Copy, PartialEq, Eq, Error)]
pub enum SourceFault {
    /// The range of lines is not one of this source.
    #[error("no such line")]
    NoSuchLine,
    /// The text would have more than 65,536 lines.
    #[error("too many lines")]
    TooManyLines,
    /// A line has a fault.
    ///
    /// The layout pass reads the lines in order and gives the first fault that it meets; where it meets none, the value
    /// pass assembles them in order and gives its first. Of several faults in one line's pass, the least one is given.
    #[error("line {number}: {what}")]
    Line {
        /// The line, from 1 on, in the text as the edit would leave it.
        number: u32,
        /// Its fault.
        what: LineFault,
    },
}

/// A refusal of a line, with the line.
pub(crate) fn in_line(number: u32, refused: Refused<LineFault>) -> Refused<SourceFault>
    ensures { result ≡ refused_in number refused }
{
    match refused {
        Refused::OutOfMemory => Refused::OutOfMemory,
        Refused::By(what) => Refused::By(SourceFault::Line { number, what }),
    }
}
