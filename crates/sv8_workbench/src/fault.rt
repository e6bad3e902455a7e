//! Why the workbench refuses an edit or a query.

ghost use Rattle.std.specs.Prelude.{◌≡◌};
ghost use Rattle.sv8_workbench.specs.Faults.{of_source, of_time};

use sv8_model::Refused;
use sv8_source::SourceFault;
use sv8_time::TimeFault;
use thiserror::Error;

/// Why an edit or a query is refused, however much memory there is.
#[derive(Debug, Drop, Clone, Copy, PartialEq, Eq, Error)]
pub enum BenchFault {
    /// An edit of lines that the source does not take.
    #[error("{0}")]
    Source(SourceFault),
    /// An edit that the timeline does not take, or a query of a step or an address that is not shown.
    #[error("{0}")]
    Time(TimeFault),
}

/// A refusal by the source.
pub fn of_source(refused: Refused<SourceFault>) -> Refused<BenchFault>
    ensures { result ≡ of_source refused }
{
    match refused {
        Refused::OutOfMemory => Refused::OutOfMemory,
        Refused::By(fault) => Refused::By(BenchFault::Source(fault)),
    }
}

/// A refusal by the timeline.
pub fn of_time(refused: Refused<TimeFault>) -> Refused<BenchFault>
    ensures { result ≡ of_time refused }
{
    match refused {
        Refused::OutOfMemory => Refused::OutOfMemory,
        Refused::By(fault) => Refused::By(BenchFault::Time(fault)),
    }
}

/// The refusal of a step that no query shows.
pub const STEP_TOO_LARGE: Refused<BenchFault> = Refused::By(BenchFault::Time(
    TimeFault::StepTooLarge,
));

/// The refusal of what is no word of RAM.
pub const BAD_ADDRESS: Refused<BenchFault> = Refused::By(BenchFault::Time(TimeFault::BadAddress));

/// The refusal of lines that are not there.
pub const NO_SUCH_LINE: Refused<BenchFault> = Refused::By(BenchFault::Source(
    SourceFault::NoSuchLine,
));
