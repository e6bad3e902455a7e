//! The number and the name of each refusal by the workbench, and the line that is at fault.

ghost use Rattle.std.specs.Prelude.{◌≡◌, ◌≤◌, length};
ghost use Rattle.sv8_commands.specs.Put.{refusal_in};
ghost use Rattle.sv8_answers.specs.Refusal.{name_of, refusal_of};

use sv8_commands::Refusal;
use sv8_model::Refused;
use sv8_source::SourceFault;
use sv8_statements::LineFault;
use sv8_time::TimeFault;
use sv8_workbench::BenchFault;

/// The name of a line's fault.
fn name_of(what: LineFault) -> &'static [u8]
    ensures name { result.now ≡ name_of what }
    ensures short { length result.now ≤ 16 }
{
    match what {
        LineFault::LineTooLong => b"LineTooLong",
        LineFault::NotAscii => b"NotAscii",
        LineFault::Syntax => b"Syntax",
        LineFault::UnknownName => b"UnknownName",
        LineFault::DuplicateLabel => b"DuplicateLabel",
        LineFault::OutOfRange => b"OutOfRange",
        LineFault::BadAlignment => b"BadAlignment",
        LineFault::OrgBackwards => b"OrgBackwards",
        LineFault::ImageTooLarge => b"ImageTooLarge",
    }
}

/// A refusal by the workbench.
pub fn refusal_of(refused: Refused<BenchFault>) -> Refusal
    ensures value { refusal_in result ≡ refusal_of refused }
    ensures short { length result.name.now ≤ 16 }
{
    let (number, name, line): (u32, &'static [u8], Option<u32>) = match refused {
        Refused::OutOfMemory => (1, b"OutOfMemory", None),
        Refused::By(BenchFault::Source(fault)) => match fault {
            SourceFault::NoSuchLine => (2, b"NoSuchLine", None),
            SourceFault::TooManyLines => (3, b"TooManyLines", None),
            SourceFault::Line { number, what } => {
                (u32::from(what.rank()), name_of(what), Some(number))
            }
        },
        Refused::By(BenchFault::Time(fault)) => match fault {
            TimeFault::StepTooLarge => (13, b"StepTooLarge", None),
            TimeFault::BadAddress => (14, b"BadAddress", None),
            TimeFault::BadLevel => (15, b"BadLevel", None),
            TimeFault::NothingThere => (16, b"NothingThere", None),
            TimeFault::TooManyEvents => (17, b"TooManyEvents", None),
            TimeFault::InputTooLong => (19, b"InputTooLong", None),
        },
    };
    Refusal { number, name, line }
}
