//! How a program ends.

ghost use Rattle.std.specs.Prelude.{◌≡◌, IsTrue, OnOk};
ghost use Rattle.std.specs.Io.KnownBytes.{Appends};
ghost use Rattle.sv8_program.specs.Ends.{status_of, fault_of, line_of, end_of, is_run_end, refusal_end};

use clap::error::ErrorKind;
use std::io::{self, Write};
use sv8_session::RunFault;

/// How a program ends.
#[derive(Drop, Clone, Copy, PartialEq, Eq)]
pub enum End {
    /// The script ended, or `quit` was read.
    Done,
    /// The help was asked for.
    Help,
    /// The words of the command line are wrong.
    Usage,
    /// A read of the script failed.
    ReadFault,
    /// A write of an answer failed.
    WriteFault,
    /// The script has too many lines or bytes.
    TooMany,
    /// The script could not be opened.
    NoScript,
    /// Memory could not be had.
    Memory,
}

/// The end after a run.
pub fn end_of(ran: Result<(), RunFault>) -> End
    ensures end { result ≡ end_of ran }
    ensures run { IsTrue (is_run_end result) }
{
    match ran {
        Ok(()) => End::Done,
        Err(RunFault::Read) => End::ReadFault,
        Err(RunFault::Write) => End::WriteFault,
        Err(RunFault::TooManyCommands) => End::TooMany,
    }
}

/// The end that an error of the words comes to. The help is told as an error too.
pub fn refusal_end(kind: ErrorKind) -> End
    ensures { result ≡ refusal_end kind }
{
    match kind {
        ErrorKind::OutOfMemory => End::Memory,
        ErrorKind::DisplayHelp | ErrorKind::DisplayVersion => End::Help,
        _ => End::Usage,
    }
}

/// The exit status of an end.
pub fn status_of(end: End) -> u8
    ensures { result ≡ status_of end }
{
    match end {
        End::Done | End::Help => 0,
        End::Usage => 2,
        End::ReadFault | End::WriteFault | End::TooMany | End::NoScript | End::Memory => 3,
    }
}

/// What a program says of an end, empty where there is nothing to say.
fn fault_of(end: End) -> &'static str
    ensures { result.now ≡ fault_of end }
{
    match end {
        End::Done | End::Help | End::Usage => "",
        End::ReadFault => "read fault",
        End::WriteFault => "write fault",
        End::TooMany => "too many commands",
        End::NoScript => "cannot open script",
        End::Memory => "out of memory",
    }
}

/// Writes the line of an end, where it has one, for a program of this name.
///
/// # Errors
///
/// The writer's. A first part of the line may be written then.
pub fn tell_end<W: Write>(writer: &mut W, name: &str, end: End) -> io::Result<()>
    ensures { OnOk result (Appends (W.contents writer.old) (W.contents writer.new) (line_of name.now end)) }
{
    let fault = fault_of(end);
    if fault.is_empty() {
        return Ok(());
    }
    writeln!(writer, "{name}: {fault}")
}
