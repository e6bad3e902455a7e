//! A run: reads a script to its end, and writes the answers.
ghost use Rattle.std.specs.Prelude.{OnOk, IfSome};
ghost use Rattle.sv8_session.specs.Script.{lines_within, IsTooLong};
ghost use Rattle.sv8_session.specs.Run.{OnRead, OnWrite, OnTooMany};
ghost use Rattle.sv8_monitor.specs.Session.{kept_of, orders_in, orders_of, EndsByQuit, HasNoQuit, Answered, AnsweredGiven, Cut};

use crate::monitor::{Monitor, Monitoring};
use std::alloc::Global;
use std::io::{Read, Write};
use sv8_session::RunFault;

/// Reads commands to `quit` or the end of the input, and writes the answer to each before the next read.
///
/// # Errors
///
/// See `RunFault`. Want of memory is none: it is the answer `refused 1 OutOfMemory` to the command in which it falls.
pub fn run<const NW: usize, const PAGES: usize, const K: u32, R: Read, W: Write>(
    alloc: Global,
    monitor: &mut Monitor<NW, PAGES, K>,
    reader: &mut R,
    writer: &mut W,
) -> Result<(), RunFault>
    // The whole session of the text.
    ensures ok { OnOk result (IfSome (R.remaining reader.old) (λ input.
        Answered (W.contents writer.old) (W.contents writer.new) (kept_of monitor.old) (orders_of input) (kept_of monitor.new))) }

    // A text that is too long ends so only by `quit`.
    ensures within { OnOk result (IfSome (R.remaining reader.old) (λ input.
        IsTooLong input → EndsByQuit (lines_within input))) }

    // The session of the lines that ended before the fault.
    ensures read { OnRead result (AnsweredGiven (R.remaining reader.old) (R.remaining reader.new)
        (W.contents writer.old) (W.contents writer.new) (kept_of monitor.old) (kept_of monitor.new)) }

    // A prefix of the text that was due.
    ensures write { OnWrite result (IfSome (R.remaining reader.old) (λ input.
        Cut (W.contents writer.old) (W.contents writer.new) (kept_of monitor.old) (orders_of input) (kept_of monitor.new))) }

    // In a text that is too long, of that of the lines within the bounds.
    ensures write_within { OnWrite result (IfSome (R.remaining reader.old) (λ input. IsTooLong input →
        Cut (W.contents writer.old) (W.contents writer.new) (kept_of monitor.old) (orders_in (lines_within input)) (kept_of monitor.new))) }

    // The session of the lines within the bounds.
    ensures too_long { OnTooMany result (IfSome (R.remaining reader.old) IsTooLong) }
    ensures too_many { OnTooMany result (IfSome (R.remaining reader.old) (λ input.
        Answered (W.contents writer.old) (W.contents writer.new) (kept_of monitor.old)
        (orders_in (lines_within input)) (kept_of monitor.new))) }

    // No `quit` was answered before it, as after a read fault.
    ensures no_quit { OnTooMany result (IfSome (R.remaining reader.old) (λ input. HasNoQuit (lines_within input))) }
{
    sv8_session::run::<Monitoring<NW, PAGES, K>, R, W>(alloc, monitor, reader, writer)
}
