//! The program `sparc8_monitor`: a script of commands and questions on a new workbench and the one that is kept of it.

use crate::monitor::Monitoring;
use std::alloc::Global;
use std::io::{Read, Write};
use sv8_program::{Description, End, Program, serve_with, workbench_commands};

/// What the help tells behind the options: the commands of a script, and where the guide is.
const COMMANDS: &str = workbench_commands!(
    "
Questions (FROM, TO, N, M, A, B and COUNT are decimal, ADDR is hexadecimal):
  steps FROM TO COUNT [CONDITION ..]   the steps that meet a condition, rising or falling, at most COUNT
  windows N           shows the registers of all windows at step N
  where N ADDR        shows where an address leads by the tables at step N
  list A B            shows lines A to B of the listing
  names               shows the names that the source defines
  events A B          shows what stands in the timeline from step A to B
  keep                keeps source and timeline as they are, as before
  before QUERY        asks before: regs, mem, out, list, steps, windows, where, names or events
  part FROM TO        shows the first step at which the processors differ from before
  differ N M COUNT    shows words of RAM that differ between before at step M and now at step N

Conditions of steps: pc ADDR, load ADDR COUNT, store ADDR COUNT, touch ADDR, change ADDR COUNT, trap, tt TT, error, in, out,
event, every W.

The guide to questions is docs/MONITOR.md, to the other commands docs/COMMANDS.md, and to source lines docs/ASSEMBLER.md."
);

/// The program, as a name for what it does.
pub struct Sparc8Monitor;

impl Program for Sparc8Monitor {
    ghost use Rattle.std.specs.Prelude.{codes};
    ghost use Rattle.sv8_monitor.specs.Session.{Both, Order, language, new_pair};

    ghost Kept = { Both };

    ghost Order = { Order };

    ghost language = { language };

    ghost start = { λ windows. new_pair windows 256 };

    ghost NAME = { codes "sparc8_monitor" };

    fn description() -> Description {
        Description {
            name: "sparc8_monitor",
            about: "A monitor of SPARC V8 programs: what happened, and what a change changed",
            commands: COMMANDS,
        }
    }

    fn serve<R: Read, W: Write>(
        alloc: Global,
        windows: u32,
        reader: &mut R,
        writer: &mut W,
    ) -> End {
        serve_with!(Monitoring, windows, alloc, reader, writer, [2 4 16 32])
    }
}
