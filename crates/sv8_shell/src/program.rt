//! The program `sparc8`: a script of commands on a new workbench.

use crate::shell::Shell;
use std::alloc::Global;
use std::io::{Read, Write};
use sv8_program::{Description, End, Program, serve_with, workbench_commands};

/// What the help tells behind the options: the commands of a script, and where the guide is.
const COMMANDS: &str = workbench_commands!(
    "
The guide to commands and answers is docs/COMMANDS.md, and to source lines docs/ASSEMBLER.md."
);

/// The program, as a name for what it does.
pub struct Sparc8;

impl Program for Sparc8 {
    ghost use Rattle.std.specs.Prelude.{codes};
    ghost use Rattle.sv8_workbench.specs.Kept.{Kept, empty};
    ghost use Rattle.sv8_commands.specs.Order.{Order};
    ghost use Rattle.sv8_answers.specs.Session.{language};

    ghost Kept = { Kept };

    ghost Order = { Order };

    ghost language = { language };

    ghost start = { λ windows. empty windows 256 };

    ghost NAME = { codes "sparc8" };

    fn description() -> Description {
        Description {
            name: "sparc8",
            about: "A workbench for SPARC V8 programs: edits and queries at any step",
            commands: COMMANDS,
        }
    }

    fn serve<R: Read, W: Write>(
        alloc: Global,
        windows: u32,
        reader: &mut R,
        writer: &mut W,
    ) -> End {
        serve_with!(Shell, windows, alloc, reader, writer, [2 4 16 32])
    }
}
