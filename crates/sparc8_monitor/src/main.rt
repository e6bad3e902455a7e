//! `sparc8_monitor [--windows N] [SCRIPT]`: runs a script of edits, queries and questions on a SPARC V8 workbench.
#![tactic(auto)]

use std::process::ExitCode;
use sv8_monitor::Sparc8Monitor;
use sv8_program::run_program;

fn main(rt: HostRuntime) -> ExitCode {
    run_program::<Sparc8Monitor>(&rt)
}
