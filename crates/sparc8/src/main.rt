//! `sparc8 [--windows N] [SCRIPT]`: runs a script of edits and queries on a SPARC V8 workbench.
#![tactic(auto)]

use std::process::ExitCode;
use sv8_program::run_program;
use sv8_shell::Sparc8;

fn main(rt: HostRuntime) -> ExitCode {
    run_program::<Sparc8>(&rt)
}
