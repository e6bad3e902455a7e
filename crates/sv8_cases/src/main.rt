//! `sv8_cases [FOLDER [CASE]]`: runs the scripts of a folder, or of the one that it is run in, and compares what they answer
//! with the answers that are due. Of one CASE it writes what its commands answer, each with the counts of the workbench after it.
//!
//! A case `NAME-wN` is a script `NAME-wN.txt`, run with N register windows, and the answer beside it, `NAME-wN.answer`. The workbench
//! has a checkpoint every 256 steps. Where there is a file `NAME-wN.counts`, it has the counts of the workbench after each command. A file
//! `NAME-w8.k1.counts` or `NAME-w8.k4.counts` has those of another run, with a checkpoint every step, or every four; its answer has to be
//! the same. For each run that differs a line says where first. The exit status is 0 where none does.
#![tactic(auto)]

mod case;
mod commands;
mod report;

use report::run_asked;
use std::process::ExitCode;

fn main(rt: HostRuntime) -> ExitCode {
    match run_asked(&rt) {
        Ok(0) => ExitCode::SUCCESS,
        Ok(_) => ExitCode::FAILURE,
        Err(error) => {
            // Where even this line cannot be written, the status still tells.
            let _ = eprintln!(rt; "sv8_cases: {error}");
            ExitCode::FAILURE
        }
    }
}
