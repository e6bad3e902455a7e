//! `sv8_growths [PART]`: makes calls that take memory, and says for each part whether every call did what it should, and a refused one left all
//! as it was. `kept` says that, `changed` that one did not, and `refused` that a part could not begin for want of memory.
//!
//! With all its memory each part is `kept`. A tool refuses the growths of a part one after the other: `tests/growths`.
#![tactic(auto)]

mod assembler;
mod machine;
mod memory;
mod queries;
mod recorded;
mod timeline;
mod trace;
mod traps;

use std::alloc::{AllocError, Global};
use std::env;
use std::process::ExitCode;

/// The calls of one part of the workbench.
#[derive(Drop, Clone, Copy)]
enum Part {
    Timeline,
    Memory,
    Machine,
    Trace,
    Traps,
    Assembler,
    Queries,
}

impl Part {
    fn name(self) -> &'static str {
        match self {
            Part::Timeline => "timeline",
            Part::Memory => "memory",
            Part::Machine => "machine",
            Part::Trace => "trace",
            Part::Traps => "traps",
            Part::Assembler => "assembler",
            Part::Queries => "queries",
        }
    }

    fn keeps(self, alloc: Global) -> Result<bool, AllocError> {
        match self {
            Part::Timeline => timeline::keeps(alloc),
            Part::Memory => memory::keeps(alloc),
            Part::Machine => machine::keeps(alloc),
            Part::Trace => trace::keeps(alloc),
            Part::Traps => traps::keeps(alloc),
            Part::Assembler => assembler::keeps(alloc),
            Part::Queries => queries::keeps(alloc),
        }
    }
}

const PARTS: [Part; 7] = [
    Part::Timeline,
    Part::Memory,
    Part::Machine,
    Part::Trace,
    Part::Traps,
    Part::Assembler,
    Part::Queries,
];

/// What is said of a part.
fn told(kept: Result<bool, AllocError>) -> &'static str {
    match kept {
        Ok(true) => "kept",
        Ok(false) => "changed",
        Err(_) => "refused",
    }
}

/// Goes through the part of this name, or through all where none is named.
fn tell(rt: &HostRuntime, wanted: Option<&str>) {
    for part in PARTS {
        let name = part.name();
        let is_wanted = match wanted {
            Some(word) => word == name,
            None => true,
        };
        if is_wanted {
            let told = told(part.keeps(rt.alloc()));
            // Where the line cannot be written, its absence tells.
            let _ = println!(rt; "{name} {told}");
        }
    }
}

fn main(rt: HostRuntime) -> ExitCode {
    let Ok(mut words) = env::args(&rt) else {
        return ExitCode::FAILURE;
    };
    match words.nth(1) {
        Some(word) => tell(&rt, Some(word.as_str())),
        None => tell(&rt, None),
    }
    ExitCode::SUCCESS
}
