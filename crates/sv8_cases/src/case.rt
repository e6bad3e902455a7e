//! One case: its files and its run.

ghost use Rattle.std.specs.Prelude.{◌≤◌};

use crate::commands::command_end;
use std::alloc::{AllocError, Global};
use std::fs;
use sv8_bench::Bench;
use sv8_shell::{RunFault, run};
use thiserror::Error;

/// The pages of RAM: one mebibyte, as the program has.
const PAGES: usize = 256;

/// The steps from one checkpoint to the next, as the program has.
const CHECKPOINT_STEPS: u32 = 256;

/// How many steps a run makes from one checkpoint to the next.
#[derive(Drop, Clone, Copy)]
pub enum Spacing {
    /// 256, as the program does.
    Wide,
    /// Four.
    Four,
    /// One.
    One,
}

impl Spacing {
    /// The number of steps.
    pub fn steps(self) -> u32 {
        match self {
            Spacing::Wide => CHECKPOINT_STEPS,
            Spacing::Four => 4,
            Spacing::One => 1,
        }
    }

    /// The ending of the file that has the counts of such a run.
    pub fn ending(self) -> &'static str {
        match self {
            Spacing::Wide => "counts",
            Spacing::Four => "k4.counts",
            Spacing::One => "k1.counts",
        }
    }
}

/// Why a case has no answer to compare.
#[derive(Debug, Drop, Clone, Copy, PartialEq, Eq, Error)]
pub enum CaseFault {
    /// A file of the case cannot be read.
    #[error("no file .{0}")]
    NoFile(&'static str),
    /// The case's name does not say with how many register windows it runs.
    #[error("the name does not end with -w2, -w4, -w8, -w16 or -w32")]
    NoWindows,
    /// A run with few steps from one checkpoint to the next is of 8 register windows.
    #[error("only -w8 has counts of 1 or 4 steps from one checkpoint to the next")]
    NoSpacing,
    /// The run ended before the script did.
    #[error("{0}")]
    Run(RunFault),
    /// Memory could not be had.
    #[error("out of memory")]
    OutOfMemory,
}

impl From<AllocError> for CaseFault {
    fn from(_: AllocError) -> Self {
        CaseFault::OutOfMemory
    }
}

/// The file of a case with this ending.
pub fn read_file(
    rt: &HostRuntime,
    folder: &str,
    name: &str,
    ending: &'static str,
) -> Result<Vec<u8>, CaseFault> {
    let path = format!(in rt.alloc(); "{folder}/{name}.{ending}")?;
    match fs::read(rt, path.as_str()) {
        Ok(bytes) => Ok(bytes),
        Err(_) => Err(CaseFault::NoFile(ending)),
    }
}

/// What a new workbench of `NW` windows, with a checkpoint every `K` steps, answers to a script.
fn answer_of<const NW: usize, const K: u32>(
    alloc: Global,
    script: &[u8],
) -> Result<Vec<u8>, CaseFault>
    requires some_windows { 2 ≤ NW }
    requires few_windows { NW ≤ 32 }
    requires some_steps { 1 ≤ K }
    requires few_steps { K ≤ 1000000 }
{
    let mut bench = Bench::<NW, PAGES, K>::new(alloc)?;
    let mut rest = script;
    let mut written = Vec::new(alloc);
    match run(alloc, &mut bench, &mut rest, &mut written) {
        Ok(()) => Ok(written),
        Err(fault) => Err(CaseFault::Run(fault)),
    }
}

/// The counts of a new workbench of `NW` windows, with a checkpoint every `K` steps, after each command of a script that it answers: a
/// line `recorded R worked W` each. Before it stands the command's answer, where that is wanted too.
fn counts_of<const NW: usize, const K: u32>(
    alloc: Global,
    script: &[u8],
    with_answers: bool,
) -> Result<Vec<u8>, CaseFault>
    requires some_windows { 2 ≤ NW }
    requires few_windows { NW ≤ 32 }
    requires some_steps { 1 ≤ K }
    requires few_steps { K ≤ 1000000 }
{
    let mut bench = Bench::<NW, PAGES, K>::new(alloc)?;
    let mut rest = script;
    let mut counts = Vec::new(alloc);
    for _command in 0..script.len() {
        let (mut command, later) = rest.split_at(command_end(rest));
        rest = later;
        let mut written = Vec::new(alloc);
        match run(alloc, &mut bench, &mut command, &mut written) {
            Ok(()) => {}
            Err(fault) => return Err(CaseFault::Run(fault)),
        }
        if with_answers {
            counts.extend_from_slice(&written)?;
        }
        if !written.is_empty() {
            let line = format!(in alloc;
                "recorded {} worked {}\n",
                bench.recorded(),
                bench.worked()
            )?;
            counts.extend_from_slice(line.as_bytes())?;
        }
    }
    Ok(counts)
}

/// What is asked of a case.
#[derive(Drop, Clone, Copy)]
pub enum Wanted {
    /// What its script answers.
    Answer,
    /// The counts of its workbench after each command.
    Counts,
    /// What each command answers, with the counts after it.
    Both,
}

/// What a new workbench of `NW` windows, with a checkpoint every `K` steps, makes of a script.
fn wanted_of<const NW: usize, const K: u32>(
    alloc: Global,
    script: &[u8],
    wanted: Wanted,
) -> Result<Vec<u8>, CaseFault>
    requires some_windows { 2 ≤ NW }
    requires few_windows { NW ≤ 32 }
    requires some_steps { 1 ≤ K }
    requires few_steps { K ≤ 1000000 }
{
    match wanted {
        Wanted::Answer => answer_of::<NW, K>(alloc, script),
        Wanted::Counts => counts_of::<NW, K>(alloc, script, false),
        Wanted::Both => counts_of::<NW, K>(alloc, script, true),
    }
}

/// What a script makes of a workbench with as many windows as the case's name says.
pub fn run_case(
    alloc: Global,
    name: &str,
    script: &[u8],
    spacing: Spacing,
    wanted: Wanted,
) -> Result<Vec<u8>, CaseFault> {
    let Some((_, windows)) = name.rsplit_once("-w") else {
        return Err(CaseFault::NoWindows);
    };
    match (windows, spacing) {
        ("8", Spacing::One) => wanted_of::<8, 1>(alloc, script, wanted),
        ("8", Spacing::Four) => wanted_of::<8, 4>(alloc, script, wanted),
        (_, Spacing::One | Spacing::Four) => Err(CaseFault::NoSpacing),
        ("2", Spacing::Wide) => wanted_of::<2, CHECKPOINT_STEPS>(alloc, script, wanted),
        ("4", Spacing::Wide) => wanted_of::<4, CHECKPOINT_STEPS>(alloc, script, wanted),
        ("8", Spacing::Wide) => wanted_of::<8, CHECKPOINT_STEPS>(alloc, script, wanted),
        ("16", Spacing::Wide) => wanted_of::<16, CHECKPOINT_STEPS>(alloc, script, wanted),
        ("32", Spacing::Wide) => wanted_of::<32, CHECKPOINT_STEPS>(alloc, script, wanted),
        (_, Spacing::Wide) => Err(CaseFault::NoWindows),
    }
}
